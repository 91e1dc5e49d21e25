//! The gathered log of a log.

ghost use Rattle.std.specs.Prelude.{◌≡◌, map, IfOk, IfErr};
ghost use Rattle.mach_types.specs.Limits.{InRange};
ghost use Rattle.elf_load.specs.Images.{IsBootable};
ghost use Rattle.block_model.specs.Setting.{setting_of};
ghost use Rattle.block_view.specs.Viewing.{IsViewCause};
ghost use Rattle.log_gather.specs.{Gathered.IsGathered, Marks.entry_marked};

use crate::marks::Mark;
use crate::passing::pass;
use crate::turns::gather_all;
use block_view::ViewFault;
use elf_load::Image;
use mach_types::{Entry, Limits};
use std::alloc::{AllocError, Global};

/// The entries of events, in their order.
fn entries_of(alloc: Global, marks: &[Mark]) -> Result<Vec<Entry>, AllocError>
    ensures { IfOk result (λ entries. entries.items ≡ map entry_marked marks.now) }
{
    marks.iter().map(|mark| mark.entry()).collect(alloc)
}

/// The gathered log of a log of an image under limits. Its restartable sequences (rseq(2)) have their turn in
/// the order of their first entries: the entries of other harts that stand in a sequence come before it, if
/// it is private in the log as it then stands. It is private where its thread left its range by its own
/// instruction, all events of its span are plain, and no event of another hart in it writes a byte that the
/// sequence reads or writes, or reads one that it writes.
///
/// Refused with the number of the first entry that isn't allowed at its place; else it errs only for want of
/// memory.
pub fn gather(
    alloc: Global,
    image: &Image,
    limits: &Limits,
    log: &[Entry],
) -> Result<Vec<Entry>, ViewFault>
    requires image { IsBootable limits.now.frames image.now }
    requires limits { InRange limits.now }
    ensures entries { IfOk result
        (λ entries. IsGathered (setting_of image.now limits.now) log.now entries.items) }
    ensures cause { IfErr result (IsViewCause (setting_of image.now limits.now) log.now) }
{
    let mut passage = pass(alloc, image, limits, log)?;
    gather_all(
        alloc,
        &mut passage.details,
        &mut passage.marks,
        &passage.inside_at_end,
    )?;
    Ok(entries_of(alloc, &passage.marks)?)
}
