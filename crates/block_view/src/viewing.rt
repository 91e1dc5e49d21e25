//! The acts of a log, by making its events again.

ghost use Rattle.std.specs.Prelude.{◌≡◌, List, [], map, IfOk, IfErr, OnOk};
ghost use Rattle.mach_types.specs.Limits.{InRange};
ghost use Rattle.elf_load.specs.Images.{IsBootable};
ghost use Rattle.block_model.specs.Deciding.{history};
ghost use Rattle.block_view.specs.{Counters.AreCounts, Following.IsFollowing, Following.behind, Ledgers.kept_in};
ghost use Rattle.block_view.specs.{Standing.at_the_end, Standing.standings, Tied.IsOfLog};
ghost use Rattle.block_view.specs.declared.forms.Act.{Act};
ghost use Rattle.block_model.specs.{Run.IsBlockRun, Setting.setting_of};
ghost use Rattle.block_view.specs.Viewing.{AreActs, IsViewCause};

use crate::counter::Counter;
use crate::forms::Acts;
use crate::ledger::Ledger;
use crate::passing::{inside, make_again};
use crate::tally::Counts;
use elf_load::Image;
use mach_types::{Entry, Hart, Limits};
use machine_core::Machine;
use std::alloc::{AllocError, Global};
use thiserror::Error;

/// The seed of a run that draws no choice.
const NO_SEED: u64 = 0;

/// Why a log isn't viewed.
#[derive(Clone, Copy, Debug, PartialEq, Eq, Error, Drop)]
pub enum ViewFault {
    /// The entry of this number, counted from 1, is the first that a run of the program can't have there.
    #[error("entry {0} is the first that a run can't have there")]
    NotARun(u32),
    /// Memory ran out.
    #[error("memory ran out")]
    NoMemory,
}

impl From<AllocError> for ViewFault {
    ghost use Rattle.std.specs.Prelude.{◌≡◌};
    ghost use Rattle.block_view.specs.declared.viewing.ViewFault.TheVariants.{NoMemory};

    ghost from_gives = { λ _ fault. fault ≡ NoMemory };

    fn from(_error: AllocError) -> ViewFault {
        ViewFault::NoMemory
    }
}

/// The acts of a log of an image under limits, in the order of their first entries, with the way that each restartable
/// sequence ended (rseq(2)). It takes time in proportion to the log.
///
/// Refused with the number of the first entry that isn't allowed at its place; else it errs only for want of memory.
pub fn acts(alloc: Global, image: &Image, limits: &Limits, log: &[Entry]) -> Result<Acts, ViewFault>
    requires image { IsBootable limits.now.frames image.now }
    requires limits { InRange limits.now }
    ensures acts { IfOk result (λ acts. AreActs (setting_of image.now limits.now) log.now acts.list.items) }
    ensures cause { IfErr result (IsViewCause (setting_of image.now limits.now) log.now) }
{
    let mut machine = Machine::boot(alloc, image, *limits, NO_SEED)?;
    let mut ledger = Ledger::empty(alloc, limits.harts)?;
    for entry in log {
        let number = machine.log().len() as u32 + 1;
        let Some(passed) = make_again(&mut machine, limits.harts, *entry) else {
            return Err(ViewFault::NotARun(number));
        };
        let _turn = ledger.note(&passed)?;
    }
    close(&mut ledger, &machine, limits.harts);
    Ok(Acts { list: ledger.list })
}

/// How many acts of each form each hart has in a log of an image under limits. It takes time in proportion to the
/// log, and no memory for an act.
///
/// Refused as [`acts`] is.
pub fn counts(
    alloc: Global,
    image: &Image,
    limits: &Limits,
    log: &[Entry],
) -> Result<Vec<Counts>, ViewFault>
    requires image { IsBootable limits.now.frames image.now }
    requires limits { InRange limits.now }
    ensures counts { IfOk result (λ counts. AreCounts (setting_of image.now limits.now) log.now counts.items) }
    ensures run { OnOk result (IsBlockRun (setting_of image.now limits.now) log.now) }
    ensures cause { IfErr result (IsViewCause (setting_of image.now limits.now) log.now) }
{
    let mut machine = Machine::boot(alloc, image, *limits, NO_SEED)?;
    let mut counter = Counter::new(alloc, limits.harts)?;
    for entry in log {
        let number = machine.log().len() as u32 + 1;
        let Some(passed) = make_again(&mut machine, limits.harts, *entry) else {
            return Err(ViewFault::NotARun(number));
        };
        counter.follow(&passed)?;
    }
    Ok(counter.counts(alloc, &machine, limits.harts)?)
}

/// Ends what goes on where the log of a machine with so many harts ends.
pub(crate) fn close(ledger: &mut Ledger, machine: &Machine, harts: u8)
    requires harts { harts ≡ machine.now.setting.limits.harts }
    requires follows { IsFollowing machine.now (kept_in ledger.old) }
    ensures { (gone : List Act) → IsOfLog machine.now (behind gone (kept_in ledger.old))
        → let s = machine.now.setting in let all = history s machine.now.log in behind gone (kept_in ledger.new)
        ≡ record (behind gone (kept_in ledger.old)) { acts = map (at_the_end s all []) (standings s all) } }
{
    for hart in 0..harts {
        let hart = Hart(hart);
        ledger.close(hart, inside(machine, hart).is_some());
    }
}
