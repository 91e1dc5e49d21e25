//! The acts of a run, and their counts.

ghost use Rattle.std.specs.Prelude.{◌≡◌, ◌++◌, IfOk, OnOk};
ghost use Rattle.std.specs.List.{flat_map};
ghost use Rattle.mach_types.specs.Limits.{InRange};
ghost use Rattle.elf_load.specs.Images.{IsBootable};
ghost use Rattle.block_model.specs.{Run.IsBlockRun, Setting.setting_of};
ghost use Rattle.block_view.specs.Acts.{acts_of};
ghost use Rattle.block_view.specs.Counters.{AreCounts};
ghost use Rattle.run_texts.specs.Summary.{act_line};

use block_view::{Act, Acts, Counts, ViewFault, acts, counts};
use elf_load::Image;
use mach_types::Limits;
use machine_core::Machine;
use place_text::fields::{push_decimal, push_number};
use run_texts::push_form;
use std::alloc::{AllocError, Global};

/// The acts of a run of this image, at whose end a machine is. It errs only for want of memory.
pub(crate) fn acts_of_run(
    alloc: Global,
    image: &Image,
    limits: &Limits,
    machine: &Machine,
) -> Result<Acts, AllocError>
    requires image { IsBootable limits.now.frames image.now }
    requires limits { InRange limits.now }
    requires setting { machine.now.setting ≡ setting_of image.now limits.now }
    requires run { IsBlockRun machine.now.setting machine.now.log }
    ensures { IfOk result (λ acts. acts.list.items ≡ acts_of machine.now.setting machine.now.log) }
{
    match acts(alloc, image, limits, machine.log()) {
        Ok(acts) => Ok(acts),
        Err(ViewFault::NoMemory) => Err(AllocError),
        Err(ViewFault::NotARun(_)) => unreachable!(),
    }
}

/// The counts of a run of this image, at whose end a machine is. It errs only for want of memory.
pub(crate) fn counts_of_run(
    alloc: Global,
    image: &Image,
    limits: &Limits,
    machine: &Machine,
) -> Result<Vec<Counts>, AllocError>
    requires image { IsBootable limits.now.frames image.now }
    requires limits { InRange limits.now }
    requires setting { machine.now.setting ≡ setting_of image.now limits.now }
    requires run { IsBlockRun machine.now.setting machine.now.log }
    ensures { IfOk result (λ counts. AreCounts machine.now.setting machine.now.log counts.items) }
{
    match counts(alloc, image, limits, machine.log()) {
        Ok(counts) => Ok(counts),
        Err(ViewFault::NoMemory) => Err(AllocError),
        Err(ViewFault::NotARun(_)) => unreachable!(),
    }
}

/// The lines of acts.
pub(crate) fn acts_text(alloc: Global, acts: &Acts) -> Result<Vec<u8>, AllocError>
    ensures { IfOk result (λ text. text.items ≡ flat_map act_line acts.now.list.items) }
{
    let mut text = Vec::new(alloc);
    for act in &acts.list {
        push_act(&mut text, act)?;
    }
    Ok(text)
}

/// Appends the line of an act.
fn push_act(text: &mut Vec<u8>, act: &Act) -> Result<(), AllocError>
    ensures { OnOk result (text.new.items ≡ text.old.items ++ act_line act.now) }
{
    push_decimal(text, u64::from(act.hart.0))?;
    push_number(text, u64::from(act.first))?;
    push_number(text, u64::from(act.last))?;
    push_number(text, u64::from(act.tid.0))?;
    push_form(text, act.form)?;
    text.extend_from_slice(b"\n")
}
