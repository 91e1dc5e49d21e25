//! An event that isn't plain is made, and what came of it is told.

ghost use Rattle.std.specs.Prelude.{◌≡◌, ◌<◌, ◌++◌, ◌∷◌, [], Some, None, false, IfOk, OnOk};
ghost use Rattle.mach_types.specs.{Events.choice_of, Limits.InRange};
ghost use Rattle.block_model.specs.{Events.done_of, PlainEvents.is_plain, Run.IsBlockRun};
ghost use Rattle.event_facts.specs.{Calls.call_by, KernelEvents.kernel_facts};
ghost use Rattle.event_facts.specs.Telling.{IsDecided, here_on, past_of, plain_event_of};
ghost use Rattle.event_facts.specs.{Tied.AreLinesOf, Trace.trace_of};

use crate::kept_reservations::{all_reservations, push_all_lost_from, reservation_in};
use crate::kernel_writes::push_kernel_writes;
use crate::killing::{push_killed, why_killing};
use crate::lines::Lines;
use crate::own_registers::push_own_registers;
use crate::places::{push_after, push_before};
use crate::reservations::push_if_ended;
use crate::telling::make;
use fact_types::{Fact, SystemCall};
use mach_types::{Entry, Regs, Write};
use machine_core::Machine;
use std::alloc::{AllocError, Global};

/// Appends what the kernel is to write in an entry that is due, and is neither plain nor a call.
fn push_foreseen(
    written: &mut Vec<Write>,
    machine: &Machine,
    entry: Entry,
) -> Result<(), AllocError>
    requires decided { IsDecided machine.now entry }
    requires plain { is_plain (choice_of entry) (here_on machine.now entry.hart.0) ≡ false }
    requires call { call_by (choice_of entry) (here_on machine.now entry.hart.0) ≡ None }
    ensures { OnOk result (written.new.items ≡ written.old.items
        ++ (done_of (choice_of entry) (here_on machine.now entry.hart.0)).entered) }
{
    let foreseen = machine.foreseen_writes(entry.hart, entry.choice());
    written.extend_from_slice(foreseen.as_slice())?;
    Ok(())
}

/// Makes a call that is due, and appends what the kernel wrote in it.
fn make_call(
    written: &mut Vec<Write>,
    machine: &mut Machine,
    entry: Entry,
    call: SystemCall,
) -> Result<(), AllocError>
    requires decided { IsDecided machine.old entry }
    requires call { call_by (choice_of entry) (here_on machine.old entry.hart.0) ≡ Some call }
    ensures machine { OnOk result
        (machine.new ≡ record machine.old { log = machine.old.log ++ entry ∷ [] }) }
    ensures run { OnOk result (IsBlockRun machine.new.setting machine.new.log) }
    ensures written { OnOk result (written.new.items ≡ written.old.items
        ++ (done_of (choice_of entry) (here_on machine.old entry.hart.0)).entered) }
{
    let made = machine.step_call(entry.hart);
    written.extend_from_slice(made.1.as_slice())?;
    Ok(())
}

/// Makes an entry that is due and isn't plain, which is this call or none: what the kernel wrote in it, in order.
fn make_kernel(
    alloc: Global,
    machine: &mut Machine,
    entry: Entry,
    call: Option<SystemCall>,
) -> Result<Vec<Write>, AllocError>
    requires decided { IsDecided machine.old entry }
    requires plain { is_plain (choice_of entry) (here_on machine.old entry.hart.0) ≡ false }
    requires call { call ≡ call_by (choice_of entry) (here_on machine.old entry.hart.0) }
    ensures machine { OnOk result
        (machine.new ≡ record machine.old { log = machine.old.log ++ entry ∷ [] }) }
    ensures run { OnOk result (IsBlockRun machine.new.setting machine.new.log) }
    ensures written { IfOk result (λ written. written.items
        ≡ (done_of (choice_of entry) (here_on machine.old entry.hart.0)).entered) }
{
    let mut written = Vec::new(alloc);
    match call {
        Some(call) => make_call(&mut written, machine, entry, call)?,
        None => {
            push_foreseen(&mut written, machine, entry)?;
            make(machine, entry);
        }
    }
    Ok(written)
}

/// Appends the facts of an entry that was made and isn't plain: what the kernel wrote in its line, what became of
/// reservations and of the registers of its thread. Before it its hart had these registers, and the harts had these
/// reservations.
fn push_kernel(
    facts: &mut Vec<Fact>,
    machine: &Machine,
    entry: Entry,
    registers: &Regs,
    reserved: &[Option<u64>],
    written: &[Write],
    line: u32,
) -> Result<(), AllocError>
    requires { entry.hart.0 < machine.now.setting.limits.harts }
    ensures { OnOk result (facts.new.items ≡ facts.old.items
        ++ kernel_facts machine.now entry registers.now reserved.now written.now line) }
{
    push_kernel_writes(facts, written, line)?;
    push_if_ended(
        facts,
        reservation_in(reserved, entry.hart),
        machine.hart(entry.hart).reserved,
    )?;
    push_all_lost_from(facts, entry.hart, reserved, written, machine.harts())?;
    push_own_registers(facts, machine, entry, registers)?;
    Ok(())
}

/// Makes an entry that is due and isn't plain, and appends what came of it; the lines are then those of the longer
/// log.
#[inline(never)]
pub(crate) fn tell_kernel(
    alloc: Global,
    facts: &mut Vec<Fact>,
    machine: &mut Machine,
    lines: &mut Lines,
    entry: Entry,
) -> Result<(), AllocError>
    requires limits { InRange machine.old.setting.limits }
    requires run { IsBlockRun machine.old.setting machine.old.log }
    requires decided { IsDecided machine.old entry }
    requires event { plain_event_of (choice_of entry) (here_on machine.old entry.hart.0) ≡ None }
    requires lines { AreLinesOf machine.old.setting.limits.harts (past_of machine.old) lines.old }
    ensures machine { OnOk result
        (machine.new ≡ record machine.old { log = machine.old.log ++ entry ∷ [] }) }
    ensures run { OnOk result (IsBlockRun machine.new.setting machine.new.log) }
    ensures facts { OnOk result (facts.new.items
        ≡ facts.old.items ++ trace_of machine.old.setting (past_of machine.old) entry) }
    ensures lines { OnOk result
        (AreLinesOf machine.new.setting.limits.harts (past_of machine.new) lines.new) }
{
    let line = machine.log().len() as u32 + 1;
    let before = push_before(alloc, facts, machine, entry)?;
    let why = why_killing(machine, entry, before.call, before.came);
    let reserved = all_reservations(alloc, machine)?;
    let written = make_kernel(alloc, machine, entry, before.call)?;
    push_after(facts, machine, entry, &before)?;
    push_kernel(
        facts,
        machine,
        entry,
        &before.registers.own,
        &reserved,
        &written,
        line,
    )?;
    push_killed(facts, machine, why)?;
    lines.note_kernel(&written, line)?;
    Ok(())
}
