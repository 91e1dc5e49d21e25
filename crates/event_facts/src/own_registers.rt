//! The registers of an event's thread that an event which isn't plain changed.

ghost use Rattle.std.specs.Prelude.{◌≡◌, ◌<◌, ◌++◌, OnOk};
ghost use Rattle.mach_types.specs.Events.{choice_of};
ghost use Rattle.event_facts.specs.Facts.{changed_registers};
ghost use Rattle.event_facts.specs.KernelEvents as spec;
ghost use Rattle.event_facts.specs.{KernelEvents.changed_own, Telling.here_on};

use crate::calls::is_it;
use crate::other_registers::saved_registers;
use crate::registers::push_registers;
use fact_types::Fact;
use mach_types::{Entry, Kind, Regs};
use machine_core::Machine;
use std::alloc::AllocError;

/// The registers of the thread of an entry that was made; None where it is gone.
fn registers_after(machine: &Machine, entry: Entry) -> Option<Regs>
    requires { entry.hart.0 < machine.now.setting.limits.harts }
    ensures { result ≡ spec.registers_after (here_on machine.now entry.hart.0) entry.tid.0 }
{
    let state = machine.hart(entry.hart);
    if is_it(state.running, entry.tid) {
        Some(state.file)
    } else {
        saved_registers(&machine.kernel().threads, entry.tid)
    }
}

/// Appends each register that changed from one file to another, if there is another.
fn push_changed_registers(
    facts: &mut Vec<Fact>,
    before: &Regs,
    after: Option<Regs>,
) -> Result<(), AllocError>
    ensures { OnOk result (facts.new.items
        ≡ facts.old.items ++ changed_registers before.now after) }
{
    if let Some(after) = after {
        push_registers(facts, before, &after)?;
    }
    Ok(())
}

/// Appends the registers of the thread of an entry that was made and isn't plain, where its hart had these before.
pub(crate) fn push_own_registers(
    facts: &mut Vec<Fact>,
    machine: &Machine,
    entry: Entry,
    before: &Regs,
) -> Result<(), AllocError>
    requires { entry.hart.0 < machine.now.setting.limits.harts }
    ensures { OnOk result (facts.new.items ≡ facts.old.items
        ++ changed_own (choice_of entry) before.now
        (spec.registers_after (here_on machine.now entry.hart.0) entry.tid.0)) }
{
    match entry.kind {
        Kind::Exec | Kind::Done | Kind::Signal => {
            push_changed_registers(facts, before, registers_after(machine, entry))
        }
        _ => Ok(()),
    }
}
