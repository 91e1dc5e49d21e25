//! Faults: why an instruction makes one, and at which address.

ghost use Rattle.std.specs.Prelude.{◌≡◌, ◌<◌, ◌++◌, OnOk};
ghost use Rattle.std.specs.Option.{option_map, option_to_list};
ghost use Rattle.block_model.specs.Here.{runs};
ghost use Rattle.event_facts.specs.Faults as spec;
ghost use Rattle.event_facts.specs.{Faults.fault_of, Telling.here_on};

use fact_types::{Fact, FaultWhy};
use mach_types::Hart;
use mach_types::signals::{SIGBUS, SIGSEGV, SIGTRAP};
use machine_core::Machine;
use rv_inst::{Access, Effect, asks};
use std::alloc::AllocError;

/// Why no instruction can be fetched, or the word is none.
fn fetch_why(signal: u8) -> FaultWhy
    ensures { result ≡ spec.fetch_why signal }
{
    if signal == SIGBUS {
        FaultWhy::NotAligned
    } else if signal == SIGSEGV {
        FaultWhy::NotExecutable
    } else {
        FaultWhy::NoInstruction
    }
}

/// Why an instruction faults that accesses no memory.
fn trap_why(signal: u8) -> FaultWhy
    ensures { result ≡ spec.trap_why signal }
{
    if signal == SIGTRAP {
        FaultWhy::Breakpoint
    } else {
        FaultWhy::MisalignedJump
    }
}

/// Why an access faults.
fn access_why(signal: u8, access: &Access) -> FaultWhy
    ensures { result ≡ spec.access_why signal access.now }
{
    if signal == SIGBUS {
        FaultWhy::MisalignedAccess
    } else if access.is_write {
        FaultWhy::NotWritable
    } else {
        FaultWhy::NotReadable
    }
}

/// The fault of an instruction at a pc, which accesses these bytes or none.
fn instruction_fault(signal: u8, pc: u64, access: Option<Access>) -> Fact
    ensures { result ≡ spec.instruction_fault signal pc access }
{
    match access {
        Some(access) => Fact::Faulted {
            signal,
            why: access_why(signal, &access),
            at: access.at,
        },
        None => Fact::Faulted {
            signal,
            why: trap_why(signal),
            at: pc,
        },
    }
}

/// The fault at a pc of an instruction with this effect, or where there is none.
fn fault_told(effect: Option<Effect>, pc: u64, signal: u8) -> Fact
    ensures { result ≡ spec.fault_told effect pc signal }
{
    match effect {
        Some(effect) => instruction_fault(signal, pc, asks(&effect).access),
        None => Fact::Faulted {
            signal,
            why: fetch_why(signal),
            at: pc,
        },
    }
}

/// The fault at a pc of an instruction with this effect, or where there is none, if it has one of this signal.
fn fault_if(effect: Option<Effect>, pc: u64, signal: Option<u8>) -> Option<Fact>
    ensures { result ≡ option_map (spec.fault_told effect pc) signal }
{
    let signal = signal?;
    Some(fault_told(effect, pc, signal))
}

/// The fault of the next instruction of a hart's thread, if it makes one.
fn next_fault(machine: &Machine, hart: Hart) -> Option<Fact>
    requires { hart.0 < machine.now.setting.limits.harts }
    ensures { result ≡ fault_of (here_on machine.now hart.0) (runs (here_on machine.now hart.0)) }
{
    let pc = machine.hart(hart).pc;
    fault_if(machine.next_effect(hart), pc, machine.next_fault(hart))
}

/// Appends the fault of the next instruction of a hart's thread, if it makes one.
pub(crate) fn push_fault(
    facts: &mut Vec<Fact>,
    machine: &Machine,
    hart: Hart,
) -> Result<(), AllocError>
    requires { hart.0 < machine.now.setting.limits.harts }
    ensures { OnOk result (facts.new.items ≡ facts.old.items
        ++ option_to_list (fault_of (here_on machine.now hart.0) (runs (here_on machine.now hart.0)))) }
{
    if let Some(fault) = next_fault(machine, hart) {
        facts.push(fault)?;
    }
    Ok(())
}
