//! What is told of an event that is read at the places before it and after it.

ghost use Rattle.std.specs.Prelude.{◌≡◌, ◌<◌, ◌++◌, IfOk, OnOk};
ghost use Rattle.mach_types.specs.Events.{choice_of};
ghost use Rattle.block_model.specs.Here.{Here};
ghost use Rattle.event_facts.specs.Faults.{fault_facts};
ghost use Rattle.event_facts.specs.Telling.{IsDecided, here_on, past_of};
ghost use Rattle.event_facts.specs.Trace.{IsBefore, facts_after, facts_before};

use crate::areas::{AreaBefore, area_kept, push_area};
use crate::calls::{answered, next_call, push_called};
use crate::facts::push_if;
use crate::faults::push_fault;
use crate::interruptions::interrupted;
use crate::other_registers::{RegistersBefore, push_other_registers};
use crate::pending::{all_pending, delivery, next_delivered, push_signals};
use crate::requests::{begun, push_requests};
use crate::threads::{ThreadsBefore, push_threads};
use fact_types::{Fact, SystemCall};
use mach_types::{Entry, Kind, Outcome};
use machine_core::Machine;
use std::alloc::{AllocError, Global};

/// What is kept of the place before an event, until that was made.
#[derive(Drop)]
pub(crate) struct Before {
    /// The call that the event is, if it is one.
    pub(crate) call: Option<SystemCall>,
    /// The threads.
    pub(crate) threads: ThreadsBefore,
    /// The registers of those that wait, and of the event's hart.
    pub(crate) registers: RegistersBefore,
    /// What is pending for each of these, in the same order; None where no signals are kept of one.
    pub(crate) pending: Vec<Option<u64>>,
    /// The area of the event's thread, if it has one, and what stands there.
    pub(crate) area: Option<AreaBefore>,
    /// What the interruption of the event's thread comes to, if it interrupts it.
    pub(crate) came: Option<Outcome>,
    /// The signal that the event delivers, if it delivers one.
    pub(crate) delivered: Option<u8>,
}

/// Appends the fault of an entry, the next event of its hart, if it makes one.
fn push_fault_of(facts: &mut Vec<Fact>, machine: &Machine, entry: Entry) -> Result<(), AllocError>
    requires { entry.hart.0 < machine.now.setting.limits.harts }
    ensures { OnOk result (facts.new.items ≡ facts.old.items
        ++ fault_facts (choice_of entry) (here_on machine.now entry.hart.0)) }
{
    match entry.kind {
        Kind::Exec => push_fault(facts, machine, entry.hart),
        _ => Ok(()),
    }
}

/// Appends what is told of an entry that is read at the place before it: the fault that it makes, the requests
/// of barriers that it takes or the barrier that returns by it, and the call that it makes. Answers what
/// [`push_after`] has to know of this place.
///
/// The entry is the next event of its hart on the machine. It errs only for want of memory.
pub(crate) fn push_before(
    alloc: Global,
    facts: &mut Vec<Fact>,
    machine: &Machine,
    entry: Entry,
) -> Result<Before, AllocError>
    requires hart { entry.hart.0 < machine.now.setting.limits.harts }
    requires decided { IsDecided machine.now entry }
    ensures before { IfOk result
        (λ before. IsBefore entry (here_on machine.now entry.hart.0) before) }
    ensures facts { OnOk result (facts.new.items ≡ facts.old.items
        ++ facts_before (choice_of entry) (here_on machine.now entry.hart.0)) }
{
    let call = next_call(machine, entry);
    push_fault_of(facts, machine, entry)?;
    push_requests(facts, machine, entry)?;
    push_called(facts, call)?;
    let kernel = machine.kernel();
    let threads = ThreadsBefore::of(alloc, &kernel.threads)?;
    let own = &machine.hart(entry.hart).file;
    let registers = RegistersBefore::of(alloc, &kernel.threads, own)?;
    let pending = all_pending(alloc, &kernel.signals, threads.given)?;
    let area = area_kept(machine, entry.tid);
    let came = machine.foreseen(entry.hart, entry.choice());
    let delivered = next_delivered(&kernel.signals, entry);
    Ok(Before {
        call,
        threads,
        registers,
        pending,
        area,
        came,
        delivered,
    })
}

/// Appends what is told of an entry that is read at the place after it: how the call was answered that it is,
/// the barrier that this began, what the interruption of its thread came to, the delivery of a signal, and what
/// became of pending signals, of threads, of the registers of other threads and of the words of its thread's area.
///
/// The machine has made the entry, and `before` is what [`push_before`] answered. It errs only for want of memory.
pub(crate) fn push_after(
    facts: &mut Vec<Fact>,
    machine: &Machine,
    entry: Entry,
    before: &Before,
) -> Result<(), AllocError>
    requires { entry.hart.0 < machine.now.setting.limits.harts }
    ensures { OnOk result ((here : Here) → IsBefore entry here before.now
        → facts.new.items ≡ facts.old.items
        ++ facts_after machine.now.setting (past_of machine.now) entry here) }
{
    push_if(facts, answered(machine, entry, before.call))?;
    push_if(facts, begun(before.call, machine.hart(entry.hart).waits))?;
    push_if(facts, interrupted(machine, entry, before.came))?;
    push_if(facts, delivery(machine, entry, before.delivered))?;
    let kernel = machine.kernel();
    push_signals(
        facts,
        &before.pending,
        before.threads.given,
        before.delivered,
        entry.tid,
        &kernel.signals,
    )?;
    push_threads(facts, &before.threads, &kernel.threads)?;
    push_other_registers(
        facts,
        &before.registers,
        before.threads.given,
        &kernel.threads,
    )?;
    push_area(facts, machine, entry, before.call, before.area)?;
    Ok(())
}
