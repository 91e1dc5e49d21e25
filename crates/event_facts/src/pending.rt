//! Signals: which one was delivered, which came to be pending, and which is pending no longer.

ghost use Rattle.std.specs.Prelude.{◌≡◌, ◌≤◌, ◌<◌, ◌++◌, IfOk, OnOk, option_to_list};
ghost use Rattle.mach_types.specs.Events.{choice_of};
ghost use Rattle.mach_types.specs.Kernel.Signals as kernel;
ghost use Rattle.mach_types.specs.Kernel.Signals.{has_signal};
ghost use Rattle.process.specs.Harts.{file_of};
ghost use Rattle.event_facts.specs.Pending as spec;
ghost use Rattle.event_facts.specs.Pending.{delivered_by, delivered_facts, held_facts, held_pending, pending_facts, signal_facts};
ghost use Rattle.event_facts.specs.Telling.{past_of};

use crate::by_number::at_place;
use crate::calls::is_process_end;
use crate::facts::push_if;
use crate::registers::SP;
use fact_types::Fact;
use hart_state::HartState;
use mach_types::{Entry, Kind, Tid};
use machine_core::Machine;
use signals::Signals;
use std::alloc::{AllocError, Global};

/// How many signals there are: 1 to this one (signal(7)).
const SIGNALS: u8 = 31;

/// The signal that an entry delivers, the next event of its hart, where these are the signals.
pub(crate) fn next_delivered(signals: &Signals, entry: Entry) -> Option<u8>
    ensures { result ≡ delivered_by (choice_of entry) entry.tid.0 signals.now }
{
    match entry.kind {
        Kind::Signal => next_held(signals, entry.tid),
        _ => None,
    }
}

/// The signal that is next for a thread; None where none are kept of it.
fn next_held(signals: &Signals, tid: Tid) -> Option<u8>
    ensures { result ≡ spec.next_held tid.0 signals.now }
{
    if signals.is_held(tid) {
        signals.next_for(tid)
    } else {
        None
    }
}

/// What came of the delivery of a signal: the process ended, or the thread on its hart is at the handler.
fn delivered_fact(killed: bool, state: &HartState, signal: u8) -> Fact
    ensures { result ≡ spec.delivered_fact killed (file_of state.now) signal }
{
    if killed {
        Fact::DeliveryKills { signal }
    } else {
        Fact::HandlerEntered {
            signal,
            at: state.pc,
            frame: state.file.get(SP),
        }
    }
}

/// What came of the delivery of a signal, where an entry delivered one that was made.
pub(crate) fn delivery(machine: &Machine, entry: Entry, delivered: Option<u8>) -> Option<Fact>
    requires { entry.hart.0 < machine.now.setting.limits.harts }
    ensures { option_to_list result
        ≡ delivered_facts machine.now.setting (past_of machine.now) entry delivered }
{
    let signal = delivered?;
    let killed = is_process_end(machine.end());
    let state = machine.hart(entry.hart);
    Some(delivered_fact(killed, state, signal))
}

/// What is pending for a thread; None where no signals are kept of it.
fn held_pending(signals: &Signals, tid: Tid) -> Option<u64>
    ensures { result ≡ held_pending signals.now tid.0 }
{
    if signals.is_held(tid) {
        Some(signals.pending_of(tid))
    } else {
        None
    }
}

/// What is pending for each of the threads with the first numbers, so many.
pub(crate) fn all_pending(
    alloc: Global,
    signals: &Signals,
    given: u32,
) -> Result<Vec<Option<u64>>, AllocError>
    ensures { IfOk result (λ pending. pending.items ≡ spec.all_pending signals.now given) }
{
    let mut pending = Vec::new(alloc);
    for earlier in 0..given {
        pending.push(held_pending(signals, Tid(earlier + 1)))?;
    }
    Ok(pending)
}

/// Whether a signal, 1 to 31, is in a set.
fn is_in(set: u64, signal: u8) -> bool
    requires lowest { 1 ≤ signal }
    requires highest { signal ≤ 31 }
    ensures { result ≡ has_signal set signal }
{
    (set >> (signal - 1)) % 2 == 1
}

/// Whether a signal is this one.
fn is_this(signal: u8, which: Option<u8>) -> bool
    ensures { result ≡ spec.is_this signal which }
{
    which == Some(signal)
}

/// What became of a signal, 1 to 31, of a thread for which these were pending and those are, and to which this
/// one was delivered, if any was.
fn pending_change(
    delivered: Option<u8>,
    tid: Tid,
    before: u64,
    after: u64,
    signal: u8,
) -> Option<Fact>
    requires lowest { 1 ≤ signal }
    requires highest { signal ≤ 31 }
    ensures { result ≡ spec.pending_change delivered tid.0 before after signal }
{
    if is_in(after, signal) {
        if is_in(before, signal) {
            None
        } else {
            Some(Fact::SignalPosted { signal, tid })
        }
    } else if is_in(before, signal) && !is_this(signal, delivered) {
        Some(Fact::SignalDropped { signal, tid })
    } else {
        None
    }
}

/// Appends what became of each signal of a thread for which these were pending and those are.
fn push_pending(
    facts: &mut Vec<Fact>,
    delivered: Option<u8>,
    tid: Tid,
    before: u64,
    after: u64,
) -> Result<(), AllocError>
    ensures { OnOk result (facts.new.items
        ≡ facts.old.items ++ pending_facts delivered tid.0 before after) }
{
    for lower in 0..SIGNALS {
        let change = pending_change(delivered, tid, before, after, lower + 1);
        push_if(facts, change)?;
    }
    Ok(())
}

/// The same where signals are kept of the thread before and after; nothing where they aren't.
fn push_held(
    facts: &mut Vec<Fact>,
    delivered: Option<u8>,
    tid: Tid,
    before: Option<u64>,
    after: Option<u64>,
) -> Result<(), AllocError>
    ensures { OnOk result (facts.new.items
        ≡ facts.old.items ++ held_facts delivered tid.0 before after) }
{
    if let (Some(before), Some(after)) = (before, after) {
        push_pending(facts, delivered, tid, before, after)?;
    }
    Ok(())
}

/// The signal that was delivered to one thread, where it was to another.
fn delivered_to(delivered: Option<u8>, tid: Tid, one: Tid) -> Option<u8>
    ensures { result ≡ spec.delivered_to delivered tid.0 one.0 }
{
    if one.0 == tid.0 { delivered } else { None }
}

/// Appends what became of signals, where these were pending before for so many threads, and this one was
/// delivered to a thread, if any was.
pub(crate) fn push_signals(
    facts: &mut Vec<Fact>,
    pending: &[Option<u64>],
    given: u32,
    delivered: Option<u8>,
    tid: Tid,
    signals: &Signals,
) -> Result<(), AllocError>
    ensures { OnOk result ((before : kernel.Signalling) → pending.now ≡ spec.all_pending before given
        → facts.new.items ≡ facts.old.items ++ signal_facts given delivered tid.0 before signals.now) }
{
    for earlier in 0..given {
        let one = Tid(earlier + 1);
        let to = delivered_to(delivered, tid, one);
        let before = at_place(pending, earlier);
        push_held(facts, to, one, before, held_pending(signals, one))?;
    }
    Ok(())
}
