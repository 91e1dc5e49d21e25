//! Why an event ended its process by a signal.

ghost use Rattle.std.specs.Prelude.{◌≡◌, ◌<◌, ◌++◌, ℕ, Bool, true, IfSome, IsTrue, OnOk, Some};
ghost use Rattle.std.specs.Option.{option_map, option_to_list};
ghost use Rattle.mach_types.specs.Events.{choice_of, kind_of, nature_of};
ghost use Rattle.mach_types.specs.Kernel.Signals.{has_signal, is_handler, is_held, next_for};
ghost use Rattle.mach_types.specs.Kernel.Threads.{is_live};
ghost use Rattle.mach_types.specs.declared.events.Choice.TheVariants as asked;
ghost use Rattle.block_model.specs.Deciding.{end_of};
ghost use Rattle.block_model.specs.Here.{Here, runs};
ghost use Rattle.block_model.specs.Run.{IsBlockRun};
ghost use Rattle.block_model.specs.Sequences.{is_inside_here};
ghost use Rattle.event_facts.specs.Calls.{call_by};
ghost use Rattle.event_facts.specs.Interruptions.{came_by};
ghost use Rattle.event_facts.specs.Killing as spec;
ghost use Rattle.event_facts.specs.Killing.{IsReason, call_kills, called_kills, executing_kills, fault_kills, killing, kills_by, told_at, unhandled};
ghost use Rattle.event_facts.specs.Telling.{IsDecided, here_on, past_of};

use crate::calls::RT_SIGRETURN;
use fact_types::{Fact, KillWhy, SystemCall};
use mach_types::signals::{SIG_DFL, SIG_IGN};
use mach_types::{Action, BadWhy, End, Entry, Hart, Kind, Named, Outcome, Tid};
use machine_core::Machine;
use signals::{Signals, next_signal_is_the_lowest};
use std::alloc::AllocError;

/// The number of rseq(2).
const RSEQ: u64 = 293;

/// What an interruption found bad, where it kills.
fn came_bad(came: Option<Outcome>) -> Option<KillWhy>
    ensures { result ≡ spec.came_bad came }
{
    match came {
        Some(Outcome::Killed(why)) => Some(KillWhy::Bad(why)),
        Some(Outcome::Nothing | Outcome::Cleared | Outcome::Aborted(_)) | None => None,
    }
}

/// Whether an action is a handler.
fn is_handler(action: Action) -> bool
    ensures { result ≡ is_handler action }
{
    action.at != SIG_DFL && action.at != SIG_IGN
}

/// Whether a signal is in a set. Bit s - 1 stands for signal s; 0 is no signal, and has the bit of signal 1.
fn is_in(set: u64, signal: u8) -> bool
    ensures { result ≡ has_signal set signal }
{
    let place = signal.saturating_sub(1);
    place < 64 && (set >> place) % 2 == 1
}

/// Why a fault of this signal kills, where it does.
fn why_faulting(signals: &Signals, tid: Tid, signal: u8) -> KillWhy
    requires { IsTrue (is_held tid.0 signals.now) }
    ensures { IsReason (Some result) (fault_kills tid.0 signal signals.now) }
{
    if is_in(signals.mask_of(tid), signal) {
        KillWhy::Masked
    } else {
        KillWhy::NoHandler
    }
}

/// Why the delivery of the next signal of a thread kills, where it does.
fn why_delivering(signals: &Signals, tid: Tid) -> Option<KillWhy>
    requires { IsTrue (is_held tid.0 signals.now) }
    ensures { IfSome (next_for tid.0 signals.now) (λ signal. (can_write : Bool)
        → IsReason result (unhandled can_write signal signals.now)) }
{
    next_signal_is_the_lowest();
    let signal = signals.next_for(tid)?;
    if is_handler(signals.action(signal)) {
        Some(KillWhy::FrameNotWritable)
    } else {
        Some(KillWhy::NoHandler)
    }
}

/// Whether the thread on a hart is inside a good sequence, as the hart sees memory.
fn is_inside(machine: &Machine, hart: Hart) -> bool
    requires { hart.0 < machine.now.setting.limits.harts }
    ensures { (t : ℕ) → runs (here_on machine.now hart.0) ≡ Some t
        → result ≡ is_inside_here (here_on machine.now hart.0) t }
{
    match machine.named(hart) {
        Named::Good(sequence) => sequence.is_inside(machine.hart(hart).pc),
        Named::Nothing | Named::Bad(_) => false,
    }
}

/// Why the call of a number kills that isn't made inside a sequence, where it does.
fn why_outside(number: u64) -> Option<KillWhy>
    ensures { (here : Here) (t : ℕ) → IsReason result (call_kills here t number) }
{
    match number {
        RSEQ => Some(KillWhy::AreaWords),
        RT_SIGRETURN => Some(KillWhy::FrameNotReadable),
        _ => None,
    }
}

/// Why the call of the thread on a hart kills, where it does. Only a call that could kill outside of sequences is
/// looked at for whether it is inside one.
fn why_calling(machine: &Machine, hart: Hart, call: &SystemCall) -> KillWhy
    requires { hart.0 < machine.now.setting.limits.harts }
    ensures { (t : ℕ) → runs (here_on machine.now hart.0) ≡ Some t
        → IsReason (Some result) (called_kills (here_on machine.now hart.0) t call.now.number) }
{
    let Some(why) = why_outside(call.number) else {
        return KillWhy::CallInside;
    };
    if is_inside(machine, hart) {
        KillWhy::CallInside
    } else {
        why
    }
}

/// Why the next instruction of an entry's thread kills, which is this call or none, where it does.
fn why_executing(machine: &Machine, entry: Entry, call: Option<SystemCall>) -> Option<KillWhy>
    requires hart { entry.hart.0 < machine.now.setting.limits.harts }
    requires call { call ≡ call_by asked.Exec (here_on machine.now entry.hart.0) }
    requires runs { runs (here_on machine.now entry.hart.0) ≡ Some entry.tid.0 }
    requires live { is_live entry.tid.0 (here_on machine.now entry.hart.0).kernel.threads ≡ true }
    ensures { IsReason result (executing_kills (here_on machine.now entry.hart.0) entry.tid.0) }
{
    if let Some(call) = call {
        return Some(why_calling(machine, entry.hart, &call));
    }
    let signal = machine.next_fault(entry.hart)?;
    let signals = &machine.kernel().signals;
    Some(why_faulting(signals, entry.tid, signal))
}

/// Why an entry that is due kills, which is this call or none, where it does by other than what its interruption
/// finds.
fn why_by_kind(machine: &Machine, entry: Entry, call: Option<SystemCall>) -> Option<KillWhy>
    requires run { IsBlockRun machine.now.setting machine.now.log }
    requires decided { IsDecided machine.now entry }
    requires call { call ≡ call_by (choice_of entry) (here_on machine.now entry.hart.0) }
    ensures { IsReason result (kills_by (nature_of (kind_of (choice_of entry))).interruption
        (choice_of entry) (here_on machine.now entry.hart.0) entry.tid.0) }
{
    match entry.kind {
        Kind::Exec => why_executing(machine, entry, call),
        Kind::Drain => None,
        Kind::Take => None,
        Kind::Done => None,
        Kind::Preempt => None,
        Kind::Run => Some(KillWhy::AreaWords),
        Kind::Signal => why_delivering(&machine.kernel().signals, entry.tid),
    }
}

/// Why an entry that is due kills, which is this call or none, and whose interruption comes to this, where it does.
/// It says nothing of an entry that doesn't kill.
pub(crate) fn why_killing(
    machine: &Machine,
    entry: Entry,
    call: Option<SystemCall>,
    came: Option<Outcome>,
) -> Option<KillWhy>
    requires run { IsBlockRun machine.now.setting machine.now.log }
    requires decided { IsDecided machine.now entry }
    requires call { call ≡ call_by (choice_of entry) (here_on machine.now entry.hart.0) }
    requires came { came ≡ came_by (choice_of entry) (here_on machine.now entry.hart.0) }
    ensures { IsReason result (killing (choice_of entry) (here_on machine.now entry.hart.0)) }
{
    match came_bad(came) {
        Some(why) => Some(why),
        None => why_by_kind(machine, entry, call),
    }
}

/// Appends why an event killed, if that was found.
fn push_why(facts: &mut Vec<Fact>, found: Option<KillWhy>) -> Result<(), AllocError>
    ensures { OnOk result (facts.new.items
        ≡ facts.old.items ++ option_to_list (option_map Fact.Killed found)) }
{
    if let Some(why) = found {
        facts.push(Fact::Killed(why))?;
    }
    Ok(())
}

/// Whether a run was ended by a signal.
fn is_killed(end: End) -> bool
    ensures { result ≡ spec.is_killed end }
{
    matches!(end, End::Killed(_))
}

/// Appends why the last event killed, where it did.
pub(crate) fn push_killed(
    facts: &mut Vec<Fact>,
    machine: &Machine,
    found: Option<KillWhy>,
) -> Result<(), AllocError>
    ensures { OnOk result (facts.new.items ≡ facts.old.items
        ++ told_at (end_of machine.now.setting (past_of machine.now)) found) }
{
    if is_killed(machine.end()) {
        push_why(facts, found)?;
    }
    Ok(())
}
