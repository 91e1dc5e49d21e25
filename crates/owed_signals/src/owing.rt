//! Which harts owe their thread a signal after an event.

ghost use Rattle.std.specs.Prelude.{◌≡◌, ℕ};
ghost use Rattle.mach_types.specs.Events.{maker_of};
ghost use Rattle.mach_types.specs.Kernel.Barriers.{harts_that};
ghost use Rattle.mach_types.specs.Kernel.Scheduling.{has_hart};
ghost use Rattle.process.specs.Delivering.{HasSignals};
ghost use Rattle.prompt_runs.specs.Owed.{is_back_by};
ghost use Rattle.owed_signals.specs.Owing.{can_owe_in, owes_in};

use mach_types::{Choice, Hart};
use process::Parts;
use search_reductions::Signals;

/// Whether a hart is in a set of harts.
pub fn has_hart(set: u8, hart: Hart) -> bool
    ensures { result ≡ has_hart set hart.0 }
{
    hart.0 < 8 && (set >> hart.0) % 2 == 1
}

/// Whether a hart is on its way back from its kernel after the event of a choice, which trapped or not, where it was so
/// before or not.
fn is_back_by(choice: Choice, trapped: bool, before: bool) -> bool
    ensures { result ≡ is_back_by (maker_of choice) trapped before }
{
    match choice {
        Choice::Exec => trapped,
        Choice::Drain => before,
        Choice::Take | Choice::Done | Choice::Preempt | Choice::Run(_) | Choice::Signal => true,
    }
}

/// Whether a hart can owe its thread a signal: one can be delivered to it. None can where signals may come at any time,
/// and none that isn't in the list.
fn can_owe(signals: Signals, parts: &Parts, hart: u8) -> bool
    requires { HasSignals parts.now hart }
    ensures { result ≡ can_owe_in signals parts.now hart }
{
    match signals {
        Signals::Prompt => match parts.harts.get(hart as usize) {
            Some(state) => match state.running {
                Some(tid) => parts.kernel.signals.next_for(tid).is_some(),
                None => false,
            },
            None => false,
        },
        Signals::Any => false,
    }
}

/// Whether a hart owes its thread a signal after the event of a choice of hart `of`, where the harts of this set owed one
/// before it.
fn owes(
    signals: Signals,
    parts: &Parts,
    before: u8,
    of: Hart,
    choice: Choice,
    trapped: bool,
    hart: u8,
) -> bool
    requires { HasSignals parts.now hart }
    ensures { result ≡ owes_in signals parts.now before of.0 choice trapped hart }
{
    if !can_owe(signals, parts, hart) {
        return false;
    }
    let owed = has_hart(before, Hart(hart));
    if of.0 == hart {
        is_back_by(choice, trapped, owed)
    } else {
        owed
    }
}

/// The set of the harts that owe their thread a signal after the event of a choice of hart `of`, which was an instruction
/// that trapped or not, where the harts of this set owed one before it. The parts stand after the event, and signals must
/// be kept of the threads that run.
pub fn owed_after(
    signals: Signals,
    parts: &Parts,
    before: u8,
    of: Hart,
    choice: Choice,
    trapped: bool,
) -> u8
    requires { (h : ℕ) → HasSignals parts.now h }
    ensures { result ≡ harts_that (owes_in signals parts.now before of.0 choice trapped) 8 }
{
    let mut owed = 0;
    for hart in 0..8u8 {
        if owes(signals, parts, before, of, choice, trapped, hart) {
            owed += 1u8 << hart;
        }
    }
    owed
}
