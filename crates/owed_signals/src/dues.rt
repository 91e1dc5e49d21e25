//! What is due at harts that owe their thread a signal.

ghost use Rattle.std.specs.Prelude.{◌≡◌};
ghost use Rattle.mach_types.specs.Kernel.Barriers.{harts_that};
ghost use Rattle.owed_signals.specs.Dues.{AreDuesOf, has_stores_in, is_drain, is_in_time, is_owing_in, is_signal, owes_with};

use crate::owing::has_hart;
use mach_types::{Choice, Hart};
use process::Parts;

/// What is due at harts that owe their thread a signal, where it waits in no barrier.
#[derive(Clone, Copy, Drop)]
pub struct Dues {
    /// The set of the harts whose oldest waiting store has to enter memory.
    drains: u8,
    /// That of the harts to whose thread the signal has to be delivered: none of their stores waits.
    signals: u8,
}

/// Whether a hart owes its thread a signal, by this set, and the thread waits in no barrier.
fn is_owing(parts: &Parts, owed: u8, hart: u8) -> bool
    ensures { result ≡ is_owing_in parts.now owed hart }
{
    match parts.harts.get(hart as usize) {
        Some(state) => has_hart(owed, Hart(hart)) && state.waits.is_none(),
        None => false,
    }
}

/// Whether a store of a hart waits.
fn has_stores(parts: &Parts, hart: u8) -> bool
    ensures { result ≡ has_stores_in parts.now hart }
{
    match parts.harts.get(hart as usize) {
        Some(state) => state.buffer.len() != 0,
        None => false,
    }
}

/// The harts that owe a signal, and have a store that waits, or have none.
fn owing(parts: &Parts, owed: u8, with_stores: bool) -> u8
    ensures { result ≡ harts_that (owes_with parts.now owed with_stores) 8 }
{
    let mut harts = 0;
    for hart in 0..8u8 {
        if is_owing(parts, owed, hart) && has_stores(parts, hart) == with_stores {
            harts += 1u8 << hart;
        }
    }
    harts
}

/// Whether a choice is that a store enters memory.
fn is_drain(choice: Choice) -> bool
    ensures { result ≡ is_drain choice }
{
    match choice {
        Choice::Drain => true,
        Choice::Exec
        | Choice::Take
        | Choice::Done
        | Choice::Preempt
        | Choice::Run(_)
        | Choice::Signal => false,
    }
}

/// Whether it is that a signal is delivered.
fn is_signal(choice: Choice) -> bool
    ensures { result ≡ is_signal choice }
{
    match choice {
        Choice::Signal => true,
        Choice::Exec
        | Choice::Drain
        | Choice::Take
        | Choice::Done
        | Choice::Preempt
        | Choice::Run(_) => false,
    }
}

impl Dues {
    /// What is due where these parts stand, and the harts of this set owe a signal.
    pub fn of(parts: &Parts, owed: u8) -> Dues
        ensures { AreDuesOf parts.now owed result }
    {
        Dues {
            drains: owing(parts, owed, true),
            signals: owing(parts, owed, false),
        }
    }

    /// Whether a choice of a hart comes in time: where something is due there, it is that.
    pub fn is_in_time(self, hart: Hart, choice: Choice) -> bool
        ensures { result ≡ is_in_time self hart.0 choice }
    {
        if has_hart(self.drains, hart) {
            is_drain(choice)
        } else if has_hart(self.signals, hart) {
            is_signal(choice)
        } else {
            true
        }
    }
}
