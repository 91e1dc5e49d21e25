//! The seven cases, by what a scheduler sees of a hart.

ghost use Rattle.std.specs.Prelude.{◌≡◌, None};
ghost use Rattle.chooser.specs.Cases as cases;

use crate::chooser::Pick;
use mach_types::{Choice, Sight};

/// How many instructions a thread executes on a hart before it may leave it.
const LEAST_RUN: u32 = 16;

/// What is known of a pick without a word of the generator.
#[derive(Clone, Copy, Drop)]
pub enum Case {
    /// This is done next, or nothing.
    Settled(Option<Pick>),
    /// A word decides.
    Open,
}

/// This event, and no credit after it.
fn plainly(choice: Choice) -> Pick
    ensures { result ≡ cases.plainly choice }
{
    Pick { choice, credit: 0 }
}

/// The oldest waiting store enters memory where one waits; else this event.
fn emptied_before(sight: &Sight, choice: Choice) -> Choice
    ensures { result ≡ cases.emptied_before sight.now choice }
{
    if sight.stores > 0 {
        Choice::Drain
    } else {
        choice
    }
}

/// What an idle hart does.
fn when_idle(sight: &Sight) -> Option<Choice>
    ensures { result ≡ cases.when_idle sight.now }
{
    if sight.requested {
        Some(Choice::Take)
    } else {
        sight.first_ready.map(Choice::Run)
    }
}

/// What a hart does whose thread waits in a barrier.
fn when_in_barrier(sight: &Sight) -> Option<Choice>
    ensures { result ≡ cases.when_in_barrier sight.now }
{
    if sight.requested {
        Some(Choice::Take)
    } else if sight.all_taken {
        Some(Choice::Done)
    } else {
        None
    }
}

/// What a hart does that may not execute.
fn when_held_up(sight: &Sight) -> Option<Choice>
    ensures { result ≡ cases.when_held_up sight.now }
{
    if sight.stores > 0 {
        Some(Choice::Drain)
    } else {
        None
    }
}

/// The first case that applies.
#[inline]
pub fn case_of(sight: &Sight) -> Case
    ensures { result ≡ cases.case_of sight.now }
{
    if sight.idle {
        Case::Settled(when_idle(sight).map(plainly))
    } else if sight.in_barrier {
        Case::Settled(when_in_barrier(sight).map(plainly))
    } else if sight.credit > 0 && sight.local {
        Case::Settled(Some(Pick {
            choice: Choice::Exec,
            credit: sight.credit - 1,
        }))
    } else if sight.requested {
        Case::Settled(Some(plainly(emptied_before(sight, Choice::Take))))
    } else if sight.deliverable {
        Case::Settled(Some(plainly(emptied_before(sight, Choice::Signal))))
    } else if sight.exec_enabled {
        Case::Open
    } else {
        Case::Settled(when_held_up(sight).map(plainly))
    }
}

/// Whether the thread leaves the hart by this word.
#[inline]
fn leaves_by(sight: &Sight, word: u64) -> bool
    ensures { result ≡ cases.leaves_by word sight.now }
{
    word % 8 == 0 && sight.ran >= LEAST_RUN && sight.stores == 0 && sight.first_ready.is_some()
}

/// What a word decides.
#[inline]
pub fn by_word(sight: &Sight, word: u64) -> Pick
    ensures { result ≡ cases.by_word word sight.now }
{
    if leaves_by(sight, word) {
        plainly(Choice::Preempt)
    } else if word % 4 == 1 && sight.stores > 0 {
        plainly(Choice::Drain)
    } else {
        Pick {
            choice: Choice::Exec,
            credit: (word / 16 % 8) as u8,
        }
    }
}
