//! What a hart does in its turn, by what is seen of it and a word.

ghost use Rattle.std.specs.Prelude.{◌≡◌};
ghost use Rattle.draw_policies.specs.Turns as turns;

use crate::acting::has_stores;
use crate::aims::{Aim, still_due};
use crate::beginning::thread_to_run;
use crate::policies::Weights;
use crate::words::Word;
use mach_types::{Choice, Sight, Tid};

/// What a hart does in its turn.
#[derive(Clone, Copy, Drop)]
pub struct Turn {
    /// The event.
    pub choice: Choice,
    /// What the hart means to do after it.
    pub aim: Option<Aim>,
    /// How many register-only instructions may follow without a word.
    pub credit: u16,
}

/// An event after which the hart means to let a signal be delivered, if one can be, and register-only instructions may follow.
fn freely(weights: &Weights, choice: Choice) -> Turn
    ensures { result ≡ turns.freely weights.now choice }
{
    Turn {
        choice,
        aim: Some(Aim::Signal),
        credit: weights.credit,
    }
}

/// The next instruction of the hart's thread, which traps or not.
fn executing(weights: &Weights, sight: &Sight, traps: bool) -> Turn
    ensures { result ≡ turns.executing weights.now sight.now traps }
{
    let aim = if sight.deliverable && !traps {
        None
    } else {
        Some(Aim::Signal)
    };
    Turn {
        choice: Choice::Exec,
        aim,
        credit: weights.credit,
    }
}

/// The oldest waiting store enters memory.
fn draining(aim: Option<Aim>) -> Turn
    ensures { result ≡ turns.draining aim }
{
    Turn {
        choice: Choice::Drain,
        aim,
        credit: 0,
    }
}

/// What an idle hart does, on which this thread may begin to run.
fn idle_turn(weights: &Weights, sight: &Sight, next: Option<Tid>) -> Option<Turn>
    ensures { result ≡ turns.idle_turn weights.now sight.now next }
{
    if sight.requested {
        return Some(freely(weights, Choice::Take));
    }
    match next {
        None => None,
        Some(tid) => Some(freely(weights, Choice::Run(tid))),
    }
}

/// What a hart does whose thread waits in a barrier.
fn barrier_turn(weights: &Weights, sight: &Sight) -> Turn
    ensures { result ≡ turns.barrier_turn weights.now sight.now }
{
    if sight.requested {
        freely(weights, Choice::Take)
    } else {
        freely(weights, Choice::Done)
    }
}

/// Whether a running hart means to take its requests.
fn takes_by(word: Word, weights: &Weights, sight: &Sight) -> bool
    ensures { result ≡ turns.takes_by word.0 weights.now sight.now }
{
    sight.requested && word.interrupt() < weights.take
}

/// Whether it means to let a signal be delivered.
fn delivers_by(word: Word, weights: &Weights, sight: &Sight) -> bool
    ensures { result ≡ turns.delivers_by word.0 weights.now sight.now }
{
    sight.deliverable && word.interrupt() < weights.signal
}

/// Whether it means to let its thread leave.
fn leaves_by(word: Word, weights: &Weights, sight: &Sight) -> bool
    ensures { result ≡ turns.leaves_by word.0 weights.now sight.now }
{
    sight.exec_enabled && word.preempt() < weights.preempt
}

/// What a running hart begins to mean by a word.
fn new_aim(weights: &Weights, sight: &Sight, word: Word) -> Option<Aim>
    ensures { result ≡ turns.new_aim weights.now sight.now word.0 }
{
    if takes_by(word, weights, sight) {
        Some(Aim::Take)
    } else if delivers_by(word, weights, sight) {
        Some(Aim::Signal)
    } else if leaves_by(word, weights, sight) {
        Some(Aim::Preempt)
    } else {
        None
    }
}

/// What a running hart means: its aim that can still be done, or else what it begins to mean.
fn meant(weights: &Weights, sight: &Sight, held: Option<Aim>, word: Word) -> Option<Aim>
    ensures { result ≡ turns.meant weights.now sight.now held word.0 }
{
    match still_due(sight, held) {
        Some(aim) => Some(aim),
        None => new_aim(weights, sight, word),
    }
}

/// What a hart does that means this.
fn aimed(sight: &Sight, aim: Aim) -> Turn
    ensures { result ≡ turns.aimed sight.now aim }
{
    if has_stores(sight) {
        return draining(Some(aim));
    }
    Turn {
        choice: aim.choice(),
        aim: Some(Aim::Signal),
        credit: 0,
    }
}

/// Whether the oldest store enters memory by a word.
fn drains_by(word: Word, weights: &Weights, sight: &Sight) -> bool
    ensures { result ≡ turns.drains_by word.0 weights.now sight.now }
{
    has_stores(sight) && word.drain() < weights.drain
}

/// What a running hart does that means nothing.
fn aimless(weights: &Weights, sight: &Sight, traps: bool, word: Word) -> Turn
    ensures { result ≡ turns.aimless weights.now sight.now traps word.0 }
{
    if sight.exec_enabled && !drains_by(word, weights, sight) {
        executing(weights, sight, traps)
    } else {
        draining(None)
    }
}

/// What a hart does whose thread runs, and waits in no barrier.
#[inline(always)]
fn running_turn(
    weights: &Weights,
    sight: &Sight,
    traps: bool,
    held: Option<Aim>,
    word: Word,
) -> Turn
    ensures { result ≡ turns.running_turn weights.now sight.now traps held word.0 }
{
    match meant(weights, sight, held, word) {
        Some(aim) => aimed(sight, aim),
        None => aimless(weights, sight, traps, word),
    }
}

/// What a hart does in its turn, of which this is seen, by one word: the next instruction of its thread traps (a
/// call or a fault) or not, these threads may begin to run there, one ran there last, and it means to do this. None
/// exactly where it is idle, and has no request and no such thread.
#[inline(always)]
pub fn turn_of(
    weights: &Weights,
    sight: &Sight,
    traps: bool,
    threads: &[u32],
    last: Option<Tid>,
    held: Option<Aim>,
    word: Word,
) -> Option<Turn>
    ensures { result ≡ turns.turn weights.now sight.now traps threads.now last held word.0 }
{
    if sight.idle {
        idle_turn(weights, sight, thread_to_run(threads, last, word))
    } else if sight.in_barrier {
        Some(barrier_turn(weights, sight))
    } else {
        Some(running_turn(weights, sight, traps, held, word))
    }
}
