//! What one worker does: turns of one hart, and between them the work of what it was lent.
ghost use Rattle.std.specs.Prelude.{◌≡◌, ◌<◌, true, false, List, IfOk};
ghost use Rattle.std.specs.Option.{ForSome};
ghost use Rattle.mach_types.specs.declared.events.Advance.TheVariants.{Ended};
ghost use Rattle.mach_types.specs.declared.events.Entry.{Entry};
ghost use Rattle.mach_types.specs.declared.events.Hart.{Hart};
ghost use Rattle.machine_lock.specs.Logs.{Adds};
ghost use Rattle.machine_lock.specs.Turnstiles.{IsOf, origin_of, start_of};
ghost use Rattle.hart_workers.specs.Growth.{Looked, Grew};
ghost use Rattle.hart_workers.specs.Worked.{GoesOn, WentOn};

use crate::start::Start;
use mach_types::{Advance, Hart};
use machine_lock::{Chronicle, Pass, Turnstile};
use outside::Gate;
use rand_core::SeedableRng;
use rand_core::utils::NextWord;
use rand_xoshiro::Xoshiro256PlusPlus;
use std::alloc::{AllocError, Global};
use std::sync::Wait;
use std::thread;

/// Takes the code out, in one turn that makes no entry.
pub(crate) fn take_code<R: Wait, M: Chronicle>(
    alloc: Global,
    rt: &R,
    lock: &Turnstile<M>,
    pass: &mut Pass<M>,
) -> Result<M::Code, AllocError>
    requires own { IsOf lock.now pass.old }
    requires idle { pass.old.out ≡ false }
    ensures looked { Looked M.setting M.log M.next (origin_of lock.now) pass.old pass.new }
    ensures code { IfOk result (λ code. M.serves code (start_of lock.now)) }
{
    let turn = lock.take_turn(rt, pass);
    let code = turn.machine.code(alloc);
    lock.give_turn(pass, turn);
    code
}

/// Appends what was worked on, if there is something, and answers how many entries that was.
fn append_worked<M: Chronicle>(machine: &mut M, hart: Hart, worked: Option<M::Stretch>) -> u32
    requires fits { ForSome worked (λ x. M.fits x machine.old hart (M.log machine.old)) }
    ensures setting { M.setting machine.new ≡ M.setting machine.old }
    ensures appended { Adds (M.next (M.setting machine.old)) hart result
        (M.log machine.old) (M.log machine.new) }
{
    match worked {
        Some(stretch) => machine.append(hart, stretch),
        None => 0,
    }
}

/// How many events a hart tries to make beyond one in a turn of the only worker, which keeps none waiting. (own)
const EVENTS_ALONE: u32 = 255;

/// How many events a hart tries to make beyond one in a turn of one of several workers, by a word of a generator:
/// none by every other word, and else 1 to 39. (own)
fn more_events(word: u64) -> u32
    ensures { result < 40 }
{
    let drawn = word % 78;
    if drawn < 39 { drawn as u32 + 1 } else { 0 }
}

/// What a hart does in one turn: what was worked on is appended before any other event. Then it makes one
/// event, and so many more, as long as it has one to make. Answers what came of its last try.
fn go_on<M: Chronicle>(
    machine: &mut M,
    hart: Hart,
    worked: Option<M::Stretch>,
    more: u32,
) -> Advance
    requires fits { ForSome worked (λ x. M.fits x machine.old hart (M.log machine.old)) }
    ensures setting { M.setting machine.new ≡ M.setting machine.old }
    ensures went_on { GoesOn (M.next (M.setting machine.old)) (M.ended (M.setting machine.old)) hart
        (M.log machine.old) (M.log machine.new) result }
{
    append_worked(machine, hart, worked);
    for _ in 0..more {
        match machine.advance(hart) {
            Advance::Made(_) => {}
            Advance::NoneNow => return Advance::NoneNow,
            Advance::Ended => return Advance::Ended,
        }
    }
    machine.advance(hart)
}

/// One turn of a hart, in which it makes so many events more than one, and the stretch that it is lent at the
/// end of it. The only worker takes none along, since it is as soon done in its turns.
fn turn<R: Wait, M: Chronicle>(
    rt: &R,
    lock: &Turnstile<M>,
    pass: &mut Pass<M>,
    hart: Hart,
    more: u32,
    is_alone: bool,
    stretch: &mut Option<M::Stretch>,
) -> Advance
    requires own { IsOf lock.now pass.old }
    requires idle { pass.old.out ≡ false }
    requires fits { ForSome stretch.old (λ x. M.fits x (start_of lock.now) hart pass.old.seen) }
    ensures grew { Grew M.setting M.log M.next (origin_of lock.now) pass.old pass.new }
    ensures went_on { WentOn (M.next (M.setting (start_of lock.now)))
        (M.ended (M.setting (start_of lock.now)))
        hart pass.old.seen pass.new.seen result }
    ensures ended { result ≡ Ended → M.ended (M.setting (start_of lock.now)) pass.new.seen ≡ true }
    ensures lent { ForSome stretch.new (λ x. M.fits x (start_of lock.now) hart pass.new.seen) }
{
    let mut turn = lock.take_turn(rt, pass);
    let advance = go_on(&mut turn.machine, hart, stretch.take(), more);
    *stretch = if is_alone {
        None
    } else {
        turn.machine.lend(hart)
    };
    lock.give_turn(pass, turn);
    advance
}

/// Does the work of a stretch, if there is one.
fn work_on<M: Chronicle>(code: &M::Code, stretch: &mut Option<M::Stretch>)
    ensures { (machine : M) (hart : Hart) (log : List Entry) → M.serves code.now machine
        → ForSome stretch.old (λ x. M.fits x machine hart log)
        → ForSome stretch.new (λ x. M.fits x machine hart log) }
{
    if let Some(stretch) = stretch {
        M::work(code, stretch);
    }
}

/// How many turns in a row at whose end its hart has nothing to do a worker takes before it rests between turns. (own)
const IDLE_TURNS: u32 = 1_000;

/// How often a worker gives its processor away at most in one rest. (own)
const LONGEST_REST: u32 = 256;

/// What a worker does behind so many turns in a row at whose end its hart had nothing to do, and how many they
/// are with this one: behind many of them it gives its processor away, once more with each turn, so that workers
/// with nothing to do leave the turns to those that have something.
fn rest(idle_turns: u32) -> u32 {
    for _ in IDLE_TURNS..idle_turns {
        thread::yield_now();
    }
    if idle_turns < IDLE_TURNS + LONGEST_REST {
        idle_turns + 1
    } else {
        idle_turns
    }
}

/// Drives one hart until the run has ended, once all workers have come.
pub(crate) fn drive_one<R: Wait, M: Chronicle, G: Gate>(
    rt: &R,
    lock: &Turnstile<M>,
    code: &M::Code,
    gate: &G,
    start: &Start,
    pass: &mut Pass<M>,
    hart: Hart,
)
    requires own { IsOf lock.now pass.old }
    requires idle { pass.old.out ≡ false }
    requires code { M.serves code.now (start_of lock.now) }
    ensures grew { Grew M.setting M.log M.next (origin_of lock.now) pass.old pass.new }
    ensures ended { M.ended (M.setting (start_of lock.now)) pass.new.seen ≡ true }
{
    start.meet();
    let is_alone = start.is_of_one();
    let mut draws = Xoshiro256PlusPlus::seed_from_u64(u64::from(hart.0));
    let mut stretch = None;
    let mut idle_turns = 0;
    for _ in rt.forever() {
        gate.pass(hart);
        let more = if is_alone {
            EVENTS_ALONE
        } else {
            more_events(draws.next_word())
        };
        let advance = turn(rt, lock, pass, hart, more, is_alone, &mut stretch);
        if advance == Advance::Ended {
            return;
        }
        idle_turns = if advance == Advance::NoneNow {
            rest(idle_turns)
        } else {
            0
        };
        work_on::<M>(code, &mut stretch);
    }
    unreachable!()
}
