//! One worker for each hart. The harts are divided in halves, down to single ones, and each half goes
//! to a thread.
ghost use Rattle.std.specs.Prelude.{◌≡◌, ◌+◌, ◌-◌, ◌<◌, ◌≤◌, true, false, OnOk, OnErr};
ghost use Rattle.std.specs.Thread.{IsSync};
ghost use Rattle.machine_lock.specs.Turnstiles.{IsOf, origin_of, start_of};
ghost use Rattle.hart_workers.specs.Growth.{Looked, Grew};

use crate::start::Start;
use crate::turns::{drive_one, take_code};
use mach_types::Hart;
use machine_lock::{Chronicle, Pass, Turnstile};
use outside::Gate;
use std::alloc::{AllocError, Global};
use std::sync::Wait;
use std::thread::{Threads, join_mut};

/// Drives so many harts from `first` on, by one worker each.
#[cycle(halves)]
fn drive_many<R: Threads + Wait + Sync, M: Chronicle + Send, G: Gate + Sync>(
    rt: &R,
    lock: &Turnstile<M>,
    code: &M::Code,
    gate: &G,
    start: &Start,
    pass: &mut Pass<M>,
    first: u8,
    count: u8,
)
where
    M::Stretch: Send,
    requires own { IsOf lock.now pass.old }
    requires idle { pass.old.out ≡ false }
    requires code { M.serves code.now (start_of lock.now) }
    requires count { (1 ≤ count) × (first + count < 256) × (count ≤ pass.old.parts) }
    ensures grew { Grew M.setting M.log M.next (origin_of lock.now) pass.old pass.new }
    ensures ended { M.ended (M.setting (start_of lock.now)) pass.new.seen ≡ true }
{
    if count == 1 {
        drive_one(rt, lock, code, gate, start, pass, Hart(first));
        return;
    }
    let half = count / 2;
    let mut other = lock.split(pass, half);
    drive_halves(
        rt,
        lock,
        code,
        gate,
        start,
        pass,
        &mut other,
        first,
        count - half,
        half,
    );
    lock.join(pass, other);
}

/// Drives the harts from `first` on side by side: so many by the one pass, and the half after them by
/// the other.
#[cycle(halves)]
fn drive_halves<'a, 'p, R: Threads + Wait + Sync, M: Chronicle + Send, G: Gate + Sync>(
    rt: &'a R,
    lock: &'a Turnstile<M>,
    code: &'a M::Code,
    gate: &'a G,
    start: &'a Start,
    pass: &'p mut Pass<M>,
    other: &'p mut Pass<M>,
    first: u8,
    count: u8,
    half: u8,
)
where
    M::Stretch: Send,
    requires own { IsOf lock.now pass.old × IsOf lock.now other.old }
    requires idle { (pass.old.out ≡ false) × (other.old.out ≡ false) }
    requires code { M.serves code.now (start_of lock.now) }
    requires count { (1 ≤ count) × (1 ≤ half) × (first + count + half < 256) }
    requires parts { (count ≤ pass.old.parts) × (half ≤ other.old.parts) }
    ensures grew { Grew M.setting M.log M.next (origin_of lock.now) pass.old pass.new }
    ensures ended { M.ended (M.setting (start_of lock.now)) pass.new.seen ≡ true }
    ensures other_grew { Grew M.setting M.log M.next (origin_of lock.now) other.old other.new }
    ensures other_ended { M.ended (M.setting (start_of lock.now)) other.new.seen ≡ true }
{
    let mut lower = ||
        requires sync { IsSync R.row }
        requires own { IsOf lock.now pass.now }
        requires idle { pass.now.out ≡ false }
        requires code { M.serves code.now (start_of lock.now) }
        requires count { (1 ≤ count) × (first + count < 256) × (count ≤ pass.now.parts) }
        ensures grew { Grew M.setting M.log M.next (origin_of lock.entry.now) pass.entry.now pass.exit.now }
        ensures ended { M.ended (M.setting (start_of lock.entry.now)) pass.exit.now.seen ≡ true }
    { drive_many(rt, lock, code, gate, start, pass, first, count) };
    let mut upper = ||
        requires sync { IsSync R.row }
        requires own { IsOf lock.now other.now }
        requires idle { other.now.out ≡ false }
        requires code { M.serves code.now (start_of lock.now) }
        requires count { (1 ≤ half) × (first + count + half < 256) × (half ≤ other.now.parts) }
        ensures grew { Grew M.setting M.log M.next (origin_of lock.entry.now) other.entry.now other.exit.now }
        ensures ended { M.ended (M.setting (start_of lock.entry.now)) other.exit.now.seen ≡ true }
    { drive_many(rt, lock, code, gate, start, other, first + count, half) };
    join_mut(rt, &mut lower, &mut upper);
}

/// Drives a machine that lies in a turnstile until its run has ended, by one worker for each hart.
///
/// `harts` is from 1 to 8, and the pass has at least so many parts. In a turn a worker makes one entry,
/// where its hart makes one then. Of several workers it then makes up to 15 more, as long as its hart makes
/// one: how many is drawn anew for each turn, by a generator of the worker's own, and is none in half of the
/// turns. (own) What it was lent in a turn it works on outside the turn, and appends in its next turn before
/// any other event. The gate is passed once before each turn of a worker.
///
/// All memory is taken before a worker works, in one turn of the pass. Where it is refused, no worker
/// works and no entry is made. A thread that can't be started is no error: its harts then wait for the
/// others. (own)
///
/// No worker takes a turn before all have come and run, unless one looked for the others in vain for some tenths of
/// a second. A worker whose hart had nothing to do at the end of 1,000 turns in a row gives its processor away
/// before the next one. (own)
pub fn drive<R: Threads + Wait + Sync, M: Chronicle + Send + Drop, G: Gate + Sync>(
    alloc: Global,
    rt: &R,
    lock: &Turnstile<M>,
    pass: &mut Pass<M>,
    harts: u8,
    gate: &G,
) -> Result<(), AllocError>
where
    M::Stretch: Send,
    requires harts { (1 ≤ harts) × (harts ≤ 8) }
    requires own { IsOf lock.now pass.old }
    requires idle { pass.old.out ≡ false }
    requires parts { harts ≤ pass.old.parts }
    ensures grew { OnOk result (Grew M.setting M.log M.next (origin_of lock.now) pass.old pass.new) }
    ensures ended { OnOk result (M.ended (M.setting (start_of lock.now)) pass.new.seen ≡ true) }
    ensures refused { OnErr result (Looked M.setting M.log M.next (origin_of lock.now) pass.old pass.new) }
{
    let code = take_code(alloc, rt, lock, pass)?;
    let start = Start::of(harts);
    drive_many(rt, lock, &code, gate, &start, pass, 0, harts);
    Ok(())
}
