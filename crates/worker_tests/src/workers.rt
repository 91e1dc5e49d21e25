//! Tests of `hart_workers`: a tally that workers drive.

ghost use Rattle.std.specs.Prelude.{◌≡◌, ◌≤◌, false};
ghost use Rattle.machine_lock.specs.Turnstiles.{IsOf};

use crate::tally::Tally;
use hart_workers::drive;
use mach_types::Entry;
use machine_lock::{Pass, Turnstile};
use outside::OpenGate;
use std::alloc::{AllocError, Global};
use std::process::Abort;
use std::sync::Wait;
use std::test::Fail;
use std::thread::Threads;

/// A tally of so many entries, after workers for so many harts drove it to its end.
fn driven<R: Threads + Wait + Sync>(
    alloc: Global,
    rt: &R,
    total: u32,
    harts: u8,
) -> Result<Tally, AllocError>
    requires { (1 ≤ harts) × (harts ≤ 8) }
{
    let tally = Tally::new(alloc, total, harts)?;
    let (lock, mut pass) = Turnstile::new(alloc, tally, harts)?;
    drive(alloc, rt, &lock, &mut pass, harts, &OpenGate)?;
    Ok(lock.close(pass))
}

/// A turn in which all entries are kept.
fn turn_by_hand<R: Wait>(rt: &R, lock: &Turnstile<Tally>, pass: &mut Pass<Tally>)
    requires own { IsOf lock.now pass.old }
    requires idle { pass.old.out ≡ false }
{
    let mut turn = lock.take_turn(rt, pass);
    turn.machine.keep(usize::MAX);
    lock.give_turn(pass, turn);
}

#[test]
fn a_turn_is_taken_and_given_by_hand(rt: HostRuntime) -> Result<(), Fail> {
    let tally = Tally::new(rt.alloc(), 8, 1)?;
    let (lock, mut pass) = Turnstile::new(rt.alloc(), tally, 1)?;
    turn_by_hand(&rt, &lock, &mut pass);
    Ok(())
}

/// How many entries are of each hart. The entries must come in order.
fn counts_of(rt: &impl Abort, entries: &[Entry]) -> [usize; 8] {
    let mut own = [0usize; 8];
    for i in 0..entries.len() {
        let hart = usize::from(entries[i].hart.0);
        assert!(rt; hart < 8 && entries[i].pc == i as u64);
        own[hart] = own[hart].wrapping_add(1);
    }
    own
}

#[test]
fn eight_workers_make_each_entry_once_and_in_order(rt: HostRuntime) -> Result<(), Fail> {
    let tally = driven(rt.alloc(), &rt, 100_000, 8)?;
    assert!(rt; tally.entries().len() == 100_000);
    for count in &counts_of(&rt, tally.entries()) {
        assert!(rt; *count == 12_500);
    }
    Ok(())
}

#[test]
fn stretches_used(rt: HostRuntime) -> Result<(), Fail> {
    assert!(rt; driven(rt.alloc(), &rt, 1000, 2)?.appends() != 0);
    Ok(())
}
