//! Requests of barriers, as each hart keeps them (membarrier(2)). A set of harts has a bit for each of 8.

ghost use Rattle.std.specs.Prelude.{◌≡◌, ◌<◌, ◌==◌, ◌||◌, ℕ, Some, if◌then◌else◌, slice_get};
ghost use Rattle.std.specs.Option.{option_map};
ghost use Rattle.mach_types.specs.Kernel.Barriers.{harts_that};
ghost use Rattle.mach_types.specs.Kernel.Scheduling.{has_hart};
ghost use Rattle.block_model.specs.Requests as requests;
ghost use Rattle.block_model.specs.Sights.{is_all_taken};
ghost use Rattle.sys_calls.specs.Made.{barrier_of};
ghost use Rattle.process.specs.Barriers.{asked_by, is_busy, noticed, noticed_unless, taken_with};
ghost use Rattle.process.specs.OtherProcess.{taken_aside};

use crate::interrupt::pc_after;
use hart_state::HartState;
use mach_types::{Hart, Outcome};
use sys_calls::CallEnd;

/// A set with one more hart.
fn with_hart(set: u8, hart: Hart) -> u8
    requires { hart.0 < 8 }
    ensures { result ≡ requests.with_hart hart.0 set }
{
    set | 1 << hart.0
}

/// A set without one.
fn without_hart(set: u8, hart: Hart) -> u8
    requires { hart.0 < 8 }
    ensures { result ≡ requests.without_hart hart.0 set }
{
    set & !(1 << hart.0)
}

/// Whether a hart is in a set.
fn has_hart(set: u8, hart: usize) -> bool
    ensures { result ≡ has_hart set hart }
{
    hart < 8 && (set >> hart) % 2 == 1
}

/// Whether a thread runs on the hart with a number.
fn is_busy(harts: &[HartState], hart: u8) -> bool
    ensures { result ≡ is_busy harts.now hart }
{
    match harts.get(hart as usize) {
        Some(state) => !state.is_idle(),
        None => false,
    }
}

/// The set of the harts on which threads run, of 8 at most.
pub fn running_harts(harts: &[HartState]) -> u8
    ensures { result ≡ harts_that (is_busy harts.now) 8 }
{
    let mut running = 0;
    for hart in 0..8u8 {
        if is_busy(harts, hart) {
            running += 1u8 << hart;
        }
    }
    running
}

/// A barrier of a hart asks another, or doesn't ask it.
fn ask(state: &mut HartState, is_about: bool, hart: Hart, restart: bool)
    requires { hart.0 < 8 }
    ensures { state.new ≡ (if is_about
        then record state.old {
          requests = requests.with_hart hart.0 state.old.requests;
          restart = restart || state.old.restart;
        }
        else state.old) }
{
    if is_about {
        state.requests = with_hart(state.requests, hart);
        state.restart |= restart;
    }
}

/// A barrier of a hart asks each hart that it is about.
fn ask_each(harts: &mut [HartState], hart: Hart, targets: u8, restart: bool)
    requires { hart.0 < 8 }
    ensures { (k : ℕ) → slice_get harts.new k
        ≡ option_map (asked_by k hart.0 (Some (record { targets = targets; restart = restart })))
        (slice_get harts.old k) }
{
    for (k, state) in harts.iter_mut().enumerate() {
        ask(state, has_hart(targets, k), hart, restart);
    }
}

/// Where the call of the thread on a hart ended as a barrier, each hart that it is about has a request of it.
pub fn ask_all(harts: &mut [HartState], hart: Hart, end: CallEnd)
    requires { hart.0 < 8 }
    ensures { (k : ℕ) → slice_get harts.new k
        ≡ option_map (asked_by k hart.0 (barrier_of end)) (slice_get harts.old k) }
{
    if let CallEnd::Barrier { targets, restart } = end {
        ask_each(harts, hart, targets, restart);
    }
}

/// The barrier of the thread on a hart, where it waits in one, waits for another hart no longer.
fn notice(state: &mut HartState, hart: Hart)
    requires { hart.0 < 8 }
    ensures { state.new ≡ noticed hart.0 state.old }
{
    if let Some(left) = state.waits {
        state.waits = Some(without_hart(left, hart));
    }
}

/// The same, unless it is that hart.
fn notice_unless(state: &mut HartState, is_own: bool, hart: Hart)
    requires { hart.0 < 8 }
    ensures { state.new ≡ noticed_unless is_own hart.0 state.old }
{
    if !is_own {
        notice(state, hart);
    }
}

/// The barriers of threads on other harts wait for this one no longer.
pub fn notice_all(harts: &mut [HartState], hart: Hart)
    requires { hart.0 < 8 }
    ensures { (k : ℕ) → slice_get harts.new k
        ≡ option_map (noticed_unless (k == hart.0) hart.0) (slice_get harts.old k) }
{
    for (k, state) in harts.iter_mut().enumerate() {
        notice_unless(state, k == hart.0 as usize, hart);
    }
}

/// A hart of a process, where an event of another process took the requests at a hart: at this one, or at another.
fn take_aside(state: &mut HartState, is_own: bool, hart: Hart)
    requires { hart.0 < 8 }
    ensures { state.new ≡ taken_aside is_own hart.0 state.old }
{
    notice(state, hart);
    if is_own {
        state.requests = 0;
        state.restart = false;
    }
}

/// An event of another process took the requests at a hart: there are none there any more, and no barrier waits for it.
pub fn take_all_aside(harts: &mut [HartState], hart: Hart)
    requires { hart.0 < 8 }
    ensures { (k : ℕ) → slice_get harts.new k
        ≡ option_map (taken_aside (k == hart.0) hart.0) (slice_get harts.old k) }
{
    for (k, state) in harts.iter_mut().enumerate() {
        take_aside(state, k == hart.0 as usize, hart);
    }
}

/// A hart takes its requests. Where its thread was interrupted it goes on where that says.
pub fn take_requests(state: &mut HartState, came: Option<Outcome>)
    ensures { state.new ≡ taken_with came state.old }
{
    if let Some(outcome) = came {
        state.pc = pc_after(state.pc, outcome);
    }
    state.requests = 0;
    state.restart = false;
    state.reserved = None;
}

/// Whether the thread on a hart waits in a barrier that waits for no hart any more.
pub fn is_all_taken(state: &HartState) -> bool
    ensures { result ≡ is_all_taken state.now.waits }
{
    match state.waits {
        Some(left) => left == 0,
        None => false,
    }
}
