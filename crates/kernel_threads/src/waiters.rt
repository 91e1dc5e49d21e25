//! The threads that wait, the longest waiting first, each with the address of its wait.

ghost use Rattle.std.specs.Prelude.{◌≡◌, not, filter, find};
ghost use Rattle.std.specs.List.{position};
ghost use Rattle.std.specs.Option.{option_map};
ghost use Rattle.kernel_threads.specs.Rows.{all_saved_in, are_rising};
ghost use Rattle.kernel_threads.specs.Table.{hears_saved};
ghost use Rattle.kernel_threads.specs.Waits.{stand_once, waits_at, is_waiter};

use crate::rows::{self, ROOM, Rows};
use arrayvec::ArrayVec;

/// A thread that waits.
#[derive(Clone, Copy, Default, Drop)]
pub struct Waiter {
    /// Its number.
    pub number: u32,
    /// The address at which it waits for a wake.
    pub at: u64,
}

/// The threads that wait, the longest waiting first.
pub type Waiters = ArrayVec<Waiter, ROOM>;

/// Whether one waits at an address and hears a wake with this mask, or without one.
fn is_next(waiter: &Waiter, live: &Rows, at: u64, mask: Option<u32>) -> bool
    requires { are_rising live.now.items }
    ensures { result ≡ waits_at at (hears_saved mask (all_saved_in live.now.items)) waiter.now }
{
    waiter.at == at && rows::hears(live, waiter.number, mask)
}

/// The number of the first one that waits at an address and hears a wake with this mask, or without one.
pub fn first_at(waiters: &[Waiter], live: &Rows, at: u64, mask: Option<u32>) -> Option<u32>
    requires { are_rising live.now.items }
    ensures { result ≡ option_map (λ waiter. waiter.number)
        (find (waits_at at (hears_saved mask (all_saved_in live.now.items))) waiters.now) }
{
    for waiter in waiters {
        if is_next(waiter, live, at, mask) {
            return Some(waiter.number);
        }
    }
    None
}

/// Where the waiter with this number stands.
fn place_of(waiters: &[Waiter], number: u32) -> Option<usize>
    ensures { result ≡ position (is_waiter number) waiters.now }
{
    waiters.iter().position(|waiter| waiter.number == number)
}

/// Takes the thread with this number away.
pub fn take_out(waiters: &mut Waiters, number: u32)
    requires { stand_once waiters.old.items }
    ensures { waiters.new.items ≡ filter (λ waiter. not (is_waiter number waiter)) waiters.old.items }
{
    if let Some(place) = place_of(waiters, number) {
        waiters.remove(place);
    }
}
