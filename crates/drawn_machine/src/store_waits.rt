//! How long the stores of all harts wait, counted while a run is made.

ghost use Rattle.std.specs.Prelude.{◌≡◌, ◌<◌, ◌≤◌, ◌+◌, ◌^◌, All, OnOk, length, nat_lt, slice_index_or, slice_set};
ghost use Rattle.drawn_machine.specs.Overtaken.{pcs_of, stores_with};
ghost use Rattle.drawn_machine.specs.Waits.{clock_behind, first_clock, no_waits, waits_behind, with_wait, with_waits};

use crate::hart_clock::HartClock;
use crate::store_pcs::StorePcs;
use mach_types::Entry;
use std::alloc::AllocError;
use std::array;

/// The most harts that a machine has.
const MOST_HARTS: usize = 8;

/// From so many instructions on it isn't told how long a store waited, but that it was so long.
pub const LONG_WAIT: u32 = 255;

/// What is counted of the stores of a run while it is made.
#[derive(Drop)]
pub(crate) struct StoreWaits {
    /// Of each hart, what is counted of it.
    clocks: [HartClock; MOST_HARTS],
    /// By the number of instructions, 0 to 255: how many stores waited for so many, at the last place for [`LONG_WAIT`] or more.
    pub(crate) counts: [u32; 256],
}

impl StoreWaits {
    /// Before the first event.
    #[tactic(auto, unfolding(crate::specs::Waits::no_waits))]
    pub(crate) fn new() -> StoreWaits
        ensures clocks { All (λ clock. clock ≡ first_clock) result.clocks }
        ensures harts { length result.clocks ≡ 8 }
        ensures counts { result.counts ≡ no_waits }
    {
        StoreWaits {
            clocks: array::from_fn(|_| HartClock::new()),
            counts: [0; 256],
        }
    }

    /// Counts an event, behind which so many stores of its hart wait, and which may be a load that overtakes those that waited
    /// before it.
    pub(crate) fn count(
        &mut self,
        entry: Entry,
        waiting: u8,
        overtakes: bool,
        stores: &mut StorePcs,
    ) -> Result<(), AllocError>
        requires hart { entry.hart.0 < length self.old.clocks }
        requires instructions { (slice_index_or self.old.clocks entry.hart.0 first_clock).instructions < 1000000 }
        requires waiting { waiting ≤ 8 }
        requires one { waiting
            ≤ length (slice_index_or self.old.clocks entry.hart.0 first_clock).marks + 1 }
        requires few { All (λ stores. stores < 1000000) self.old.counts }
        ensures clocks { let before = slice_index_or self.old.clocks entry.hart.0 first_clock in
            OnOk result (self.new.clocks
            ≡ slice_set self.old.clocks entry.hart.0 (clock_behind entry.kind entry.pc waiting before)) }
        ensures counts { let before = slice_index_or self.old.clocks entry.hart.0 first_clock in
            OnOk result (self.new.counts ≡ with_waits (waits_behind entry.kind before) self.old.counts) }
        ensures stores { let before = slice_index_or self.old.clocks entry.hart.0 first_clock in
            OnOk result (stores.new ≡ stores_with (nat_lt (length before.marks) waiting) entry.pc overtakes
            (pcs_of before.marks) stores.old) }
    {
        let hart = usize::from(entry.hart.0);
        stores.count(entry.pc, &self.clocks[hart], waiting, overtakes)?;
        let clock = &mut self.clocks[hart];
        if let Some(wait) = clock.count(entry.kind, entry.pc, waiting) {
            count_wait(&mut self.counts, wait);
        }
        Ok(())
    }
}

/// Counts a store that waited for so many instructions.
fn count_wait(counts: &mut [u32], wait: u32)
    requires length { length counts.old ≡ 256 }
    requires few { All (λ stores. stores < 1000000) counts.old }
    ensures { counts.new ≡ with_wait wait counts.old }
{
    counts[wait.min(LONG_WAIT) as usize] += 1;
}
