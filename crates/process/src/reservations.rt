//! Reservations that end because others wrote.

ghost use Rattle.std.specs.Prelude.{◌≡◌, ℕ, map, nat_eq, slice_get};
ghost use Rattle.std.specs.Option.{option_map};
ghost use Rattle.process.specs.Reservations.{lost_by_all, lost_by_write, lost_unless};

use hart_state::HartState;
use mach_types::{Hart, Write};

/// A hart loses its reservation of bytes that were written.
fn lose_write(state: &mut HartState, write: Write)
    ensures { state.new ≡ lost_by_write write state.old }
{
    match write {
        Write::Stored(store) => state.lose(store.at, store.size),
        Write::Zeroed { at, length } => state.lose_run(at, length),
    }
}

/// A hart loses its reservation of bytes that were written, by one write after the other.
fn lose_all(state: &mut HartState, writes: &[Write])
    ensures { state.new ≡ lost_by_all writes.now state.old }
{
    for write in writes {
        lose_write(state, *write);
    }
}

/// The same, unless it is the hart that wrote.
fn lose_unless(state: &mut HartState, is_own: bool, writes: &[Write])
    ensures { state.new ≡ lost_unless is_own writes.now state.old }
{
    if !is_own {
        lose_all(state, writes);
    }
}

/// All harts lose their reservations of bytes that were written.
pub fn lose_everywhere(harts: &mut [HartState], writes: &[Write])
    ensures { harts.new ≡ map (lost_by_all writes.now) harts.old }
{
    for state in harts.iter_mut() {
        lose_all(state, writes);
    }
}

/// The harts other than one lose their reservations of bytes that were written.
pub fn lose_others(harts: &mut [HartState], hart: Hart, writes: &[Write])
    ensures { (k : ℕ) → slice_get harts.new k
        ≡ option_map (lost_unless (nat_eq k hart.0) writes.now) (slice_get harts.old k) }
{
    for (k, state) in harts.iter_mut().enumerate() {
        lose_unless(state, k == hart.0 as usize, writes);
    }
}
