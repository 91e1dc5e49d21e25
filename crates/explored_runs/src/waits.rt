//! How many stores of a run waited how long, in little room.

ghost use Rattle.std.specs.Prelude.{◌≡◌, ◌==◌, ◌<◌, ◌^◌, ◌++◌, ◌∷◌, [], All, IfOk, OnOk, if◌then◌else◌, length};
ghost use Rattle.explored_runs.specs.Accounts.{added};

use std::alloc::{AllocError, Global};
use std::marker::Model;

/// How many stores waited for one number of instructions.
#[derive(Clone, Copy, Drop)]
pub(crate) struct WaitCount {
    /// The number of instructions, at 255 that many or more.
    pub(crate) wait: u8,
    /// How many stores.
    pub(crate) stores: u32,
}

/// By the number of instructions, 0 to 255: how many stores of a run waited so long. Only the numbers that came up are kept.
#[derive(Drop)]
pub(crate) struct Waits {
    counts: Vec<WaitCount>,
}

impl Model for Waits {
    ghost use Rattle.std.specs.Prelude.{List, ℕ, ◌≤◌, length};
    ghost use Rattle.drawn_machine.specs.Waits.{no_waits};
    ghost use Rattle.explored_runs.specs.Waits.{with_counts};

    ghost Value = { List ℕ };

    ghost view = { λ w. with_counts no_waits w.counts.items };

    ghost invariant = { λ w. length w.counts.items ≤ 256 };
}

impl Waits {
    /// These counts.
    pub(crate) fn of(alloc: Global, counts: &[u32]) -> Result<Waits, AllocError>
        requires { length counts.now ≡ 256 }
        ensures { IfOk result (λ waits. waits ≡ counts.now) }
    {
        let mut kept = Vec::new(alloc);
        for (wait, stores) in counts.iter().enumerate() {
            keep(&mut kept, wait as u8, *stores)?;
        }
        Ok(Waits { counts: kept })
    }

    /// Adds them to the sums at their places.
    pub(crate) fn add_to(&self, sums: &mut [u64])
        requires length { length sums.old ≡ 256 }
        requires few { All (λ stores. stores < 2 ^ 63) sums.old }
        ensures { sums.new ≡ added sums.old self.now }
    {
        for count in &self.counts {
            sums[usize::from(count.wait)] += u64::from(count.stores);
        }
    }
}

/// Keeps the count of a number of instructions, where it isn't 0.
fn keep(kept: &mut Vec<WaitCount>, wait: u8, stores: u32) -> Result<(), AllocError>
    ensures { OnOk result (kept.new.items
        ≡ kept.old.items ++ (if stores == 0 then [] else record { wait = wait; stores = stores } ∷ [])) }
{
    if stores != 0 {
        kept.push(WaitCount { wait, stores })?;
    }
    Ok(())
}
