//! Which runs are made in a round, and how they are shared out.

ghost use Rattle.std.specs.Prelude.{◌≡◌, ◌≤◌, ◌<◌, ◌+◌, ◌^◌, IfSome};

use std::sync::atomic::{AtomicU64, Ordering};

/// Places one behind the other, of runs that aren't made yet.
#[derive(Clone, Copy, Drop)]
pub(crate) struct Places {
    /// The first of them.
    pub(crate) from: u64,
    /// How many there are.
    pub(crate) count: u64,
}

/// The runs that are made before the next are told.
#[derive(Clone, Copy, Drop)]
pub(crate) struct Round {
    /// The place of the first.
    pub(crate) from: u64,
    /// How many there are.
    pub(crate) count: u64,
    /// How many of them a host thread makes before it looks for more, at least 1.
    pub(crate) batch: u64,
    ghost some: { 0 < batch },
    ghost places: { from + count < 2 ^ 64 },
}

impl Round {
    /// The next places that no host thread has claimed; None where there are none left. So many runs of the round were
    /// claimed before it, and those places are claimed then.
    pub(crate) fn claim(self, claimed: &AtomicU64) -> Option<Places>
        ensures some { IfSome result (λ places. 0 < places.count) }
        ensures behind { IfSome result (λ places. self.from ≤ places.from) }
        ensures within { IfSome result (λ places. places.from + places.count ≤ self.from + self.count) }
    {
        let offset = claimed.fetch_add(self.batch, Ordering::SeqCst);
        if offset >= self.count {
            return None;
        }
        Some(Places {
            from: self.from + offset,
            count: self.batch.min(self.count - offset),
        })
    }
}
