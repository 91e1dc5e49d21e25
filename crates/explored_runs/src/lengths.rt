//! How long runs are, as far as that says which limit of steps is enough.

use mach_types::End;

/// Which runs ended at the limit, and how long the others are.
#[derive(Clone, Copy, Drop)]
pub(crate) struct Lengths {
    /// How many runs ended at the limit.
    pub(crate) limited: u64,
    /// How many entries the longest log of the others has. None where there are no others.
    pub(crate) longest: Option<u32>,
}

impl Lengths {
    /// Of no runs.
    pub(crate) fn new() -> Lengths {
        Lengths {
            limited: 0,
            longest: None,
        }
    }

    /// Counts a run that ended so behind so many entries.
    pub(crate) fn count(&mut self, end: End, steps: u32) {
        if end == End::Limit {
            self.limited = self.limited.saturating_add(1);
        } else {
            self.longest = Some(self.longest.unwrap_or(0).max(steps));
        }
    }
}
