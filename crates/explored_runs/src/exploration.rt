//! Which runs are made, and when that is enough.

ghost use Rattle.std.specs.Prelude.{◌≡◌};
ghost use Rattle.drawn_runs.specs.Manners.{manner_for};
ghost use Rattle.explored_runs.specs.Explorations.{seed_at};

use draw_policies::{OutcomeKey, Policies};
use drawn_runs::Manner;

/// Which runs are made, and when that is enough.
#[derive(Clone, Copy, Drop)]
pub struct Exploration {
    /// Which policies draw the runs.
    pub policies: Policies,
    /// After how many events a run goes on fairly; None for half of the steps.
    pub calm: Option<u32>,
    /// The first seed. Each run has the seed behind that of the run before, and 0 stands behind the last.
    pub first: u64,
    /// How many runs are made, 1 to 1,000,000,000.
    pub runs: u64,
    /// How many different outcomes are enough, 1 to 64: no run is told behind the one that brings the last of them.
    pub until: Option<u8>,
    /// By what outcomes are told apart.
    pub apart: OutcomeKey,
}

impl Exploration {
    /// In which manner the run of a place, from 0 on, is drawn in a run of at most so many steps.
    pub(crate) fn manner(&self, place: u64, steps: u32) -> Manner
        ensures { result ≡ manner_for self.now.policies self.now.calm (seed_at self.now.first place) steps }
    {
        Manner::of(
            self.policies,
            self.calm,
            self.first.wrapping_add(place),
            steps,
        )
    }
}
