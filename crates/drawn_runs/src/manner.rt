//! In which manner the events of a run are drawn.

ghost use Rattle.std.specs.Prelude.{◌≡◌};
ghost use Rattle.drawn_runs.specs.Manners.{calm_of, manner_behind, manner_for};

use draw_policies::{Policies, Policy};

/// In which manner the events of a run are drawn.
#[derive(Clone, Copy, Drop)]
pub struct Manner {
    /// The seed.
    pub seed: u64,
    /// The policy.
    pub policy: Policy,
    /// How many entries there are before, by a script.
    pub scripted: u32,
    /// How many events are drawn by the policy, before the run goes on fairly.
    pub calm: u32,
}

/// After how many events a run of at most so many steps goes on fairly, where nothing else is said: half of them.
fn calm_of(calm: Option<u32>, steps: u32) -> u32
    ensures { result ≡ calm_of calm steps }
{
    match calm {
        Some(events) => events,
        None => steps / 2,
    }
}

impl Manner {
    /// The manner of a seed in a run of at most so many steps: by these policies, and from so many events on fairly; where that isn't
    /// said, from half of the steps on.
    pub fn of(policies: Policies, calm: Option<u32>, seed: u64, steps: u32) -> Manner
        ensures { result ≡ manner_for policies calm seed steps }
    {
        Manner {
            seed,
            policy: policies.of_seed(seed),
            scripted: 0,
            calm: calm_of(calm, steps),
        }
    }

    /// The same behind a script that made so many entries: what is drawn begins behind them.
    pub fn behind(self, scripted: u32) -> Manner
        ensures { result ≡ manner_behind scripted self }
    {
        Manner { scripted, ..self }
    }
}
