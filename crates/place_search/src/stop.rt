//! Why a search stops before all places are visited.

ghost use Rattle.place_search.specs.Stops.{closing_of};
ghost use Rattle.std.specs.Prelude.{◌≡◌};

use found_outcomes::Closing;
use std::alloc::AllocError;

/// Why a search stops before all places are visited.
#[derive(Clone, Copy, Drop)]
pub(crate) enum Stop {
    /// As many places were visited as were allowed.
    Places,
    /// Memory was short.
    Memory,
    /// An event may reach a thread that has settled.
    Unsettled,
}

impl From<AllocError> for Stop {
    ghost use Rattle.place_search.specs.declared.stop.Stop.TheVariants.{Memory};

    ghost from_gives = { λ _ stop. stop ≡ Memory };

    fn from(_error: AllocError) -> Stop {
        Stop::Memory
    }
}

impl Stop {
    /// How the search ends then; None where it has to begin again, with no thread that settles.
    pub(crate) fn closing(self) -> Option<Closing>
        ensures { result ≡ closing_of self }
    {
        match self {
            Stop::Places => Some(Closing::Places),
            Stop::Memory => Some(Closing::Memory),
            Stop::Unsettled => None,
        }
    }
}
