//! What the areas of threads look at where an event is tried.

ghost use Rattle.std.specs.Prelude.{◌≡◌, IfOk};
ghost use Rattle.place_search.specs.Sights.{AreSightsOf, is_left};

use mach_types::Tid;
use process::Parts;
use settling::{Look, are_kept, has_no_handler, looks};
use std::alloc::{AllocError, Global};

/// What the areas of threads look at, before an event is tried, and whether a handler may be entered there.
#[derive(Drop)]
pub(crate) struct Sights {
    /// What each area looks at.
    looks: Vec<Look>,
    /// Whether no signal has a handler.
    unhandled: bool,
}

impl Sights {
    /// What the areas look at where these parts stand.
    pub(crate) fn of(alloc: Global, parts: &Parts) -> Result<Sights, AllocError>
        ensures { IfOk result (AreSightsOf parts.now) }
    {
        Ok(Sights {
            looks: looks(alloc, parts)?,
            unhandled: has_no_handler(&parts.kernel.signals),
        })
    }

    /// Whether an event that has led to where these parts stand leaves each thread alone that has settled: no handler may be entered,
    /// and each area looks at what it looked at, or at nothing, but for that of the thread whose instruction the event was.
    pub(crate) fn is_left(&self, parts: &Parts, own: Option<Tid>) -> bool
        ensures { result ≡ is_left self.now parts.now own }
    {
        self.unhandled && are_kept(parts, own, &self.looks)
    }
}
