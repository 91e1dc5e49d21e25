//! Whether runs can end, and whether some run executes instructions without end.

ghost use Rattle.std.specs.Prelude.{◌≡◌, ◌≢◌, [], Contains, IfOk};
ghost use Rattle.found_outcomes.specs.Endless.{IsEndless};
ghost use Rattle.settled_places.specs.SettledSearch.{IsSettledSearch};
ghost use Rattle.place_search.specs.Endings.{AreEndings};
ghost use Rattle.place_search.specs.Graphs.{IsWhole};
ghost use Rattle.place_search.specs.Logs.{logs_of};
ghost use Rattle.place_search.specs.Searching.{IsSearching, IsTask, setting_for, ways_of};
ghost use Rattle.place_search.specs.SettlingSteps.{all_or_none, none_private};

use crate::task::Task;
use crate::trying::Searcher;
use found_outcomes::{Closing, HopelessPlaces};
use graph_walks::has_busy_circle;
use settled_places::walks_tell_how_much_is_executed;
use std::alloc::{AllocError, Global};

/// What is known of where runs end. It says something where all places were visited.
#[derive(Drop)]
pub(crate) struct Endings {
    /// Whether some run executes instructions without end.
    pub(crate) endless: bool,
    /// The places from which no end can be reached.
    pub(crate) hopeless: HopelessPlaces,
}

impl Endings {
    /// Nothing is known.
    fn unknown(alloc: Global) -> Endings
        ensures { result.hopeless.nearest.items ≡ [] }
    {
        Endings {
            endless: false,
            hopeless: HopelessPlaces::none(alloc),
        }
    }
}

impl Searcher {
    /// Whether some run executes instructions without end, where all choices were tried: it is so where a walk
    /// along the edges can go round and round along a busy one.
    ///
    /// Fails only where memory is short.
    fn is_endless(&self, task: &Task) -> Result<bool, AllocError>
        requires task { IsTask task.now }
        requires searching { IsSearching task.now self.now }
        ensures { IfOk result (λ endless. IsSettledSearch (setting_for task.now) task.now.signals (all_or_none (ways_of task.now)) none_private
            (logs_of self.now.visited.rows.items)
            → IsWhole (setting_for task.now) (ways_of task.now) (logs_of self.now.visited.rows.items) self.now.graph
            → IsEndless (setting_for task.now) task.now.signals endless) }
    {
        walks_tell_how_much_is_executed();
        has_busy_circle(task.alloc, self.visited.places(), &self.graph.edges)
    }

    /// Where runs end, where all choices were tried.
    ///
    /// Fails only where memory is short.
    fn endings(&self, task: &Task) -> Result<Endings, AllocError>
        requires task { IsTask task.now }
        requires searching { IsSearching task.now self.now }
        ensures nearest { IfOk result (λ told. Contains (logs_of self.now.visited.rows.items) told.hopeless.nearest.items) }
        ensures told { IfOk result (AreEndings task.now self.now) }
    {
        let endless = self.is_endless(task)?;
        let hopeless = self.hopeless(task)?;
        Ok(Endings { endless, hopeless })
    }

    /// Why a search ends, and where runs end: that is looked for where all places were visited. Where memory is
    /// short for it, the search ends for want of it.
    pub(crate) fn close(&self, task: &Task, closing: Closing) -> (Closing, Endings)
        requires task { IsTask task.now }
        requires searching { IsSearching task.now self.now }
        ensures closing { result.0 ≢ Closing.Memory → result.0 ≡ closing }
        ensures nearest { Contains (logs_of self.now.visited.rows.items) result.1.hopeless.nearest.items }
        ensures told { result.0 ≡ Closing.Complete → AreEndings task.now self.now result.1 }
    {
        let unknown = Endings::unknown(task.alloc);
        match closing {
            Closing::Complete => match self.endings(task) {
                Ok(endings) => (Closing::Complete, endings),
                Err(_) => (Closing::Memory, unknown),
            },
            Closing::Within(most) => (Closing::Within(most), unknown),
            Closing::Places => (Closing::Places, unknown),
            Closing::Deep => (Closing::Deep, unknown),
            Closing::Memory => (Closing::Memory, unknown),
        }
    }
}
