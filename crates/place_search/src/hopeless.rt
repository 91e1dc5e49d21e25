//! Places from which no end can be reached.

ghost use Rattle.std.specs.Prelude.{◌≡◌, ◌+◌, not, length, position, Contains, IfOk, IfSome};
ghost use Rattle.found_outcomes.specs.Hopeless.{AreHopeless};
ghost use Rattle.settled_places.specs.SettledSearch.{IsSettledSearch};
ghost use Rattle.place_search.specs.Graphs.{IsWhole};
ghost use Rattle.place_search.specs.Logs.{log_at, logs_of};
ghost use Rattle.place_search.specs.Searching.{IsSearching, IsTask, setting_for, ways_of};
ghost use Rattle.place_search.specs.SettlingSteps.{all_or_none, none_private};

use crate::paths::log_of;
use crate::task::Task;
use crate::trying::Searcher;
use found_outcomes::HopelessPlaces;
use graph_walks::{count_unmarked, first_unmarked, marks_of};
use mach_types::Entry;
use settled_places::{each_run_can_end, walks_tell_who_can_end};
use std::alloc::AllocError;

impl Searcher {
    /// Which of the places that were visited are hopeless, where all choices were tried: those from which no
    /// walk along the edges leads to a place at which the run is over.
    ///
    /// Fails only where memory is short.
    pub(crate) fn hopeless(&self, task: &Task) -> Result<HopelessPlaces, AllocError>
        requires task { IsTask task.now }
        requires searching { IsSearching task.now self.now }
        ensures nearest { IfOk result (λ found. Contains (logs_of self.now.visited.rows.items) found.nearest.items) }
        ensures hopeless { IfOk result (λ found. IsSettledSearch (setting_for task.now) task.now.signals (all_or_none (ways_of task.now)) none_private
            (logs_of self.now.visited.rows.items)
            → IsWhole (setting_for task.now) (ways_of task.now) (logs_of self.now.visited.rows.items) self.now.graph
            → AreHopeless (setting_for task.now) task.now.signals (logs_of self.now.visited.rows.items) found.number found.nearest.items) }
    {
        walks_tell_who_can_end();
        each_run_can_end();
        let graph = &self.graph;
        let can_end = marks_of(
            task.alloc,
            self.visited.places(),
            &graph.edges,
            &graph.ended,
        )?;
        let number = count_unmarked(&can_end);
        let nearest = self.first_log(task, &can_end)?;
        Ok(HopelessPlaces { number, nearest })
    }

    /// The log of the first place that isn't marked; where each is, that of the start.
    fn first_log(&self, task: &Task, marks: &[bool]) -> Result<Vec<Entry>, AllocError>
        requires task { IsTask task.now }
        requires searching { IsSearching task.now self.now }
        requires marks { length marks.now ≡ length self.now.visited.rows.items + 1 }
        ensures visited { IfOk result (λ log. Contains (logs_of self.now.visited.rows.items) log.items) }
        ensures first { IfOk result (λ log. IfSome (position not marks.now) (λ place. log.items
            ≡ log_at self.now.visited.rows.items place)) }
    {
        match first_unmarked(marks) {
            Some(place) => log_of(task.alloc, &self.visited.rows, place as u32),
            None => Ok(Vec::new(task.alloc)),
        }
    }
}
