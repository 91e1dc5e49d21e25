//! A place whose choices are all tried.

ghost use Rattle.std.specs.Prelude.{◌≡◌, ◌≢◌, ◌≤◌, ◌+◌, Err, true, false, length, IfOk, IsErrOf, OnOk};
ghost use Rattle.place_search.specs.Graphs.{IsWithMore};
ghost use Rattle.place_search.specs.Logs.{log_at, logs_of};
ghost use Rattle.place_search.specs.Searching.{IsExpandedAt, IsReached, IsSearching, IsTask, setting_for, ways_of};
ghost use Rattle.place_search.specs.Visiting.{AreEndsFound, IsMore};

use crate::paths::log_of;
use crate::sights::Sights;
use crate::stop::Stop;
use crate::task::Task;
use crate::trying::Searcher;
use crate::visiting::Reached;
use owed_signals::Dues;
use std::alloc::AllocError;

impl Searcher {
    /// Makes the parts stand at a place that was visited.
    pub(crate) fn reach(&mut self, task: &Task, place: u32) -> Result<Reached, AllocError>
        requires task { IsTask task.now }
        requires searching { IsSearching task.now self.old }
        requires place { place ≤ length self.old.visited.rows.items }
        ensures reached { IfOk result (λ from. IsReached task.now self.new from) }
        ensures place { IfOk result (λ from. from.place ≡ place) }
        ensures searching { IsSearching task.now self.new }
        ensures visited { self.new.visited ≡ self.old.visited }
        ensures graph { self.new.graph ≡ self.old.graph }
    {
        let log = log_of(task.alloc, &self.visited.rows, place)?;
        self.moved = true;
        let checkpoints = &mut self.checkpoints;
        self.made
            .stand_after(task.image, task.limits, &log, checkpoints)?;
        self.moved = false;
        let sights = Sights::of(task.alloc, &self.made.parts)?;
        let owed = self.visited.owed_at(place);
        let dues = Dues::of(&self.made.parts, owed);
        Ok(Reached {
            place,
            log,
            preemptions: self.visited.preemptions_at(place),
            sights,
            owed,
            dues,
        })
    }

    /// Tries each choice of each hart at a place that was visited, and visits the places to which their events lead. A place at
    /// which the run has ended has none, and is noted; and one whose log is as long as the step limit is left, and that is kept in mind.
    pub(crate) fn expand(&mut self, task: &Task, place: u32) -> Result<(), Stop>
        requires task { IsTask task.now }
        requires searching { IsSearching task.now self.old }
        requires place { place ≤ length self.old.visited.rows.items }
        ensures searching { IsSearching task.now self.new }
        ensures more { IsMore self.old.visited self.new.visited }
        ensures graph { IsWithMore self.old.graph self.new.graph }
        ensures expanded { OnOk result (self.new.visited.deep ≡ false
            → IsExpandedAt task.now self.new place (log_at self.new.visited.rows.items place)) }
        ensures ends { result ≢ Err Stop.Memory → AreEndsFound (setting_for task.now) self.old.visited
            → AreEndsFound (setting_for task.now) self.new.visited }
        ensures full { IsErrOf result Stop.Places → length self.new.visited.rows.items + 1 ≡ task.now.most }
        ensures unsettled { IsErrOf result Stop.Unsettled → task.now.settle ≡ true }
    {
        let from = self.reach(task, place)?;
        if self.made.parts.ended.is_some() {
            self.graph.add_end(place)?;
            return Ok(());
        }
        if from.log.len() >= task.limits.steps as usize {
            self.visited.deep = true;
            return Ok(());
        }
        self.try_all(task, &from)
    }
}
