//! The choices that are tried at a place.

ghost use Rattle.std.specs.Prelude.{◌≡◌, ◌≢◌, ◌<◌, ◌+◌, ℕ, Err, true, false, length, All, IsErrOf, OnOk};
ghost use Rattle.same_places.specs.Replayed.{StandAfter};
ghost use Rattle.place_search.specs.Graphs.{IsWithMore};
ghost use Rattle.place_search.specs.Searching.{ComesInTime, IsExpandedAt, IsOpenAt, IsTask, IsTriedWhereDue, setting_for, ways_of};
ghost use Rattle.place_search.specs.Visiting.{AreEndsFound, IsMore};

use crate::graph::{Graph, is_busy};
use crate::paying::paid_with;
use crate::remade::Remade;
use crate::stop::Stop;
use crate::task::Task;
use crate::visited::Visited;
use crate::visiting::Reached;
use checkpoints::Checkpoints;
use graph_walks::Edge;
use mach_types::{Choice, Hart};
use owed_signals::{dues_say_what_comes_in_time, owed_after, sets_say_what_is_owed, traps};
use place_keys::{equal_bytes_are_equal_words, equal_words_are_the_same_place};
use same_places::{all_choices_are_listed, choices_at, try_choice};
use settling::{kept_areas_are_left, own_of};
use std::alloc::AllocError;

/// A search on its way.
#[derive(Drop)]
pub(crate) struct Searcher {
    /// What was visited.
    pub(crate) visited: Visited,
    /// Where the events of places lead.
    pub(crate) graph: Graph,
    /// The parts with which choices are tried.
    pub(crate) made: Remade,
    /// Whether these may stand elsewhere than at the place whose choices are tried.
    pub(crate) moved: bool,
    /// Copies of parts at places on the way to the one at which these were last made to stand.
    pub(crate) checkpoints: Checkpoints,
}

impl Searcher {
    /// Makes the parts stand at a place, where they may stand elsewhere.
    fn return_to(&mut self, task: &Task, from: &Reached) -> Result<(), AllocError>
        requires task { IsTask task.now }
        requires open { IsOpenAt task.now self.old from.now }
        ensures stands { OnOk result (StandAfter (setting_for task.now) from.now.log.items self.new.made.parts) }
        ensures open { IsOpenAt task.now self.new from.now }
        ensures visited { self.new.visited ≡ self.old.visited }
        ensures graph { self.new.graph ≡ self.old.graph }
        ensures start { self.new.made.start ≡ self.old.made.start }
    {
        if self.moved {
            let checkpoints = &mut self.checkpoints;
            self.made
                .stand_after(task.image, task.limits, &from.log, checkpoints)?;
            self.moved = false;
        }
        Ok(())
    }

    /// Tries a choice of a hart at a place, which comes in time, and visits the place to which its event leads, and the settling steps
    /// after it. Leaves a preemption out, where it would be one more than a run may have, and that is kept in mind. Stops where the event
    /// may reach a thread that has settled.
    fn try_one(
        &mut self,
        task: &Task,
        from: &Reached,
        hart: Hart,
        choice: Choice,
    ) -> Result<(), Stop>
        requires task { IsTask task.now }
        requires open { IsOpenAt task.now self.old from.now }
        requires hart { hart.0 < task.now.limits.harts }
        requires in_time { ComesInTime (setting_for task.now) (ways_of task.now) from.now.log.items hart.0 choice }
        ensures open { IsOpenAt task.now self.new from.now }
        ensures more { IsMore self.old.visited self.new.visited }
        ensures graph { IsWithMore self.old.graph self.new.graph }
        ensures tried { OnOk result (IsTriedWhereDue task.now self.new from.now hart.0 choice) }
        ensures ends { result ≢ Err Stop.Memory → AreEndsFound (setting_for task.now) self.old.visited
            → AreEndsFound (setting_for task.now) self.new.visited }
        ensures full { IsErrOf result Stop.Places → length self.new.visited.rows.items + 1 ≡ task.now.most }
        ensures unsettled { IsErrOf result Stop.Unsettled → task.now.settle ≡ true }
    {
        let paid = paid_with(task.preemptions, from.preemptions, choice);
        if paid.is_none() && self.visited.left_out {
            return Ok(());
        }
        self.return_to(task, from)?;
        equal_bytes_are_equal_words();
        equal_words_are_the_same_place();
        kept_areas_are_left();
        sets_say_what_is_owed();
        let own = own_of(&self.made.parts, hart, choice);
        let trapped = traps(&self.made.parts, &self.made.code, hart);
        match try_choice(&mut self.made.parts, &self.made.code, hart, choice) {
            Ok(entry) => {
                self.moved = true;
                let Some(preemptions) = paid else {
                    self.visited.left_out = true;
                    return Ok(());
                };
                if task.settle && !from.sights.is_left(&self.made.parts, own) {
                    return Err(Stop::Unsettled);
                }
                let parts = &self.made.parts;
                let owed = owed_after(task.signals, parts, from.owed, hart, choice, trapped);
                let entries = self.made.settle(task, &from.log, entry, owed)?;
                let busy = is_busy(choice, &entries);
                let to = self.visited.visit(
                    task.alloc,
                    task.most,
                    from,
                    entries,
                    owed,
                    preemptions,
                    &self.made,
                )?;
                let from = from.place;
                self.graph.add_edge(Edge { from, to, busy })?;
                Ok(())
            }
            Err(_) => Ok(()),
        }
    }

    /// Tries a choice of a hart at a place if it comes in time: where the hart owes its thread a signal, what is due there comes first.
    fn try_in_time(
        &mut self,
        task: &Task,
        from: &Reached,
        hart: Hart,
        choice: Choice,
    ) -> Result<(), Stop>
        requires task { IsTask task.now }
        requires open { IsOpenAt task.now self.old from.now }
        requires hart { hart.0 < task.now.limits.harts }
        ensures open { IsOpenAt task.now self.new from.now }
        ensures more { IsMore self.old.visited self.new.visited }
        ensures graph { IsWithMore self.old.graph self.new.graph }
        ensures tried { OnOk result (IsTriedWhereDue task.now self.new from.now hart.0 choice) }
        ensures ends { result ≢ Err Stop.Memory → AreEndsFound (setting_for task.now) self.old.visited
            → AreEndsFound (setting_for task.now) self.new.visited }
        ensures full { IsErrOf result Stop.Places → length self.new.visited.rows.items + 1 ≡ task.now.most }
        ensures unsettled { IsErrOf result Stop.Unsettled → task.now.settle ≡ true }
    {
        dues_say_what_comes_in_time();
        if !from.dues.is_in_time(hart, choice) {
            return Ok(());
        }
        self.try_one(task, from, hart, choice)
    }

    /// Tries choices of a hart at a place.
    fn try_hart(
        &mut self,
        task: &Task,
        from: &Reached,
        hart: Hart,
        choices: &[Choice],
    ) -> Result<(), Stop>
        requires task { IsTask task.now }
        requires open { IsOpenAt task.now self.old from.now }
        requires hart { hart.0 < task.now.limits.harts }
        ensures open { IsOpenAt task.now self.new from.now }
        ensures more { IsMore self.old.visited self.new.visited }
        ensures graph { IsWithMore self.old.graph self.new.graph }
        ensures tried { OnOk result (All (IsTriedWhereDue task.now self.new from.now hart.0) choices.now) }
        ensures ends { result ≢ Err Stop.Memory → AreEndsFound (setting_for task.now) self.old.visited
            → AreEndsFound (setting_for task.now) self.new.visited }
        ensures full { IsErrOf result Stop.Places → length self.new.visited.rows.items + 1 ≡ task.now.most }
        ensures unsettled { IsErrOf result Stop.Unsettled → task.now.settle ≡ true }
    {
        for choice in choices {
            self.try_in_time(task, from, hart, *choice)?;
        }
        Ok(())
    }

    /// Tries each choice of each hart at a place where the parts stand.
    pub(crate) fn try_all(&mut self, task: &Task, from: &Reached) -> Result<(), Stop>
        requires task { IsTask task.now }
        requires open { IsOpenAt task.now self.old from.now }
        requires there { self.old.moved ≡ false }
        ensures open { IsOpenAt task.now self.new from.now }
        ensures more { IsMore self.old.visited self.new.visited }
        ensures graph { IsWithMore self.old.graph self.new.graph }
        ensures expanded { OnOk result (IsExpandedAt task.now self.new from.now.place from.now.log.items) }
        ensures ends { result ≢ Err Stop.Memory → AreEndsFound (setting_for task.now) self.old.visited
            → AreEndsFound (setting_for task.now) self.new.visited }
        ensures full { IsErrOf result Stop.Places → length self.new.visited.rows.items + 1 ≡ task.now.most }
        ensures unsettled { IsErrOf result Stop.Unsettled → task.now.settle ≡ true }
    {
        all_choices_are_listed();
        let choices = choices_at(task.alloc, &self.made.parts.kernel.ready)?;
        for hart in 0..task.limits.harts {
            self.try_hart(task, from, Hart(hart), &choices)?;
        }
        Ok(())
    }
}
