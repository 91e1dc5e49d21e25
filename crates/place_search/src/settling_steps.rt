//! Threads that settle.

ghost use Rattle.std.specs.Prelude.{◌≡◌, ◌<◌, ◌∷◌, [], IfOk, OnOk};
ghost use Rattle.place_search.specs.Searching.{IsTask, setting_for, ways_of};
ghost use Rattle.place_search.specs.SettlingSteps.{HasMore, IsStandingAt};

use crate::remade::Remade;
use crate::task::Task;
use mach_types::{Choice, Entry, Hart};
use owed_signals::has_hart;
use same_places::try_choice;
use settling::{is_settling, settling_threads_rest};
use std::alloc::AllocError;

/// How many steps of one hart are made at most before a place is visited.
const MOST_STEPS: u32 = 20_000;

impl Remade {
    /// Makes the next instruction of a hart where it is a local step of a thread that rests outside its area, the run goes on, and the hart owes the thread no
    /// signal: the harts of this set owe one.
    /// Answers whether it did.
    fn settle_once(
        &mut self,
        task: &Task,
        log: &[Entry],
        hart: Hart,
        entries: &mut Vec<Entry>,
        owed: u8,
    ) -> Result<bool, AllocError>
        requires task { IsTask task.now }
        requires code { self.old.code ≡ task.now.image.now.pages.items }
        requires there { IsStandingAt (setting_for task.now) task.now.signals log.now entries.old.items owed self.old.parts }
        requires hart { hart.0 < task.now.limits.harts }
        ensures there { OnOk result (IsStandingAt (setting_for task.now) task.now.signals log.now entries.new.items owed self.new.parts) }
        ensures more { OnOk result (HasMore (setting_for task.now) (ways_of task.now) log.now entries.old.items entries.new.items) }
        ensures code { self.new.code ≡ self.old.code }
        ensures start { self.new.start ≡ self.old.start }
    {
        let room = (task.limits.steps as usize).saturating_sub(log.len());
        if !task.settle
            || has_hart(owed, hart)
            || entries.len() >= room
            || self.parts.ended.is_some()
        {
            return Ok(false);
        }
        if !is_settling(&self.parts, &self.code, hart) {
            return Ok(false);
        }
        settling_threads_rest();
        let Ok(entry) = try_choice(&mut self.parts, &self.code, hart, Choice::Exec) else {
            return Ok(false);
        };
        entries.push(entry)?;
        Ok(true)
    }

    /// Makes the next instructions of a hart while they are such, so many at most.
    fn settle_hart(
        &mut self,
        task: &Task,
        log: &[Entry],
        hart: Hart,
        entries: &mut Vec<Entry>,
        owed: u8,
    ) -> Result<(), AllocError>
        requires task { IsTask task.now }
        requires code { self.old.code ≡ task.now.image.now.pages.items }
        requires there { IsStandingAt (setting_for task.now) task.now.signals log.now entries.old.items owed self.old.parts }
        requires hart { hart.0 < task.now.limits.harts }
        ensures there { OnOk result (IsStandingAt (setting_for task.now) task.now.signals log.now entries.new.items owed self.new.parts) }
        ensures more { OnOk result (HasMore (setting_for task.now) (ways_of task.now) log.now entries.old.items entries.new.items) }
        ensures code { self.new.code ≡ self.old.code }
        ensures start { self.new.start ≡ self.old.start }
    {
        for _step in 0..MOST_STEPS {
            if !self.settle_once(task, log, hart, entries, owed)? {
                return Ok(());
            }
        }
        Ok(())
    }

    /// After the event of a log with one entry more: makes the local steps of each hart, the lowest first. The parts then stand where
    /// these lead, and the entries are that of the event and those of the steps. Where threads don't settle, there are none.
    pub(crate) fn settle(
        &mut self,
        task: &Task,
        log: &[Entry],
        entry: Entry,
        owed: u8,
    ) -> Result<Vec<Entry>, AllocError>
        requires task { IsTask task.now }
        requires code { self.old.code ≡ task.now.image.now.pages.items }
        requires there { IsStandingAt (setting_for task.now) task.now.signals log.now (entry ∷ []) owed self.old.parts }
        ensures there { IfOk result (λ all. IsStandingAt (setting_for task.now) task.now.signals log.now all.items owed self.new.parts) }
        ensures more { IfOk result (λ all. HasMore (setting_for task.now) (ways_of task.now) log.now (entry ∷ []) all.items) }
        ensures code { self.new.code ≡ self.old.code }
        ensures start { self.new.start ≡ self.old.start }
    {
        let mut entries = Vec::new(task.alloc);
        entries.push(entry)?;
        for hart in 0..task.limits.harts {
            self.settle_hart(task, log, Hart(hart), &mut entries, owed)?;
        }
        Ok(entries)
    }
}
