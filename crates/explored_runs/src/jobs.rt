//! What a host thread of an exploration has, and the runs that it makes.

ghost use Rattle.std.specs.Prelude.{◌≡◌, ◌==◌, ◌≤◌, ◌<◌, ◌+◌, ◌^◌, All, IfNone, IfOk, IfSome, length, position};
ghost use Rattle.block_model.specs.Setting.{Setting, setting_of};
ghost use Rattle.explored_runs.specs.Explored.{AreMadeFrom};
ghost use Rattle.explored_runs.specs.Jobs.{IsBatch, IsExplorable, IsJob};
ghost use Rattle.explored_runs.specs.declared.exploration.Exploration.{Exploration};

use crate::made::{Made, make_run};
use crate::rounds::{Places, Round};
use crate::task::Task;
use drawn_machine::DrawnRun;
use std::alloc::{AllocError, Global};
use std::sync::atomic::AtomicU64;

/// Runs of places one behind the other, which one host thread made.
#[derive(Drop)]
pub(crate) struct Batch {
    /// The place of the first.
    pub(crate) from: u64,
    /// What each of them came to. A run is absent where memory was short, and once it is told.
    pub(crate) made: Vec<Option<Made>>,
}

/// What a host thread has.
#[derive(Drop)]
pub(crate) struct Job {
    /// The machine that makes its runs. None before the first of them, and where memory was short for one.
    pub(crate) run: Option<DrawnRun>,
    /// What it made in the last round and isn't told yet.
    pub(crate) batches: Vec<Batch>,
}

/// Jobs that have made nothing yet, so many.
pub(crate) fn new_jobs(task: &Task, count: u8) -> Result<Vec<Job>, AllocError>
    ensures count { IfOk result (λ jobs. length jobs.items ≡ count) }
    ensures jobs { IfOk result (λ jobs.
        All (IsJob (setting_of task.now.image.now task.now.limits) task.now.exploration.now) jobs.items) }
{
    let mut jobs = Vec::with_capacity(task.alloc, usize::from(count))?;
    for _ in 0..count {
        jobs.push(Job {
            run: None,
            batches: Vec::new(task.alloc),
        })?;
    }
    Ok(jobs)
}

/// The batch that begins at a place, which is then no job's any more; None where there is none.
pub(crate) fn take_batch(jobs: &mut [Job], from: u64) -> Option<Batch>
    ensures from { IfSome result (λ batch. batch.from ≡ from) }
    ensures batch { (s : Setting) (x : Exploration) → All (IsJob s x) jobs.old → IfSome result (IsBatch s x) }
    ensures jobs { (s : Setting) (x : Exploration) → All (IsJob s x) jobs.old → All (IsJob s x) jobs.new }
    ensures count { length jobs.new ≡ length jobs.old }
{
    for job in jobs.iter_mut() {
        if let Some(batch) = job.take(from) {
            return Some(batch);
        }
    }
    None
}

impl Job {
    /// Makes batches of a round, one after the other, until all its places are claimed; or until memory is short. So many runs
    /// of the round were claimed before.
    pub(crate) fn work(&mut self, task: &Task, round: Round, claimed: &AtomicU64)
        requires task { IsExplorable task.now.image.now task.now.limits task.now.exploration.now }
        requires round { round.from + round.count ≤ task.now.exploration.now.runs }
        requires job { IsJob (setting_of task.now.image.now task.now.limits) task.now.exploration.now self.old }
        ensures { IsJob (setting_of task.now.image.now task.now.limits) task.now.exploration.now self.new }
    {
        self.batches.clear();
        if self.run.is_none() {
            self.run = first_run(task).ok();
        }
        if let Some(run) = &mut self.run {
            make_batches(task, run, round, claimed, &mut self.batches);
        }
    }

    /// The batch that begins at a place, which it then hasn't any more; None where it has none. Then nothing changes.
    fn take(&mut self, from: u64) -> Option<Batch>
        ensures from { IfSome result (λ batch. batch.from ≡ from) }
        ensures none { IfNone result (self.new ≡ self.old) }
        ensures batch { (s : Setting) (x : Exploration) → IsJob s x self.old → IfSome result (IsBatch s x) }
        ensures job { (s : Setting) (x : Exploration) → IsJob s x self.old → IsJob s x self.new }
    {
        let place = place_of(&self.batches, from)?;
        let batch = self.batches.swap_remove(place);
        Some(batch)
    }
}

/// Where the first batch stands that begins at a place; None where there is none.
fn place_of(batches: &[Batch], from: u64) -> Option<usize>
    ensures { result ≡ position (λ batch. batch.from == from) batches.now }
{
    batches.iter().position(|batch| batch.from == from)
}

/// A machine that has made no run yet.
fn first_run(task: &Task) -> Result<DrawnRun, AllocError>
    requires task { IsExplorable task.now.image.now task.now.limits task.now.exploration.now }
    ensures { IfOk result (λ run. run.machine.setting ≡ setting_of task.now.image.now task.now.limits) }
{
    DrawnRun::at_start(task.alloc, task.image, task.limits, task.exploration.first)
}

/// Makes batches of a round on a machine, one after the other, until all its places are claimed; or until memory is short.
fn make_batches(
    task: &Task,
    run: &mut DrawnRun,
    round: Round,
    claimed: &AtomicU64,
    batches: &mut Vec<Batch>,
)
    requires task { IsExplorable task.now.image.now task.now.limits task.now.exploration.now }
    requires round { round.from + round.count ≤ task.now.exploration.now.runs }
    requires setting { run.old.machine.setting ≡ setting_of task.now.image.now task.now.limits }
    requires batches { All (IsBatch (setting_of task.now.image.now task.now.limits) task.now.exploration.now) batches.old.items }
    ensures setting { run.new.machine.setting ≡ setting_of task.now.image.now task.now.limits }
    ensures batches { All (IsBatch (setting_of task.now.image.now task.now.limits) task.now.exploration.now) batches.new.items }
{
    for _ in 0..round.count {
        let Some(places) = round.claim(claimed) else {
            return;
        };
        let Ok(batch) = make_batch(task, run, places) else {
            return;
        };
        if batches.push(batch).is_err() {
            return;
        }
    }
}

/// Makes the runs of some places, one after the other on one machine.
fn make_batch(task: &Task, run: &mut DrawnRun, places: Places) -> Result<Batch, AllocError>
    requires task { IsExplorable task.now.image.now task.now.limits task.now.exploration.now }
    requires some { 0 < places.count }
    requires few { places.from + places.count ≤ task.now.exploration.now.runs }
    requires setting { run.old.machine.setting ≡ setting_of task.now.image.now task.now.limits }
    ensures batch { IfOk result (IsBatch (setting_of task.now.image.now task.now.limits) task.now.exploration.now) }
    ensures setting { run.new.machine.setting ≡ setting_of task.now.image.now task.now.limits }
{
    let mut made = empty_batch(task.alloc, places.count)?;
    make_runs(task, run, places.from, &mut made);
    Ok(Batch {
        from: places.from,
        made,
    })
}

/// Makes the runs of the next places, one for each of these, one after the other on one machine. A run is absent where memory was
/// short.
fn make_runs(task: &Task, run: &mut DrawnRun, from: u64, batch: &mut [Option<Made>])
    requires task { IsExplorable task.now.image.now task.now.limits task.now.exploration.now }
    requires places { from + length batch.old < 2 ^ 64 }
    requires setting { run.old.machine.setting ≡ setting_of task.now.image.now task.now.limits }
    ensures size { length batch.new ≡ length batch.old }
    ensures made { AreMadeFrom (setting_of task.now.image.now task.now.limits) task.now.exploration.now from batch.new }
    ensures setting { run.new.machine.setting ≡ setting_of task.now.image.now task.now.limits }
{
    let mut place = from;
    for made in batch.iter_mut() {
        *made = make_run(
            task.alloc,
            run,
            task.image,
            task.limits,
            task.exploration,
            place,
        )
        .ok();
        place += 1;
    }
}

/// So many runs that aren't made yet.
fn empty_batch(alloc: Global, count: u64) -> Result<Vec<Option<Made>>, AllocError>
    ensures { IfOk result (λ batch. length batch.items ≡ count) }
{
    let mut batch = Vec::with_capacity(alloc, count as usize)?;
    for _ in 0..count {
        batch.push(None)?;
    }
    Ok(batch)
}
