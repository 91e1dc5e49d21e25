//! An exploration whose runs are shared out among host threads.

ghost use Rattle.std.specs.Prelude.{◌≡◌, ◌≤◌, ◌<◌, ◌+◌, false, All, length, IfOk, OnOk};
ghost use Rattle.mach_types.specs.Limits.{InRange};
ghost use Rattle.elf_load.specs.Images.{IsBootable};
ghost use Rattle.block_model.specs.Setting.{setting_of};
ghost use Rattle.explored_runs.specs.Accounts.{account_of, has_enough};
ghost use Rattle.explored_runs.specs.Explored.{IsExplored, IsExploring};
ghost use Rattle.explored_runs.specs.Jobs.{IsBatch, IsExplorable, IsJob};

use crate::exploration::Exploration;
use crate::explored::Explored;
use crate::jobs::{Batch, Job, new_jobs, take_batch};
use crate::rounds::Round;
use crate::saying::{progress_of, say_limited, say_outcomes};
use crate::task::Task;
use elf_load::Image;
use mach_types::Limits;
use outside::Sink;
use std::alloc::{AllocError, Global};
use std::sync::atomic::AtomicU64;
use std::thread::{self, Threads};

/// How many runs a round has for each host thread at most.
const MOST_RUNS: u64 = 4_096;

/// About how many entries the runs of a round have together for each host thread, where that many runs have more.
const ENTRIES: u64 = 200_000;

/// In how many batches a host thread makes its runs of a round, about.
const BATCHES: u64 = 32;

/// Makes the runs of an exploration on so many host threads, and tells what they come to.
///
/// The runs are made in rounds and told in the order of their seeds, so that what is told is what [`crate::explore`] tells.
/// Fails only where memory is short. Between the rounds the sink hears how far it is, and where that takes
/// long what was found so far; nothing is put there.
pub fn explore_on<R: Threads + Sync, K: Sink>(
    alloc: Global,
    rt: &R,
    image: &Image,
    limits: Limits,
    exploration: &Exploration,
    jobs: u8,
    sink: &K,
) -> Result<Explored, AllocError>
    requires image { IsBootable limits.frames image.now }
    requires limits { InRange limits }
    requires runs { exploration.now.runs ≤ 1000000000 }
    requires jobs { 0 < jobs }
    ensures { IfOk result (IsExplored (setting_of image.now limits) exploration.now) }
{
    let task = Task {
        alloc,
        image,
        limits,
        exploration,
    };
    let mut explored = Explored::nothing(alloc)?;
    let mut all = new_jobs(&task, jobs)?;
    let mut said = 0;
    'rounds: while explored.runs < exploration.runs && !explored.has_enough(exploration.until) {
        if sink.show_progress(&progress_of(&explored, exploration.runs)) {
            said = say_outcomes(alloc, sink, &explored.found, said);
        }
        tell_round(&mut explored, &mut all, rt, &task)?;
    }
    if sink.show_progress(&progress_of(&explored, exploration.runs)) {
        say_limited(alloc, sink, &explored, limits.steps);
    }
    Ok(explored)
}

/// Makes the runs of a round, and tells them, until as many outcomes were found as are asked for.
fn tell_round<R: Threads + Sync>(
    explored: &mut Explored,
    jobs: &mut [Job],
    rt: &R,
    task: &Task,
) -> Result<(), AllocError>
    requires task { IsExplorable task.now.image.now task.now.limits task.now.exploration.now }
    requires jobs { All (IsJob (setting_of task.now.image.now task.now.limits) task.now.exploration.now) jobs.old }
    requires some_jobs { 0 < length jobs.old }
    requires few_jobs { length jobs.old ≤ 255 }
    requires exploring { IsExploring (setting_of task.now.image.now task.now.limits) task.now.exploration.now (account_of explored.old) }
    requires some { explored.old.runs < task.now.exploration.now.runs }
    requires wanted { has_enough task.now.exploration.now.until (account_of explored.old) ≡ false }
    ensures exploring { OnOk result
        (IsExploring (setting_of task.now.image.now task.now.limits) task.now.exploration.now (account_of explored.new)) }
    ensures more { OnOk result (explored.old.runs < explored.new.runs) }
    ensures jobs { OnOk result
        (All (IsJob (setting_of task.now.image.now task.now.limits) task.now.exploration.now) jobs.new) }
{
    let round = next_round(explored, task.exploration.runs, jobs.len());
    make_round(rt, jobs, task, round);
    'batches: while explored.runs < round.from + round.count {
        let Some(batch) = take_batch(jobs, explored.runs) else {
            return Err(AllocError);
        };
        tell_batch(explored, task, batch)?;
        if explored.has_enough(task.exploration.until) {
            return Ok(());
        }
    }
    Ok(())
}

/// Tells the runs of a batch, until as many outcomes were found as are asked for.
fn tell_batch(explored: &mut Explored, task: &Task, mut batch: Batch) -> Result<(), AllocError>
    requires task { IsExplorable task.now.image.now task.now.limits task.now.exploration.now }
    requires batch { IsBatch (setting_of task.now.image.now task.now.limits) task.now.exploration.now batch }
    requires next { batch.from ≡ explored.old.runs }
    requires exploring { IsExploring (setting_of task.now.image.now task.now.limits) task.now.exploration.now (account_of explored.old) }
    requires wanted { has_enough task.now.exploration.now.until (account_of explored.old) ≡ false }
    ensures exploring { OnOk result
        (IsExploring (setting_of task.now.image.now task.now.limits) task.now.exploration.now (account_of explored.new)) }
    ensures more { OnOk result (explored.old.runs < explored.new.runs) }
{
    for made in batch.made.iter_mut() {
        let Some(made) = made.take() else {
            return Err(AllocError);
        };
        explored.tell(made)?;
        if explored.has_enough(task.exploration.until) {
            return Ok(());
        }
    }
    Ok(())
}

/// The runs of the round behind these, of so many in all and for so many host threads.
fn next_round(explored: &Explored, runs: u64, jobs: usize) -> Round
    requires runs { runs ≤ 1000000000 }
    requires some { explored.now.runs < runs }
    requires some_jobs { 0 < jobs }
    requires few_jobs { jobs ≤ 255 }
    ensures from { result.from ≡ explored.now.runs }
    ensures some { 0 < result.count }
    ensures few { result.from + result.count ≤ runs }
{
    let jobs = jobs as u64;
    let each = runs_of_each(explored, jobs);
    Round {
        from: explored.runs,
        count: (runs - explored.runs).min(each * jobs),
        batch: each.div_ceil(BATCHES),
    }
}

/// How many runs the round behind these has for each of so many host threads, 1 to 4,096: no more in all than were told so far, so
/// that one in which the last outcome is found is no longer than what came before it; and where runs are long, as many as have
/// about [`ENTRIES`] entries together, so that such a round is soon over too.
fn runs_of_each(explored: &Explored, jobs: u64) -> u64
    requires runs { explored.now.runs ≤ 1000000000 }
    requires jobs { 0 < jobs }
    ensures some { 0 < result }
    ensures few { result ≤ 4096 }
{
    let fitting = ENTRIES * explored.runs / explored.steps.max(1);
    fitting.min(explored.runs / jobs).clamp(1, MOST_RUNS)
}

/// Makes the runs of a round, all jobs at once, each in a host thread of its own.
fn make_round<R: Threads + Sync>(rt: &R, jobs: &mut [Job], task: &Task, round: Round)
    requires task { IsExplorable task.now.image.now task.now.limits task.now.exploration.now }
    requires some { 0 < length jobs.old }
    requires round { round.from + round.count ≤ task.now.exploration.now.runs }
    requires jobs { All (IsJob (setting_of task.now.image.now task.now.limits) task.now.exploration.now) jobs.old }
    ensures jobs { All (IsJob (setting_of task.now.image.now task.now.limits) task.now.exploration.now) jobs.new }
    ensures count { length jobs.new ≡ length jobs.old }
{
    let claimed = AtomicU64::new(0);
    let threads = jobs.len();
    thread::for_each_mut(
        rt,
        jobs,
        threads,
        &|_, job: &mut Job|
            requires { IsExplorable task.now.image.now task.now.limits task.now.exploration.now
                × (round.from + round.count ≤ task.now.exploration.now.runs)
                × IsJob (setting_of task.now.image.now task.now.limits) task.now.exploration.now job.now }
            ensures { IsJob (setting_of task.entry.now.image.now task.entry.now.limits) task.entry.now.exploration.now job.exit.now }
        {
            job.work(task, round, &claimed);
        },
    );
}
