//! The text of an exploration: a program is taken, and its runs are made by this thread alone or by several.

ghost use Rattle.std.specs.Prelude.{◌≡◌, ◌<◌, IfErr, IfOk, IfSome, find, option_copied};
ghost use Rattle.outside.specs.Counts.{NoneFalls};
ghost use Rattle.command_words.specs.Commands.{AreInRange};
ghost use Rattle.explored_runs.specs.Accounts.{account_of};
ghost use Rattle.outcomes.specs.Explorations.{IsJudgedExploration, ends_otherwise, exploration_of, other_end};
ghost use Rattle.outcomes.specs.Needs.{Program};
ghost use Rattle.outcomes.specs.Reasons.{IsReasonFor};

use call_reasons::{OtherEnd, Reason};
use command_words::{Explore, Settings};
use explored_runs::{Exploration, Explored, Found, explore, explore_on, explored_text};
use mach_types::End;
use outcomes::Judged;
use outside::{Shelf, Sink};
use run_texts::Output;
use std::alloc::Global;
use std::thread::{Threads, available_parallelism};
use taken_files::taken;

/// How many host threads make the runs at most, where it isn't said.
const MOST_JOBS: usize = 64;

/// The exploration that these settings ask for.
fn exploration_of(settings: Settings) -> Exploration
    ensures { result ≡ exploration_of settings }
{
    Exploration {
        policies: settings.draws.policies,
        calm: settings.draws.calm,
        first: settings.seed,
        runs: settings.runs,
        until: settings.until,
        apart: settings.apart,
    }
}

/// The runs of an outcome ended otherwise than is expected.
fn ends_otherwise(expected: End, found: &Found) -> bool
    ensures { result ≡ ends_otherwise expected found.now }
{
    found.end != expected
}

/// The first outcome whose runs ended otherwise than is expected, if there is one.
fn first_other(found: &[Found], expected: End) -> Option<&Found>
    ensures { option_copied result ≡ find (ends_otherwise expected) found.now }
{
    found.iter().find(|found| ends_otherwise(expected, found))
}

/// The first outcome that is told whose runs ended otherwise than is expected, or else the runs that came to none of the outcomes that
/// are told apart; None where no end is expected, and where all ended so.
fn other_end(explored: &Explored, expected: Option<End>) -> Option<OtherEnd>
    ensures { result ≡ other_end expected (account_of explored.now) }
{
    match first_other(&explored.found, expected?) {
        Some(found) => Some(OtherEnd {
            end: Some(found.end),
            seed: found.seed,
        }),
        None => explored.others.map(|others| OtherEnd {
            end: None,
            seed: others.seed,
        }),
    }
}

/// The text of an exploration by this thread alone. The sink hears how far it is.
pub fn explored_alone<S: Shelf, K: Sink>(
    alloc: Global,
    asked: &Explore,
    shelf: &mut S,
    sink: &K,
) -> Result<Judged, Reason>
    requires { AreInRange asked.now.settings }
    ensures output { IfOk result (λ judged. IsJudgedExploration (S.file shelf.old) asked.now.program.now
        asked.now.settings judged.1 judged.0) }
    ensures cause { let needs = Program asked.now.program.now asked.now.settings.limits in
        IfErr result (IsReasonFor (S.file shelf.old) needs (S.faults shelf.old) (S.faults shelf.new)
        (S.last_trouble shelf.new)) }
    ensures files { S.file shelf.new ≡ S.file shelf.old }
    ensures counts { NoneFalls (S.faults shelf.old) (S.faults shelf.new) }
{
    let settings = asked.settings;
    let image = taken(alloc, asked.program, &settings.limits, shelf)?;
    let exploration = exploration_of(settings);
    let explored = explore(alloc, &image, settings.limits, &exploration, sink)?;
    let text = explored_text(alloc, &explored, exploration.apart)?;
    Ok((Output::whole(text), other_end(&explored, settings.expected)))
}

/// The text of an exploration by as many host threads as are asked for. The sink hears how far it is.
pub fn explored_together<R: Threads + Sync, S: Shelf, K: Sink>(
    alloc: Global,
    rt: &R,
    asked: &Explore,
    shelf: &mut S,
    sink: &K,
) -> Result<Judged, Reason>
    requires { AreInRange asked.now.settings }
    ensures output { IfOk result (λ judged. IsJudgedExploration (S.file shelf.old) asked.now.program.now
        asked.now.settings judged.1 judged.0) }
    ensures cause { let needs = Program asked.now.program.now asked.now.settings.limits in
        IfErr result (IsReasonFor (S.file shelf.old) needs (S.faults shelf.old) (S.faults shelf.new)
        (S.last_trouble shelf.new)) }
    ensures files { S.file shelf.new ≡ S.file shelf.old }
    ensures counts { NoneFalls (S.faults shelf.old) (S.faults shelf.new) }
{
    let settings = asked.settings;
    let image = taken(alloc, asked.program, &settings.limits, shelf)?;
    let exploration = exploration_of(settings);
    let jobs = jobs_of(rt, settings.jobs);
    let limits = settings.limits;
    let explored = explore_on(alloc, rt, &image, limits, &exploration, jobs, sink)?;
    let text = explored_text(alloc, &explored, exploration.apart)?;
    Ok((Output::whole(text), other_end(&explored, settings.expected)))
}

/// How many host threads make the runs: as many as are asked for, or as there are processors.
fn jobs_of<R: Threads>(rt: &R, asked: Option<u8>) -> u8
    requires { IfSome asked (λ jobs. 0 < jobs) }
    ensures { 0 < result }
{
    match asked {
        Some(jobs) => jobs,
        None => processors(rt),
    }
}

/// How many processors there are, as far as the system tells: 1 to 64.
fn processors<R: Threads>(rt: &R) -> u8
    ensures { 0 < result }
{
    let Ok(count) = available_parallelism(rt) else {
        return 1;
    };
    let count = count.get();
    if count < MOST_JOBS { count as u8 } else { 64 }
}
