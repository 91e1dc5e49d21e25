//! The text of each command: its program is run, its guest is made or tried, its runs are explored, all its outcomes are searched
//! for, or its two programs are run together.

ghost use Rattle.std.specs.Prelude.{◌≡◌, IfErr, IfOk, Some, false, true};
ghost use Rattle.mach_types.specs.Limits.{InRange};
ghost use Rattle.outside.specs.Counts.{NoneFalls};
ghost use Rattle.command_words.specs.Commands.{HasHartsOf, HasItsHarts, HasItsShown, HasLimits};
ghost use Rattle.command_words.specs.Commands.{IsShownOf, is_by_workers, needs_workers};
ghost use Rattle.command_words.specs.Kept.{run_said, said, shown_said, source_said};
ghost use Rattle.outcomes.specs.Needs.{needs_by, needs_of};
ghost use Rattle.outcomes.specs.Judged.{IsJudged};
ghost use Rattle.outcomes.specs.Outputs.{IsRunOutput};
ghost use Rattle.outcomes.specs.Reasons.{IsReasonFor};

use asked_explorations::{explored_alone, explored_together, searched_text};
use call_reasons::Reason;
use command_words::{Command, Run, Shown, Source};
use outcomes::Judged;
use outside::{Gate, Shelf, Sink};
use program_runs::{end_text, guest_output, summed_text, tried, workers_run_text};
use run_texts::Output;
use script_texts::{Traced, pair_text, traced_text};
use std::alloc::Global;
use std::sync::Wait;
use std::thread::Threads;

/// The text of a command that needs no workers. Before it is written the sink may hear how far it is.
pub(crate) fn quiet_text<S: Shelf, K: Sink>(
    alloc: Global,
    command: &Command,
    shelf: &mut S,
    sink: &K,
) -> Result<Judged, Reason>
    requires limits { HasLimits (said command.now) }
    requires harts { HasItsHarts (said command.now) }
    requires shown { HasItsShown (said command.now) }
    requires quiet { needs_workers (said command.now) ≡ false }
    ensures output { IfOk result
        (λ judged. IsJudged (S.file shelf.old) (Some (said command.now)) judged.1 judged.0) }
    ensures cause { let needs = needs_of (Some (said command.now)) in
        IfErr result (IsReasonFor (S.file shelf.old) needs (S.faults shelf.old) (S.faults shelf.new)
        (S.last_trouble shelf.new)) }
    ensures files { S.file shelf.new ≡ S.file shelf.old }
    ensures counts { NoneFalls (S.faults shelf.old) (S.faults shelf.new) }
{
    match command {
        Command::Runs(run) => Ok((quiet_run_text(alloc, run, shelf)?, None)),
        Command::Makes(guest) => Ok((guest_output(alloc, *guest)?, None)),
        Command::Tries(trial) => Ok((tried(alloc, trial)?, None)),
        Command::Explores(explore) => explored_alone(alloc, explore, shelf, sink),
        Command::Searches(search) => Ok((searched_text(alloc, search, shelf, sink)?, None)),
        Command::Pairs(pair) => Ok((pair_text(alloc, pair, shelf)?, None)),
    }
}

/// The text of a command by workers, or by several host threads. Before it is written the sink may hear how far it is.
pub(crate) fn workers_text<R: Threads + Wait + Sync, S: Shelf, K: Sink, G: Gate + Sync>(
    alloc: Global,
    rt: &R,
    command: &Command,
    shelf: &mut S,
    sink: &K,
    gate: &G,
) -> Result<Judged, Reason>
    requires limits { HasLimits (said command.now) }
    requires shown { HasItsShown (said command.now) }
    requires workers { needs_workers (said command.now) ≡ true }
    ensures output { IfOk result
        (λ judged. IsJudged (S.file shelf.old) (Some (said command.now)) judged.1 judged.0) }
    ensures cause { let needs = needs_of (Some (said command.now)) in
        IfErr result (IsReasonFor (S.file shelf.old) needs (S.faults shelf.old) (S.faults shelf.new)
        (S.last_trouble shelf.new)) }
    ensures files { S.file shelf.new ≡ S.file shelf.old }
    ensures counts { NoneFalls (S.faults shelf.old) (S.faults shelf.new) }
{
    match command {
        Command::Runs(run) => Ok((workers_run_text(alloc, rt, run, shelf, gate)?, None)),
        Command::Explores(explore) => explored_together(alloc, rt, explore, shelf, sink),
        Command::Makes(_) | Command::Tries(_) | Command::Searches(_) | Command::Pairs(_) =>
            unreachable!(),
    }
}

/// The text of a run that needs no workers.
fn quiet_run_text<S: Shelf>(alloc: Global, run: &Run, shelf: &mut S) -> Result<Output, Reason>
    requires limits { InRange run.now.limits }
    requires harts { HasHartsOf (source_said run.now.source) run.now.limits }
    requires shown { IsShownOf (source_said run.now.source) (shown_said run.now.shown) }
    requires quiet { is_by_workers (source_said run.now.source) ≡ false }
    ensures output { IfOk result (λ text. IsRunOutput (S.file shelf.old) (run_said run.now) text) }
    ensures cause { let needs = needs_by run.now.program.now (source_said run.now.source) run.now.limits in
        IfErr result (IsReasonFor (S.file shelf.old) needs (S.faults shelf.old) (S.faults shelf.new)
        (S.last_trouble shelf.new)) }
    ensures files { S.file shelf.new ≡ S.file shelf.old }
    ensures counts { NoneFalls (S.faults shelf.old) (S.faults shelf.new) }
{
    match (run.source, run.shown) {
        (Source::Script(script), Shown::Summary) => {
            summed_text(alloc, run.program, script, run.limits, shelf)
        }
        (Source::Script(script), Shown::Trace(span)) => {
            traced_text(
                alloc,
                run.program,
                Traced { script, span },
                run.limits,
                shelf,
            )
        }
        (_, Shown::Output | Shown::Place(_) | Shown::Acts | Shown::Gathered) => end_text(
            alloc, run, shelf,
        ),
        (
            Source::Rule
            | Source::Workers { .. }
            | Source::Drawn { .. }
            | Source::DrawnAfter { .. },
            Shown::Summary | Shown::Trace(_),
        ) => unreachable!(),
    }
}
