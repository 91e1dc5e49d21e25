//! The text of a pair: two programs are taken, the script is read and played on both.

ghost use Rattle.std.specs.Prelude.{◌≡◌, IfErr, IfOk};
ghost use Rattle.mach_types.specs.Limits.{InRange};
ghost use Rattle.outside.specs.Counts.{NoneFalls};
ghost use Rattle.command_words.specs.Kept.{pair_said};
ghost use Rattle.outcomes.specs.Needs.{Pair as NeedsPair};
ghost use Rattle.outcomes.specs.PairFiles.{HasPairRun, IsPairOutput};
ghost use Rattle.outcomes.specs.Reasons.{IsReasonFor};

use call_reasons::{FileRole, Reason};
use command_words::PairRun;
use outside::Shelf;
use pair_runs::{pair_output, play_pair};
use run_texts::Output;
use shared_procs::Pair;
use std::alloc::Global;
use taken_files::{read_file, taken_as};

/// The text of two programs that run together.
pub fn pair_text<S: Shelf>(alloc: Global, asked: &PairRun, shelf: &mut S) -> Result<Output, Reason>
    requires { InRange asked.now.limits }
    ensures output { IfOk result (λ text. IsPairOutput (S.file shelf.old) (pair_said asked.now) text) }
    ensures cause { IfErr result
        (IsReasonFor (S.file shelf.old) (NeedsPair (pair_said asked.now)) (S.faults shelf.old) (S.faults shelf.new)
        (S.last_trouble shelf.new)) }
    ensures files { S.file shelf.new ≡ S.file shelf.old }
    ensures counts { NoneFalls (S.faults shelf.old) (S.faults shelf.new) }
{
    let pair = paired(alloc, asked, shelf)?;
    Ok(pair_output(alloc, pair)?)
}

/// Runs two programs together, on the events of the script.
fn paired<S: Shelf>(alloc: Global, asked: &PairRun, shelf: &mut S) -> Result<Pair, Reason>
    requires { InRange asked.now.limits }
    ensures run { IfOk result (λ pair. HasPairRun (S.file shelf.old) (pair_said asked.now) pair) }
    ensures cause { IfErr result
        (IsReasonFor (S.file shelf.old) (NeedsPair (pair_said asked.now)) (S.faults shelf.old) (S.faults shelf.new)
        (S.last_trouble shelf.new)) }
    ensures files { S.file shelf.new ≡ S.file shelf.old }
    ensures counts { NoneFalls (S.faults shelf.old) (S.faults shelf.new) }
{
    let limits = asked.limits;
    let one = taken_as(alloc, asked.first, FileRole::Program, &limits, shelf)?;
    let two = taken_as(alloc, asked.second, FileRole::SecondProgram, &limits, shelf)?;
    let lines = read_file(alloc, asked.script, FileRole::Script, shelf)?;
    play_pair(alloc, &one, &two, limits, &lines)
}
