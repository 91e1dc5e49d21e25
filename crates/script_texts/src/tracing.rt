//! The trace of a run: its program is taken, and the script is read and played.

ghost use Rattle.std.specs.Prelude.{◌≡◌, IfErr, IfOk};
ghost use Rattle.mach_types.specs.Limits.{InRange};
ghost use Rattle.outside.specs.Counts.{NoneFalls};
ghost use Rattle.command_words.specs.Commands.{Script};
ghost use Rattle.command_words.specs.Shown.{Trace};
ghost use Rattle.outcomes.specs.Needs.{needs_by};
ghost use Rattle.outcomes.specs.Outputs.{IsRunOutput};
ghost use Rattle.outcomes.specs.Reasons.{IsReasonFor};

use call_reasons::{FileRole, Reason};
use command_words::LineSpan;
use mach_types::Limits;
use outside::Shelf;
use run_texts::Output;
use std::alloc::Global;
use taken_files::{read_file, taken};
use traced_runs::{TracedRun, play_traced};

/// A script whose run is told, and the lines of its log that are.
#[derive(Clone, Copy, Drop)]
pub struct Traced<'a> {
    /// The script's name.
    pub script: &'a str,
    /// The lines.
    pub span: LineSpan,
}

/// The trace of a run of the program of the name on the events of the script.
pub fn traced_text<S: Shelf>(
    alloc: Global,
    program: &str,
    traced: Traced,
    limits: Limits,
    shelf: &mut S,
) -> Result<Output, Reason>
    requires { InRange limits }
    ensures output { IfOk result (λ text. IsRunOutput (S.file shelf.old) (record {
      program = program.now;
      source = Script traced.entry.script.now;
      shown = Trace traced.entry.span;
      limits = limits;
    }) text) }
    ensures cause { let needs = needs_by program.now (Script traced.entry.script.now) limits in
        IfErr result (IsReasonFor (S.file shelf.old) needs (S.faults shelf.old) (S.faults shelf.new)
        (S.last_trouble shelf.new)) }
    ensures files { S.file shelf.new ≡ S.file shelf.old }
    ensures counts { NoneFalls (S.faults shelf.old) (S.faults shelf.new) }
{
    let image = taken(alloc, program, &limits, shelf)?;
    let lines = read_file(alloc, traced.script, FileRole::Script, shelf)?;
    let told = play_traced(alloc, &image, limits, &traced.span, &lines)?;
    let TracedRun {
        machine: _machine,
        text,
    } = told;
    Ok(Output::whole(text))
}
