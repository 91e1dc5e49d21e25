//! The text of a run of which something is shown at its end: its program is taken and run as its log comes about.

ghost use Rattle.std.specs.Prelude.{◌≡◌, IfErr, IfOk, false, true};
ghost use Rattle.mach_types.specs.Limits.{InRange};
ghost use Rattle.elf_load.specs.Images.{IsBootable};
ghost use Rattle.outside.specs.Counts.{NoneFalls};
ghost use Rattle.command_words.specs.Commands.{Drawn, DrawnAfter, HasHartsOf, IsShownAtEnd, IsShownOf};
ghost use Rattle.command_words.specs.Commands.{Rule, Script, Workers, is_by_workers};
ghost use Rattle.command_words.specs.Kept.{run_said, shown_said, source_said};
ghost use Rattle.command_words.specs.Shown.{Summary};
ghost use Rattle.outcomes.specs.Needs.{needs_by};
ghost use Rattle.outcomes.specs.Outputs.{HasRun, IsRunOutput};
ghost use Rattle.outcomes.specs.Reasons.{IsReasonFor};

use crate::shown::shown_text;
use call_reasons::Reason;
use command_words::{Draws, Run, Source};
use drawn_machine::{draw_on, run_drawn};
use drawn_runs::Manner;
use elf_load::Image;
use mach_types::Limits;
use machine_core::Machine;
use outside::{Gate, Shelf};
use rule_runs::{run_solo, run_workers};
use run_texts::Output;
use script_runs::{play, play_counted};
use shown_runs::summary_output;
use std::alloc::Global;
use std::sync::Wait;
use std::thread::Threads;
use taken_files::{ScriptFiles, scripted, taken};

/// A run of a program.
#[derive(Drop)]
struct ProgramRun {
    /// The program's image.
    image: Image,
    /// The machine at the end of the run.
    machine: Machine,
}

/// The text of a run that needs no workers, of which something is shown at its end.
pub fn end_text<S: Shelf>(alloc: Global, run: &Run, shelf: &mut S) -> Result<Output, Reason>
    requires limits { InRange run.now.limits }
    requires harts { HasHartsOf (source_said run.now.source) run.now.limits }
    requires shown { IsShownAtEnd (shown_said run.now.shown) }
    requires quiet { is_by_workers (source_said run.now.source) ≡ false }
    ensures output { IfOk result (λ text. IsRunOutput (S.file shelf.old) (run_said run.now) text) }
    ensures cause { let needs = needs_by run.now.program.now (source_said run.now.source) run.now.limits in
        IfErr result (IsReasonFor (S.file shelf.old) needs (S.faults shelf.old) (S.faults shelf.new)
        (S.last_trouble shelf.new)) }
    ensures files { S.file shelf.new ≡ S.file shelf.old }
    ensures counts { NoneFalls (S.faults shelf.old) (S.faults shelf.new) }
{
    let made = quiet_run(alloc, run, shelf)?;
    let ProgramRun { image, machine } = made;
    Ok(shown_text(alloc, run, &image, machine)?)
}

/// The summary of a run of the program of the first name on the events of the script of the second.
pub fn summed_text<S: Shelf>(
    alloc: Global,
    program: &str,
    script: &str,
    limits: Limits,
    shelf: &mut S,
) -> Result<Output, Reason>
    requires { InRange limits }
    ensures output { IfOk result (λ text. IsRunOutput (S.file shelf.old) (record {
      program = program.now;
      source = Script script.now;
      shown = Summary;
      limits = limits;
    }) text) }
    ensures cause { let needs = needs_by program.now (Script script.now) limits in
        IfErr result (IsReasonFor (S.file shelf.old) needs (S.faults shelf.old) (S.faults shelf.new)
        (S.last_trouble shelf.new)) }
    ensures files { S.file shelf.new ≡ S.file shelf.old }
    ensures counts { NoneFalls (S.faults shelf.old) (S.faults shelf.new) }
{
    let files = scripted(alloc, program, script, limits, shelf)?;
    let ScriptFiles { image, lines } = files;
    let run = play_counted(alloc, &image, limits, &lines)?;
    Ok(summary_output(alloc, &run.counts, &run.machine)?)
}

/// The text of a run by workers.
pub fn workers_run_text<R: Threads + Wait + Sync, S: Shelf, G: Gate + Sync>(
    alloc: Global,
    rt: &R,
    run: &Run,
    shelf: &mut S,
    gate: &G,
) -> Result<Output, Reason>
    requires limits { InRange run.now.limits }
    requires shown { IsShownOf (source_said run.now.source) (shown_said run.now.shown) }
    requires workers { is_by_workers (source_said run.now.source) ≡ true }
    ensures output { IfOk result (λ text. IsRunOutput (S.file shelf.old) (run_said run.now) text) }
    ensures cause { let needs = needs_by run.now.program.now (source_said run.now.source) run.now.limits in
        IfErr result (IsReasonFor (S.file shelf.old) needs (S.faults shelf.old) (S.faults shelf.new)
        (S.last_trouble shelf.new)) }
    ensures files { S.file shelf.new ≡ S.file shelf.old }
    ensures counts { NoneFalls (S.faults shelf.old) (S.faults shelf.new) }
{
    let made = waiting_run(alloc, rt, run, shelf, gate)?;
    let ProgramRun { image, machine } = made;
    Ok(shown_text(alloc, run, &image, machine)?)
}

/// Runs a program without workers.
fn quiet_run<S: Shelf>(alloc: Global, run: &Run, shelf: &mut S) -> Result<ProgramRun, Reason>
    requires limits { InRange run.now.limits }
    requires harts { HasHartsOf (source_said run.now.source) run.now.limits }
    requires quiet { is_by_workers (source_said run.now.source) ≡ false }
    ensures run { IfOk result (λ made. HasRun (S.file shelf.old) run.now.program.now
        (source_said run.now.source) run.now.limits made.image made.machine) }
    ensures bootable { IfOk result (λ made. IsBootable run.now.limits.frames made.image) }
    ensures cause { let needs = needs_by run.now.program.now (source_said run.now.source) run.now.limits in
        IfErr result (IsReasonFor (S.file shelf.old) needs (S.faults shelf.old) (S.faults shelf.new)
        (S.last_trouble shelf.new)) }
    ensures files { S.file shelf.new ≡ S.file shelf.old }
    ensures counts { NoneFalls (S.faults shelf.old) (S.faults shelf.new) }
{
    match run.source {
        Source::Rule => rule_run(alloc, run.program, run.limits, shelf),
        Source::Script(script) => script_run(alloc, run.program, script, run.limits, shelf),
        Source::Drawn { seed, draws } => {
            drawn_run(alloc, run.program, run.limits, seed, draws, shelf)
        }
        Source::DrawnAfter {
            script,
            seed,
            draws,
        } => drawn_after_run(alloc, run.program, script, run.limits, seed, draws, shelf),
        Source::Workers { .. } => unreachable!(),
    }
}

/// Runs a program by workers.
fn waiting_run<R: Threads + Wait + Sync, S: Shelf, G: Gate + Sync>(
    alloc: Global,
    rt: &R,
    run: &Run,
    shelf: &mut S,
    gate: &G,
) -> Result<ProgramRun, Reason>
    requires limits { InRange run.now.limits }
    requires workers { is_by_workers (source_said run.now.source) ≡ true }
    ensures run { IfOk result (λ made. HasRun (S.file shelf.old) run.now.program.now
        (source_said run.now.source) run.now.limits made.image made.machine) }
    ensures bootable { IfOk result (λ made. IsBootable run.now.limits.frames made.image) }
    ensures cause { let needs = needs_by run.now.program.now (source_said run.now.source) run.now.limits in
        IfErr result (IsReasonFor (S.file shelf.old) needs (S.faults shelf.old) (S.faults shelf.new)
        (S.last_trouble shelf.new)) }
    ensures files { S.file shelf.new ≡ S.file shelf.old }
    ensures counts { NoneFalls (S.faults shelf.old) (S.faults shelf.new) }
{
    match run.source {
        Source::Workers { seed } => {
            workers_run(alloc, rt, run.program, run.limits, seed, shelf, gate)
        }
        Source::Rule | Source::Script(_) | Source::Drawn { .. } | Source::DrawnAfter { .. } =>
            unreachable!(),
    }
}

/// Runs the program of this name by the fixed rule.
fn rule_run<S: Shelf>(
    alloc: Global,
    program: &str,
    limits: Limits,
    shelf: &mut S,
) -> Result<ProgramRun, Reason>
    requires limits { InRange limits }
    requires one_hart { limits.harts ≡ 1 }
    ensures run { IfOk result
        (λ run. HasRun (S.file shelf.old) program.now Rule limits run.image run.machine) }
    ensures bootable { IfOk result (λ run. IsBootable limits.frames run.image) }
    ensures cause { let needs = needs_by program.now Rule limits in
        IfErr result (IsReasonFor (S.file shelf.old) needs (S.faults shelf.old) (S.faults shelf.new)
        (S.last_trouble shelf.new)) }
    ensures files { S.file shelf.new ≡ S.file shelf.old }
    ensures counts { NoneFalls (S.faults shelf.old) (S.faults shelf.new) }
{
    let image = taken(alloc, program, &limits, shelf)?;
    let machine = run_solo(alloc, &image, limits)?;
    Ok(ProgramRun { image, machine })
}

/// Runs the program of the first name on the events of the script of the second.
fn script_run<S: Shelf>(
    alloc: Global,
    program: &str,
    script: &str,
    limits: Limits,
    shelf: &mut S,
) -> Result<ProgramRun, Reason>
    requires { InRange limits }
    ensures run { IfOk result
        (λ run. HasRun (S.file shelf.old) program.now (Script script.now) limits run.image run.machine) }
    ensures bootable { IfOk result (λ run. IsBootable limits.frames run.image) }
    ensures cause { let needs = needs_by program.now (Script script.now) limits in
        IfErr result (IsReasonFor (S.file shelf.old) needs (S.faults shelf.old) (S.faults shelf.new)
        (S.last_trouble shelf.new)) }
    ensures files { S.file shelf.new ≡ S.file shelf.old }
    ensures counts { NoneFalls (S.faults shelf.old) (S.faults shelf.new) }
{
    let files = scripted(alloc, program, script, limits, shelf)?;
    let ScriptFiles { image, lines } = files;
    let machine = play(alloc, &image, limits, &lines)?;
    Ok(ProgramRun { image, machine })
}

/// Runs the program of this name on the events that the seed draws.
fn drawn_run<S: Shelf>(
    alloc: Global,
    program: &str,
    limits: Limits,
    seed: u64,
    draws: Draws,
    shelf: &mut S,
) -> Result<ProgramRun, Reason>
    requires { InRange limits }
    ensures run { IfOk result
        (λ run. HasRun (S.file shelf.old) program.now (Drawn seed draws) limits run.image run.machine) }
    ensures bootable { IfOk result (λ run. IsBootable limits.frames run.image) }
    ensures cause { let needs = needs_by program.now (Drawn seed draws) limits in
        IfErr result (IsReasonFor (S.file shelf.old) needs (S.faults shelf.old) (S.faults shelf.new)
        (S.last_trouble shelf.new)) }
    ensures files { S.file shelf.new ≡ S.file shelf.old }
    ensures counts { NoneFalls (S.faults shelf.old) (S.faults shelf.new) }
{
    let image = taken(alloc, program, &limits, shelf)?;
    let manner = Manner::of(draws.policies, draws.calm, seed, limits.steps);
    let drawn = run_drawn(alloc, &image, limits, &manner)?;
    Ok(ProgramRun {
        image,
        machine: drawn.machine,
    })
}

/// Runs the program of the first name on the events of the script of the second, and on those that the seed draws behind them.
fn drawn_after_run<S: Shelf>(
    alloc: Global,
    program: &str,
    script: &str,
    limits: Limits,
    seed: u64,
    draws: Draws,
    shelf: &mut S,
) -> Result<ProgramRun, Reason>
    requires { InRange limits }
    ensures run { IfOk result (λ run. HasRun (S.file shelf.old) program.now (DrawnAfter script.now seed draws) limits
        run.image run.machine) }
    ensures bootable { IfOk result (λ run. IsBootable limits.frames run.image) }
    ensures cause { let needs = needs_by program.now (DrawnAfter script.now seed draws) limits in
        IfErr result (IsReasonFor (S.file shelf.old) needs (S.faults shelf.old) (S.faults shelf.new)
        (S.last_trouble shelf.new)) }
    ensures files { S.file shelf.new ≡ S.file shelf.old }
    ensures counts { NoneFalls (S.faults shelf.old) (S.faults shelf.new) }
{
    let mut made = script_run(alloc, program, script, limits, shelf)?;
    let scripted = made.machine.log().len() as u32;
    let manner = Manner::of(draws.policies, draws.calm, seed, limits.steps);
    draw_on(&mut made.machine, &manner.behind(scripted));
    Ok(made)
}

/// Runs the program of this name by workers that choose by the seed.
fn workers_run<R: Threads + Wait + Sync, S: Shelf, G: Gate + Sync>(
    alloc: Global,
    rt: &R,
    program: &str,
    limits: Limits,
    seed: u64,
    shelf: &mut S,
    gate: &G,
) -> Result<ProgramRun, Reason>
    requires { InRange limits }
    ensures run { IfOk result
        (λ run. HasRun (S.file shelf.old) program.now (Workers seed) limits run.image run.machine) }
    ensures bootable { IfOk result (λ run. IsBootable limits.frames run.image) }
    ensures cause { let needs = needs_by program.now (Workers seed) limits in
        IfErr result (IsReasonFor (S.file shelf.old) needs (S.faults shelf.old) (S.faults shelf.new)
        (S.last_trouble shelf.new)) }
    ensures files { S.file shelf.new ≡ S.file shelf.old }
    ensures counts { NoneFalls (S.faults shelf.old) (S.faults shelf.new) }
{
    let image = taken(alloc, program, &limits, shelf)?;
    let machine = run_workers(alloc, rt, &image, limits, seed, gate)?;
    Ok(ProgramRun { image, machine })
}
