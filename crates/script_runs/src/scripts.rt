//! A run by a script: each line asks for an event of a hart, and the events are made in order.

ghost use Rattle.std.specs.Prelude.{◌≡◌, ◌<◌, true, false, Ok, Some, IfOk, IfErr, OnOk, IsTrue, length};
ghost use Rattle.mach_types.specs.Limits.{InRange};
ghost use Rattle.elf_load.specs.Images.{IsBootable};
ghost use Rattle.block_model.specs.{Replay.is_as_said, Replay.made_by, Replay.extended, Setting.setting_of};
ghost use Rattle.block_view.specs.Counters.{AreCounts, IsCountOf, kept_counts};
ghost use Rattle.block_view.specs.Passing.{IsMadeAgain};
ghost use Rattle.whole_runs.specs.PlayReasons.{IsPlayReason};
ghost use Rattle.script_runs.specs.Playing.{IsPlaying};
ghost use Rattle.whole_runs.specs.Asks.{ask_of};
ghost use Rattle.whole_runs.specs.BadLines.{line_fault};
ghost use Rattle.whole_runs.specs.Runs.{IsWholePlay};

use block_view::{Counter, Counts, Passed, step_seen};
use call_reasons::{LineFault, Reason};
use elf_load::Image;
use mach_types::{Entry, Limits, Tid};
use machine_core::Machine;
use std::alloc::Global;
use step_log::{Line, LineReader};

/// The seed of a run that draws no choice.
const NO_SEED: u64 = 0;

/// Plays a script on an image, from the first line to the last.
///
/// Refused with the number of the first line that is malformed, whose event isn't allowed, or whose thread or
/// pc differs; or where memory is short.
pub fn play(alloc: Global, image: &Image, limits: Limits, script: &[u8]) -> Result<Machine, Reason>
    requires image { IsBootable limits.frames image.now }
    requires limits { InRange limits }
    ensures whole { IfOk result (IsWholePlay (setting_of image.now limits) script.now) }
    ensures cause { IfErr result (IsPlayReason (setting_of image.now limits) script.now) }
{
    let mut machine = Machine::boot(alloc, image, limits, NO_SEED)?;
    let mut reader = LineReader::new(script);
    'lines: while play_next(&mut machine, &mut reader, script)? {}
    Ok(machine)
}

/// A run by a script, whose acts are counted.
#[derive(Drop)]
pub struct CountedRun {
    /// The machine at the end of the run.
    pub machine: Machine,
    /// The counts of each hart.
    pub counts: Vec<Counts>,
}

/// Plays a script as [`play`] does, and counts the acts of the run, event by event.
///
/// Refused as that is.
pub fn play_counted(
    alloc: Global,
    image: &Image,
    limits: Limits,
    script: &[u8],
) -> Result<CountedRun, Reason>
    requires image { IsBootable limits.frames image.now }
    requires limits { InRange limits }
    ensures whole { IfOk result (λ run. IsWholePlay (setting_of image.now limits) script.now run.machine) }
    ensures counts { IfOk result (λ run. AreCounts run.machine.setting run.machine.log run.counts.items) }
    ensures cause { IfErr result (IsPlayReason (setting_of image.now limits) script.now) }
{
    let mut machine = Machine::boot(alloc, image, limits, NO_SEED)?;
    let mut counter = Counter::new(alloc, limits.harts)?;
    let mut reader = LineReader::new(script);
    'lines: while count_next(&mut machine, &mut counter, &mut reader, script)? {}
    let counts = counter.counts(alloc, &machine, limits.harts)?;
    Ok(CountedRun { machine, counts })
}

/// Plays the next line of a script; false where none is left.
fn play_next(
    machine: &mut Machine,
    reader: &mut LineReader<'_>,
    script: &[u8],
) -> Result<bool, Reason>
    requires { IsPlaying script.now machine.old reader.old }
    ensures setting { machine.new.setting ≡ machine.old.setting }
    ensures playing { IfOk result (λ more. IsPlaying script.now machine.new reader.new) }
    ensures shorter { IfOk result (λ more. IsTrue more → length reader.new.left < length reader.old.left) }
    ensures whole { IfOk result
        (λ more. more ≡ false → IsWholePlay machine.old.setting script.now machine.new) }
    ensures refused { IfErr result (IsPlayReason machine.old.setting script.now) }
{
    let number = machine.log().len() as u64 + 1;
    match reader.next_line() {
        Ok(None) => Ok(false),
        Ok(Some(line)) => match play_line(machine, &line) {
            Ok(()) => Ok(true),
            Err(fault) => Err(Reason::Script {
                line: number,
                fault,
            }),
        },
        Err(_) => Err(Reason::Script {
            line: number,
            fault: LineFault::Malformed,
        }),
    }
}

/// Plays the next line of a script, and counts what its event makes of the acts; false where none is left.
fn count_next(
    machine: &mut Machine,
    counter: &mut Counter,
    reader: &mut LineReader<'_>,
    script: &[u8],
) -> Result<bool, Reason>
    requires limits { InRange machine.old.setting.limits }
    requires playing { IsPlaying script.now machine.old reader.old }
    requires counted { IsCountOf machine.old (kept_counts counter.old) }
    ensures setting { machine.new.setting ≡ machine.old.setting }
    ensures playing { IfOk result (λ more. IsPlaying script.now machine.new reader.new) }
    ensures counted { OnOk result (IsCountOf machine.new (kept_counts counter.new)) }
    ensures shorter { IfOk result (λ more. IsTrue more → length reader.new.left < length reader.old.left) }
    ensures whole { IfOk result
        (λ more. more ≡ false → IsWholePlay machine.old.setting script.now machine.new) }
    ensures refused { IfErr result (IsPlayReason machine.old.setting script.now) }
{
    let number = machine.log().len() as u64 + 1;
    match reader.next_line() {
        Ok(None) => Ok(false),
        Ok(Some(line)) => match see_line(machine, &line) {
            Ok(passed) => {
                counter.follow(&passed)?;
                Ok(true)
            }
            Err(fault) => Err(Reason::Script {
                line: number,
                fault,
            }),
        },
        Err(_) => Err(Reason::Script {
            line: number,
            fault: LineFault::Malformed,
        }),
    }
}

/// Makes the event of a line as [`play_line`] does: what is seen of its entry.
fn see_line(machine: &mut Machine, line: &Line) -> Result<Passed, LineFault>
    requires limits { InRange machine.old.setting.limits }
    ensures setting { machine.new.setting ≡ machine.old.setting }
    ensures made { OnOk result (Ok machine.new.log
        ≡ extended machine.old.log (made_by machine.old.setting machine.old.log (ask_of line.now))) }
    ensures seen { IfOk result (λ passed. IsMadeAgain machine.old machine.new passed.entry passed) }
    ensures refused { IfErr result
        (λ fault. line_fault machine.old.setting machine.old.log (Some (ask_of line.now)) ≡ Some fault) }
{
    match step_seen(machine, line.hart, line.choice) {
        Ok(passed) => {
            if is_as_said(line.check, passed.entry) {
                Ok(passed)
            } else {
                Err(LineFault::Differs(passed.entry))
            }
        }
        Err(refused) => Err(LineFault::Refused(refused)),
    }
}

/// Makes the event of a line, unless it isn't allowed, or its thread or pc isn't as the line says.
fn play_line(machine: &mut Machine, line: &Line) -> Result<(), LineFault>
    ensures setting { machine.new.setting ≡ machine.old.setting }
    ensures made { OnOk result (Ok machine.new.log
        ≡ extended machine.old.log (made_by machine.old.setting machine.old.log (ask_of line.now))) }
    ensures refused { IfErr result
        (λ fault. line_fault machine.old.setting machine.old.log (Some (ask_of line.now)) ≡ Some fault) }
{
    match machine.step(line.hart, line.choice) {
        Ok(entry) => {
            if is_as_said(line.check, entry) {
                Ok(())
            } else {
                Err(LineFault::Differs(entry))
            }
        }
        Err(refused) => Err(LineFault::Refused(refused)),
    }
}

/// Whether an entry has the thread and the pc that a line says, where it says them.
pub fn is_as_said(check: Option<(Tid, u64)>, entry: Entry) -> bool
    ensures { result ≡ is_as_said check entry }
{
    match check {
        Some((tid, pc)) => entry.tid == tid && entry.pc == pc,
        None => true,
    }
}
