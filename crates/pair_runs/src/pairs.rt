//! A run of two processes by a script, and its text.

ghost use Rattle.std.specs.Prelude.{◌≡◌, ◌<◌, ◌++◌, ◌∷◌, [], true, false, Some, IfOk, IfErr, OnOk, IsTrue, codes, length};
ghost use Rattle.mach_types.specs.Limits.{InRange};
ghost use Rattle.elf_load.specs.Images.{IsBootable};
ghost use Rattle.block_model.specs.Replay.{Answers};
ghost use Rattle.shared_procs.specs.Pairs.{pair_setting_of};
ghost use Rattle.shared_procs.specs.PairRuns.{IsPairRun, console_of, pair_end, pair_seen, proc_state};
ghost use Rattle.place_text.specs.Ends.{number_line};
ghost use Rattle.pair_runs.specs.Playing.{IsPlayingPair};
ghost use Rattle.whole_runs.specs.PlayReasons.{IsPairPlayReason};
ghost use Rattle.run_texts.specs.PairText.{pair_end_line, pair_output, pair_tail, state_line};
ghost use Rattle.whole_runs.specs.PlayedPairs.{IsWholePair};
ghost use Rattle.whole_runs.specs.Asks.{ask_of};
ghost use Rattle.whole_runs.specs.BadLines.{line_fault_of_pair, refusal_of_pair};
ghost use Rattle.run_texts.specs.Text.{console_text};

use block_model::Refused;
use call_reasons::{LineFault, Reason};
use elf_load::Image;
use mach_types::{Entry, Limits};
use place_text::{push_console, push_number_line};
use run_texts::{Log, Output};
use script_runs::is_as_said;
use shared_procs::{Pair, PairEnd, PairRefused, ProcState};
use std::alloc::{AllocError, Global};
use step_log::{Line, LineReader};

/// Plays a script on two images, from the first line to the last.
///
/// Refused with the number of the first line that is malformed, whose event isn't allowed, or whose thread or pc differs; or where
/// memory is short.
pub fn play_pair(
    alloc: Global,
    first: &Image,
    second: &Image,
    limits: Limits,
    script: &[u8],
) -> Result<Pair, Reason>
    requires first { IsBootable limits.frames first.now }
    requires second { IsBootable limits.frames second.now }
    requires limits { InRange limits }
    ensures whole { IfOk result (IsWholePair (pair_setting_of first.now second.now limits) script.now) }
    ensures cause { IfErr result (IsPairPlayReason (pair_setting_of first.now second.now limits) script.now) }
{
    let mut pair = Pair::boot(alloc, first, second, limits)?;
    let mut reader = LineReader::new(script);
    'lines: while play_next(&mut pair, &mut reader, script)? {}
    Ok(pair)
}

/// Plays the next line of a script; false where none is left.
fn play_next(pair: &mut Pair, reader: &mut LineReader<'_>, script: &[u8]) -> Result<bool, Reason>
    requires { IsPlayingPair script.now pair.old reader.old }
    ensures setting { pair.new.setting ≡ pair.old.setting }
    ensures playing { IfOk result (λ more. IsPlayingPair script.now pair.new reader.new) }
    ensures shorter { IfOk result (λ more. IsTrue more → length reader.new.left < length reader.old.left) }
    ensures whole { IfOk result (λ more. more ≡ false → IsWholePair pair.old.setting script.now pair.new) }
    ensures refused { IfErr result (IsPairPlayReason pair.old.setting script.now) }
{
    let number = pair.log().len() as u64 + 1;
    match reader.next_line() {
        Ok(None) => Ok(false),
        Ok(Some(line)) => match play_line(pair, &line) {
            Ok(_) => Ok(true),
            Err(fault) => Err(Reason::Script {
                line: number,
                fault,
            }),
        },
        Err(_) => Err(Reason::Script {
            line: number,
            fault: LineFault::Malformed,
        }),
    }
}

/// Makes the event of a line and gives its entry, unless it isn't allowed, or its thread or pc isn't as the line says.
fn play_line(pair: &mut Pair, line: &Line) -> Result<Entry, LineFault>
    ensures setting { pair.new.setting ≡ pair.old.setting }
    ensures made { IfOk result (λ e. pair.new.log ≡ pair.old.log ++ e ∷ []) }
    ensures answers { IfOk result (Answers (ask_of line.now)) }
    ensures pair_run { IsPairRun pair.new.setting pair.new.log }
    ensures refused { IfErr result (λ fault.
        line_fault_of_pair pair.old.setting (pair_seen pair.old) (Some (ask_of line.now)) ≡ Some fault) }
{
    match pair.step(line.hart, line.choice) {
        Ok(entry) => {
            if is_as_said(line.check, entry) {
                Ok(entry)
            } else {
                Err(LineFault::Differs(entry))
            }
        }
        Err(refused) => Err(fault_of(refused)),
    }
}

/// What is wrong with a line whose event a pair refuses.
fn fault_of(refused: PairRefused) -> LineFault
    ensures { result ≡ refusal_of_pair refused }
{
    match refused {
        PairRefused::Ended => LineFault::NoneGoesOn,
        PairRefused::Full => LineFault::Refused(Refused::Full),
        PairRefused::NotEnabled(why) => LineFault::Refused(Refused::NotEnabled(why)),
    }
}

/// The output of two processes, at the end of whose run a pair is: the console of each, their log, how each stands, and how the
/// pair ends. All memory is taken here.
#[tactic(auto, unfolding(run_texts::specs::PairText::pair_text))]
pub fn pair_output(alloc: Global, pair: Pair) -> Result<Output, AllocError>
    requires limits { InRange pair.setting.limits }
    requires run { IsPairRun pair.setting pair.log }
    ensures { IfOk result (λ output. output ≡ pair_output pair) }
{
    let head = head_of(alloc, &pair)?;
    let tail = tail_of(alloc, &pair)?;
    Output::with_log(alloc, head, Log::Own(pair.into_log()), tail)
}

/// What stands before the lines of the log: both consoles, and how many lines there are.
fn head_of(alloc: Global, pair: &Pair) -> Result<Vec<u8>, AllocError>
    ensures { let m = pair_seen pair.now in IfOk result (λ text. text.items
        ≡ console_text (console_of m false) ++ console_text (console_of m true)
        ++ number_line (codes "log") (length pair.now.log)) }
{
    let mut text = Vec::new(alloc);
    push_console(&mut text, pair.console(1))?;
    push_console(&mut text, pair.console(2))?;
    push_number_line(&mut text, b"log", pair.log().len())?;
    Ok(text)
}

/// What stands behind them: how each process stands, and how the pair ends.
fn tail_of(alloc: Global, pair: &Pair) -> Result<Vec<u8>, AllocError>
    ensures { let m = pair_seen pair.now in IfOk result (λ text. text.items
        ≡ pair_tail (proc_state m false) (proc_state m true) (pair_end pair.now.setting m)) }
{
    let mut text = Vec::new(alloc);
    push_state(&mut text, b"process 1", pair.state(1))?;
    push_state(&mut text, b"process 2", pair.state(2))?;
    push_end(&mut text, pair.end())?;
    Ok(text)
}

/// Appends how a process stands, behind what names it.
fn push_state(text: &mut Vec<u8>, process: &[u8], state: ProcState) -> Result<(), AllocError>
    ensures { OnOk result (text.new.items ≡ text.old.items ++ state_line process.now state) }
{
    text.extend_from_slice(process)?;
    match state {
        ProcState::Live => text.extend_from_slice(b" live\n"),
        ProcState::Exit(status) => push_number_line(text, b" exit", usize::from(status)),
        ProcState::Killed(signal) => push_number_line(text, b" killed", usize::from(signal)),
    }
}

/// Appends the line of the pair's end.
fn push_end(text: &mut Vec<u8>, end: PairEnd) -> Result<(), AllocError>
    ensures { OnOk result (text.new.items ≡ text.old.items ++ pair_end_line end) }
{
    match end {
        PairEnd::Done => text.extend_from_slice(b"end done\n"),
        PairEnd::Stuck => text.extend_from_slice(b"end stuck\n"),
        PairEnd::Limit => text.extend_from_slice(b"end limit\n"),
        PairEnd::Unended => text.extend_from_slice(b"end open\n"),
    }
}
