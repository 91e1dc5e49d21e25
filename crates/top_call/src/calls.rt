//! The top call: from words, files and a sink to a status, and to the reason that goes with it.

ghost use Rattle.std.specs.Prelude.{◌≡◌, true, None, Some, Err, IfErr, IfNone, IfOk, IfSome};
ghost use Rattle.outside.specs.Counts.{NoneFalls};
ghost use Rattle.command_words.specs.Commands.{HasItsShown, HasLimits, is_alone, is_run, needs_workers};
ghost use Rattle.command_words.specs.Kept.{said};
ghost use Rattle.command_words.specs.Words.{command_of, texts};
ghost use Rattle.call_reasons.specs.declared.faults.Fault.TheVariants.{Memory};
ghost use Rattle.call_reasons.specs.declared.reasons.Reason.TheVariants.{NoMemory};
ghost use Rattle.outcomes.specs.Answers.{IsAnswerFor, IsTold};
ghost use Rattle.outcomes.specs.Outcome.{IsOutcome, call_between};
ghost use Rattle.outcomes.specs.Reasons.{IsExplained};

use crate::texts::{quiet_text, workers_text};
use call_reasons::{Explained, Reason};
use command_words::{Command, Source, WordsError, read_words};
use outcomes::Judged;
use outside::{Gate, Shelf, Sink};
use std::alloc::Global;
use std::sync::Wait;
use std::thread::Threads;
use told_answers::tell;

/// Does what the words ask for, and gives the exit status, with the reason that goes with it.
///
/// `words` are those of the command line without the program's own name. The answer is written to `sink`:
/// at status 0 and 1 the output of the command, at every other status one line that names the fault. It is 1 where `explore` is told
/// how its runs are expected to end, and one that it tells of ended otherwise. Where the sink fails, the status is 6, and it holds a
/// prefix of the text. While runs are explored, or all outcomes are searched for, the
/// sink hears how far it is.
///
/// `run` alone starts worker threads and waits for them, and `explore` other threads, unless its `--jobs` is 1. The gate is
/// passed once before each turn of a worker.
///
/// What [`rseq_quiet`] does is tried first, and what comes of it is the answer unless the command is left to workers. No clause
/// says so. Both have the same clause `outcome`, and two such calls answer alike, unless memory runs out in one of them
/// (`calls_agree` of `output_laws`).
pub fn rseq_explained<R: Threads + Wait + Sync, S: Shelf, K: Sink, G: Gate + Sync>(
    alloc: Global,
    rt: &R,
    words: &[String],
    shelf: &mut S,
    sink: &mut K,
    gate: &G,
) -> Explained
    ensures explained { IsExplained
        (call_between S.file S.faults K.held K.faults (texts words.now)
        shelf.old shelf.new sink.old sink.new)
        (record { shelf = S.last_trouble shelf.new; sink = K.last_trouble sink.new }) result }
    ensures untouched { command_of (texts words.now) ≡ None → shelf.new ≡ shelf.old }
{
    match quiet_explained(alloc, words, shelf, sink) {
        Ok(explained) => explained,
        Err(command) => {
            let answer = workers_text(alloc, rt, &command, shelf, &*sink, gate);
            tell(sink, answer)
        }
    }
}

/// The exit status of every command but `run`, and of `explore` with `--jobs 1` alone; None only where the words are another, and then
/// neither the shelf nor the sink was called. Where they are such and memory runs out before that is known, the line of that fault
/// is written at status 7.
///
/// It takes no runtime, so it waits for nobody and returns. [`rseq_explained`] does the same first.
pub fn rseq_quiet<S: Shelf, K: Sink>(
    alloc: Global,
    words: &[String],
    shelf: &mut S,
    sink: &mut K,
) -> Option<u8>
    ensures none { IfNone result (is_run (command_of (texts words.now)) ≡ true) }
    ensures run { is_run (command_of (texts words.now)) ≡ true → IfSome result (IsTold (K.held sink.old)
        (K.held sink.new) (K.faults sink.old) (K.faults sink.new) (Err Memory)) }
    ensures unused { IfNone result ((shelf.new ≡ shelf.old) × (sink.new ≡ sink.old)) }
    ensures outcome { IfSome result (IsOutcome
        (call_between S.file S.faults K.held K.faults (texts words.now)
        shelf.old shelf.new sink.old sink.new)) }
    ensures untouched { command_of (texts words.now) ≡ None → shelf.new ≡ shelf.old }
{
    match quiet_explained(alloc, words, shelf, sink) {
        Ok(explained) => Some(explained.status),
        Err(_) => None,
    }
}

/// The same, and the reason that goes with the status; Err with the command where it is left to workers.
fn quiet_explained<'a, S: Shelf, K: Sink>(
    alloc: Global,
    words: &'a [String],
    shelf: &mut S,
    sink: &mut K,
) -> Result<Explained, Command<'a>>
    ensures left { IfErr result (λ command. command_of (texts words.now) ≡ Some (said command)) }
    ensures workers { IfErr result (λ command. needs_workers (said command) ≡ true) }
    ensures limits { IfErr result (λ command. HasLimits (said command)) }
    ensures shown { IfErr result (λ command. HasItsShown (said command)) }
    ensures run { is_run (command_of (texts words.now)) ≡ true → IfOk result (λ explained.
        IsTold (K.held sink.old) (K.held sink.new) (K.faults sink.old) (K.faults sink.new) (Err Memory)
        explained.status) }
    ensures unused { IfErr result (λ command. (shelf.new ≡ shelf.old) × (sink.new ≡ sink.old)) }
    ensures explained { IfOk result (IsExplained
        (call_between S.file S.faults K.held K.faults (texts words.now)
        shelf.old shelf.new sink.old sink.new)
        (record { shelf = S.last_trouble shelf.new; sink = K.last_trouble sink.new })) }
    ensures untouched { command_of (texts words.now) ≡ None → shelf.new ≡ shelf.old }
{
    match quiet_answer(alloc, words, shelf, &*sink) {
        Ok(answer) => Ok(tell(sink, answer)),
        Err(command) => Err(command),
    }
}

/// The output of the words, or the reason why there is none; Err with the command where it is left to workers. Where
/// it is, the answer is that, or want of memory before it is known. All memory is taken here.
fn quiet_answer<'a, S: Shelf, K: Sink>(
    alloc: Global,
    words: &'a [String],
    shelf: &mut S,
    sink: &K,
) -> Result<Result<Judged, Reason>, Command<'a>>
    ensures left { IfErr result (λ command. command_of (texts words.now) ≡ Some (said command)) }
    ensures workers { IfErr result (λ command. needs_workers (said command) ≡ true) }
    ensures limits { IfErr result (λ command. HasLimits (said command)) }
    ensures shown { IfErr result (λ command. HasItsShown (said command)) }
    ensures run { is_run (command_of (texts words.now)) ≡ true
        → IfOk result (λ answer. answer ≡ Err NoMemory) }
    ensures unread { is_run (command_of (texts words.now)) ≡ true → shelf.new ≡ shelf.old }
    ensures unused { IfErr result (λ command. shelf.new ≡ shelf.old) }
    ensures answer { IfOk result
        (IsAnswerFor (S.file shelf.old) (texts words.now) (S.faults shelf.old) (S.faults shelf.new)
        (S.last_trouble shelf.new)) }
    ensures untouched { command_of (texts words.now) ≡ None → shelf.new ≡ shelf.old }
    ensures files { S.file shelf.new ≡ S.file shelf.old }
    ensures counts { NoneFalls (S.faults shelf.old) (S.faults shelf.new) }
{
    match read_words(alloc, words) {
        Ok(command) => {
            if needs_workers(&command) {
                Err(command)
            } else {
                Ok(quiet_text(alloc, &command, shelf, sink))
            }
        }
        Err(WordsError::Wrong(fault)) => Ok(Err(Reason::Words(fault))),
        Err(WordsError::NoMemory) => Ok(Err(Reason::NoMemory)),
    }
}

/// Whether runs are made by one host thread alone.
fn is_alone(jobs: Option<u8>) -> bool
    ensures { result ≡ is_alone jobs }
{
    match jobs {
        Some(jobs) => jobs == 1,
        None => false,
    }
}

/// Whether a command needs workers, or other host threads.
fn needs_workers(command: &Command) -> bool
    ensures { result ≡ needs_workers (said command.now) }
{
    match command {
        Command::Runs(run) => match run.source {
            Source::Workers { .. } => true,
            Source::Rule | Source::Script(_) | Source::Drawn { .. } | Source::DrawnAfter { .. } =>
                false,
        },
        Command::Makes(_) | Command::Tries(_) | Command::Searches(_) | Command::Pairs(_) => false,
        Command::Explores(explore) => !is_alone(explore.settings.jobs),
    }
}
