//! The top call: from words, files and a sink to a status.

ghost use Rattle.std.specs.Prelude.{◌≡◌, None};
ghost use Rattle.command_words.specs.Words.{command_of, texts};
ghost use Rattle.outcomes.specs.Outcome.{IsOutcome, call_between};

use outside::{Gate, Shelf, Sink};
use std::alloc::Global;
use std::sync::Wait;
use std::thread::Threads;
use top_call::rseq_explained;

/// Does what the words ask for, and gives the exit status.
///
/// `words` are those of the command line without the program's own name. The answer is written to `sink`:
/// at status 0 and 1 the output of the command, at every other status one line that names the fault. It is 1 where `explore` is told
/// how its runs are expected to end, and one that it tells of ended otherwise. Where the sink fails, the status is 6, and it holds a
/// prefix of the text.
///
/// `run` alone starts worker threads and waits for them, and `explore` other threads, unless its `--jobs` is 1. The gate is
/// passed once before each turn of a worker.
///
/// It is [`rseq_explained`] without the reason.
pub fn rseq_main<R: Threads + Wait + Sync, S: Shelf, K: Sink, G: Gate + Sync>(
    alloc: Global,
    rt: &R,
    words: &[String],
    shelf: &mut S,
    sink: &mut K,
    gate: &G,
) -> u8
    ensures outcome { IsOutcome
        (call_between S.file S.faults K.held K.faults (texts words.now)
        shelf.old shelf.new sink.old sink.new) result }
    ensures untouched { command_of (texts words.now) ≡ None → shelf.new ≡ shelf.old }
{
    rseq_explained(alloc, rt, words, shelf, sink, gate).status
}
