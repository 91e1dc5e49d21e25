//! The call over devices that never fail: no read fault and no write fault comes.

ghost use Rattle.std.specs.Prelude.{◌≡◌, true, IfNone, IfSome};
ghost use Rattle.outside.specs.SureShelf.{sure_file};
ghost use Rattle.outcomes.specs.Outcome.{IsSureOutcome};
ghost use Rattle.command_words.specs.Commands.{is_run};
ghost use Rattle.command_words.specs.Words.{command_of, texts};

use crate::status::rseq_main;
use outside::{Gate, SureShelf, SureSink};
use std::alloc::Global;
use std::sync::Wait;
use std::thread::Threads;
use top_call::rseq_quiet;

/// `rseq_main` over files and a sink that never fail. Its status is neither 5 nor 6, and on good
/// files it is 0, or 1 where a run ended otherwise than was expected, or 7 for want of memory.
pub fn sure_main<R: Threads + Wait + Sync, G: Gate + Sync>(
    alloc: Global,
    rt: &R,
    words: &[String],
    shelf: &mut SureShelf,
    sink: &mut SureSink,
    gate: &G,
) -> u8
    ensures outcome { IsSureOutcome (texts words.now) (sure_file shelf.old.files) sink.old.told sink.new.told
        result }
{
    rseq_main(alloc, rt, words, shelf, sink, gate)
}

/// `rseq_quiet` over files and a sink that never fail, with the same promises: None only where the words are a
/// `run`, or an `explore` without `--jobs 1`, and there nothing else but 7, for want of memory.
pub fn sure_quiet(
    alloc: Global,
    words: &[String],
    shelf: &mut SureShelf,
    sink: &mut SureSink,
) -> Option<u8>
    ensures none { IfNone result (is_run (command_of (texts words.now)) ≡ true) }
    ensures run { is_run (command_of (texts words.now)) ≡ true → IfSome result (λ status. status ≡ 7) }
    ensures unused { IfNone result ((shelf.new ≡ shelf.old) × (sink.new ≡ sink.old)) }
    ensures outcome { IfSome result
        (IsSureOutcome (texts words.now) (sure_file shelf.old.files) sink.old.told sink.new.told) }
{
    rseq_quiet(alloc, words, shelf, sink)
}
