//! The calls that are made of a run, over devices in memory, and whether each comes to what is due.

use crate::due::{lines_differ, outcome_differs, said_differs, tell};
use crate::lines::log_of;
use crate::meeting::Meeting;
use crate::rows::shelf_files;
use crate::runs::{ROOM, Run, sure_sink, words_of};
use call_reasons::{Explained, Reason};
use mach_types::Limits;
use main_call::{rseq_explained, rseq_main, rseq_quiet, sure_main, sure_quiet};
use outside::{MemShelf, MemSink, OpenGate};
use reason_text::{AtHand, Keep, Keeping, KeepingShelf, explain};
use std::alloc::{AllocError, Global};
use std::io;
use std::sync::Wait;
use std::thread::Threads;

/// The exit status of a call that wrote its output.
const DONE: u64 = 0;

/// The exit statuses of a device that failed.
const UNREAD: u64 = 5;

const UNWRITTEN: u64 = 6;

/// The most bytes of a file that are kept for a message: few, so that most scripts are read again.
const MOST_KEPT: usize = 15;

/// What is kept of files in memory: they can be read again.
#[derive(Drop)]
struct ShortKeeping;

impl Keeping for ShortKeeping {
    fn keep_of(&self, _name: &str) -> Keep {
        Keep::UpTo(MOST_KEPT)
    }
}

/// Whether a run differs from what is due of it: of `rseq_main` by workers that meet, where they are to; of
/// `rseq_explained`, and of what it says; of `rseq_main`, and of its log, played again; of `rseq_quiet`; and of
/// both over devices that never fail, where nothing is to fail. The first difference is printed.
pub(crate) fn differs<R: Print + Threads + Wait + Sync>(
    alloc: Global,
    rt: &R,
    run: &Run,
) -> io::Result<bool> {
    Ok(
        meeting_differs(alloc, rt, run)?
            || explained_differs(alloc, rt, run)?
            || main_differs(alloc, rt, run)?
            || quiet_differs(alloc, rt, run)?
            || (is_sure(run)
                && (sure_main_differs(alloc, rt, run)? || sure_quiet_differs(alloc, rt, run)?)),
    )
}

/// Whether the devices of a run are to do all that they are asked for.
fn is_sure(run: &Run) -> bool {
    run.failing.is_empty() && run.status != UNREAD && run.status != UNWRITTEN
}

/// `rseq_main` with a gate at which two workers wait for one another, where they are to.
fn meeting_differs<R: Print + Threads + Wait + Sync>(
    alloc: Global,
    rt: &R,
    run: &Run,
) -> io::Result<bool> {
    if run.row.file("meets").is_none() {
        return Ok(false);
    }
    let gate = Meeting::new();
    let mut shelf = run.shelf(alloc)?;
    let mut sink = run.sink(alloc)?;
    let status = rseq_main(alloc, rt, run.words, &mut shelf, &mut sink, &gate);
    if !gate.met() {
        return tell(rt, run, "rseq_main", "its workers don't overlap");
    }
    outcome_differs(
        rt,
        run,
        "rseq_main by workers that meet",
        status,
        sink.held(),
    )
}

/// `rseq_explained`, and what the program says of its reasons on standard error.
fn explained_differs<R: Print + Threads + Wait + Sync>(
    alloc: Global,
    rt: &R,
    run: &Run,
) -> io::Result<bool> {
    let mut shelf = KeepingShelf::new(alloc, run.shelf(alloc)?, ShortKeeping);
    let mut sink = run.sink(alloc)?;
    let explained = rseq_explained(alloc, rt, run.words, &mut shelf, &mut sink, &OpenGate);
    if outcome_differs(rt, run, "rseq_explained", explained.status, sink.held())? {
        return Ok(true);
    }
    shelf.keep_script();
    let at_hand = AtHand {
        words: run.words,
        script: shelf.kept(),
    };
    let said = text_of(alloc, &explained, at_hand)?;
    said_differs(rt, run, said.as_bytes())
}

/// The text of what couldn't be told and of the reason.
fn text_of(alloc: Global, explained: &Explained, at_hand: AtHand) -> Result<String, AllocError> {
    let mut text = String::new(alloc);
    push_reason(alloc, &mut text, &explained.untold, at_hand)?;
    push_reason(alloc, &mut text, &explained.reason, at_hand)?;
    Ok(text)
}

/// Appends the text of a reason, if there is one.
fn push_reason(
    alloc: Global,
    text: &mut String,
    reason: &Option<Reason>,
    at_hand: AtHand,
) -> Result<(), AllocError> {
    match reason {
        Some(reason) => text.push_str(explain(alloc, reason, at_hand)?.as_str()),
        None => Ok(()),
    }
}

/// `rseq_main`, and where it printed a log, `rseq_main` with `play` on the lines of that.
fn main_differs<R: Print + Threads + Wait + Sync>(
    alloc: Global,
    rt: &R,
    run: &Run,
) -> io::Result<bool> {
    let mut shelf = run.shelf(alloc)?;
    let mut sink = run.sink(alloc)?;
    let status = rseq_main(alloc, rt, run.words, &mut shelf, &mut sink, &OpenGate);
    Ok(
        outcome_differs(rt, run, "rseq_main", status, sink.held())?
            || replay_differs(alloc, rt, run, sink.held())?,
    )
}

/// `rseq_main` with `play` on the log lines that a run printed and with its limits: it comes to the same text.
/// Where the run printed no log, nothing is played.
fn replay_differs<R: Print + Threads + Wait + Sync>(
    alloc: Global,
    rt: &R,
    run: &Run,
    text: &[u8],
) -> io::Result<bool> {
    let Some(limits) = run.asked.logged else {
        return Ok(false);
    };
    if run.status != DONE {
        return Ok(false);
    }
    let Some(log) = log_of(text) else {
        return tell(rt, run, "rseq_main", "its text has no log");
    };
    let files = shelf_files(alloc, run.row.file("F"), None, Some(log))?;
    let mut shelf = MemShelf::new(alloc, files, Vec::new(alloc))?;
    let mut sink = MemSink::new(alloc, ROOM, Vec::new(alloc))?;
    let words = words_of(alloc, play_line(alloc, limits)?.as_str())?;
    let status = rseq_main(alloc, rt, &words, &mut shelf, &mut sink, &OpenGate);
    if u64::from(status) != DONE {
        return tell(rt, run, "play of its log", "its status isn't 0");
    }
    lines_differ(rt, run, "play of its log", sink.held(), text)
}

/// The command line that plays the file S on the program F with these limits.
fn play_line(alloc: Global, limits: Limits) -> Result<String, AllocError> {
    let Limits {
        harts,
        frames,
        steps,
    } = limits;
    format!(in alloc; "play F S --harts {harts} --frames {frames} --steps {steps}")
}

/// `rseq_quiet`, which waits for no workers.
fn quiet_differs<R: Print>(alloc: Global, rt: &R, run: &Run) -> io::Result<bool> {
    let mut shelf = run.shelf(alloc)?;
    let mut sink = run.sink(alloc)?;
    let status = rseq_quiet(alloc, run.words, &mut shelf, &mut sink);
    quiet_outcome_differs(rt, run, "rseq_quiet", status, sink.held())
}

/// Whether the outcome of a call without workers differs. Where the words are a `run`, it answers nothing and
/// writes nothing.
fn quiet_outcome_differs<R: Print>(
    rt: &R,
    run: &Run,
    call: &str,
    status: Option<u8>,
    text: &[u8],
) -> io::Result<bool> {
    match (status, run.asked.by_workers) {
        (None, true) => lines_differ(rt, run, call, text, &[]),
        (Some(status), false) => outcome_differs(rt, run, call, status, text),
        _ => tell(
            rt,
            run,
            call,
            "it is to answer exactly where no workers are asked for",
        ),
    }
}

/// `sure_main`, over devices that never fail.
fn sure_main_differs<R: Print + Threads + Wait + Sync>(
    alloc: Global,
    rt: &R,
    run: &Run,
) -> io::Result<bool> {
    let mut shelf = run.sure_shelf(alloc)?;
    let mut sink = sure_sink(alloc)?;
    let status = sure_main(alloc, rt, run.words, &mut shelf, &mut sink, &OpenGate);
    outcome_differs(rt, run, "sure_main", status, sink.held())
}

/// `sure_quiet`, over the same devices.
fn sure_quiet_differs<R: Print>(alloc: Global, rt: &R, run: &Run) -> io::Result<bool> {
    let mut shelf = run.sure_shelf(alloc)?;
    let mut sink = sure_sink(alloc)?;
    let status = sure_quiet(alloc, run.words, &mut shelf, &mut sink);
    quiet_outcome_differs(rt, run, "sure_quiet", status, sink.held())
}
