//! The lines of a log, written to a sink in pieces.

ghost use Rattle.std.specs.Prelude.{◌≡◌, ◌+◌, ◌*◌, ◌<◌, ◌≤◌, ◌++◌, All, OnErr, OnOk, length, vec_len, vec_capacity};
ghost use Rattle.outside.specs.Counts.{NeverFalls, Rose};
ghost use Rattle.outside.specs.Told.{Gained, GainedPrefix};
ghost use Rattle.step_log.specs.Grammar.{log_text};
ghost use Rattle.step_log.specs.Text.{entry_text};

use crate::fronts::{FRONTS, Front, LINE_ROOM, extend, place_of};
use mach_types::{Entry, Hart, Kind, Tid};
use outside::{Failed, Sink, emit};
use std::alloc::{AllocError, Global};
use step_log::exec_line;

/// The most lines of a piece.
const LONGEST_PIECE: usize = 2_000;

/// An entry, with whose front each place begins.
const FIRST: Entry = Entry {
    hart: Hart(0),
    kind: Kind::Exec,
    tid: Tid(0),
    pc: 0,
};

/// Room for the lines of a piece, which is taken once, and fronts of lines that were made last.
#[derive(Drop)]
pub struct LineBuffer {
    bytes: Vec<u8>,
    fronts: Vec<Front>,
    ghost room: { 2000 * 40 ≤ vec_capacity bytes },
    ghost places: { vec_len fronts ≡ 16 },
}

impl LineBuffer {
    /// Room for the lines of a piece.
    pub fn new(alloc: Global) -> Result<LineBuffer, AllocError> {
        let bytes = Vec::with_capacity(alloc, LONGEST_PIECE * LINE_ROOM)?;
        let mut fronts = Vec::new(alloc);
        for _ in 0..FRONTS {
            fronts.push(Front::of(&FIRST))?;
        }
        Ok(LineBuffer { bytes, fronts })
    }

    /// Appends the line of an entry. Most are those of an `exec` by a thread whose number is one digit; others are found by their fronts.
    fn push(&mut self, entry: &Entry)
        requires hart { entry.now.hart.0 < 8 }
        requires room { vec_len self.old.bytes + 40 ≤ vec_capacity self.old.bytes }
        ensures line { self.new.bytes.items ≡ self.old.bytes.items ++ entry_text entry.now }
        ensures length { vec_len self.new.bytes ≤ vec_len self.old.bytes + 40 }
        ensures capacity { vec_capacity self.old.bytes ≤ vec_capacity self.new.bytes }
    {
        if entry.kind == Kind::Exec && entry.tid.0 < 10 {
            extend(&mut self.bytes, &exec_line(entry.hart, entry.tid, entry.pc));
            return;
        }
        let place = place_of(entry);
        self.fronts[place].push_line(&mut self.bytes, entry);
    }

    /// Makes the lines of a log, in place of those before.
    fn fill(&mut self, log: &[Entry])
        requires few { length log.now ≤ LONGEST_PIECE }
        requires harts { All (λ e. e.hart.0 < 8) log.now }
        ensures { self.new.bytes.items ≡ log_text log.now }
    {
        self.bytes.clear();
        for entry in log {
            self.push(entry);
        }
    }
}

/// Writes the lines of a log, in pieces. It takes no memory. After `Failed` a prefix of them was appended.
fn emit_lines<K: Sink>(sink: &mut K, buffer: &mut LineBuffer, log: &[Entry]) -> Result<(), Failed>
    requires { All (λ e. e.hart.0 < 8) log.now }
    ensures whole { OnOk result (Gained (K.held sink.old) (K.held sink.new) (log_text log.now)) }
    ensures prefix { OnErr result (GainedPrefix (K.held sink.old) (K.held sink.new) (log_text log.now)) }
    ensures failed { OnErr result (Rose (K.faults sink.old) (K.faults sink.new)) }
    ensures counts { NeverFalls (K.faults sink.old) (K.faults sink.new) }
{
    let mut done = 0;
    while done < log.len() {
        let end = log.len().min(done.saturating_add(LONGEST_PIECE));
        buffer.fill(&log[done..end]);
        emit(sink, &buffer.bytes)?;
        done = end;
    }
    Ok(())
}

/// Writes a text, the lines of a log and another text, one behind the other. It takes no memory. After `Failed` a prefix of
/// them was appended.
pub fn emit_around<K: Sink>(
    sink: &mut K,
    head: &[u8],
    buffer: &mut LineBuffer,
    log: &[Entry],
    tail: &[u8],
) -> Result<(), Failed>
    requires { All (λ e. e.hart.0 < 8) log.now }
    ensures whole { OnOk result (Gained (K.held sink.old) (K.held sink.new) (head.now ++ log_text log.now ++ tail.now)) }
    ensures prefix { OnErr result
        (GainedPrefix (K.held sink.old) (K.held sink.new) (head.now ++ log_text log.now ++ tail.now)) }
    ensures failed { OnErr result (Rose (K.faults sink.old) (K.faults sink.new)) }
    ensures counts { NeverFalls (K.faults sink.old) (K.faults sink.new) }
{
    emit(sink, head)?;
    emit_lines(sink, buffer, log)?;
    emit(sink, tail)
}
