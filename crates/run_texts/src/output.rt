//! The text of a run.

ghost use Rattle.std.specs.Prelude.{◌≡◌, ◌<◌, ◌++◌, All, IfOk, OnErr, OnOk, codes};
ghost use Rattle.outside.specs.Counts.{NeverFalls, Rose};
ghost use Rattle.outside.specs.Told.{Gained, GainedPrefix};
ghost use Rattle.block_model.specs.Deciding.{end_of, history};
ghost use Rattle.block_model.specs.History.{console};
ghost use Rattle.place_text.specs.Ends.{end_line, number_line};
ghost use Rattle.step_log.specs.Grammar.{log_text};
ghost use Rattle.run_texts.specs.Pieces.{entries_of};
ghost use Rattle.run_texts.specs.Text.{console_text, output_text};

use log_lines::{LineBuffer, emit_around};
use mach_types::Entry;
use machine_core::Machine;
use outside::{Failed, Sink, emit};
use place_text::{push_console, push_end, push_number_line};
use std::alloc::{AllocError, Global};
use std::marker::Model;

/// The entries of a log: those of a machine, or others. A machine stands behind a pointer, so that an output is moved by a few words.
#[derive(Drop)]
pub enum Log {
    /// Those that a machine made.
    OfMachine(Box<Machine>),
    /// A log of its own.
    Own(Vec<Entry>),
}

impl Log {
    ghost use Rattle.run_texts.specs.Pieces.{entries_of};

    /// The entries.
    fn entries(&self) -> &[Entry]
        ensures { result.now ≡ entries_of self.now }
    {
        match self {
            Log::OfMachine(machine) => machine.log(),
            Log::Own(entries) => entries,
        }
    }
}

/// The lines of a log, the room in which they are made, and what stands behind them.
#[derive(Drop)]
struct Lines {
    log: Log,
    buffer: LineBuffer,
    tail: Vec<u8>,
}

/// What a command prints. The lines of a log in it are made where they are written, in pieces.
#[derive(Drop)]
pub struct Output {
    head: Vec<u8>,
    lines: Option<Lines>,
}

impl Model for Output {
    ghost use Rattle.std.specs.Prelude.{List, ℕ, ◌++◌};
    ghost use Rattle.run_texts.specs.Pieces.{AreDigits, lines_text, tail_text};

    ghost Value = { List ℕ };

    ghost view = { λ o. o.head.items ++ lines_text o.lines ++ tail_text o.lines };

    ghost invariant = { λ o. AreDigits o.lines };
}

impl Output {
    /// A text that was made whole.
    pub fn whole(text: Vec<u8>) -> Output
        ensures { result ≡ text.items }
    {
        Output {
            head: text,
            lines: None,
        }
    }

    /// A log between two texts. All memory is taken here.
    pub fn with_log(
        alloc: Global,
        head: Vec<u8>,
        log: Log,
        tail: Vec<u8>,
    ) -> Result<Output, AllocError>
        requires { All (λ e. e.hart.0 < 8) (entries_of log) }
        ensures { IfOk result (λ output. output ≡ head.items ++ log_text (entries_of log) ++ tail.items) }
    {
        let buffer = LineBuffer::new(alloc)?;
        let lines = Some(Lines { log, buffer, tail });
        Ok(Output { head, lines })
    }

    /// Writes the text. It takes no memory, and the output stays the same. After `Failed` a prefix
    /// of it was appended.
    pub fn write<K: Sink>(&mut self, sink: &mut K) -> Result<(), Failed>
        ensures whole { OnOk result (Gained (K.held sink.old) (K.held sink.new) self.old) }
        ensures prefix { OnErr result (GainedPrefix (K.held sink.old) (K.held sink.new) self.old) }
        ensures failed { OnErr result (Rose (K.faults sink.old) (K.faults sink.new)) }
        ensures counts { NeverFalls (K.faults sink.old) (K.faults sink.new) }
        ensures same { self.new ≡ self.old }
    {
        let Some(lines) = &mut self.lines else {
            return emit(sink, &self.head);
        };
        let entries = lines.log.entries();
        emit_around(sink, &self.head, &mut lines.buffer, entries, &lines.tail)
    }
}

/// The output of a run, at whose end a machine is: its console, its log and its end. All memory is taken
/// here.
#[tactic(auto, unfolding(crate::specs::Text::output_text))]
pub fn run_output(alloc: Global, machine: Machine) -> Result<Output, AllocError>
    requires { All (λ e. e.hart.0 < 8) machine.log }
    ensures { let s = machine.setting in let before = history s machine.log in
        IfOk result (λ output. output ≡ output_text (console s before) machine.log (end_of s before)) }
{
    let head = head_of(alloc, &machine, machine.log().len())?;
    let tail = tail_of(alloc, &machine)?;
    let log = Log::OfMachine(Box::new(alloc, machine)?);
    Output::with_log(alloc, head, log, tail)
}

/// The output of a run with another log. All memory is taken here.
#[tactic(auto, unfolding(crate::specs::Text::output_text))]
pub fn output_with(alloc: Global, machine: &Machine, log: Vec<Entry>) -> Result<Output, AllocError>
    requires { All (λ e. e.hart.0 < 8) log.items }
    ensures { let s = machine.now.setting in let before = history s machine.now.log in
        IfOk result (λ output. output ≡ output_text (console s before) log.items (end_of s before)) }
{
    let head = head_of(alloc, machine, log.len())?;
    let tail = tail_of(alloc, machine)?;
    Output::with_log(alloc, head, Log::Own(log), tail)
}

/// What stands before the lines of a log: the console, and how many lines there are.
fn head_of(alloc: Global, machine: &Machine, lines: usize) -> Result<Vec<u8>, AllocError>
    ensures { let s = machine.now.setting in IfOk result (λ text. text.items
        ≡ console_text (console s (history s machine.now.log)) ++ number_line (codes "log") lines) }
{
    let mut text = Vec::new(alloc);
    push_console(&mut text, machine.console())?;
    push_number_line(&mut text, b"log", lines)?;
    Ok(text)
}

/// What stands behind them: the end.
fn tail_of(alloc: Global, machine: &Machine) -> Result<Vec<u8>, AllocError>
    ensures { let s = machine.now.setting in IfOk result
        (λ text. text.items ≡ end_line (end_of s (history s machine.now.log))) }
{
    let mut text = Vec::new(alloc);
    push_end(&mut text, machine.end())?;
    Ok(text)
}
