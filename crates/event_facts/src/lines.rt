//! Which line of a log did what: where the bytes come from that a hart reads.

ghost use Rattle.std.specs.Prelude.{◌≡◌, ◌≢◌, ℕ, ◌==◌, ◌/◌, ◌<◌, ◌≤◌, ◌++◌, [], map, drop, IfOk, IsTrue, OnOk, if◌then◌else◌, length, option_to_list, true};
ghost use Rattle.mach_types.specs.Bytes as memory;
ghost use Rattle.rv_inst.specs.Accesses.{bytes};
ghost use Rattle.block_model.specs.Footprints.{bytes_of, bytes_of_all, has_byte, have_byte};
ghost use Rattle.event_facts.specs.Deeds.{drained_in, entered_in, executed_in};
ghost use Rattle.event_facts.specs.Facts.{is_of_one};
ghost use Rattle.event_facts.specs.Lines.{line_behind, numbered};
ghost use Rattle.event_facts.specs.Sources.{source_over};
ghost use Rattle.event_facts.specs.Tied.{AreLinesOf, items_at, kept_on, kept_source, line_in};
ghost use Rattle.event_facts.specs.Written.{IsWordOf};

use crate::cuts::{are_same, cut_by_long_writes, cut_by_stores};
use crate::deeds::Deed;
use crate::long_writes::{LongWrite, last_line};
use crate::sources::memory_source;
use crate::written::{Word, Written};
use fact_types::Source;
use mach_types::{Hart, Store, Write};
use std::alloc::{AllocError, Global};

/// A store, with the line of the log in which it was executed.
#[derive(Clone, Copy, Drop)]
pub(crate) struct Numbered {
    /// The number of the line, from 1 on.
    pub line: u32,
    /// The store.
    pub store: Store,
}

impl Numbered {
    /// Whether it has the byte at an address.
    fn covers(&self, at: u64) -> bool
        ensures { result ≡ memory.covers self.now.store at }
    {
        let end = u128::from(self.store.at) + u128::from(self.store.size);
        self.store.at <= at && u128::from(at) < end
    }

    /// Where the byte at an address comes from behind it, where it comes from there below it.
    fn over(&self, at: u64, below: Source) -> Source
        ensures { result ≡ (if memory.covers self.now.store at then Source.Waiting self.now.line else below) }
    {
        if self.covers(at) {
            Source::Waiting(self.line)
        } else {
            below
        }
    }
}

/// The lines of a log in which the stores were executed that wait, and in which each byte of memory was
/// written last.
#[derive(Drop)]
pub struct Lines {
    /// The stores that wait on each hart, the oldest first.
    pub(crate) waiting: Vec<Vec<Numbered>>,
    /// The bytes that were written, 1 to 8 of them at once.
    pub(crate) written: Written,
    /// The writes of more bytes, the oldest first.
    pub(crate) long: Vec<LongWrite>,
}

/// No store waits on any of so many harts.
fn none_waiting(alloc: Global, harts: u8) -> Result<Vec<Vec<Numbered>>, AllocError>
    ensures count { IfOk result (λ waiting. length waiting.items ≡ harts) }
    ensures none { IfOk result (λ waiting. (k : ℕ) → items_at waiting.items k ≡ []) }
{
    let mut waiting = Vec::new(alloc);
    for _ in 0..harts {
        waiting.push(Vec::new(alloc))?;
    }
    Ok(waiting)
}

/// Where the byte at an address comes from behind these stores, where it comes from there below them.
fn source_over(waiting: &[Numbered], at: u64, below: Source) -> Source
    ensures { result ≡ source_over waiting.now at below }
{
    let mut source = below;
    for numbered in waiting {
        source = numbered.over(at, source);
    }
    source
}

/// A store was executed, and waits behind the others.
fn push_waiting(
    waiting: &mut Vec<Numbered>,
    executed: Option<Store>,
    line: u32,
) -> Result<(), AllocError>
    ensures { OnOk result (waiting.new.items
        ≡ waiting.old.items ++ map (numbered line) (option_to_list executed)) }
{
    if let Some(store) = executed {
        waiting.push(Numbered { line, store })?;
    }
    Ok(())
}

/// The oldest entered memory, or none did.
fn drop_waiting(waiting: &mut Vec<Numbered>, drained: bool)
    ensures { waiting.new.items ≡ drop (if drained then 1 else 0) waiting.old.items }
{
    if drained && !waiting.is_empty() {
        waiting.remove(0);
    }
}

impl Lines {
    /// Those of a log with no entries, on so many harts.
    pub fn new(alloc: Global, harts: u8) -> Result<Lines, AllocError>
        ensures { IfOk result (λ lines. AreLinesOf harts [] lines) }
    {
        Ok(Lines {
            waiting: none_waiting(alloc, harts)?,
            written: Written::new(alloc),
            long: Vec::new(alloc),
        })
    }

    /// The lines of the 8 bytes among which the byte at an address is.
    pub(crate) fn word_of(&self, at: u64) -> Word
        ensures known { IsWordOf self.now.written result }
        ensures number { result.number ≡ at / 8 }
    {
        self.written.word_of(at)
    }

    /// The line in which the byte at an address was written last, where the lines of these 8 bytes are known; 0 where it
    /// wasn't.
    fn line_of(&self, known: &Word, at: u64) -> u32
        requires { IsWordOf self.now.written known.now }
        ensures { result ≡ line_in self.now at }
    {
        self.written
            .line_at(known, at)
            .max(last_line(&self.long, at))
    }

    /// Where the byte at an address comes from that a hart reads, where the lines of these 8 bytes are known.
    pub(crate) fn source(&self, known: &Word, hart: Hart, at: u64) -> Source
        requires known { IsWordOf self.now.written known.now }
        requires hart { hart.0 < length self.now.waiting.items }
        ensures { result ≡ kept_source self.now hart.0 at }
    {
        let below = memory_source(self.line_of(known, at));
        source_over(&self.waiting[usize::from(hart.0)], at, below)
    }

    /// Whether it is seen at once that all of so many bytes from an address on come from where the first does, as
    /// a hart reads them: they are among these 8, were written last in one line, and no write cuts them.
    pub(crate) fn is_of_one(&self, known: &Word, hart: Hart, at: u64, size: u8) -> bool
        requires known { IsWordOf self.now.written known.now }
        requires word { known.now.number ≡ at / 8 }
        requires size { size ≤ 8 }
        requires hart { hart.0 < length self.now.waiting.items }
        ensures { IsTrue result → is_of_one (kept_source self.now hart.0) at size ≡ true }
    {
        let place = (at % 8) as u8;
        if place + size > 8 || !are_same(&known.lines, place, size) {
            return false;
        }
        let waiting = &self.waiting[usize::from(hart.0)];
        if cut_by_stores(waiting, at, size) || cut_by_long_writes(&self.long, at, size) {
            return false;
        }
        true
    }

    /// The line in which the store was executed that enters memory in a line: that of the oldest that waits
    /// on the hart, where it is that one, and else this line.
    pub(crate) fn line_behind(&self, hart: Hart, line: u32, drained: bool) -> u32
        requires { hart.0 < length self.now.waiting.items }
        ensures { result ≡ line_behind (kept_on self.now hart.0) line (if drained then 1 else 0) }
    {
        if !drained {
            return line;
        }
        match self.waiting[usize::from(hart.0)].first() {
            Some(oldest) => oldest.line,
            None => line,
        }
    }

    /// So many bytes from an address on, more than 8, were written in a line.
    fn note_long(&mut self, at: u64, length: u64, line: u32) -> Result<(), AllocError>
        requires { (a : ℕ) → line_in self.old a ≤ line }
        ensures waiting { OnOk result (self.new.waiting ≡ self.old.waiting) }
        ensures lines { OnOk result ((a : ℕ) → line_in self.new a
            ≡ (if has_byte (bytes at length) a then line else line_in self.old a)) }
    {
        self.long.push(LongWrite { at, length, line })?;
        Ok(())
    }

    /// A store entered memory in a line, the latest of those that have written anything.
    fn note_store(&mut self, store: Store, line: u32) -> Result<(), AllocError>
        requires { (a : ℕ) → line_in self.old a ≤ line }
        ensures waiting { OnOk result (self.new.waiting ≡ self.old.waiting) }
        ensures lines { OnOk result ((a : ℕ) → line_in self.new a
            ≡ (if has_byte (bytes store.at store.size) a then line else line_in self.old a)) }
    {
        if store.size > 8 {
            return self.note_long(store.at, u64::from(store.size), line);
        }
        self.written.write(store, line)?;
        Ok(())
    }

    /// A write entered memory in a line, the latest of those that have written anything.
    fn note_write(&mut self, write: Write, line: u32) -> Result<(), AllocError>
        requires { (a : ℕ) → line_in self.old a ≤ line }
        ensures waiting { OnOk result (self.new.waiting ≡ self.old.waiting) }
        ensures lines { OnOk result ((a : ℕ) → line_in self.new a
            ≡ (if has_byte (bytes_of write) a then line else line_in self.old a)) }
    {
        match write {
            Write::Stored(store) => self.note_store(store, line),
            Write::Zeroed { at, length } => self.note_long(at, length, line),
        }
    }

    /// The kernel made these writes in a line, one after the other.
    pub(crate) fn note_kernel(&mut self, writes: &[Write], line: u32) -> Result<(), AllocError>
        requires { (a : ℕ) → line_in self.old a ≤ line }
        ensures waiting { OnOk result (self.new.waiting ≡ self.old.waiting) }
        ensures lines { OnOk result ((a : ℕ) → line_in self.new a
            ≡ (if have_byte (bytes_of_all writes.now) a then line else line_in self.old a)) }
    {
        for write in writes {
            self.note_write(*write, line)?;
        }
        Ok(())
    }

    /// A plain event of a hart did this in a line.
    pub(crate) fn note(&mut self, hart: Hart, deed: &Deed, line: u32) -> Result<(), AllocError>
        requires hart { hart.0 < length self.old.waiting.items }
        requires lines { (a : ℕ) → line_in self.old a ≤ line }
        ensures harts { OnOk result (length self.new.waiting.items ≡ length self.old.waiting.items) }
        ensures own { OnOk result (kept_on self.new hart.0
            ≡ drop (drained_in deed.now) (kept_on self.old hart.0 ++ map (numbered line) (executed_in deed.now))) }
        ensures others { OnOk result ((k : ℕ) → k ≢ hart.0 → kept_on self.new k ≡ kept_on self.old k) }
        ensures written { OnOk result ((a : ℕ) → line_in self.new a
            ≡ (if have_byte (bytes_of_all (entered_in deed.now)) a then line else line_in self.old a)) }
    {
        let own = &mut self.waiting[usize::from(hart.0)];
        push_waiting(own, deed.executed, line)?;
        drop_waiting(own, deed.drained);
        if let Some(store) = deed.entered {
            self.note_store(store, line)?;
        }
        Ok(())
    }
}
