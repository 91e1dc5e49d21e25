//! What took the most values, where a search ends unfinished: a counter in a loop, most often. A person
//! hears of it. No clause speaks of it, and where memory is short for it, it isn't said.

ghost use Rattle.std.specs.Prelude.{◌≡◌, ◌<◌, ◌≤◌};
ghost use Rattle.place_search.specs.Searching.{IsSearching, IsTask};

use crate::remade::Remade;
use crate::saying::is_long;
use crate::task::Task;
use crate::trying::Searcher;
use byte_views::read_word;
use found_outcomes::Closing;
use hart_state::HartState;
use mach_types::address_space::{FIRST_STACK_PAGE, STACK_PAGES};
use outside::Sink;
use page_map::{PageMap, pages_of};
use std::alloc::{AllocError, Global};

/// At so many places values are counted, at most.
const LOOKED_AT: u32 = 1_000;

/// How many words of 8 bytes a page has.
const PAGE_WORDS: usize = 512;

/// The names of the registers in the calling convention (RISC-V ELF psABI).
const NAMES: [&str; 32] = [
    "zero", "ra", "sp", "gp", "tp", "t0", "t1", "t2", "s0", "s1", "a0", "a1", "a2", "a3", "a4",
    "a5", "a6", "a7", "s2", "s3", "s4", "s5", "s6", "s7", "s8", "s9", "s10", "s11", "t3", "t4",
    "t5", "t6",
];

/// Where a value was seen.
#[derive(Clone, Copy, PartialEq, Eq, PartialOrd, Ord, Drop)]
enum Spot {
    /// In a register of a thread, before its instruction at a pc.
    Register {
        /// The pc.
        pc: u64,
        /// The thread's number.
        tid: u32,
        /// The register's number.
        number: u8,
    },
    /// In the 8 bytes of memory from this address on.
    Word(u64),
}

/// A value that was seen.
#[derive(Clone, Copy, PartialEq, Eq, PartialOrd, Ord, Drop)]
struct Value {
    /// Where.
    spot: Spot,
    /// The value.
    value: u64,
}

/// How many values were seen at a spot.
#[derive(Clone, Copy, Drop)]
struct Count {
    /// The spot.
    spot: Spot,
    /// How many values.
    values: usize,
}

/// Adds the registers of the thread that runs on a hart.
fn add_registers(seen: &mut Vec<Value>, state: &HartState) -> Result<(), AllocError> {
    let Some(tid) = state.running else {
        return Ok(());
    };
    for number in 1..32 {
        let spot = Spot::Register {
            pc: state.pc,
            tid: tid.0,
            number,
        };
        let value = state.file.get(number);
        seen.push(Value { spot, value })?;
    }
    Ok(())
}

/// The word of 8 bytes with this number in a page.
fn word_in(bytes: &[u8], number: usize) -> u64
    requires { number < 512 }
{
    read_word(bytes, number * 8, 8).unwrap_or(0)
}

/// Adds the words of a page that differ from those at the start.
fn add_words(
    seen: &mut Vec<Value>,
    page: u64,
    now: &[u8],
    before: &[u8],
) -> Result<(), AllocError> {
    if now == before {
        return Ok(());
    }
    for number in 0..PAGE_WORDS {
        let value = word_in(now, number);
        if value != word_in(before, number) {
            let at = page.wrapping_mul(4_096).wrapping_add(number as u64 * 8);
            let spot = Spot::Word(at);
            seen.push(Value { spot, value })?;
        }
    }
    Ok(())
}

/// Adds the words of some pages that differ from those at the start. A page that wasn't mapped there had
/// zeros.
fn add_pages(
    seen: &mut Vec<Value>,
    pages: &PageMap,
    start: &PageMap,
    first: u64,
    end: u64,
) -> Result<(), AllocError> {
    for page in first..end {
        if let Some(now) = pages.bytes(page) {
            add_words(seen, page, now, start.bytes(page).unwrap_or(&[]))?;
        }
    }
    Ok(())
}

/// Adds the registers of the threads that run where parts stand, and the words that differ from those at the
/// start, in the pages below the break and in those of the first stack. What calls mapped elsewhere isn't
/// looked at.
fn add_values(seen: &mut Vec<Value>, made: &Remade) -> Result<(), AllocError> {
    let (pages, start) = (&made.parts.pages, &made.start);
    for state in &made.parts.harts {
        add_registers(seen, state)?;
    }
    add_pages(seen, pages, start, 0, pages_of(pages.break_at()))?;
    let end = FIRST_STACK_PAGE + STACK_PAGES;
    add_pages(seen, pages, start, FIRST_STACK_PAGE, end)
}

/// The larger of two counts; the first one of two that are equal.
fn larger(best: Option<Count>, count: Count) -> Option<Count> {
    match best {
        Some(other) if other.values >= count.values => Some(other),
        _ => Some(count),
    }
}

/// A count of values in order, one more of which is seen.
#[derive(Drop)]
struct Counting {
    /// The largest count of a register.
    register: Option<Count>,
    /// The largest count of a word.
    word: Option<Count>,
    /// How many values were seen at the spot of the last one.
    now: Option<Count>,
    /// The last value.
    last: Option<Value>,
}

impl Counting {
    /// Notes the count of a spot.
    fn note(&mut self) {
        let Some(count) = self.now else {
            return;
        };
        match count.spot {
            Spot::Register { .. } => self.register = larger(self.register, count),
            Spot::Word(_) => self.word = larger(self.word, count),
        }
    }

    /// How many values were seen at a spot, where it is that of the last value; else 0.
    fn count_at(&self, spot: Spot) -> usize {
        let now = self.now;
        match now {
            Some(count) if count.spot == spot => count.values,
            _ => 0,
        }
    }

    /// One value more, behind those that are less or equal.
    fn see(&mut self, seen: Value) {
        if self.last == Some(seen) {
            return;
        }
        self.last = Some(seen);
        let spot = seen.spot;
        let before = self.count_at(spot);
        if before == 0 {
            self.note();
        }
        let values = before.saturating_add(1);
        self.now = Some(Count { spot, values });
    }
}

/// The register and the word that took the most of some values.
fn most_of(seen: &mut Vec<Value>) -> Counting {
    let mut counting = Counting {
        register: None,
        word: None,
        now: None,
        last: None,
    };
    seen.sort_unstable();
    for value in seen {
        counting.see(*value);
    }
    counting.note();
    counting
}

/// The name of a register in the calling convention.
fn name_of(number: u8) -> &'static str {
    match NAMES.get(usize::from(number)) {
        Some(name) => name,
        None => "",
    }
}

/// `REGISTER at PC (thread T)`, or `the word at ADDRESS`.
fn words_of(alloc: Global, spot: Spot) -> Result<String, AllocError> {
    match spot {
        Spot::Register { pc, tid, number } => {
            let name = name_of(number);
            format!(in alloc; "{name} at {pc:x} (thread {tid})")
        }
        Spot::Word(at) => format!(in alloc; "the word at {at:x}"),
    }
}

/// `rseq_run: most values: K of SPOT, at N of M places`.
fn line_of(alloc: Global, count: Count, looked_at: u32, places: u32) -> Result<String, AllocError> {
    let values = count.values;
    let spot = words_of(alloc, count.spot)?;
    format!(in alloc;
        "rseq_run: most values: {values} of {spot}, at {looked_at} of {places} places\n"
    )
}

/// Says how many values a spot took, if there is one.
fn say_count<K: Sink>(alloc: Global, sink: &K, count: Option<Count>, looked_at: u32, places: u32) {
    if let Some(count) = count
        && let Ok(line) = line_of(alloc, count, looked_at, places)
    {
        sink.say(line.as_str());
    }
}

impl Searcher {
    /// Adds what is seen at a place, where there is one with this number, and answers whether there is.
    fn look_at(
        &mut self,
        task: &Task,
        seen: &mut Vec<Value>,
        place: u32,
    ) -> Result<bool, AllocError>
        requires task { IsTask task.now }
        requires searching { IsSearching task.now self.old }
        ensures searching { IsSearching task.now self.new }
        ensures visited { self.new.visited ≡ self.old.visited }
    {
        if place >= self.visited.places() {
            return Ok(false);
        }
        let _reached = self.reach(task, place)?;
        add_values(seen, &self.made)?;
        Ok(true)
    }

    /// What is seen at some of the places, one of each so many, and at how many. It isn't always the first of
    /// these: else, of threads that run at each second place, none might be seen.
    fn values_seen(&mut self, task: &Task, step: u32) -> Result<(Vec<Value>, u32), AllocError>
        requires task { IsTask task.now }
        requires searching { IsSearching task.now self.old }
        requires step { 1 ≤ step }
        ensures searching { IsSearching task.now self.new }
        ensures visited { self.new.visited ≡ self.old.visited }
    {
        let mut seen = Vec::new(task.alloc);
        let mut looked_at: u32 = 0;
        for number in 0..LOOKED_AT {
            let place = number.saturating_mul(step).saturating_add(number % step);
            let is_there = self.look_at(task, &mut seen, place)?;
            looked_at = looked_at.saturating_add(u32::from(is_there));
        }
        Ok((seen, looked_at))
    }

    /// Says which register at which pc, and which word, took the most values at some of the places.
    fn say_most_values<K: Sink>(&mut self, task: &Task, sink: &K)
        requires task { IsTask task.now }
        requires searching { IsSearching task.now self.old }
        ensures searching { IsSearching task.now self.new }
        ensures visited { self.new.visited ≡ self.old.visited }
    {
        let places = self.visited.places();
        if let Ok((mut seen, looked_at)) = self.values_seen(task, places / LOOKED_AT + 1) {
            let most = most_of(&mut seen);
            say_count(task.alloc, sink, most.register, looked_at, places);
            say_count(task.alloc, sink, most.word, looked_at, places);
        }
    }

    /// Says so where a search took long and is unfinished.
    pub(crate) fn say_values<K: Sink>(&mut self, task: &Task, sink: &K, closing: Closing)
        requires task { IsTask task.now }
        requires searching { IsSearching task.now self.old }
        ensures searching { IsSearching task.now self.new }
        ensures visited { self.new.visited ≡ self.old.visited }
    {
        match closing {
            Closing::Complete | Closing::Within(_) => {}
            Closing::Places | Closing::Deep | Closing::Memory => {
                if is_long(task, sink, &self.visited) {
                    self.say_most_values(task, sink);
                }
            }
        }
    }
}
