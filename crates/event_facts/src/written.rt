//! In which line of a log each byte of memory was written last.

ghost use Rattle.std.specs.Prelude.{◌≡◌, ℕ, ◌/◌, ◌≤◌, ◌<◌, OnOk, length, slice_index, if◌then◌else◌};
ghost use Rattle.rv_inst.specs.Accesses.{bytes};
ghost use Rattle.block_model.specs.Footprints.{has_byte};
ghost use Rattle.event_facts.specs.Written.{IsWordOf, is_among, is_from_to, line_at, lines_at};

use mach_types::Store;
use std::alloc::{AllocError, Global};
use std::collections::HashMap;

/// The line in which each byte of memory was written last, since the start of a log.
#[derive(Drop)]
pub(crate) struct Written {
    /// The lines of 8 bytes from an address on that is a multiple of 8, by this address over 8; 0 for each
    /// byte that wasn't written.
    pub(crate) words: HashMap<u64, [u32; 8]>,
}

/// The lines of 8 bytes from an address on that is a multiple of 8.
#[derive(Clone, Copy, Drop)]
pub(crate) struct Word {
    /// This address over 8.
    pub(crate) number: u64,
    /// The line in which each of them was written last; 0 for each byte that wasn't.
    pub(crate) lines: [u32; 8],
}

/// The lines of 8 bytes, where those from one on and before another are this.
fn marked(lines: &[u32; 8], from: u8, to: u8, line: u32) -> [u32; 8]
    requires order { from ≤ to }
    requires within { to ≤ 8 }
    ensures eight { length result ≡ 8 }
    ensures lines { (k : ℕ) → slice_index result k ≡ (if is_from_to from to k then line else slice_index lines.now k) }
{
    let mut marked = *lines;
    for k in from..to {
        marked[usize::from(k)] = line;
    }
    marked
}

impl Written {
    /// No byte was written.
    pub(crate) fn new(alloc: Global) -> Written
        ensures { (a : ℕ) → line_at result a ≡ 0 }
    {
        Written {
            words: HashMap::new(alloc),
        }
    }

    /// The lines of the 8 bytes with this number.
    fn lines_at(&self, word: u64) -> [u32; 8]
        ensures lines { result ≡ lines_at self.now word }
        ensures eight { length result ≡ 8 }
    {
        self.words.get(&word).copied().unwrap_or([0; 8])
    }

    /// The lines of the 8 bytes among which a byte is.
    pub(crate) fn word_of(&self, at: u64) -> Word
        ensures known { IsWordOf self.now result }
        ensures number { result.number ≡ at / 8 }
    {
        let number = at / 8;
        let lines = self.lines_at(number);
        Word { number, lines }
    }

    /// The line in which a byte was written last, where the lines of these 8 bytes are known; 0 where it wasn't.
    pub(crate) fn line_at(&self, known: &Word, at: u64) -> u32
        requires { IsWordOf self.now known.now }
        ensures { result ≡ line_at self.now at }
    {
        let place = (at % 8) as usize;
        if at / 8 == known.number {
            known.lines[place]
        } else {
            self.lines_at(at / 8)[place]
        }
    }

    /// Of the 8 bytes with this number those from one on and before another were written in a line.
    fn mark(&mut self, word: u64, from: u8, to: u8, line: u32) -> Result<(), AllocError>
        requires order { from ≤ to }
        requires within { to ≤ 8 }
        ensures { OnOk result ((a : ℕ) → line_at self.new a
            ≡ (if is_among word from to a then line else line_at self.old a)) }
    {
        let lines = marked(&self.lines_at(word), from, to, line);
        self.words.insert(word, lines)?;
        Ok(())
    }

    /// A store entered memory in a line.
    pub(crate) fn write(&mut self, store: Store, line: u32) -> Result<(), AllocError>
        requires { store.size ≤ 8 }
        ensures { OnOk result ((a : ℕ) → line_at self.new a
            ≡ (if has_byte (bytes store.at store.size) a then line else line_at self.old a)) }
    {
        let word = store.at / 8;
        let from = (store.at % 8) as u8;
        let to = from + store.size;
        if to <= 8 {
            self.mark(word, from, to, line)?;
            return Ok(());
        }
        self.mark(word, from, 8, line)?;
        self.mark(word + 1, 0, to - 8, line)?;
        Ok(())
    }
}
