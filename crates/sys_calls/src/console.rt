//! The console: the bytes that a process wrote.

ghost use Rattle.std.specs.Prelude.{◌≡◌, ℕ, ◌<◌, ◌≤◌, ◌+◌, ◌^◌, ◌++◌, [], ◌∷◌, length, IfOk};
ghost use Rattle.mach_types.specs.declared.kernel_words.TheConstants.{CONSOLE_ROOM};
ghost use Rattle.page_map.specs.Map.{byte_in};
ghost use Rattle.block_model.specs.Calls.Console.{bytes_from};

use crate::memory::byte_after;
use mach_types::CONSOLE_ROOM;
use page_map::PageMap;
use std::alloc::{AllocError, Global};
use std::marker::Model;

/// The bytes that a process wrote, at most [`CONSOLE_ROOM`].
#[derive(Drop)]
pub struct Console {
    bytes: Vec<u8>,
}

impl Model for Console {
    ghost use Rattle.std.specs.Prelude.{List, ℕ, ◌≤◌, length, vec_capacity};
    ghost use Rattle.mach_types.specs.declared.kernel_words.TheConstants.{CONSOLE_ROOM};

    ghost Value = { List ℕ };

    ghost view = { λ c. c.bytes.items };

    ghost invariant = { λ c. (length c.bytes.items ≤ CONSOLE_ROOM) × (CONSOLE_ROOM ≤ vec_capacity c.bytes) };
}

impl Console {
    /// An empty console, with room for all that it can hold. Fails only where memory is short.
    pub fn new(alloc: Global) -> Result<Console, AllocError>
        ensures { IfOk result (λ console. console ≡ []) }
    {
        Ok(Console {
            bytes: Vec::with_capacity(alloc, CONSOLE_ROOM as usize)?,
        })
    }

    /// An empty console again. It takes no memory.
    pub fn clear(&mut self)
        ensures { self.new ≡ [] }
    {
        self.bytes.clear();
    }

    /// The bytes of another console, in place of its own. It takes no memory.
    pub fn copy_from(&mut self, other: &Console)
        ensures { self.new ≡ other.now }
    {
        self.bytes.clear();
        let _ = self.bytes.extend_from_slice(other.bytes());
    }

    /// The bytes written so far.
    pub fn bytes(&self) -> &[u8]
        ensures bytes { result.now ≡ self.now }
        ensures room { length self.now ≤ CONSOLE_ROOM }
    {
        &self.bytes
    }

    /// How many bytes it still takes.
    pub(crate) fn room(&self) -> u64
        ensures { result + length self.now ≡ CONSOLE_ROOM }
    {
        CONSOLE_ROOM - self.bytes.len() as u64
    }

    /// Appends a byte.
    fn push(&mut self, byte: u8)
        requires { length self.old < CONSOLE_ROOM }
        ensures { self.new ≡ self.old ++ byte ∷ [] }
    {
        let _ = self.bytes.push(byte);
    }

    /// Appends so many bytes of memory from an address on.
    pub(crate) fn append(&mut self, pages: &PageMap, at: u64, count: u64)
        requires room { length self.old + count ≤ CONSOLE_ROOM }
        ensures { self.new ≡ self.old ++ bytes_from (byte_in pages.now) at count }
    {
        for k in 0..count {
            let byte = byte_after(pages, at, k);
            self.push(byte);
        }
    }
}
