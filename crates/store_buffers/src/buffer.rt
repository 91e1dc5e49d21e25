//! The buffer of waiting stores.

ghost use Rattle.std.specs.Prelude.{◌≡◌, ◌+◌, ◌<◌, ◌≤◌, ◌↔◌, [], ◌∷◌, ◌++◌, length, drop, slice_get, IfOk, IfSome, IsSome, IsTrue};
ghost use Rattle.std.specs.List.{Any};
ghost use Rattle.mach_types.specs.Bytes.{IsAccessSize, word_at};
ghost use Rattle.mach_types.specs.declared.user_memory.TheConstants.{STORE_BUFFER_CAPACITY};
ghost use Rattle.store_buffers.specs.View.{seen};
ghost use Rattle.store_buffers.specs.Pages.{HasByteAmong, HasByteIn};

use crate::forwarding;
use circular_buffer::HeapCircularBuffer;
use mach_types::{STORE_BUFFER_CAPACITY, Store, UserMem};
use std::alloc::{AllocError, Global};
use std::marker::Model;

/// The waiting stores of a hart, oldest first, at most 8.
#[derive(Drop)]
pub struct StoreBuffer {
    ring: HeapCircularBuffer<Store>,
}

impl Model for StoreBuffer {
    ghost use Rattle.std.specs.Prelude.{List};
    ghost use Rattle.mach_types.specs.declared.user_memory.Store.{Store};
    ghost use Rattle.store_buffers.specs.Waiting.{IsBuffer};

    ghost Value = { List Store };

    ghost view = { λ b. b.ring.items };

    ghost invariant = { λ b. IsBuffer b.ring };
}

impl StoreBuffer {
    /// An empty buffer, with the room that it ever takes.
    pub fn new(alloc: Global) -> Result<StoreBuffer, AllocError>
        ensures { IfOk result (λ b. b ≡ []) }
    {
        let ring = HeapCircularBuffer::with_capacity(alloc, STORE_BUFFER_CAPACITY as usize)?;
        Ok(StoreBuffer { ring })
    }

    /// How many stores wait.
    pub fn len(&self) -> u8
        ensures count { result ≡ length self.now }
        ensures within { result ≤ STORE_BUFFER_CAPACITY }
    {
        self.ring.len() as u8
    }

    /// Whether no store waits.
    pub fn is_empty(&self) -> bool
        ensures { IsTrue result ↔ (self.now ≡ []) }
    {
        self.ring.is_empty()
    }

    /// Adds a store as the youngest.
    pub fn push(&mut self, store: Store)
        requires room { length self.old < STORE_BUFFER_CAPACITY }
        requires size { IsAccessSize store.size }
        ensures { self.new ≡ self.old ++ store ∷ [] }
    {
        let _ = self.ring.try_push_back(store);
    }

    /// The oldest waiting store; None exactly where none waits.
    pub fn oldest(&self) -> Option<Store>
        ensures oldest { result ≡ slice_get self.now 0 }
        ensures size { IfSome result (λ s. IsAccessSize s.size) }
    {
        self.ring.front().copied()
    }

    /// The waiting store at an index, 0 for the oldest; None exactly where no more wait.
    pub fn get(&self, index: u8) -> Option<Store>
        ensures { result ≡ slice_get self.now index }
    {
        self.ring.get(index as usize).copied()
    }

    /// Takes the oldest waiting store away; None exactly where none waits.
    pub fn pop(&mut self) -> Option<Store>
        ensures oldest { result ≡ slice_get self.old 0 }
        ensures rest { self.new ≡ drop 1 self.old }
        ensures size { IfSome result (λ s. IsAccessSize s.size) }
    {
        self.ring.pop_front()
    }

    /// Holds the stores that wait in another buffer, in place of its own. It takes no memory.
    pub fn copy_from(&mut self, other: &StoreBuffer)
        ensures { self.new ≡ other.now }
    {
        self.ring.clear();
        let (front, back) = other.ring.as_slices();
        let _ = self.ring.fill_from_slice(front);
        let _ = self.ring.fill_from_slice(back);
    }

    /// The little-endian number of `size` bytes as the hart sees them: each byte is that of the youngest
    /// waiting store that has it, else memory's. None exactly where memory can't be read there.
    pub fn look<M: UserMem>(&self, mem: &M, at: u64, size: u8) -> Option<u64>
        requires { IsAccessSize size }
        ensures seen { result ≡ word_at (seen self.now (M.byte mem.now)) at size }
        ensures readable { IsSome result ↔ IsSome (word_at (M.byte mem.now) at size) }
    {
        if self.ring.is_empty() {
            return mem.get(at, size);
        }
        let word = mem.get(at, size)?;
        let (front, back) = self.ring.as_slices();
        let word = forwarding::after_stores(word, at, size, front);
        Some(forwarding::after_stores(word, at, size, back))
    }

    /// Whether some byte of a waiting store lies in the page of this number, a page having 4,096 bytes.
    pub fn touches(&self, page: u64) -> bool
        ensures { IsTrue result ↔ Any (HasByteIn page) self.now }
    {
        self.touches_any(page, 1)
    }

    /// Whether some byte of a waiting store lies in one of `count` pages, from the page with number `first`
    /// on. Takes the time of the stores alone, however many pages they are.
    pub fn touches_any(&self, first: u64, count: u64) -> bool
        ensures { IsTrue result ↔ Any (HasByteAmong first count) self.now }
    {
        let (front, back) = self.ring.as_slices();
        forwarding::touch_either(front, back, first, count)
    }
}
