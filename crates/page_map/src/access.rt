//! Accesses of the bytes of a process: loads, stores, and the fetch of an instruction.

ghost use Rattle.std.specs.Prelude.{◌≡◌, ◌==◌, ℕ, ◌+◌, ◌*◌, ◌/◌, ◌%◌, ◌<◌, ◌≤◌, ◌^◌, true, false, Some, IfSome, is_some, length, nat_le, slice_index};
ghost use Rattle.std.specs.Option.{SomeIff};
ghost use Rattle.byte_views.specs.Words.{word_at as number_at};
ghost use Rattle.mach_types.specs.Bytes.{IsAccessSize, after_write, each_byte, word_at};
ghost use Rattle.page_map.specs.Map.{IsAlike, IsStored, break_in, break_start_in, byte_if, byte_in, bytes_if, can_write_in, code_in, free_in, held_in, may_write, page_in, permission_in};
ghost use Rattle.page_map.specs.MapLaws.{alike_itself, alike_next, byte_in-ends, byte_in-readable, byte_in-small};

use crate::map::{EXECUTE, PageMap, READ, WRITE};
use byte_views::read_word;
use mach_types::UserMem;
use mach_types::address_space::PAGE_SIZE;

/// Whether an access of so many bytes lies in one page.
fn is_in_page(at: u64, size: u8) -> bool
    ensures { result ≡ nat_le (at % 4096 + size) 4096 }
{
    at % PAGE_SIZE + u64::from(size) <= PAGE_SIZE
}

/// The number of `size` bytes from a place on.
fn number_in(bytes: &[u8], at: usize, size: u8) -> Option<u64>
    requires { IsAccessSize size }
    ensures number { SomeIff result (at + size ≤ length bytes.now) (number_at bytes.now at size) }
    ensures word_is_small { IfSome result (λ word. word < 256 ^ size) }
    ensures bytes_are_small { (k : ℕ) → slice_index bytes.now k < 256 }
{
    read_word(bytes, at, size as usize)
}

/// The little-endian word of four bytes from a place on.
fn instruction(bytes: &[u8], at: usize) -> u32
    requires { at + 4 ≤ length bytes.now }
    ensures number { result
        ≡ slice_index bytes.now at + 256 * (slice_index bytes.now (at + 1)
        + 256 * (slice_index bytes.now (at + 2) + 256 * slice_index bytes.now (at + 3))) }
    ensures small { (k : ℕ) → slice_index bytes.now k < 256 }
{
    u32::from_le_bytes([bytes[at], bytes[at + 1], bytes[at + 2], bytes[at + 3]])
}

impl PageMap {
    /// The instruction word at an address; None exactly where one of its four bytes may not be executed.
    pub fn fetch(&self, at: u64) -> Option<u32>
        ensures { result ≡ word_at (code_in self.now) at 4 }
    {
        if is_in_page(at, 4) {
            self.fetch_in_page(at)
        } else {
            Some(self.word_across(EXECUTE, at, 4)? as u32)
        }
    }

    /// The instruction word at an address, where its four bytes lie in one page.
    fn fetch_in_page(&self, at: u64) -> Option<u32>
        requires { at % 4096 + 4 ≤ 4096 }
        ensures { result ≡ word_at (code_in self.now) at 4 }
    {
        let bytes = self.bytes_if(EXECUTE, at / PAGE_SIZE)?;
        Some(instruction(bytes, (at % PAGE_SIZE) as usize))
    }

    /// Whether so many bytes from an address on can all be read. It costs time in pages, and stops at the
    /// first that can't.
    pub fn readable(&self, at: u64, len: u64) -> bool
        ensures { result ≡ each_byte (λ a. is_some (byte_in self.now a)) at len }
    {
        if len == 0 {
            return true;
        }
        match at.checked_add(len - 1) {
            Some(last) => self.are_readable(at / PAGE_SIZE, last / PAGE_SIZE),
            None => false,
        }
    }

    /// Whether the pages from one number to another can be read.
    fn are_readable(&self, first: u64, last: u64) -> bool
        requires { last < 2 ^ 52 }
        ensures all { result ≡ true → (n : ℕ) → first ≤ n → n ≤ last
            → is_some (bytes_if 4 (page_in self.now n)) ≡ true }
        ensures some { result ≡ false → (n : ℕ) × (first ≤ n) × (n ≤ last)
            × (is_some (bytes_if 4 (page_in self.now n)) ≡ false) }
    {
        for number in first..last + 1 {
            if self.bytes_if(READ, number).is_none() {
                return false;
            }
        }
        true
    }

    /// The number of `size` bytes, where the permission of their pages has a bit.
    fn word_if(&self, bit: u8, at: u64, size: u8) -> Option<u64>
        requires { IsAccessSize size }
        ensures word { result ≡ word_at (byte_if bit self.now) at size }
        ensures small { IfSome result (λ word. word < 256 ^ size) }
    {
        if is_in_page(at, size) {
            self.word_in_page(bit, at, size)
        } else {
            self.word_across(bit, at, size)
        }
    }

    /// The number of `size` bytes in one page.
    fn word_in_page(&self, bit: u8, at: u64, size: u8) -> Option<u64>
        requires size { IsAccessSize size }
        requires page { at % 4096 + size ≤ 4096 }
        ensures word { result ≡ word_at (byte_if bit self.now) at size }
        ensures small { IfSome result (λ word. word < 256 ^ size) }
    {
        let bytes = self.bytes_if(bit, at / PAGE_SIZE)?;
        number_in(bytes, (at % PAGE_SIZE) as usize, size)
    }

    /// The number of `size` bytes, byte by byte.
    fn word_across(&self, bit: u8, at: u64, size: u8) -> Option<u64>
        requires { IsAccessSize size }
        ensures word { result ≡ word_at (byte_if bit self.now) at size }
        ensures small { IfSome result (λ word. word < 256 ^ size) }
    {
        let mut bytes = [0; 8];
        for k in 0..size {
            bytes[k as usize] = self.byte_after(bit, at, k)?;
        }
        read_word(&bytes, 0, size as usize)
    }

    /// The byte so many past an address, where the permission of its page has a bit.
    fn byte_after(&self, bit: u8, at: u64, k: u8) -> Option<u8>
        ensures { result ≡ byte_if bit self.now (at + k) }
    {
        match at.checked_add(u64::from(k)) {
            Some(address) => self.byte_if(bit, address),
            None => None,
        }
    }

    /// The byte at an address, where the permission of its page has a bit.
    fn byte_if(&self, bit: u8, at: u64) -> Option<u8>
        ensures { result ≡ byte_if bit self.now at }
    {
        let bytes = self.bytes_if(bit, at / PAGE_SIZE)?;
        Some(bytes[(at % PAGE_SIZE) as usize])
    }

    /// Whether a page can be written.
    fn can_write(&self, number: u64) -> bool
        ensures { result ≡ may_write (permission_in self.now number) }
    {
        match self.find(number) {
            Some(page) => page.permission & WRITE != 0,
            None => false,
        }
    }

    /// Writes the low `size` bytes of `value` in one page; false exactly where it can't be written.
    fn set_in_page(&mut self, at: u64, size: u8, value: u64) -> bool
        requires size { IsAccessSize size }
        requires page { at % 4096 + size ≤ 4096 }
        ensures answer { result ≡ each_byte (can_write_in self.old) at size }
        ensures stored { IsStored self.old self.new result (record { at = at; size = size; value = value }) }
    {
        if !self.can_write(at / PAGE_SIZE) {
            return false;
        }
        self.write_in_page(at, size, value);
        true
    }

    /// Whether `size` bytes can be written that lie in two pages.
    fn writable_across(&self, at: u64, size: u8) -> bool
        requires size { IsAccessSize size }
        requires across { 4096 < at % 4096 + size }
        ensures { result ≡ each_byte (can_write_in self.now) at size }
    {
        self.can_write(at / PAGE_SIZE) && self.can_write(at / PAGE_SIZE + 1)
    }

    /// Writes the low `size` bytes of `value`, byte by byte; false exactly where one can't be written.
    fn set_across(&mut self, at: u64, size: u8, value: u64) -> bool
        requires size { IsAccessSize size }
        requires across { 4096 < at % 4096 + size }
        ensures answer { result ≡ each_byte (can_write_in self.old) at size }
        ensures stored { IsStored self.old self.new result (record { at = at; size = size; value = value }) }
    {
        if !self.writable_across(at, size) {
            return false;
        }
        let mut rest = value;
        for k in 0..size {
            let _ = self.set_in_page(at + u64::from(k), 1, rest);
            rest /= 256;
        }
        true
    }
}

impl UserMem for PageMap {
    ghost byte = { byte_in };

    ghost can_write = { can_write_in };

    ghost IsAlike = { IsAlike };

    fn get(&self, at: u64, size: u8) -> Option<u64> {
        self.word_if(READ, at, size)
    }

    /// Beside what the trait says, no permission, no code, no frame and no break changes.
    fn set(&mut self, at: u64, size: u8, value: u64) -> bool
        requires { IsAccessSize size }
        ensures answer { result ≡ each_byte (can_write_in self.old) at size }
        ensures bytes { (a : ℕ) → byte_in self.new a
            ≡ after_write result (record { at = at; size = size; value = value }) (byte_in self.old) a }
        ensures permissions { (a : ℕ) → can_write_in self.new a ≡ can_write_in self.old a }
        ensures pages { (n : ℕ) → permission_in self.new n ≡ permission_in self.old n }
        ensures held { (a : ℕ) → held_in self.new a
            ≡ after_write result (record { at = at; size = size; value = value }) (held_in self.old) a }
        ensures code { (a : ℕ) → code_in self.new a ≡ code_in self.old a }
        ensures free { free_in self.new ≡ free_in self.old }
        ensures break_at { break_in self.new ≡ break_in self.old }
        ensures break_start { break_start_in self.new ≡ break_start_in self.old }
        ensures alike { IsAlike self.old self.new }
    {
        if is_in_page(at, size) {
            self.set_in_page(at, size, value)
        } else {
            self.set_across(at, size, value)
        }
    }

    fn writable(&self, at: u64, size: u8) -> bool {
        if is_in_page(at, size) {
            self.can_write(at / PAGE_SIZE)
        } else {
            self.writable_across(at, size)
        }
    }

    ghost alike_itself = { alike_itself };

    ghost alike_next = { alike_next };

    ghost writable_is_readable = { byte_in-readable };

    ghost ends = { byte_in-ends };

    ghost bytes_are_small = { byte_in-small };
}
