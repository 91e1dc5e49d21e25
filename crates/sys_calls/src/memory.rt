//! Numbers in the memory of the process.

ghost use Rattle.std.specs.Prelude.{◌≡◌, ℕ, ◌+◌, ◌<◌, ◌^◌, ◌++◌, length, [], ◌∷◌, unwrap_or, IsTrue};
ghost use Rattle.mach_types.specs.Bytes.{IsAccessSize, each_byte, word_at};
ghost use Rattle.page_map.specs.Map.{byte_in, can_write_in};
ghost use Rattle.mach_types.specs.declared.threads.Saved.{Saved as File};
ghost use Rattle.block_model.specs.Here.{Here};
ghost use Rattle.block_model.specs.Calls.Answers.{byte_written, double_written, word_written};
ghost use Rattle.sys_calls.specs.Answered.{IsEntered, IsRead};
ghost use Rattle.sys_calls.specs.Made.{HasPages};

use arrayvec::ArrayVec;
use mach_types::{Store, UserMem, Write};
use page_map::{PageMap, held_bytes_are_seen};

/// The kernel's writes to memory in a call, in order.
pub type Written = ArrayVec<Write, 40>;

/// The number of `size` bytes, 1, 2, 4 or 8, from an address on; 0 where one of them can't be read.
pub fn number_at(pages: &PageMap, at: u64, size: u8) -> u64
    requires { IsAccessSize size }
    ensures { result ≡ unwrap_or (word_at (byte_in pages.now) at size) 0 }
{
    pages.get(at, size).unwrap_or(0)
}

/// A byte, 0 where it can't be read.
pub fn byte_at(pages: &PageMap, at: u64) -> u8
    ensures { result ≡ unwrap_or (byte_in pages.now at) 0 }
{
    number_at(pages, at, 1) as u8
}

/// The byte so many past an address, 0 where it can't be read.
pub fn byte_after(pages: &PageMap, at: u64, k: u64) -> u8
    ensures { result ≡ unwrap_or (byte_in pages.now (at + k)) 0 }
{
    match at.checked_add(k) {
        Some(address) => byte_at(pages, address),
        None => 0,
    }
}

/// Writes a byte.
pub fn write_byte(pages: &mut PageMap, written: &mut Written, at: u64, value: u8)
    requires writable { IsTrue (each_byte (can_write_in pages.old) at 1) }
    requires room { length written.old.items < 40 }
    ensures entered { IsEntered pages.old pages.new (byte_written at value ∷ []) }
    ensures same { (a : ℕ) → can_write_in pages.new a ≡ can_write_in pages.old a }
    ensures told { written.new.items ≡ written.old.items ++ byte_written at value ∷ [] }
{
    let _ = pages.set(at, 1, u64::from(value));
    tell_byte(written, at, value);
}

/// Tells the write of a byte.
fn tell_byte(written: &mut Written, at: u64, value: u8)
    requires room { length written.old.items < 40 }
    ensures { written.new.items ≡ written.old.items ++ byte_written at value ∷ [] }
{
    written.push(Write::Stored(Store {
        at,
        size: 1,
        value: u64::from(value),
    }));
}

/// Writes a u32.
pub fn write_word(pages: &mut PageMap, written: &mut Written, at: u64, value: u32)
    requires writable { IsTrue (each_byte (can_write_in pages.old) at 4) }
    requires room { length written.old.items < 40 }
    ensures entered { IsEntered pages.old pages.new (word_written at value ∷ []) }
    ensures same { (a : ℕ) → can_write_in pages.new a ≡ can_write_in pages.old a }
    ensures told { written.new.items ≡ written.old.items ++ word_written at value ∷ [] }
{
    let _ = pages.set(at, 4, u64::from(value));
    tell_word(written, at, value);
}

/// Tells the write of a u32.
fn tell_word(written: &mut Written, at: u64, value: u32)
    requires room { length written.old.items < 40 }
    ensures { written.new.items ≡ written.old.items ++ word_written at value ∷ [] }
{
    written.push(Write::Stored(Store {
        at,
        size: 4,
        value: u64::from(value),
    }));
}

/// Writes a u64.
pub fn write_double(pages: &mut PageMap, written: &mut Written, at: u64, value: u64)
    requires writable { IsTrue (each_byte (can_write_in pages.old) at 8) }
    requires room { length written.old.items < 40 }
    ensures entered { IsEntered pages.old pages.new (double_written at value ∷ []) }
    ensures same { (a : ℕ) → can_write_in pages.new a ≡ can_write_in pages.old a }
    ensures told { written.new.items ≡ written.old.items ++ double_written at value ∷ [] }
{
    let _ = pages.set(at, 8, value);
    written.push(Write::Stored(Store { at, size: 8, value }));
}

/// It does nothing; where the page map has the pages of the process, a rule reads of them what the page map shows.
pub fn shows_pages(pages: &PageMap)
    ensures { (h : Here) (t : ℕ) (saved : File) → HasPages h pages.now → saved ≡ h.file t
        → IsRead h pages.now t saved }
{
    held_bytes_are_seen();
    pages.keeps();
}
