//! Runs of bytes in the memory of the process.

ghost use Rattle.std.specs.Prelude.{◌≡◌, ◌≤◌, ◌+◌, ◌<◌, ◌^◌, ◌++◌, ℕ, [], ◌∷◌, length, IsTrue};
ghost use Rattle.mach_types.specs.Bytes.{each_byte};
ghost use Rattle.page_map.specs.Map.{can_write_in};
ghost use Rattle.block_model.specs.Calls.Answers.{zeros_written};
ghost use Rattle.sys_calls.specs.Answered.{IsEntered};
ghost use Rattle.sys_calls.specs.Asked.{zero_stored};

use crate::memory::Written;
use mach_types::{UserMem, Write};
use page_map::PageMap;

/// Whether each of so many bytes can be written, none of which passes the last address.
fn are_writable(pages: &PageMap, at: u64, len: u64) -> bool
    requires { at + len ≤ 2 ^ 64 }
    ensures { result ≡ each_byte (can_write_in pages.now) at len }
{
    for index in 0..len {
        if !pages.writable(at + index, 1) {
            return false;
        }
    }
    true
}

/// Whether each of so many bytes can be written, the last of which is `more` past the first.
pub fn can_write_range(pages: &PageMap, at: u64, more: u64) -> bool
    requires { more < 2 ^ 12 }
    ensures { result ≡ each_byte (can_write_in pages.now) at (more + 1) }
{
    match at.checked_add(more) {
        Some(_last) => are_writable(pages, at, more + 1),
        None => false,
    }
}

/// Writes a byte, 0.
fn write_zero(pages: &mut PageMap, at: u64)
    requires { IsTrue (each_byte (can_write_in pages.old) at 1) }
    ensures entered { IsEntered pages.old pages.new (zero_stored at ∷ []) }
    ensures same { (a : ℕ) → can_write_in pages.new a ≡ can_write_in pages.old a }
{
    let _ = pages.set(at, 1, 0);
}

/// Writes so many zeros.
fn fill(pages: &mut PageMap, at: u64, len: u64)
    requires end { at + len ≤ 2 ^ 64 }
    requires writable { IsTrue (each_byte (can_write_in pages.old) at len) }
    ensures entered { IsEntered pages.old pages.new (zeros_written at len ∷ []) }
    ensures same { (a : ℕ) → can_write_in pages.new a ≡ can_write_in pages.old a }
{
    for index in 0..len {
        write_zero(pages, at + index);
    }
}

/// Writes so many zeros, and tells the write.
pub fn write_zeros(pages: &mut PageMap, written: &mut Written, at: u64, len: u64)
    requires end { at + len ≤ 2 ^ 64 }
    requires writable { IsTrue (each_byte (can_write_in pages.old) at len) }
    requires room { length written.old.items < 4 }
    ensures entered { IsEntered pages.old pages.new (zeros_written at len ∷ []) }
    ensures same { (a : ℕ) → can_write_in pages.new a ≡ can_write_in pages.old a }
    ensures told { written.new.items ≡ written.old.items ++ zeros_written at len ∷ [] }
{
    fill(pages, at, len);
    written.push(Write::Zeroed { at, length: len });
}
