//! Whether a write cuts bytes that are read: it has some of them and not all. Where none does, and memory was
//! written there in one line, all of them come from where the first does.

ghost use Rattle.std.specs.Prelude.{◌≡◌, ◌+◌, ◌<◌, ◌≤◌, ℕ, IsTrue, length, slice_index};
ghost use Rattle.std.specs.List.{list_any};
ghost use Rattle.event_facts.specs.Cuts as spec;
ghost use Rattle.event_facts.specs.Cuts.{cut_by_long, cut_by_store};

use crate::lines::Numbered;
use crate::long_writes::LongWrite;

/// Whether a write of so many bytes from an address on has some of these bytes, and not all.
#[inline(always)]
fn cuts(from: u64, length: u64, at: u64, size: u8) -> bool
    ensures { result ≡ spec.cuts from length at size }
{
    let (first, behind) = (u128::from(from), u128::from(from) + u128::from(length));
    let (start, end) = (u128::from(at), u128::from(at) + u128::from(size));
    let apart = behind <= start || end <= first;
    !(apart || first <= start && end <= behind)
}

/// Whether one of these stores cuts them.
pub(crate) fn cut_by_stores(waiting: &[Numbered], at: u64, size: u8) -> bool
    ensures { result ≡ list_any (cut_by_store at size) waiting.now }
{
    for numbered in waiting {
        if cuts(numbered.store.at, u64::from(numbered.store.size), at, size) {
            return true;
        }
    }
    false
}

/// Whether one of these writes of more bytes cuts them.
pub(crate) fn cut_by_long_writes(writes: &[LongWrite], at: u64, size: u8) -> bool
    ensures { result ≡ list_any (cut_by_long at size) writes.now }
{
    for write in writes {
        if cuts(write.at, write.length, at, size) {
            return true;
        }
    }
    false
}

/// Whether so many lines from a place on are the same.
pub(crate) fn are_same(lines: &[u32; 8], from: u8, size: u8) -> bool
    requires { from + size ≤ 8 }
    ensures { IsTrue result → (k : ℕ) → k < size → slice_index lines.now (from + k) ≡ slice_index lines.now from }
{
    for k in 0..size {
        if lines[usize::from(from + k)] != lines[usize::from(from)] {
            return false;
        }
    }
    true
}
