//! Memory as the instructions of a process reach it that shares a segment.

ghost use Rattle.std.specs.Prelude.{◌≡◌, ℕ, [], ◌∷◌, true};
ghost use Rattle.std.proofs.Common.{refl, ◌∙◌};
ghost use Rattle.mach_types.specs.Bytes.{IsAccessSize, after_write, each_byte};
ghost use Rattle.page_map.specs.Map.{IsAlike};
ghost use Rattle.page_map.specs.MapLaws.{alike_itself, alike_next};
ghost use Rattle.shared_procs.specs.Entering.{HaveEntered};
ghost use Rattle.shared_procs.specs.Segments.{reached_in, storable_in};
ghost use Rattle.shared_procs.specs.WindowLaws.{reached_in-ends, reached_in-readable, reached_in-small};

use crate::segment::{Segment, is_within};
use mach_types::UserMem;
use page_map::PageMap;

/// The pages of a process, and the segment. An access whose bytes all lie in the segment goes there, and any
/// other to the pages, none of which lies there or beside it.
#[derive(Drop)]
pub struct Window<'a> {
    /// The pages.
    pub pages: &'a mut PageMap,
    /// The segment.
    pub segment: &'a mut Segment,
}

/// Writes the low `size` bytes of `value` from an address on; false exactly where one of them can't be written, and then nothing
/// changes.
pub(crate) fn set_in(
    pages: &mut PageMap,
    segment: &mut Segment,
    at: u64,
    size: u8,
    value: u64,
) -> bool
    requires { IsAccessSize size }
    ensures answer { result ≡ each_byte (storable_in pages.old) at size }
    ensures bytes { (a : ℕ) → reached_in segment.new pages.new a
        ≡ after_write result (record { at = at; size = size; value = value }) (reached_in segment.old pages.old) a }
    ensures permissions { (a : ℕ) → storable_in pages.new a ≡ storable_in pages.old a }
    ensures alike { IsAlike pages.old pages.new }
    ensures entered { result ≡ true
        → HaveEntered (record { at = at; size = size; value = value } ∷ []) pages.old segment.old pages.new segment.new }
{
    pages.keeps();
    if is_within(at, size) {
        segment.put(at, size, value);
        true
    } else {
        pages.set(at, size, value)
    }
}

impl UserMem for Window<'_> {
    ghost byte = { λ w. reached_in w.segment.now w.pages.now };

    ghost can_write = { λ w. storable_in w.pages.now };

    ghost IsAlike = { λ v w. IsAlike v.pages.now w.pages.now
        × (w.pages.ghost_name ≡ v.pages.ghost_name) × (w.segment.ghost_name ≡ v.segment.ghost_name) };

    fn get(&self, at: u64, size: u8) -> Option<u64> {
        if is_within(at, size) {
            self.segment.word(at, size)
        } else {
            self.pages.keeps();
            self.pages.get(at, size)
        }
    }

    fn set(&mut self, at: u64, size: u8, value: u64) -> bool {
        set_in(self.pages, self.segment, at, size, value)
    }

    fn writable(&self, at: u64, size: u8) -> bool {
        if is_within(at, size) {
            true
        } else {
            self.pages.keeps();
            self.pages.writable(at, size)
        }
    }

    ghost alike_itself = { λ w. (alike_itself w.pages.now, refl, refl) };

    ghost alike_next = { λ a b c first then. (
      alike_next a.pages.now b.pages.now c.pages.now first.0 then.0,
      then.1 ∙ first.1,
      then.2 ∙ first.2,
    ) };

    ghost writable_is_readable = { λ w a may. reached_in-readable w.segment.now w.pages.now a may };

    ghost ends = { λ w a past. reached_in-ends w.segment.now w.pages.now a past };

    ghost bytes_are_small = { λ w a b is. reached_in-small w.segment.now w.pages.now a b is };
}
