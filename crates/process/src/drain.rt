//! `drain`: the oldest waiting store of a hart enters memory; the others lose their reservations of its bytes.

ghost use Rattle.std.specs.Prelude.{◌≡◌, ℕ, [], ◌∷◌, None, true, IfSome, nat_eq, slice_get};
ghost use Rattle.std.specs.Option.{option_map};
ghost use Rattle.mach_types.specs.Bytes.{IsAccessSize, all_stored, each_byte};
ghost use Rattle.hart_state.specs.State.{stores};
ghost use Rattle.page_map.specs.Map.{can_write_in};
ghost use Rattle.process.specs.{Reservations.lost_unless, Stored.IsWritten};
ghost use Rattle.process.specs.Refinement.{HasPlace, IsEvent, IsRefusal, MayDrain};

use crate::parts::Parts;
use crate::reservations::lose_others;
use mach_types::{Choice, Hart, Store, UserMem, Why, Write};

impl Parts {
    /// Why no store of a hart can enter memory.
    pub(crate) fn refusal_drain(&self, hart: Hart) -> Option<Why>
        requires { HasPlace self.now hart.0 }
        ensures { IsRefusal self.now hart.0 Choice.Drain result }
    {
        if self.harts[hart.0 as usize].buffer.len() == 0 {
            Some(Why::NoStore)
        } else {
            None
        }
    }

    /// The harts other than one lose their reservations of bytes that were written.
    #[inline]
    pub fn lose(&mut self, hart: Hart, writes: &[Write])
        ensures harts { (k : ℕ) → slice_get self.new.harts.items k
            ≡ option_map (lost_unless (nat_eq k hart.0) writes.now) (slice_get self.old.harts.items k) }
        ensures pages { self.new.pages ≡ self.old.pages }
        ensures kernel { self.new.kernel ≡ self.old.kernel }
        ensures ended { self.new.ended ≡ self.old.ended }
    {
        lose_others(&mut self.harts, hart, writes);
    }

    /// A store of a hart, whose bytes can be written, enters memory: the other harts lose their reservations of its bytes.
    #[inline]
    fn enter(&mut self, hart: Hart, store: Store)
        requires size { IsAccessSize store.size }
        requires writable { each_byte (can_write_in self.old.pages) store.at store.size ≡ true }
        ensures pages { IsWritten (Write.Stored store ∷ []) self.old.pages self.new.pages }
        ensures harts { (k : ℕ) → slice_get self.new.harts.items k
            ≡ option_map (lost_unless (nat_eq k hart.0) (Write.Stored store ∷ []))
            (slice_get self.old.harts.items k) }
        ensures kernel { self.new.kernel ≡ self.old.kernel }
        ensures ended { self.new.ended ≡ self.old.ended }
    {
        let _ = self.pages.set(store.at, store.size, store.value);
        self.lose(hart, &[Write::Stored(store)]);
    }

    /// A store that a hart made, or that leaves its buffer, enters memory, where there is one.
    #[inline]
    pub(crate) fn enter_made(&mut self, hart: Hart, made: Option<Store>)
        requires size { IfSome made (λ s. IsAccessSize s.size) }
        requires writable { IfSome made (λ s. each_byte (can_write_in self.old.pages) s.at s.size ≡ true) }
        ensures pages { IsWritten (all_stored (stores made)) self.old.pages self.new.pages }
        ensures harts { (k : ℕ) → slice_get self.new.harts.items k
            ≡ option_map (lost_unless (nat_eq k hart.0) (all_stored (stores made)))
            (slice_get self.old.harts.items k) }
        ensures kernel { self.new.kernel ≡ self.old.kernel }
        ensures ended { self.new.ended ≡ self.old.ended }
    {
        if let Some(store) = made {
            self.enter(hart, store);
        }
    }

    /// The oldest waiting store of a hart, which lies on pages, enters memory.
    pub(crate) fn drained(&mut self, hart: Hart)
        requires { MayDrain self.old hart.0 }
        ensures { IsEvent self.old hart.0 Choice.Drain self.new }
    {
        let state = &mut self.harts[hart.0 as usize];
        let oldest = state.buffer.pop();
        self.enter_made(hart, oldest);
    }
}
