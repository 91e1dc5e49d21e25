//! Stores of instructions that enter memory: on the pages of a process, or in the segment.

ghost use Rattle.std.specs.Prelude.{◌≡◌, ◌<◌, ℕ, Bool, [], ◌∷◌, false, true, None, IfSome, filter, nat_eq, slice_get};
ghost use Rattle.std.specs.Option.{option_map};
ghost use Rattle.mach_types.specs.Bytes.{IsAccessSize, all_stored, each_byte};
ghost use Rattle.hart_state.specs.State.{stores};
ghost use Rattle.block_model.specs.{Here.Done, Plain.Plain, Setting.Setting, Stands.aside};
ghost use Rattle.process.specs.{Refinement.IsTied, Reservations.lost_unless};
ghost use Rattle.shared_procs.specs.Entering.{AreStorable, HaveEntered, HaveLost};
ghost use Rattle.shared_procs.specs.{Pairs.is_shared, Segments.storable_in};

use crate::segment::{Segment, is_in_segment};
use crate::window::set_in;
use mach_types::{Hart, Store, Write};
use page_map::PageMap;
use process::Parts;
use store_buffers::StoreBuffer;
use sys_calls::CallEnd;

/// A store, which can be written, enters memory.
fn enter_one(pages: &mut PageMap, segment: &mut Segment, store: Store)
    requires size { IsAccessSize store.size }
    requires storable { each_byte (storable_in pages.old) store.at store.size ≡ true }
    ensures { HaveEntered (store ∷ []) pages.old segment.old pages.new segment.new }
{
    let _ = set_in(pages, segment, store.at, store.size, store.value);
}

/// The same, where there is one.
pub fn enter(pages: &mut PageMap, segment: &mut Segment, made: Option<Store>)
    requires size { IfSome made (λ w. IsAccessSize w.size) }
    requires storable { IfSome made (λ w. each_byte (storable_in pages.old) w.at w.size ≡ true) }
    ensures { HaveEntered (stores made) pages.old segment.old pages.new segment.new }
{
    if let Some(store) = made {
        enter_one(pages, segment, store);
    }
}

/// An event of a hart of one process of which the other sees nothing but that it was made.
pub fn unseen(other: &mut Parts, hart: Hart)
    requires { hart.0 < 8 }
    ensures { (s : Setting) (y : Plain) (d : Done) → IsTied s y other.old → d.took ≡ false → d.barrier ≡ None
        → IsTied s (aside hart.0 d [] y) other.new }
{
    other.pass_by(hart, false, CallEnd::Resume, &[]);
}

/// The other process sees a store of a hart that entered memory, where it lies in the segment: reservations of its bytes end.
fn show(other: &mut Parts, hart: Hart, store: Store)
    requires { hart.0 < 8 }
    ensures { (s : Setting) (y : Plain) (d : Done) → IsTied s y other.old → d.took ≡ false → d.barrier ≡ None
        → IsTied s (aside hart.0 d (filter is_shared (all_stored (store ∷ []))) y) other.new }
{
    if is_in_segment(store.at) {
        other.pass_by(hart, false, CallEnd::Resume, &[Write::Stored(store)]);
    } else {
        unseen(other, hart);
    }
}

/// A store of a hart that entered memory: reservations of its bytes end, those of the other process only where they lie in the segment.
fn tell_one(mine: &mut Parts, other: &mut Parts, hart: Hart, store: Store)
    requires { hart.0 < 8 }
    ensures harts { (k : ℕ) → slice_get mine.new.harts.items k
        ≡ option_map (lost_unless (nat_eq k hart.0) (all_stored (store ∷ []))) (slice_get mine.old.harts.items k) }
    ensures pages { mine.new.pages ≡ mine.old.pages }
    ensures kernel { mine.new.kernel ≡ mine.old.kernel }
    ensures ended { mine.new.ended ≡ mine.old.ended }
    ensures other { (s : Setting) (y : Plain) (d : Done) → IsTied s y other.old → d.took ≡ false → d.barrier ≡ None
        → IsTied s (aside hart.0 d (filter is_shared (all_stored (store ∷ []))) y) other.new }
{
    mine.lose(hart, &[Write::Stored(store)]);
    show(other, hart, store);
}

/// The same, where there is one.
pub fn tell(mine: &mut Parts, other: &mut Parts, hart: Hart, made: Option<Store>)
    requires { hart.0 < 8 }
    ensures harts { (k : ℕ) → slice_get mine.new.harts.items k
        ≡ option_map (lost_unless (nat_eq k hart.0) (all_stored (stores made))) (slice_get mine.old.harts.items k) }
    ensures pages { mine.new.pages ≡ mine.old.pages }
    ensures kernel { mine.new.kernel ≡ mine.old.kernel }
    ensures ended { mine.new.ended ≡ mine.old.ended }
    ensures other { (s : Setting) (y : Plain) (d : Done) → IsTied s y other.old → d.took ≡ false → d.barrier ≡ None
        → IsTied s (aside hart.0 d (filter is_shared (all_stored (stores made))) y) other.new }
{
    match made {
        Some(store) => tell_one(mine, other, hart, store),
        None => unseen(other, hart),
    }
}

/// A store that waited on a hart of a process that ended enters memory.
fn leave_one(
    pages: &mut PageMap,
    segment: &mut Segment,
    other: &mut Parts,
    hart: Hart,
    store: Store,
)
    requires eight { hart.0 < 8 }
    requires size { IsAccessSize store.size }
    requires storable { each_byte (storable_in pages.old) store.at store.size ≡ true }
    ensures entered { HaveEntered (store ∷ []) pages.old segment.old pages.new segment.new }
    ensures lost { HaveLost (store ∷ []) other.old other.new }
{
    enter_one(pages, segment, store);
    show(other, hart, store);
}

/// What waited on a hart of a process that ended enters memory, oldest first.
pub fn leave_all(
    buffer: &mut StoreBuffer,
    pages: &mut PageMap,
    segment: &mut Segment,
    other: &mut Parts,
    hart: Hart,
)
    requires eight { hart.0 < 8 }
    requires storable { AreStorable pages.old buffer.old }
    ensures buffer { buffer.new ≡ [] }
    ensures entered { HaveEntered buffer.old pages.old segment.old pages.new segment.new }
    ensures lost { HaveLost buffer.old other.old other.new }
{
    'stores: while let Some(store) = buffer.pop() {
        leave_one(pages, segment, other, hart, store);
    }
}
