//! Where an event ended one of two processes: what waits on its harts enters memory.

ghost use Rattle.std.specs.Prelude.{◌≡◌, ◌<◌, ◌≤◌, ℕ, suc, Bool, true, false, length};
ghost use Rattle.block_model.specs.Plain.{Plain};
ghost use Rattle.shared_procs.specs.Entering.{MayEmpty};
ghost use Rattle.shared_procs.specs.PairPlaces.{AreEmptied};
ghost use Rattle.shared_procs.specs.PairRuns.{has_ended};
ghost use Rattle.shared_procs.specs.Pairs.{PairSetting};

use crate::entering::leave_all;
use crate::half::has_ended;
use crate::segment::Segment;
use mach_types::Hart;
use process::Parts;

/// What waits on a hart of a process that ended enters memory, oldest first, and its reservation and its barrier call are gone. The
/// harts before it hold nothing.
fn empty(mine: &mut Parts, other: &mut Parts, segment: &mut Segment, hart: Hart)
    requires listed { hart.0 < length mine.old.harts.items }
    requires eight { hart.0 < 8 }
    requires may { MayEmpty mine.old }
    ensures emptied { (s : PairSetting) (p : Bool) (x y : Plain) (shared : ℕ → ℕ)
        → AreEmptied s p hart.0 x y shared mine.old other.old segment.old
        → AreEmptied s p (suc hart.0) x y shared mine.new other.new segment.new }
    ensures may { MayEmpty mine.new }
    ensures harts { length mine.new.harts.items ≡ length mine.old.harts.items }
{
    let state = &mut mine.harts[hart.0 as usize];
    leave_all(&mut state.buffer, &mut mine.pages, segment, other, hart);
    state.reserved = None;
    state.waits = None;
}

/// The same of all harts of the process, in rising order.
fn empty_all(mine: &mut Parts, other: &mut Parts, segment: &mut Segment)
    requires few { length mine.old.harts.items ≤ 8 }
    requires may { MayEmpty mine.old }
    ensures { (s : PairSetting) (p : Bool) (x y : Plain) (shared : ℕ → ℕ)
        → AreEmptied s p 0 x y shared mine.old other.old segment.old
        → AreEmptied s p (length mine.old.harts.items) x y shared mine.new other.new segment.new }
{
    for hart in 0..mine.harts.len() as u8 {
        empty(mine, other, segment, Hart(hart));
    }
}

/// The last part of an event: where it ended the process, what waits on its harts enters memory.
pub fn close(mine: &mut Parts, other: &mut Parts, segment: &mut Segment)
    requires few { length mine.old.harts.items ≤ 8 }
    requires may { MayEmpty mine.old }
    ensures lives { has_ended mine.old.ended ≡ false
        → (mine.new ≡ mine.old) × (other.new ≡ other.old) × (segment.new ≡ segment.old) }
    ensures ended { has_ended mine.old.ended ≡ true → (s : PairSetting) (p : Bool) (x y : Plain) (shared : ℕ → ℕ)
        → AreEmptied s p 0 x y shared mine.old other.old segment.old
        → AreEmptied s p (length mine.old.harts.items) x y shared mine.new other.new segment.new }
{
    if has_ended(mine.ended) {
        empty_all(mine, other, segment);
    }
}
