//! Lists of threads, each by its number with the set of its harts.

ghost use Rattle.std.specs.Prelude.{◌≡◌, ◌≤◌, not, map, filter, find};
ghost use Rattle.std.specs.List.{list_any, position};
ghost use Rattle.std.specs.Option.{option_map};
ghost use Rattle.mach_types.specs.Kernel.Scheduling.{is_of, set_if};
ghost use Rattle.scheduler.specs.Entries.{stand_once, is_for, is_only_for};

use crate::hart_sets::{has_hart, has_none_of};
use arrayvec::ArrayVec;
use mach_types::MOST_THREADS;

/// How many threads can be held.
pub const ROOM: usize = MOST_THREADS as usize;

/// A thread's number, and the set of its harts.
pub type Entry = (u32, u8);

/// Entries, of which no two have the same number.
pub type Entries = ArrayVec<Entry, ROOM>;

/// Gives a list the entries of another.
pub fn copy(entries: &mut Entries, other: &Entries)
    ensures { entries.new.items ≡ other.now.items }
{
    entries.clear();
    let _ = entries.try_extend_from_slice(other);
}

/// Where the first entry of a thread stands.
pub fn place_in(entries: &[Entry], tid: u32) -> Option<usize>
    ensures { result ≡ position (is_of tid) entries.now }
{
    entries.iter().position(|entry| entry.0 == tid)
}

/// Whether a thread has an entry.
pub fn has(entries: &[Entry], tid: u32) -> bool
    ensures { result ≡ list_any (is_of tid) entries.now }
{
    place_in(entries, tid).is_some()
}

/// The first of these threads that may run on a hart.
pub fn first_allowed(entries: &[Entry], hart: u8) -> Option<u32>
    ensures { result ≡ option_map (λ entry. entry.0) (find (is_for hart) entries.now) }
{
    for entry in entries {
        if has_hart(entry.1, hart) {
            return Some(entry.0);
        }
    }
    None
}

/// Whether one of these threads may run on a hart, and on none of the first so many.
pub fn is_any_only_for(entries: &[Entry], hart: u8, barred: u8) -> bool
    requires { barred ≤ 8 }
    ensures { result ≡ list_any (is_only_for hart barred) entries.now }
{
    entries.iter().any(|entry| has_hart(entry.1, hart) && has_none_of(entry.1, barred))
}

/// Gives the thread whose entry stands there these harts.
pub fn change_at(entries: &mut Entries, place: Option<usize>, tid: u32, set: u8)
    requires place { place ≡ position (is_of tid) entries.old.items }
    requires once { stand_once entries.old.items }
    ensures { entries.new.items ≡ map (set_if tid set) entries.old.items }
{
    if let Some(place) = place {
        entries[place] = (tid, set);
    }
}

/// Takes away the entry of a thread, which stands there.
pub fn remove_at(entries: &mut Entries, place: Option<usize>, tid: u32)
    requires place { place ≡ position (is_of tid) entries.old.items }
    requires once { stand_once entries.old.items }
    ensures { entries.new.items ≡ filter (λ entry. not (is_of tid entry)) entries.old.items }
{
    if let Some(place) = place {
        entries.remove(place);
    }
}

/// Takes away the entry of a thread; false where it has none.
pub fn take_out(entries: &mut Entries, tid: u32) -> bool
    requires { stand_once entries.old.items }
    ensures found { result ≡ list_any (is_of tid) entries.old.items }
    ensures rest { entries.new.items ≡ filter (λ entry. not (is_of tid entry)) entries.old.items }
{
    let place = place_in(entries, tid);
    remove_at(entries, place, tid);
    place.is_some()
}
