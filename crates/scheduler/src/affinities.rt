//! The threads that are held, each by its number with the set of its harts.

ghost use Rattle.std.specs.Prelude.{◌≡◌, ◌<◌, ◌++◌, ◌∷◌, [], ◌&&◌, not, map, filter, length};
ghost use Rattle.std.specs.List.{position};
ghost use Rattle.mach_types.specs.Kernel.Scheduling.{is_of, set_if};
ghost use Rattle.mach_types.specs.declared.kernel_words.TheConstants.{MOST_THREADS};
ghost use Rattle.scheduler.specs.Entries.{set_among, stand_once, is_last};

use crate::entry_list::{self, Entries, Entry};
use arrayvec::ArrayVec;
use std::marker::Model;

/// The entries of the threads that are held, in the order in which they came.
#[derive(Drop)]
pub struct Affinities {
    entries: Entries,
    /// Whether the numbers rise, as they do where each thread that comes has a higher one than all that are
    /// held.
    rising: bool,
}

impl Model for Affinities {
    ghost use Rattle.std.specs.Prelude.{ℕ, List};
    ghost use Rattle.scheduler.specs.Entries.{IsMarked};

    ghost Value = { List (ℕ × ℕ) };

    ghost view = { λ a. a.entries.items };

    ghost invariant = { λ a. IsMarked a.rising a.entries.items };
}

/// Whether a number is above that of the last entry.
fn is_above_last(entries: &[Entry], tid: u32) -> bool
    ensures { result ≡ is_last tid entries.now }
{
    match entries.last() {
        Some(last) => last.0 < tid,
        None => true,
    }
}

/// Whether numbers rise, where they did before a thread came as the last one.
fn stays_rising(rising: bool, entries: &[Entry], tid: u32) -> bool
    ensures { result ≡ (rising && is_last tid entries.now) }
{
    rising && is_above_last(entries, tid)
}

impl Affinities {
    /// The entry of thread 1 alone.
    pub fn new(set: u8) -> Affinities
        ensures { result ≡ (1, set) ∷ [] }
    {
        let mut entries = ArrayVec::new();
        entries.push((1, set));
        Affinities {
            entries,
            rising: true,
        }
    }

    /// The entry of thread 1 alone again.
    pub fn reset(&mut self, set: u8)
        ensures { self.new ≡ (1, set) ∷ [] }
    {
        self.entries.clear();
        self.entries.push((1, set));
        self.rising = true;
    }

    /// The entries of other threads, in place of its own. It takes no memory.
    pub fn copy_from(&mut self, other: &Affinities)
        ensures { self.new ≡ other.now }
    {
        entry_list::copy(&mut self.entries, &other.entries);
        self.rising = other.rising;
    }

    /// The entries.
    pub fn entries(&self) -> &[Entry]
        ensures { result.now ≡ self.now }
    {
        &self.entries
    }

    /// Where the entry of a thread stands: found by halving while the numbers rise, else by going over all.
    fn place_of(&self, tid: u32) -> Option<usize>
        ensures { result ≡ position (is_of tid) self.now }
    {
        if self.rising {
            self.entries
                .binary_search_by_key(&tid, |entry| entry.0)
                .ok()
        } else {
            entry_list::place_in(&self.entries, tid)
        }
    }

    /// The harts of a thread; none where it isn't held.
    pub fn set_of(&self, tid: u32) -> u8
        ensures { result ≡ set_among self.now tid }
    {
        match self.place_of(tid) {
            Some(place) => self.entries[place].1,
            None => 0,
        }
    }

    /// Adds the entry of a thread as the last one.
    pub fn add(&mut self, tid: u32, set: u8)
        requires { length self.old < MOST_THREADS }
        ensures { self.new ≡ self.old ++ (tid, set) ∷ [] }
    {
        self.rising = stays_rising(self.rising, &self.entries, tid);
        self.entries.push((tid, set));
    }

    /// Gives a thread these harts.
    pub fn change(&mut self, tid: u32, set: u8)
        requires { stand_once self.old }
        ensures { self.new ≡ map (set_if tid set) self.old }
    {
        let place = self.place_of(tid);
        entry_list::change_at(&mut self.entries, place, tid, set);
    }

    /// Takes a thread's entry away.
    pub fn remove(&mut self, tid: u32)
        requires { stand_once self.old }
        ensures { self.new ≡ filter (λ entry. not (is_of tid entry)) self.old }
    {
        let place = self.place_of(tid);
        entry_list::remove_at(&mut self.entries, place, tid);
    }
}
