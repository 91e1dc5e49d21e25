//! A chronicle in memory, which counts what stretches came to.
ghost use Rattle.std.specs.Prelude.{◌≡◌, ◌≤◌, ◌<◌, ◌^◌, length, take, vec_capacity, IfOk, []};

use mach_types::{Advance, Entry, Hart, Kind, Tid};
use machine_lock::{Chronicle, Meaning};
use std::alloc::{AllocError, Global};

/// How many entries a hart makes before it is the next one's turn.
const ROUND: usize = 4;

/// Its harts make the entries by turns, four in a row, until there are `total`.
#[derive(Drop)]
pub struct Tally {
    total: u32,
    harts: u8,
    entries: Vec<Entry>,
    appends: u32,
    ghost room: { (total ≤ vec_capacity entries) × (length entries.items ≤ total) },
    ghost some: { 1 ≤ harts },
}

/// It needs no code.
#[derive(Drop)]
pub struct NoCode;

/// One entry, which may be appended once the work on it is done.
#[derive(Drop)]
pub struct One {
    done: bool,
}

impl Tally {
    /// No entries yet.
    pub fn new(alloc: Global, total: u32, harts: u8) -> Result<Tally, AllocError>
        requires { 1 ≤ harts }
    {
        let entries = Vec::with_capacity(alloc, total as usize)?;
        Ok(Tally {
            total,
            harts,
            entries,
            appends: 0,
        })
    }

    /// The entries, the oldest first.
    pub fn entries(&self) -> &[Entry]
        ensures { result.now ≡ self.now.entries.items }
    {
        self.entries.as_slice()
    }

    /// Keeps the first so many entries.
    pub fn keep(&mut self, count: usize)
        ensures kept { self.new.entries.items ≡ take count self.old.entries.items }
        ensures same { (self.new.total ≡ self.old.total) × (self.new.harts ≡ self.old.harts) }
        ensures short { length self.old.entries.items < 2 ^ 32 }
    {
        let _total = self.total;
        self.entries.truncate(count);
    }

    /// How many calls of `append` answered more than 0.
    pub fn appends(&self) -> u32
        ensures { result ≡ self.now.appends }
    {
        self.appends
    }
}

impl Meaning for Tally {
    ghost use Rattle.std.specs.Prelude.{ℕ};
    ghost use Rattle.worker_tests.specs.Tallies.{next_of, ended_of};

    ghost Setting = { ℕ × ℕ };

    ghost setting = { λ t. (t.total, t.harts) };

    ghost log = { λ t. t.entries.items };

    ghost next = { λ s. next_of s.0 s.1 };

    ghost ended = { λ s. ended_of s.0 };
}

impl Chronicle for Tally {
    ghost use Rattle.std.proofs.Common.{rules};

    type Code = NoCode;

    type Stretch = One;

    ghost serves = { λ code machine. Unit {0} };

    ghost fits = { λ stretch machine hart log. Unit {0} };

    fn advance(&mut self, hart: Hart) -> Advance {
        let number = self.entries.len();
        if number >= self.total as usize {
            return Advance::Ended;
        }
        if (number / ROUND) % usize::from(self.harts) != usize::from(hart.0) {
            return Advance::NoneNow;
        }
        let entry = Entry {
            hart,
            kind: Kind::Exec,
            tid: Tid(1),
            pc: number as u64,
        };
        let Ok(()) = self.entries.push(entry) else {
            unreachable!()
        };
        Advance::Made(entry)
    }

    fn made(&self) -> u32 {
        let _total = self.total;
        self.entries.len() as u32
    }

    fn code(&self, _alloc: Global) -> Result<NoCode, AllocError> {
        Ok(NoCode)
    }

    fn lend(&self, _hart: Hart) -> Option<One> {
        Some(One { done: false })
    }

    fn work(_code: &NoCode, stretch: &mut One) {
        stretch.done = true;
    }

    fn append(&mut self, hart: Hart, stretch: One) -> u32 {
        if !stretch.done {
            return 0;
        }
        match self.advance(hart) {
            Advance::Made(_) => {
                self.appends = self.appends.saturating_add(1);
                1
            }
            Advance::NoneNow => 0,
            Advance::Ended => 0,
        }
    }

    ghost serves_by_setting = { λ code a b same serves. serves };

    ghost fits_by_setting = { λ stretch a b hart log same fits. fits };

    ghost fits_later = { λ stretch machine hart log more fits. fits };

    ghost still = { λ machine log hart end. Prim.search rules };
}
