//! A shelf in memory that fails where it is told to.

ghost use Rattle.std.specs.Prelude.{◌≡◌, ◌<◌, ◌≤◌, ◌+◌, ◌-◌, ◌↔◌, [], take, length, min, replicate, is_err, IsTrue, IsErrOf, IfSome, IfOk, OnOk, OnErr, None};
ghost use Rattle.outside.specs.Calls.{is_failing};
ghost use Rattle.outside.specs.Counts.{Rose, NoneFalls, StartedRose, counted};
ghost use Rattle.outside.specs.Files.{place_of, bytes_at};
ghost use Rattle.outside.specs.Told.{Moved};

use crate::faults::{Failed, StartFault};
use crate::files::{bytes_at, copy_from, place_of};
use crate::traits::Shelf;
use std::alloc::{AllocError, Global};
use std::io::ErrorKind;
use std::marker::Model;

/// A shelf in memory. The calls of `start` and `read` whose numbers, counted together from 1, are in
/// a list fail, and so does each `start` of a name that it doesn't hold. Each file has a count of
/// faults, and all other names together have one. Where two files have one name, the first counts. Of
/// a fault it tells no trouble.
#[derive(Drop)]
pub struct MemShelf {
    files: Vec<(String, Vec<u8>)>,
    failing: Vec<u64>,
    calls: u64,
    counts: Vec<u64>,
    started: usize,
    given: usize,
}

impl Model for MemShelf {
    ghost use Rattle.std.specs.Prelude.{◌≡◌, ◌+◌, length};
    ghost use Rattle.outside.specs.MemShelf.{MemoryShelf, IsStarted};

    ghost Value = { MemoryShelf };

    ghost view = { λ s. record {
      files = s.files.items;
      failing = s.failing.items;
      calls = s.calls;
      counts = s.counts.items;
      started = s.started;
      given = s.given;
    } };

    ghost invariant = { λ s. (length s.counts.items ≡ length s.files.items + 1)
        × IsStarted s.files.items s.started s.given };
}

impl MemShelf {
    ghost use Rattle.outside.specs.MemShelf.{MemoryShelf};

    /// A shelf of these files, whose names and bytes are given in order.
    pub fn new(
        alloc: Global,
        files: Vec<(String, Vec<u8>)>,
        failing: Vec<u64>,
    ) -> Result<MemShelf, AllocError>
        ensures { IfOk result (λ shelf. shelf ≡ record {
          files = files.items;
          failing = failing.items;
          calls = 0;
          counts = replicate (length files.items + 1) 0;
          started = length files.items;
          given = 0;
        }) }
    {
        let started = files.len();
        let counts = vec![in alloc; 0; started + 1]?;
        Ok(MemShelf {
            files,
            failing,
            calls: 0,
            counts,
            started,
            given: 0,
        })
    }
}

impl Shelf for MemShelf {
    ghost use Rattle.outside.specs.MemShelf.{MemoryShelf, file_on, is_started, name_started, left_of, count_of, raised_at, is_start_refused};

    ghost file = { file_on };

    ghost is_started = { is_started };

    ghost started_name = { name_started };

    ghost left = { left_of };

    ghost faults = { count_of };

    ghost last_trouble = { λ _. None };

    fn start(&mut self, name: &str) -> Result<(), StartFault>
        ensures started { OnOk result (IsTrue (is_started self.new)) }
        ensures named { OnOk result (IfSome (name_started self.new) (λ started. started ≡ name.now)) }
        ensures whole { OnOk result (left_of self.new ≡ file_on self.old name.now) }
        ensures failed { OnErr result (Rose (count_of self.old name.now) (count_of self.new name.now)) }
        ensures counts { NoneFalls (count_of self.old) (count_of self.new) }

        // And exactly.
        ensures refused { is_err result ≡ is_start_refused self.old name.now }
        ensures no_memory { ¬ IsErrOf result StartFault.NoMemory }
        ensures ok { OnOk result (self.new ≡ record self.old {
          calls = counted self.old.calls;
          started = place_of self.old.files name.now;
          given = 0;
        }) }
        ensures err { OnErr result (self.new ≡ record self.old {
          calls = counted self.old.calls;
          counts = raised_at self.old.counts (place_of self.old.files name.now);
          started = length self.old.files;
          given = 0;
        }) }
    {
        self.calls = self.calls.saturating_add(1);
        let place = place_of(&self.files, name);
        self.given = 0;
        if place == self.files.len() || self.failing.contains(&self.calls) {
            self.started = self.files.len();
            self.counts[place] = self.counts[place].saturating_add(1);
            return Err(StartFault::Failed);
        }
        self.started = place;
        Ok(())
    }

    fn read(&mut self, buf: &mut [u8]) -> Result<usize, Failed>
        requires started { IsTrue (is_started self.old) }
        requires room { 0 < length buf.old }
        ensures within { IfOk result (λ n. n ≤ length buf.new) }
        ensures moved { IfOk result (λ n. Moved (left_of self.old) (left_of self.new) (take n buf.new)) }
        ensures end { IfOk result (λ n. IfSome (left_of self.old) (λ bytes. (n ≡ 0) ↔ (bytes ≡ []))) }
        ensures failed { OnErr result
            (StartedRose (name_started self.old) (count_of self.old) (count_of self.new)) }
        ensures counts { NoneFalls (count_of self.old) (count_of self.new) }

        // And exactly.
        ensures refused { is_err result ≡ is_failing self.old.failing self.old.calls }
        ensures count { IfOk result (λ n. IfSome (bytes_at self.old.files self.old.started)
            (λ bytes. n ≡ min (length buf.old) (length bytes - self.old.given))) }
        ensures ok { IfOk result (λ n. self.new ≡ record self.old {
          calls = counted self.old.calls;
          given = self.old.given + n;
        }) }
        ensures err { OnErr result (self.new ≡ record self.old {
          calls = counted self.old.calls;
          counts = raised_at self.old.counts self.old.started;
        }) }
    {
        self.calls = self.calls.saturating_add(1);
        if self.failing.contains(&self.calls) {
            let place = self.started;
            self.counts[place] = self.counts[place].saturating_add(1);
            return Err(Failed);
        }
        let count = copy_from(bytes_at(&self.files, self.started), self.given, buf);
        self.given += count;
        Ok(count)
    }

    fn trouble(&self) -> Option<ErrorKind> {
        None
    }
}
