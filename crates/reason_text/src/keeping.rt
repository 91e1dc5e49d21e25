//! A shelf that keeps the bytes of the file that is read, or reads them again.

ghost use Rattle.std.specs.Prelude.{◌≡◌, ◌<◌, ◌≤◌, ◌↔◌, [], take, length, IsTrue, IsErrOf, IfOk, IfSome, OnErr, OnOk, false};
ghost use Rattle.outside.specs.Counts.{NoneFalls, Rose, StartedRose};
ghost use Rattle.outside.specs.Told.{Moved};

use call_reasons::FileRole;
use outside::{Failed, Shelf, StartFault, fetch};
use std::alloc::Global;
use std::io::ErrorKind;

/// What of a file is kept.
#[derive(Clone, Copy, Drop)]
pub enum Keep {
    /// All of it, since it can't be read again.
    All,
    /// All of it where it has at most so many bytes, else nothing. It can be read again.
    UpTo(usize),
}

/// Says what of which file is kept.
pub trait Keeping {
    /// What is kept of the file of this name.
    fn keep_of(&self, name: &str) -> Keep;
}

/// A shelf, and what was read of the file that was started last.
#[derive(Drop)]
pub struct KeepingShelf<S: Shelf + Drop, K: Keeping + Drop> {
    shelf: S,
    keeping: K,
    /// All bytes that were read, as long as there was memory for them and they were no more than are kept.
    kept: Option<Vec<u8>>,
    /// The most bytes that are kept.
    most: usize,
    /// The name of the file, where it can be read again.
    again: Option<String>,
    alloc: Global,
}

impl<S: Shelf + Drop, K: Keeping + Drop> KeepingShelf<S, K> {
    /// This shelf, of which nothing is read yet.
    pub fn new(alloc: Global, shelf: S, keeping: K) -> KeepingShelf<S, K> {
        KeepingShelf {
            shelf,
            keeping,
            kept: None,
            most: 0,
            again: None,
            alloc,
        }
    }

    /// The bytes that were read of the file that was started last; none where they aren't kept.
    pub fn kept(&self) -> &[u8] {
        match &self.kept {
            Some(bytes) => bytes,
            None => &[],
        }
    }

    /// Keeps the bytes of the file that was started last, a script: where they weren't kept, it is read once more. They
    /// aren't kept where memory runs out, and where it can't be read again.
    pub fn keep_script(&mut self) {
        if self.kept.is_none() {
            self.kept = self.script_again();
        }
    }

    /// The bytes of the file that was started last, a script, as it is read once more.
    fn script_again(&mut self) -> Option<Vec<u8>> {
        match &self.again {
            Some(name) => {
                let limit = FileRole::Script.most_bytes();
                fetch(self.alloc, &mut self.shelf, name.as_str(), limit).ok()
            }
            None => None,
        }
    }
}

impl<S: Shelf + Drop, K: Keeping + Drop> Shelf for KeepingShelf<S, K> {
    ghost file = { λ s. S.file s.shelf };

    ghost is_started = { λ s. S.is_started s.shelf };

    ghost started_name = { λ s. S.started_name s.shelf };

    ghost left = { λ s. S.left s.shelf };

    ghost faults = { λ s. S.faults s.shelf };

    ghost last_trouble = { λ s. S.last_trouble s.shelf };

    fn start(&mut self, name: &str) -> Result<(), StartFault> {
        self.kept = Some(Vec::new(self.alloc));
        self.most = usize::MAX;
        self.again = None;
        if let Keep::UpTo(most) = self.keeping.keep_of(name) {
            self.most = most;
            self.again = String::from_str(self.alloc, name).ok();
        }
        self.shelf.start(name)
    }

    fn read(&mut self, buf: &mut [u8]) -> Result<usize, Failed> {
        let moved = self.shelf.read(buf)?;
        keep_more(&mut self.kept, self.most, &buf[..moved]);
        Ok(moved)
    }

    fn trouble(&self) -> Option<ErrorKind> {
        self.shelf.trouble()
    }
}

/// Keeps these bytes too, or none where there are more than are kept or memory runs out for them.
fn keep_more(kept: &mut Option<Vec<u8>>, most: usize, bytes: &[u8]) {
    if let Some(earlier) = kept
        && (bytes.len() > most.saturating_sub(earlier.len())
            || earlier.extend_from_slice(bytes).is_err())
    {
        *kept = None;
    }
}
