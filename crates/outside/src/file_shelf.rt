//! The files of the system as a shelf.

ghost use Rattle.std.specs.Prelude.{◌≡◌, ◌<◌, ◌≤◌, None, true, false, length, IsSome, IsTrue, IsErrOf, IfOk, OnOk, OnErr};
ghost use Rattle.std.specs.Io.KnownBytes.{ReadConsumes};
ghost use Rattle.outside.specs.Counts.{NoneFalls, counted};

use crate::faults::{Failed, StartFault};
use crate::traits::Shelf;
use std::fs::File;
use std::io::{ErrorKind, Read};
use std::marker::Model;
use std::rt::Files;

/// The files of the system. It tells no content; its one count of faults, raised at each error of
/// std, is the count of every name.
///
/// What a file has left is known where std's file tells it. The system's files tell nothing: what they give
/// is trusted, and no clause names their bytes.
#[derive(Drop)]
pub struct FileShelf<R: Files> {
    files: R,
    started: Option<R::File>,
    faults: u64,
    trouble: Option<ErrorKind>,
}

impl<R: Files> Model for FileShelf<R> {
    ghost use Rattle.std.specs.Prelude.{is_some};
    ghost use Rattle.outside.specs.FileShelf.{SystemFiles, known_left};

    ghost Value = { SystemFiles };

    ghost view = { λ s. record {
      is_started = is_some s.started;
      left = known_left R.File.remaining s.started;
      faults = s.faults;
      trouble = s.trouble;
    } };
}

impl<R: Files> FileShelf<R> {
    ghost use Rattle.outside.specs.FileShelf.{SystemFiles};

    /// The files that this runtime reaches.
    pub fn new(files: R) -> FileShelf<R>
        ensures { result ≡ record { is_started = false; left = None; faults = 0; trouble = None } }
    {
        FileShelf {
            files,
            started: None,
            faults: 0,
            trouble: None,
        }
    }
}

impl<R: Files> Shelf for FileShelf<R> {
    ghost use Rattle.outside.specs.FileShelf.{SystemFiles};

    ghost file = { λ _ _. None };

    ghost is_started = { λ s. s.is_started };

    ghost started_name = { λ _. None };

    ghost left = { λ _. None };

    ghost faults = { λ s _. s.faults };

    ghost last_trouble = { λ s. s.trouble };

    fn start(&mut self, name: &str) -> Result<(), StartFault>
        ensures ok { OnOk result (self.new ≡ record self.old { is_started = true; left = self.new.left }) }
        ensures failed { IsErrOf result StartFault.Failed
            → self.new
            ≡ record self.new { is_started = false; left = None; faults = counted self.old.faults } }
        ensures told { IsErrOf result StartFault.Failed → IsSome self.new.trouble }
        ensures no_memory { IsErrOf result StartFault.NoMemory
            → self.new ≡ record self.old { is_started = false; left = None } }
        ensures counts { NoneFalls (λ _. self.old.faults) (λ _. self.new.faults) }
    {
        self.started = None;
        match File::open(&self.files, name) {
            Ok(file) => {
                self.started = Some(file);
                Ok(())
            }
            Err(error) => {
                if error.kind() == ErrorKind::OutOfMemory {
                    return Err(StartFault::NoMemory);
                }
                self.faults = self.faults.saturating_add(1);
                self.trouble = Some(error.kind());
                Err(StartFault::Failed)
            }
        }
    }

    fn read(&mut self, buf: &mut [u8]) -> Result<usize, Failed>
        requires started { IsTrue self.old.is_started }
        requires room { 0 < length buf.old }
        ensures within { IfOk result (λ n. n ≤ length buf.new) }
        ensures ok { OnOk result (self.new ≡ record self.old { left = self.new.left }) }
        ensures given { ReadConsumes self.old.left self.new.left result buf.new }
        ensures err { OnErr result (self.new ≡ record self.new
            { is_started = self.old.is_started; faults = counted self.old.faults }) }
        ensures told { OnErr result (IsSome self.new.trouble) }
        ensures counts { NoneFalls (λ _. self.old.faults) (λ _. self.new.faults) }
    {
        let Some(file) = &mut self.started else {
            unreachable!()
        };
        match file.read(buf) {
            Ok(moved) => Ok(moved),
            Err(error) => {
                self.faults = self.faults.saturating_add(1);
                self.trouble = Some(error.kind());
                Err(Failed)
            }
        }
    }

    fn trouble(&self) -> Option<ErrorKind> {
        self.trouble
    }
}
