//! A shelf in memory that never fails.

ghost use Rattle.std.specs.Prelude.{◌≡◌, ◌<◌, ◌≤◌, ◌+◌, ◌-◌, ◌↔◌, [], Some, None, Ok, IsOkUnless, take, length, min, is_some, IsTrue, IfSome, IfOk, OnOk, OnErr};
ghost use Rattle.outside.specs.Told.{Moved};

use crate::faults::{Failed, StartFault};
use crate::files::{bytes_of, copy_from};
use crate::traits::Shelf;
use std::alloc::Global;
use std::io::ErrorKind;
use std::marker::Model;

/// A shelf in memory that never fails. A name that it doesn't hold is an empty file. Where two files
/// have one name, the first counts.
#[derive(Drop)]
pub struct SureShelf {
    files: Vec<(String, Vec<u8>)>,
    name: String,
    is_started: bool,
    given: usize,
}

impl Model for SureShelf {
    ghost use Rattle.std.specs.Prelude.{◌≡◌, ◌≤◌, true, Some, None, length, string_bytes, if◌then◌else◌};
    ghost use Rattle.outside.specs.SureShelf.{SureFiles, sure_file};

    ghost Value = { SureFiles };

    ghost view = { λ s. record {
      files = s.files.items;
      started = (if s.is_started then Some (string_bytes s.name) else None);
      given = s.given;
    } };

    ghost invariant = { λ s. s.is_started ≡ true
        → s.given ≤ length (sure_file s.files.items (string_bytes s.name)) };
}

impl SureShelf {
    ghost use Rattle.outside.specs.SureShelf.{SureFiles};

    /// A shelf of these files, whose names and bytes are given in order.
    pub fn new(alloc: Global, files: Vec<(String, Vec<u8>)>) -> SureShelf
        ensures { result ≡ record { files = files.items; started = None; given = 0 } }
    {
        SureShelf {
            files,
            name: String::new(alloc),
            is_started: false,
            given: 0,
        }
    }
}

impl Shelf for SureShelf {
    ghost use Rattle.outside.specs.SureShelf.{SureFiles, sure_file, file_on, left_of};

    ghost file = { file_on };

    ghost is_started = { λ s. is_some s.started };

    ghost started_name = { λ s. s.started };

    ghost left = { left_of };

    ghost faults = { λ _ _. 0 };

    ghost last_trouble = { λ _. None };

    fn start(&mut self, name: &str) -> Result<(), StartFault>
        ensures sure { IsOkUnless result StartFault.NoMemory }
        ensures ok { OnOk result (self.new ≡ record self.old { started = Some name.now; given = 0 }) }
        ensures err { OnErr result (self.new ≡ record self.old { started = None; given = 0 }) }
    {
        self.is_started = false;
        self.given = 0;
        self.name.clear();
        if self.name.push_str(name).is_err() {
            return Err(StartFault::NoMemory);
        }
        self.is_started = true;
        Ok(())
    }

    fn read(&mut self, buf: &mut [u8]) -> Result<usize, Failed>
        requires started { IsTrue (is_some self.old.started) }
        requires room { 0 < length buf.old }
        ensures within { IfOk result (λ n. n ≤ length buf.new) }
        ensures moved { IfOk result (λ n. Moved (left_of self.old) (left_of self.new) (take n buf.new)) }
        ensures end { IfOk result (λ n. IfSome (left_of self.old) (λ bytes. (n ≡ 0) ↔ (bytes ≡ []))) }
        ensures sure { IfSome self.old.started (λ name. result
            ≡ Ok (min (length buf.old) (length (sure_file self.old.files name) - self.old.given))) }
        ensures ok { IfOk result (λ n. self.new ≡ record self.old { given = self.old.given + n }) }
    {
        let bytes = bytes_of(&self.files, self.name.as_str());
        let count = copy_from(bytes, self.given, buf);
        self.given += count;
        Ok(count)
    }

    fn trouble(&self) -> Option<ErrorKind> {
        None
    }
}
