//! A sink in memory that never fails.

ghost use Rattle.std.specs.Prelude.{◌≡◌, [], Some, Ok, length, IfOk, IfSome, None};

use crate::faults::Failed;
use crate::traits::Sink;
use std::alloc::{AllocError, Global};
use std::io::ErrorKind;
use std::marker::Model;

/// A sink in memory that takes every piece whole. It tells what it holds as long as that is at most
/// its room; past that it still takes each piece, and tells nothing.
#[derive(Drop)]
pub struct SureSink {
    bytes: Vec<u8>,
    room: usize,
    is_past: bool,
}

impl Model for SureSink {
    ghost use Rattle.std.specs.Prelude.{◌≤◌, vec_len, vec_capacity, Some, None, if◌then◌else◌};
    ghost use Rattle.outside.specs.SureSink.{SureHeld};

    ghost Value = { SureHeld };

    ghost view = { λ s. record {
      told = (if s.is_past then None else Some s.bytes.items);
      room = s.room;
    } };

    ghost invariant = { λ s. (vec_len s.bytes ≤ s.room) × (s.room ≤ vec_capacity s.bytes) };
}

impl SureSink {
    ghost use Rattle.outside.specs.SureSink.{SureHeld};

    /// An empty sink of this room, in bytes.
    pub fn new(alloc: Global, room: usize) -> Result<SureSink, AllocError>
        ensures { IfOk result (λ sink. sink ≡ record { told = Some []; room = room }) }
    {
        Ok(SureSink {
            bytes: Vec::with_capacity(alloc, room)?,
            room,
            is_past: false,
        })
    }

    /// What the sink holds, where it tells it; past its room, what it held before.
    pub fn held(&self) -> &[u8]
        ensures { IfSome self.now.told (λ bytes. result.now ≡ bytes) }
    {
        &self.bytes
    }
}

impl Sink for SureSink {
    ghost use Rattle.outside.specs.SureSink.{SureHeld, told_after};

    ghost held = { λ s. s.told };

    ghost faults = { λ _. 0 };

    ghost last_trouble = { λ _. None };

    fn put(&mut self, piece: &[u8]) -> Result<usize, Failed>
        ensures sure { result ≡ Ok (length piece.now) }
        ensures told { self.new.told ≡ told_after self.old.room self.old.told piece.now }
        ensures room { self.new.room ≡ self.old.room }
    {
        if piece.len() > self.room - self.bytes.len() {
            self.is_past = true;
        }
        if !self.is_past {
            self.bytes.extend_from_slice(piece).unwrap();
        }
        Ok(piece.len())
    }

    fn trouble(&self) -> Option<ErrorKind> {
        None
    }
}
