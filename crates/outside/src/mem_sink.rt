//! A sink in memory that fails where it is told to.

ghost use Rattle.std.specs.Prelude.{◌≡◌, ◌++◌, [], Some, take, is_err, IfOk, OnErr, None};
ghost use Rattle.outside.specs.Counts.{NeverFalls, counted};

use crate::faults::Failed;
use crate::traits::Sink;
use std::alloc::{AllocError, Global};
use std::io::ErrorKind;
use std::marker::Model;

/// The most bytes that one `put` takes.
const LONGEST_PUT: usize = 64;

/// A sink in memory with a limited room. The calls of `put` whose numbers, counted from 1, are in a
/// list fail, and so does each call once the room is full. A call with an empty piece is counted, and
/// never fails. A call takes at most 64 bytes. Of a fault it tells no trouble.
#[derive(Drop)]
pub struct MemSink {
    bytes: Vec<u8>,
    room: usize,
    failing: Vec<u64>,
    calls: u64,
    faults: u64,
}

impl Model for MemSink {
    ghost use Rattle.std.specs.Prelude.{◌≤◌, vec_len, vec_capacity};
    ghost use Rattle.outside.specs.MemSink.{MemorySink};

    ghost Value = { MemorySink };

    ghost view = { λ s. record {
      held = s.bytes.items;
      room = s.room;
      failing = s.failing.items;
      calls = s.calls;
      faults = s.faults;
    } };

    ghost invariant = { λ s. (vec_len s.bytes ≤ s.room) × (s.room ≤ vec_capacity s.bytes) };
}

impl MemSink {
    ghost use Rattle.outside.specs.MemSink.{MemorySink};

    /// An empty sink of this room, in bytes.
    pub fn new(alloc: Global, room: usize, failing: Vec<u64>) -> Result<MemSink, AllocError>
        ensures { IfOk result (λ sink. sink ≡ record {
          held = [];
          room = room;
          failing = failing.items;
          calls = 0;
          faults = 0;
        }) }
    {
        Ok(MemSink {
            bytes: Vec::with_capacity(alloc, room)?,
            room,
            failing,
            calls: 0,
            faults: 0,
        })
    }

    /// What the sink holds.
    pub fn held(&self) -> &[u8]
        ensures { result.now ≡ self.now.held }
    {
        &self.bytes
    }
}

impl Sink for MemSink {
    ghost use Rattle.outside.specs.MemSink.{MemorySink, is_refused, taken_of};

    ghost held = { λ s. Some s.held };

    ghost faults = { λ s. s.faults };

    ghost last_trouble = { λ _. None };

    fn put(&mut self, piece: &[u8]) -> Result<usize, Failed>
        ensures refused { is_err result ≡ is_refused self.old piece.now }
        ensures taken { IfOk result (λ n. n ≡ taken_of self.old piece.now) }
        ensures ok { IfOk result (λ n. self.new ≡ record self.old {
          held = self.old.held ++ take n piece.now;
          calls = counted self.old.calls;
        }) }
        ensures err { OnErr result (self.new ≡ record self.old {
          calls = counted self.old.calls;
          faults = counted self.old.faults;
        }) }
        ensures counts { NeverFalls self.old.faults self.new.faults }
    {
        self.calls = self.calls.saturating_add(1);
        if piece.is_empty() {
            return Ok(0);
        }
        let free = self.room - self.bytes.len();
        if free == 0 || self.failing.contains(&self.calls) {
            self.faults = self.faults.saturating_add(1);
            return Err(Failed);
        }
        let taken = piece.len().min(free.min(LONGEST_PUT));
        self.bytes.extend_from_slice(&piece[..taken]).unwrap();
        Ok(taken)
    }

    fn trouble(&self) -> Option<ErrorKind> {
        None
    }
}
