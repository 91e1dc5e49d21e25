//! Standard output as a sink.

ghost use Rattle.std.specs.Prelude.{◌≡◌, ◌<◌, ◌≤◌, None, Ok, length, IfOk, OnOk, OnErr};
ghost use Rattle.std.specs.Io.KnownBytes.{WriteAppends};
ghost use Rattle.outside.specs.Counts.{NeverFalls, counted};

use crate::faults::Failed;
use crate::traits::Sink;
use std::io::{ErrorKind, Write};
use std::marker::Model;

/// Standard output, or another writer of std. It doesn't tell what it holds; its count of faults is raised
/// at each error of std, and where nothing is taken of a piece that isn't empty.
///
/// What the writer holds is known where the writer's own contract tells it. The system's standard output
/// tells nothing: that it passes the bytes on is trusted, and no clause names them.
#[derive(Drop)]
pub struct OutSink<W: Write> {
    out: W,
    faults: u64,
    trouble: Option<ErrorKind>,
}

impl<W: Write> Model for OutSink<W> {
    ghost use Rattle.outside.specs.OutSink.{SystemOutput};

    ghost Value = { SystemOutput };

    ghost view = { λ s. record { contents = W.contents s.out; faults = s.faults; trouble = s.trouble } };
}

impl<W: Write> OutSink<W> {
    /// What writes to this writer, as `std::io::writer` of a runtime.
    pub fn new(out: W) -> OutSink<W>
        ensures { result ≡ record { contents = W.contents out; faults = 0; trouble = None } }
    {
        OutSink {
            out,
            faults: 0,
            trouble: None,
        }
    }
}

impl<W: Write> Sink for OutSink<W> {
    ghost held = { λ _. None };

    ghost faults = { λ s. s.faults };

    ghost last_trouble = { λ s. s.trouble };

    fn put(&mut self, piece: &[u8]) -> Result<usize, Failed>
        ensures empty { length piece.now ≡ 0 → result ≡ Ok 0 }
        ensures some { IfOk result (λ n. 0 < length piece.now → 0 < n) }
        ensures within { IfOk result (λ n. n ≤ length piece.now) }
        ensures ok { OnOk result (self.new ≡ record self.old { contents = self.new.contents }) }
        ensures written { WriteAppends self.old.contents self.new.contents result piece.now }
        ensures err { OnErr result (self.new.faults ≡ counted self.old.faults) }
        ensures counts { NeverFalls self.old.faults self.new.faults }
    {
        if piece.is_empty() {
            return Ok(0);
        }
        match self.out.write(piece) {
            Ok(taken) if taken > 0 => return Ok(taken),
            Ok(_) => self.trouble = None,
            Err(error) => self.trouble = Some(error.kind()),
        }
        self.faults = self.faults.saturating_add(1);
        Err(Failed)
    }

    fn trouble(&self) -> Option<ErrorKind> {
        self.trouble
    }
}
