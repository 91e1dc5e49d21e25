//! Lines read from a script.

ghost use Rattle.std.specs.Prelude.{◌≡◌, ◌<◌, ◌∷◌, length, OnErr};
ghost use Rattle.step_log.specs.Reading.{unread, next_answer, after_next};
ghost use Rattle.step_log.specs.Script.{lines_of};

use crate::fields::Line;
use crate::parsing;
use std::marker::Model;

/// The line of this number, counted from 1, is malformed.
#[derive(Clone, Copy, PartialEq, Eq, Drop)]
pub struct BadLine(pub u64);

/// Reads the lines of a script in order.
#[derive(Drop)]
pub struct LineReader<'a> {
    rest: &'a [u8],
    read: u64,
}

impl<'a> Model for LineReader<'a> {
    ghost use Rattle.std.specs.Prelude.{◌+◌, ◌<◌, ◌^◌, length};
    ghost use Rattle.step_log.specs.Reading.{Unread};
    ghost use Rattle.step_log.specs.Script.{lines_of};

    ghost Value = { Unread };

    ghost view = { λ r. record { left = lines_of r.rest.now; read = r.read } };

    ghost invariant = { λ r. r.read + length r.rest.now < 2 ^ 64 };
}

impl<'a> LineReader<'a> {
    /// A reader of these bytes, before their first line.
    pub fn new(bytes: &'a [u8]) -> LineReader<'a>
        ensures { result ≡ unread bytes.now }
    {
        LineReader {
            rest: bytes,
            read: 0,
        }
    }

    /// What the next line says; None at the end.
    ///
    /// A malformed line is refused with its number, counted from 1, and the reader stays before it: each
    /// later call gives the same refusal.
    #[inline(always)]
    pub fn next_line(&mut self) -> Result<Option<Line>, BadLine>
        ensures answer { result ≡ next_answer self.old }
        ensures left { self.new ≡ after_next self.old }
        ensures refused { OnErr result (self.new ≡ self.old) }
    {
        if self.rest.is_empty() {
            return Ok(None);
        }
        let number = self.read + 1;
        if let Some((line, rest)) = parsing::first_exec(self.rest) {
            self.rest = rest;
            self.read = number;
            return Ok(Some(line));
        }
        let (text, rest) = split_line(self.rest);
        match parsing::line_of(text) {
            None => Err(BadLine(number)),
            Some(line) => {
                self.rest = rest;
                self.read = number;
                Ok(Some(line))
            }
        }
    }
}

/// The first line of a text, and what follows its newline.
fn split_line(bytes: &[u8]) -> (&[u8], &[u8])
    requires { 0 < length bytes.now }
    ensures lines { lines_of bytes.now ≡ result.0.now ∷ lines_of result.1.now }
    ensures shorter { length result.1.now < length bytes.now }
{
    match parsing::find(bytes, b'\n') {
        None => (bytes, &bytes[bytes.len()..]),
        Some(end) => (&bytes[..end], &bytes[end + 1..]),
    }
}
