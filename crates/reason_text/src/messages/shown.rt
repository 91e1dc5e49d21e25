//! Names and words of the command line, and ends of runs, as a person is shown them.

use mach_types::End;
use std::fmt;
use std::fmt::Write;

/// A name or a word: control characters as `\xNN`, and quotes alone where it is empty.
#[derive(Drop)]
pub(crate) struct Shown<'a>(pub(crate) &'a str);

impl fmt::Display for Shown<'_> {
    fn fmt<W: fmt::Write>(&self, f: &mut fmt::Formatter<W>) -> fmt::Result {
        if self.0.is_empty() {
            return f.write_str("''");
        }
        for character in self.0.chars() {
            if character.is_control() {
                let code = u32::from(character);
                write!(f, "\\x{code:02x}")?;
            } else {
                f.write_char(character)?;
            }
        }
        Ok(())
    }
}

/// How a run ended, in the words of the text of an exploration.
#[derive(Drop)]
pub(crate) struct ShownEnd(pub(crate) End);

impl fmt::Display for ShownEnd {
    fn fmt<W: fmt::Write>(&self, f: &mut fmt::Formatter<W>) -> fmt::Result {
        match self.0 {
            End::Exit(status) => write!(f, "exit {status}"),
            End::Killed(signal) => write!(f, "killed {signal}"),
            End::Stuck => f.write_str("stuck"),
            End::Limit => f.write_str("limit"),
            End::Unended => f.write_str("open"),
        }
    }
}
