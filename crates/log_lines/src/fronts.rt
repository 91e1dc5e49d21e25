//! The fronts of lines: a line differs from an earlier one of its hart mostly in the last three digits of the pc alone.

ghost use Rattle.std.specs.Prelude.{◌≡◌, ◌+◌, ◌<◌, ◌≤◌, ◌++◌, IsTrue, length, take, vec_len, vec_capacity};
ghost use Rattle.step_log.specs.Text.{entry_text, hex_digit};
ghost use Rattle.log_lines.specs.LineParts.{front_text, tail_text};

use arrayvec::ArrayVec;
use mach_types::{Entry, Kind};
use step_log::print_entry;

/// Room for a line, in bytes. The longest has 38.
pub(crate) const LINE_ROOM: usize = 40;

/// How many fronts are kept: of each hart that of its entries by `drain`, and that of others.
pub(crate) const FRONTS: usize = 16;

/// How many bytes a line has behind its front.
const TAIL: usize = 4;

/// The front of a line: all of it but the last three digits of the pc and its newline.
#[derive(Drop)]
pub(crate) struct Front {
    /// An entry whose line begins so.
    pub(crate) entry: Entry,
    /// The front, and behind it zeros.
    bytes: [u8; LINE_ROOM],
    /// How many bytes it has.
    len: usize,
    ghost short: { len ≤ 34 },
    ghost text: { take len bytes ≡ front_text entry },
}

/// Where among the fronts that of an entry stands.
pub(crate) fn place_of(entry: &Entry) -> usize
    requires { entry.now.hart.0 < 8 }
    ensures { result < FRONTS }
{
    let hart = usize::from(entry.hart.0);
    match entry.kind {
        Kind::Drain => hart + 8,
        _ => hart,
    }
}

impl Front {
    /// That of the line of an entry.
    pub(crate) fn of(entry: &Entry) -> Front
        requires { entry.now.hart.0 < 8 }
        ensures { result.entry ≡ entry.now }
    {
        let mut line = ArrayVec::new();
        print_entry(entry, &mut line);
        let len = line.len() - TAIL;
        Front {
            entry: *entry,
            bytes: beginning(line.as_slice(), len),
            len,
        }
    }

    /// Whether the line of an entry begins with it.
    fn begins(&self, entry: &Entry) -> bool
        ensures { IsTrue result → front_text self.now.entry ≡ front_text entry.now }
    {
        self.entry.kind == entry.kind
            && self.entry.hart == entry.hart
            && self.entry.tid == entry.tid
            && self.entry.pc / 4096 == entry.pc / 4096
    }

    /// Makes it that of the line of an entry.
    fn renew(&mut self, entry: &Entry)
        requires { entry.now.hart.0 < 8 }
        ensures { front_text self.new.entry ≡ front_text entry.now }
    {
        if !self.begins(entry) {
            *self = Front::of(entry);
        }
    }

    /// Makes it that of the line of an entry, and appends that line.
    pub(crate) fn push_line(&mut self, text: &mut Vec<u8>, entry: &Entry)
        requires hart { entry.now.hart.0 < 8 }
        requires room { vec_len text.old + LINE_ROOM ≤ vec_capacity text.old }
        ensures line { text.new.items ≡ text.old.items ++ entry_text entry.now }
        ensures length { vec_len text.new ≤ vec_len text.old + LINE_ROOM }
        ensures capacity { vec_capacity text.old ≤ vec_capacity text.new }
    {
        self.renew(entry);
        let end = text.len() + self.len;
        extend(text, &self.bytes);
        end_line(text, end, entry.pc);
    }
}

/// Appends bytes for which there is room.
pub(crate) fn extend(text: &mut Vec<u8>, bytes: &[u8])
    requires { vec_len text.old + length bytes.now ≤ vec_capacity text.old }
    ensures items { text.new.items ≡ text.old.items ++ bytes.now }
    ensures length { vec_len text.new ≡ vec_len text.old + length bytes.now }
    ensures capacity { vec_capacity text.old ≤ vec_capacity text.new }
{
    match text.extend_from_slice(bytes) {
        Ok(()) => {}
        Err(_) => unreachable!(),
    }
}

/// The first so many bytes of a line, and zeros behind them.
fn beginning(line: &[u8], len: usize) -> [u8; LINE_ROOM]
    requires within { len ≤ length line.now }
    requires room { len ≤ LINE_ROOM }
    ensures { take len result ≡ take len line.now }
{
    let mut bytes = [0; LINE_ROOM];
    bytes[..len].copy_from_slice(&line[..len]);
    bytes
}

/// Ends a text at a place by the last three digits of a pc and the end of the line, in place of what stands there.
fn end_line(text: &mut Vec<u8>, at: usize, pc: u64)
    requires { at + TAIL ≤ vec_len text.old }
    ensures items { text.new.items ≡ take at text.old.items ++ tail_text pc }
    ensures length { vec_len text.new ≡ at + TAIL }
    ensures capacity { vec_capacity text.new ≡ vec_capacity text.old }
{
    text[at] = digit((pc / 256 % 16) as u8);
    text[at + 1] = digit((pc / 16 % 16) as u8);
    text[at + 2] = digit((pc % 16) as u8);
    text[at + 3] = b'\n';
    text.truncate(at + TAIL);
}

/// A hexadecimal digit, in lower case.
fn digit(value: u8) -> u8
    requires { value < 16 }
    ensures { result ≡ hex_digit value }
{
    if value < 10 {
        b'0' + value
    } else {
        b'a' - 10 + value
    }
}
