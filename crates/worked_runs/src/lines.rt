//! Lines and numbers in bytes.

ghost use Rattle.std.specs.Prelude.{◌≡◌, ◌↔◌, IsTrue};

use std::str;

/// Whether a byte ends a line.
fn is_newline(byte: &u8) -> bool
    ensures { IsTrue result ↔ (byte.now ≡ 10) }
{
    *byte == b'\n'
}

/// The line at this place, counted from 0, with its newline.
pub(crate) fn line_at(text: &[u8], place: usize) -> Option<&[u8]> {
    text.split_inclusive(is_newline).nth(place)
}

/// The place of the first line that isn't the same in both texts, counted from 0.
pub(crate) fn first_difference(found: &[u8], due: &[u8]) -> usize {
    let mut place: usize = 0;
    let mut lines = due.split_inclusive(is_newline);
    for line in found.split_inclusive(is_newline) {
        match lines.next() {
            Some(other) if other == line => place = place.saturating_add(1),
            _ => return place,
        }
    }
    place
}

/// The number that these decimal digits write.
pub(crate) fn number_in(digits: &[u8]) -> Option<u64> {
    str::from_utf8(digits).ok()?.parse::<u64>().ok()
}

/// The number of a line of a word and a number with which a text begins, and what follows the line.
pub(crate) fn number_line<'a>(text: &'a [u8], word: &[u8]) -> Option<(u64, &'a [u8])> {
    let line = line_at(text, 0)?;
    let digits = line.strip_prefix(word)?.strip_suffix(b"\n")?;
    Some((number_in(digits)?, text.get(line.len()..)?))
}

/// The log lines of a text that shows a run: `console N`, N bytes, `log M`, M lines, and the end. None where it
/// hasn't this form.
pub(crate) fn log_of(text: &[u8]) -> Option<&[u8]> {
    let (length, rest) = number_line(text, b"console ")?;
    let (_, rest) = rest.split_at_checked(length as usize)?;
    let (count, rest) = number_line(rest.strip_prefix(b"\n")?, b"log ")?;
    rest.get(..length_of_lines(rest, count))
}

/// How many bytes the first lines of a text have.
fn length_of_lines(text: &[u8], count: u64) -> usize {
    let mut left = count;
    let mut length: usize = 0;
    for line in text.split_inclusive(is_newline) {
        if left == 0 {
            return length;
        }
        left -= 1;
        length = length.saturating_add(line.len());
    }
    length
}
