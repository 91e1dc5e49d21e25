//! A script's line, from its text.

ghost use Rattle.std.specs.Prelude.{◌≡◌, ℕ, ◌+◌, ◌<◌, ◌≤◌, ◌^◌, true, length, [], ◌∷◌, nat_lt, Some, None, if◌then◌else◌, slice_index, ◌==◌, IfSome};
ghost use Rattle.std.specs.Char.{digit_value, is_ascii_digit};
ghost use Rattle.std.specs.List.{list_all, position};
ghost use Rattle.std.specs.Option.{option_copied};
ghost use Rattle.std.specs.Str.Parse.{digits_value};
ghost use Rattle.step_log.specs.Parts as parts;
ghost use Rattle.step_log.specs.Script as script;

use crate::fields::Line;
use mach_types::{Entry, Hart, Kind, Tid};
use memchr::memchr;

/// The first place of a byte in a text.
pub(crate) fn find(text: &[u8], wanted: u8) -> Option<usize>
    ensures { result ≡ position (λ b. b == wanted) text.now }
{
    memchr(wanted, text)
}

/// The text up to the first space, and what follows the space, if there is one.
fn split_field(text: &[u8]) -> (&[u8], Option<&[u8]>)
    ensures { script.fields_of text.now ≡ result.0.now ∷ parts.fields_left (option_copied result.1) }
{
    match find(text, b' ') {
        None => (text, None),
        Some(end) => (&text[..end], Some(&text[end + 1..])),
    }
}

/// The hart that a field names.
fn hart_of(text: &[u8]) -> Option<Hart>
    ensures { result ≡ script.hart_read text.now }
{
    match text {
        [digit @ b'0'..=b'7'] => Some(Hart(digit - b'0')),
        _ => None,
    }
}

/// The kind of event that a field names.
fn kind_of(word: &[u8]) -> Option<Kind>
    ensures { result ≡ script.kind_read word.now }
{
    if word == b"exec".as_slice() {
        Some(Kind::Exec)
    } else if word == b"drain".as_slice() {
        Some(Kind::Drain)
    } else if word == b"take".as_slice() {
        Some(Kind::Take)
    } else if word == b"done".as_slice() {
        Some(Kind::Done)
    } else if word == b"preempt".as_slice() {
        Some(Kind::Preempt)
    } else if word == b"run".as_slice() {
        Some(Kind::Run)
    } else if word == b"signal".as_slice() {
        Some(Kind::Signal)
    } else {
        None
    }
}

/// Whether a text is made of decimal digits.
fn is_decimal(text: &[u8]) -> bool
    ensures { result ≡ list_all is_ascii_digit text.now }
{
    text.iter().all(|byte| byte.is_ascii_digit())
}

/// Whether a 0 stands before other digits.
fn has_leading_zero(text: &[u8]) -> bool
    ensures { result ≡ script.has_leading_zero text.now }
{
    text.len() > 1 && text[0] == b'0'
}

/// Whether a text is some decimal digits with no leading zero.
fn is_plain_decimal(text: &[u8]) -> bool
    ensures { result ≡ script.is_plain_decimal text.now }
{
    !text.is_empty() && is_decimal(text) && !has_leading_zero(text)
}

/// The number that decimal digits write, where it is below 2^32.
fn decimal_value(digits: &[u8]) -> Option<u32>
    requires { list_all is_ascii_digit digits.now ≡ true }
    ensures { result
        ≡ (if nat_lt (digits_value 10 digits.now) (2 ^ 32) then Some (digits_value 10 digits.now) else None) }
{
    let mut number = 0u32;
    for byte in digits {
        number = number
            .checked_mul(10)?
            .checked_add(u32::from(*byte - b'0'))?;
    }
    Some(number)
}

/// The thread that a field names.
fn tid_of(text: &[u8]) -> Option<Tid>
    ensures { result ≡ script.tid_read text.now }
{
    if is_plain_decimal(text) {
        Some(Tid(decimal_value(text)?))
    } else {
        None
    }
}

/// The value of each character as a hexadecimal digit in lower case; 255 where it is none.
static DIGIT_VALUES: [u8; 256] = [
    255, 255, 255, 255, 255, 255, 255, 255, 255, 255, 255, 255, 255, 255, 255, 255, 255, 255, 255,
    255, 255, 255, 255, 255, 255, 255, 255, 255, 255, 255, 255, 255, 255, 255, 255, 255, 255, 255,
    255, 255, 255, 255, 255, 255, 255, 255, 255, 255, 0, 1, 2, 3, 4, 5, 6, 7, 8, 9, 255, 255, 255,
    255, 255, 255, 255, 255, 255, 255, 255, 255, 255, 255, 255, 255, 255, 255, 255, 255, 255, 255,
    255, 255, 255, 255, 255, 255, 255, 255, 255, 255, 255, 255, 255, 255, 255, 255, 255, 10, 11,
    12, 13, 14, 15, 255, 255, 255, 255, 255, 255, 255, 255, 255, 255, 255, 255, 255, 255, 255, 255,
    255, 255, 255, 255, 255, 255, 255, 255, 255, 255, 255, 255, 255, 255, 255, 255, 255, 255, 255,
    255, 255, 255, 255, 255, 255, 255, 255, 255, 255, 255, 255, 255, 255, 255, 255, 255, 255, 255,
    255, 255, 255, 255, 255, 255, 255, 255, 255, 255, 255, 255, 255, 255, 255, 255, 255, 255, 255,
    255, 255, 255, 255, 255, 255, 255, 255, 255, 255, 255, 255, 255, 255, 255, 255, 255, 255, 255,
    255, 255, 255, 255, 255, 255, 255, 255, 255, 255, 255, 255, 255, 255, 255, 255, 255, 255, 255,
    255, 255, 255, 255, 255, 255, 255, 255, 255, 255, 255, 255, 255, 255, 255, 255, 255, 255, 255,
    255, 255, 255, 255, 255, 255, 255, 255, 255, 255, 255, 255, 255, 255, 255, 255, 255, 255, 255,
    255, 255, 255, 255,
];

/// The value of a hexadecimal digit in lower case; None where the character is another.
fn hex_digit_value(character: u8) -> Option<u8>
    ensures { result
        ≡ (if script.is_hex_digit character then Some (digit_value character) else None) }
{
    let value = DIGIT_VALUES[character as usize];
    if value < 16 { Some(value) } else { None }
}

/// The number that 16 hexadecimal digits write; None where a character is another. The first eight of most
/// addresses are 0, and need no look one by one.
fn hex_value(digits: &[u8]) -> Option<u64>
    requires { length digits.now ≡ 16 }
    ensures { result ≡ (if list_all script.is_hex_digit digits.now then Some (digits_value 16 digits.now) else None) }
{
    match digits {
        [b'0', b'0', b'0', b'0', b'0', b'0', b'0', b'0', low @ ..] => hex_number(low),
        _ => hex_number(digits),
    }
}

/// The number that at most 16 hexadecimal digits write; None where a character is another.
fn hex_number(digits: &[u8]) -> Option<u64>
    requires { length digits.now ≤ 16 }
    ensures { result ≡ (if list_all script.is_hex_digit digits.now then Some (digits_value 16 digits.now) else None) }
{
    let mut number = 0u64;
    for digit in digits {
        number = number * 16 + u64::from(hex_digit_value(*digit)?);
    }
    Some(number)
}

/// The pc that a field names.
fn pc_of(text: &[u8]) -> Option<u64>
    ensures { result ≡ script.pc_read text.now }
{
    if text.len() == 16 {
        hex_value(text)
    } else {
        None
    }
}

/// A line without a check, by its kind; the thread is that of a `run`.
fn bare_line(hart: Hart, kind: Kind, tid: Tid) -> Line
    ensures { result ≡ script.bare_line hart kind tid }
{
    Line {
        hart,
        choice: kind.choice(tid),
        check: None,
    }
}

/// The line `HART KIND`.
fn short_line(hart: Hart, kind: Kind) -> Option<Line>
    ensures { result ≡ script.short_line hart kind }
{
    if kind.is_run() {
        None
    } else {
        Some(bare_line(hart, kind, Tid(0)))
    }
}

/// The line `HART run TID`.
fn run_line(hart: Hart, kind: Kind, tid: Tid) -> Option<Line>
    ensures { result ≡ script.run_line hart kind tid }
{
    if kind.is_run() {
        Some(bare_line(hart, kind, tid))
    } else {
        None
    }
}

/// The line `HART KIND TID PC`.
fn whole_line(hart: Hart, kind: Kind, tid: Tid, pc: u64) -> Line
    ensures { result ≡ script.whole_line (record { hart = hart; kind = kind; tid = tid; pc = pc }) }
{
    let entry = Entry {
        hart,
        kind,
        tid,
        pc,
    };
    Line {
        hart,
        choice: entry.choice(),
        check: Some((tid, pc)),
    }
}

/// A line that goes on after its kind: the thread, and the pc if there is one.
fn long_line(hart: Hart, kind: Kind, text: &[u8]) -> Option<Line>
    ensures { result ≡ parts.long_meaning hart kind (script.fields_of text.now) }
{
    let (tid, rest) = split_field(text);
    let tid = tid_of(tid)?;
    match rest {
        None => run_line(hart, kind, tid),
        Some(rest) => {
            let (pc, more) = split_field(rest);
            if more.is_some() {
                return None;
            }
            Some(whole_line(hart, kind, tid, pc_of(pc)?))
        }
    }
}

/// What a line says; None where it is malformed.
pub(crate) fn line_of(text: &[u8]) -> Option<Line>
    ensures { result ≡ script.line_meaning text.now }
{
    let (hart, rest) = split_field(text);
    let (kind, rest) = split_field(rest?);
    let hart = hart_of(hart)?;
    let kind = kind_of(kind)?;
    match rest {
        None => short_line(hart, kind),
        Some(rest) => long_line(hart, kind, rest),
    }
}

/// What the first line of a text says, and the text behind that line, where it is as an `exec` is printed of a thread
/// whose number is one digit. Most lines of a log are. None says nothing of the text.
pub(crate) fn first_exec(text: &[u8]) -> Option<(Line, &[u8])>
    ensures { IfSome result (λ said. parts.IsFirst text.now said.0 said.1.now) }
{
    match text {
        [
            hart @ b'0'..=b'7',
            b' ',
            b'e',
            b'x',
            b'e',
            b'c',
            b' ',
            tid @ b'0'..=b'9',
            b' ',
            rest @ ..,
        ] if rest.len() > 16 && rest[16] == b'\n' => {
            let pc = pc_of(&rest[..16])?;
            let hart = Hart(hart - b'0');
            let tid = Tid(u32::from(tid - b'0'));
            Some((whole_line(hart, Kind::Exec, tid, pc), &rest[17..]))
        }
        _ => None,
    }
}
