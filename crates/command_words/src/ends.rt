//! How runs are expected to end, as a word says it.

ghost use Rattle.std.specs.Prelude.{◌≡◌, option_copied};
ghost use Rattle.std.specs.List.{before_first};
ghost use Rattle.command_words.specs.Ends.{after_space, end_named, expected_end, is_space, lone_end, numbered_end, small_number};

use crate::options::Numbers;
use mach_types::End;

/// The statuses of processes, and the numbers of signals.
const BYTES: Numbers = Numbers {
    least: 0,
    most: 255,
};

/// The status or the signal that a text writes; None where it writes none.
fn small_number(text: &str) -> Option<u8>
    ensures { result ≡ small_number text.now }
{
    let number = BYTES.number_in(text)?;
    Some(number as u8)
}

/// What stands before the first space of a text, and what stands after it, if the text has one.
fn parted(text: &str) -> (&str, Option<&str>)
    ensures word { result.0.now ≡ before_first is_space text.now }
    ensures number { option_copied result.1 ≡ after_space text.now }
{
    match text.split_once(' ') {
        Some((word, number)) => (word, Some(number)),
        None => (text, None),
    }
}

/// The end that a word alone writes; None where it writes none.
fn lone_end(word: &str) -> Option<End>
    ensures { result ≡ lone_end word.now }
{
    match word {
        "stuck" => Some(End::Stuck),
        "limit" => Some(End::Limit),
        _ => None,
    }
}

/// The end that a word and a number write; None where they write none.
fn numbered_end(word: &str, number: &str) -> Option<End>
    ensures { result ≡ numbered_end word.now number.now }
{
    match word {
        "exit" => Some(End::Exit(small_number(number)?)),
        "killed" => Some(End::Killed(small_number(number)?)),
        _ => None,
    }
}

/// The end that a text writes: `exit N` or `killed N` with a number from 0 to 255, `stuck` or `limit`. None where it
/// writes none.
pub(crate) fn end_of_text(text: &str) -> Option<End>
    ensures { result ≡ end_named text.now }
{
    let (word, number) = parted(text);
    match number {
        Some(number) => numbered_end(word, number),
        None => lone_end(word),
    }
}

/// The end that is expected; None where none is.
pub(crate) fn expected_end(text: Option<&str>) -> Option<End>
    ensures { result ≡ expected_end (option_copied text.entry) }
{
    end_of_text(text?)
}
