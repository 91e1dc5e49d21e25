//! What is wrong with the words of a command line, for a person.

use super::Nearest;
use super::shown::Shown;
use crate::usage::{look_at_options, push_usage};
use command_words::{COMMANDS, WordsFault};
use std::alloc::AllocError;
use std::fmt::Write;

/// The guests.
const GUESTS: &str = "counter, list, pool, dekker, signals, migrate, ring and urcu";

/// The names of policies.
const POLICIES: &str = "all, one, stretch, short, stall, spread and rule";

/// The spans of memory that an option takes.
const SPANS: &str =
    "AT:LENGTH, or several of these one comma apart: an address of 1 to 16 hexadecimal digits in lower case, \
    and a number of bytes from 1 to 65536, none of them past the last address";

/// The ends of runs that an option takes.
const ENDS: &str = "\"exit N\" or \"killed N\" with a number from 0 to 255, stuck or limit";

/// The names of reductions.
const REDUCTIONS: &str = "local-steps";

/// Appends what is wrong with the words, in one line. Where there is no word, the usage stands below it.
pub(crate) fn push_words_fault(
    text: &mut String,
    fault: WordsFault,
    words: &[String],
) -> Result<(), AllocError> {
    push_word(text, fault, words)?;
    push_complaint(text, fault, words)?;
    if matches!(fault, WordsFault::NoCommand) {
        push_usage(text)?;
    }
    Ok(())
}

/// Appends the word that is wrong, if there is one; an option stands before its value.
fn push_word(text: &mut String, fault: WordsFault, words: &[String]) -> Result<(), AllocError> {
    let number = match fault {
        WordsFault::NoCommand => return Ok(()),
        WordsFault::UnknownCommand
        | WordsFault::NoProgram
        | WordsFault::NoSecondProgram
        | WordsFault::NoScript
        | WordsFault::NoGuest
        | WordsFault::NoSize => 1,
        WordsFault::UnknownOption(number)
        | WordsFault::NotTaken(number)
        | WordsFault::Twice(number)
        | WordsFault::NoValue(number)
        | WordsFault::OneNameTooMany(number)
        | WordsFault::UnknownGuest(number)
        | WordsFault::NoNumber(number) => number,
        WordsFault::OutOfRange { word, .. }
        | WordsFault::UnknownPolicy(word)
        | WordsFault::NeitherTextNorEnd(word)
        | WordsFault::NoSpans(word)
        | WordsFault::NoEnd(word)
        | WordsFault::NeitherYesNorNo(word)
        | WordsFault::UnknownReduction(word)
        | WordsFault::NeitherPromptNorAny(word) => {
            push_option(text, words, word)?;
            word
        }
    };
    let word = Shown(word_at(words, number));
    write!(text, "{word}: ")
}

/// Appends what is said of the word that is wrong.
fn push_complaint(
    text: &mut String,
    fault: WordsFault,
    words: &[String],
) -> Result<(), AllocError> {
    let command = Shown(word_at(words, 1));
    match fault {
        WordsFault::NotTaken(_) => writeln!(text, "{command} has no such option"),
        WordsFault::OneNameTooMany(_) => writeln!(text, "a name too many for {command}"),
        WordsFault::OutOfRange { least, most, .. } => push_range(text, least, most),
        WordsFault::NoCommand => text.push_str("there is no command\n"),
        WordsFault::UnknownCommand => push_unknown_command(text, words),
        WordsFault::UnknownOption(number) => push_unknown_option(text, words, number),
        WordsFault::Twice(_) => text.push_str("the option is given twice\n"),
        WordsFault::NoValue(_) => {
            text.push_str("its value is missing; a value doesn't begin with -\n")
        }
        WordsFault::NoProgram => text.push_str("the name of the program is missing\n"),
        WordsFault::NoSecondProgram => {
            text.push_str("the name of the second program is missing\n")
        }
        WordsFault::NoScript => text.push_str("the name of the script is missing\n"),
        WordsFault::UnknownGuest(_) => writeln!(text, "there is no such guest; there are {GUESTS}"),
        WordsFault::UnknownPolicy(_) => {
            writeln!(text, "there is no such policy; there are {POLICIES}")
        }
        WordsFault::NeitherTextNorEnd(_) => {
            text.push_str("outcomes are told apart by text or by end\n")
        }
        WordsFault::NoSpans(_) => writeln!(text, "the value isn't {SPANS}"),
        WordsFault::NoEnd(_) => writeln!(text, "the value is no end of a run, which is {ENDS}"),
        WordsFault::NeitherYesNorNo(_) => text.push_str("the value is neither yes nor no\n"),
        WordsFault::UnknownReduction(_) => {
            writeln!(text, "there is no such reduction; there is {REDUCTIONS}")
        }
        WordsFault::NeitherPromptNorAny(_) => {
            text.push_str("the value is neither prompt nor any\n")
        }
        WordsFault::NoNumber(_) => {
            text.push_str("the size isn't a number, of 20 digits at most and below 2^64\n")
        }
        WordsFault::NoGuest => text.push_str("the name of the guest is missing\n"),
        WordsFault::NoSize => text.push_str("the size of the guest is missing\n"),
    }
}

/// Appends which numbers an option takes.
fn push_range(text: &mut String, least: u64, most: u64) -> Result<(), AllocError> {
    writeln!(
        text,
        "the value isn't a number from {least} to {most}, of 20 digits at most"
    )
}

/// Appends that there is no such command, and which one may have been meant.
fn push_unknown_command(text: &mut String, words: &[String]) -> Result<(), AllocError> {
    text.push_str("there is no such command")?;
    push_meant(text, "", nearest_command(word_at(words, 1)))
}

/// Appends that there is no such option, and which one may have been meant.
fn push_unknown_option(
    text: &mut String,
    words: &[String],
    number: usize,
) -> Result<(), AllocError> {
    text.push_str("there is no such option")?;
    let meant = nearest_option(word_at(words, number), word_at(words, 1));
    push_meant(text, "--", meant)
}

/// Appends which word may have been meant, behind the dashes that it begins with, or how to see all words; and ends the line.
fn push_meant(text: &mut String, dashes: &str, meant: Option<&str>) -> Result<(), AllocError> {
    match meant {
        Some(word) => writeln!(text, "; did you mean {dashes}{word}?"),
        None => text.push_str("; rseq_run --help shows what there is\n"),
    }
}

/// The command that is nearest to a word.
fn nearest_command<'a>(word: &'a str) -> Option<&'a str> {
    let mut nearest = Nearest::to(word);
    for command in COMMANDS {
        nearest.look_at(command);
    }
    nearest.found()
}

/// The name of the option of a command that is nearest to a word. A word may have its value behind a `=`.
fn nearest_option<'a>(word: &'a str, command: &str) -> Option<&'a str> {
    let option = match word.split_once('=') {
        Some((option, _)) => option,
        None => word,
    };
    let mut nearest = Nearest::to(option);
    look_at_options(&mut nearest, command);
    nearest.found()
}

/// The word of this number, counted from 1.
fn word_at(words: &[String], number: usize) -> &str {
    match number.checked_sub(1).and_then(|place| words.get(place)) {
        Some(word) => word.as_str(),
        None => "",
    }
}

/// Appends the option of the value in this word, unless the word is an option itself.
fn push_option(text: &mut String, words: &[String], number: usize) -> Result<(), AllocError> {
    if word_at(words, number).starts_with('-') {
        return Ok(());
    }
    let option = Shown(word_at(words, number.saturating_sub(1)));
    write!(text, "{option} ")
}
