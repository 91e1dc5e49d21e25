//! The text of a reason, for a person: one line or two. The usage follows where there is no word.

mod lines;
mod nearest;
mod programs;
mod shown;
mod words;

use call_reasons::{FileRole, OtherEnd, Reason};
use command_words::{Command, PairRun, Source, WordsError, read_words};
use lines::push_line_fault;
pub(crate) use nearest::Nearest;
use programs::push_elf_fault;
use shown::{Shown, ShownEnd};
use std::alloc::{AllocError, Global};
use std::fmt::Write;
use std::io::ErrorKind;
use words::push_words_fault;

/// What each text begins with.
const BEGIN: &str = "rseq_run: ";

/// The text where memory ran out. It is fixed, since there is no memory for another.
pub const OUT_OF_MEMORY: &str = "rseq_run: out of memory\n";

/// What is said where runs came to none of the outcomes that are told apart.
const NOT_TOLD_APART: &str =
    "how all runs ended isn't known: some came to none of the outcomes that are told apart";

/// What is at hand where a reason is explained.
#[derive(Clone, Copy, Drop)]
pub struct AtHand<'a> {
    /// The words of the command line.
    pub words: &'a [String],
    /// The script, where a reason is of one of its lines; empty where it isn't there.
    pub script: &'a [u8],
}

/// A text of a reason that needs no memory, where there is none for a longer one.
pub fn brief(reason: &Reason) -> &'static str {
    match reason {
        Reason::Words(_) => "rseq_run: these words are no command\n",
        Reason::Unread { .. } => "rseq_run: a file can't be read\n",
        Reason::NoMemory => OUT_OF_MEMORY,
        Reason::TooBig(_) => "rseq_run: a file has too many bytes\n",
        Reason::Elf { .. } => "rseq_run: the program is refused\n",
        Reason::Script { .. } => "rseq_run: a line of the script is refused\n",
        Reason::Guest(_) => "rseq_run: the guest doesn't take this size\n",
        Reason::EndedOtherwise(_) => "rseq_run: a run ended otherwise than was expected\n",
        Reason::Unwritten { .. } => "rseq_run: standard output can't be written\n",
    }
}

/// The text of a reason.
pub fn explain(alloc: Global, reason: &Reason, at_hand: AtHand) -> Result<String, AllocError> {
    let mut text = String::from_str(alloc, BEGIN)?;
    match reason {
        Reason::Words(fault) => push_words_fault(&mut text, *fault, at_hand.words)?,
        Reason::Unread { file, trouble } => {
            let name = file_name(alloc, at_hand.words, *file)?;
            push_unread(&mut text, name, *trouble)?;
        }
        Reason::NoMemory => return String::from_str(alloc, OUT_OF_MEMORY),
        Reason::TooBig(file) => {
            let name = file_name(alloc, at_hand.words, *file)?;
            push_too_big(&mut text, name, *file)?;
        }
        Reason::Elf { file, fault, about } => {
            let name = file_name(alloc, at_hand.words, *file)?;
            push_elf_fault(&mut text, name, *fault, *about)?;
        }
        Reason::Script { line, fault } => {
            let name = file_name(alloc, at_hand.words, FileRole::Script)?;
            push_line_fault(&mut text, name, at_hand.script, *line, *fault)?;
        }
        Reason::Guest(number) => push_bad_size(&mut text, alloc, at_hand.words, *number)?,
        Reason::EndedOtherwise(other) => push_other_end(&mut text, *other)?,
        Reason::Unwritten { trouble } => push_unwritten(&mut text, *trouble)?,
    }
    Ok(text)
}

/// The name of the file that has this role, by the words.
fn file_name(alloc: Global, words: &[String], role: FileRole) -> Result<&str, AllocError> {
    let run = match read_words(alloc, words) {
        Ok(Command::Runs(run)) => run,
        Ok(Command::Explores(explore)) => return Ok(explore.program),
        Ok(Command::Searches(search)) => return Ok(search.program),
        Ok(Command::Pairs(pair)) => return Ok(name_in(&pair, role)),
        Ok(Command::Makes(_) | Command::Tries(_)) | Err(WordsError::Wrong(_)) => {
            return Ok("the file");
        }
        Err(WordsError::NoMemory) => return Err(AllocError),
    };
    match (role, run.source) {
        (FileRole::Program, _) => Ok(run.program),
        (FileRole::Script, Source::Script(name)) => Ok(name),
        (FileRole::Script, Source::DrawnAfter { script, .. }) => Ok(script),
        (FileRole::Script | FileRole::SecondProgram, _) => Ok("the file"),
    }
}

/// The name of the file of a pair that has this role.
fn name_in<'a>(pair: &PairRun<'a>, role: FileRole) -> &'a str {
    match role {
        FileRole::Program => pair.first,
        FileRole::SecondProgram => pair.second,
        FileRole::Script => pair.script,
    }
}

/// Appends that a guest doesn't take its size, and which sizes it takes.
fn push_bad_size(
    text: &mut String,
    alloc: Global,
    words: &[String],
    number: u64,
) -> Result<(), AllocError> {
    let guest = match read_words(alloc, words) {
        Ok(Command::Makes(guest)) => guest,
        Ok(Command::Tries(trial)) => trial.guest,
        Ok(Command::Runs(_) | Command::Explores(_) | Command::Searches(_) | Command::Pairs(_))
        | Err(WordsError::Wrong(_)) => {
            return writeln!(text, "{number}: the guest doesn't take this size");
        }
        Err(WordsError::NoMemory) => return Err(AllocError),
    };
    let (name, most) = (guest.name.word(), guest.name.most_size());
    writeln!(text, "{number}: the size of {name} is 1 to {most}")
}

/// Appends that a file couldn't be read.
fn push_unread(
    text: &mut String,
    name: &str,
    trouble: Option<ErrorKind>,
) -> Result<(), AllocError> {
    let name = Shown(name);
    write!(text, "{name} can't be read")?;
    push_trouble(text, trouble)
}

/// Appends that a file has too many bytes.
fn push_too_big(text: &mut String, name: &str, role: FileRole) -> Result<(), AllocError> {
    let name = Shown(name);
    let most = role.most_bytes();
    writeln!(text, "{name} has more than {most} bytes")
}

/// Appends that an outcome ended otherwise than was expected, and the seed of its first run.
fn push_other_end(text: &mut String, other: OtherEnd) -> Result<(), AllocError> {
    let seed = other.seed;
    match other.end {
        Some(end) => {
            let end = ShownEnd(end);
            writeln!(text, "a run ended otherwise: {end}, seed {seed}")
        }
        None => writeln!(text, "{NOT_TOLD_APART}, the first with seed {seed}"),
    }
}

/// Appends that the text couldn't be written.
fn push_unwritten(text: &mut String, trouble: Option<ErrorKind>) -> Result<(), AllocError> {
    text.push_str("standard output can't be written")?;
    push_trouble(text, trouble)
}

/// Appends what the system said, and ends the line.
fn push_trouble(text: &mut String, trouble: Option<ErrorKind>) -> Result<(), AllocError> {
    match trouble {
        Some(ErrorKind::NotFound) => text.push_str(": there is no such file\n"),
        Some(ErrorKind::IsADirectory) => text.push_str(": it is a directory\n"),
        Some(ErrorKind::Uncategorized) | None => text.push_str("\n"),
        Some(kind) => writeln!(text, ": {kind}"),
    }
}
