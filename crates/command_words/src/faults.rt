//! What is wrong with the words of a command line.

ghost use Rattle.std.specs.Prelude.{◌≡◌, length, IfSome};
ghost use Rattle.std.specs.Result.{result_err};
ghost use Rattle.command_words.specs.Kept.{takes_kept};
ghost use Rattle.command_words.specs.WordFaults.{IsAmong, command_read, fault_among, words_fault};
ghost use Rattle.command_words.specs.Words.{texts};

use crate::reader::Reader;
use crate::takes::{Takes, takes_of};

/// What is wrong with the words of a command line. Words are counted from 1, and the command's is the first.
#[derive(Clone, Copy, Drop)]
pub enum WordsFault {
    /// There is no word.
    NoCommand,
    /// The first word is no command.
    UnknownCommand,
    /// This word is no option that any command has.
    UnknownOption(usize),
    /// The option in this word isn't one of the command's.
    NotTaken(usize),
    /// The option in this word was given before.
    Twice(usize),
    /// The option in this word lacks its value: no word follows, or the next begins with `-`; or it is a file's name and is `-`.
    NoValue(usize),
    /// The value in this word isn't a number from the least to the largest that the option takes.
    OutOfRange {
        /// The word in which the value stands.
        word: usize,
        /// The least number that the option takes.
        least: u64,
        /// The largest number that it takes.
        most: u64,
    },
    /// The value in this word names no policy.
    UnknownPolicy(usize),
    /// The value in this word is neither `text` nor `end`.
    NeitherTextNorEnd(usize),
    /// The value in this word isn't spans of memory, `AT:LENGTH` one comma apart: each an address of 1 to 16 hexadecimal digits in
    /// lower case and a number of bytes from 1 to 65,536, none past the end of addresses.
    NoSpans(usize),
    /// The value in this word is no end of a run: `exit N` or `killed N` with a number from 0 to 255, `stuck` or `limit`.
    NoEnd(usize),
    /// The value in this word is neither `yes` nor `no`.
    NeitherYesNorNo(usize),
    /// The value in this word names no reduction of a search.
    UnknownReduction(usize),
    /// The value in this word is neither `prompt` nor `any`.
    NeitherPromptNorAny(usize),
    /// This word is a name too many.
    OneNameTooMany(usize),
    /// This word is to name a guest, and names none.
    UnknownGuest(usize),
    /// This word is to be the size of a guest, and isn't a number: 1 to 20 decimal digits, below 2^64.
    NoNumber(usize),
    /// No word is wrong, and the name of the program's file is missing.
    NoProgram,
    /// No word is wrong, and the name of the second program's file is missing.
    NoSecondProgram,
    /// No word is wrong, and the name of the script's file is missing.
    NoScript,
    /// No word is wrong, and the name of the guest is missing.
    NoGuest,
    /// No word is wrong, and the size of the guest is missing.
    NoSize,
}

/// What is wrong with the words; None exactly where they name a command. It takes no memory.
///
/// The words are read from the left, and the first that is wrong, given those before it, gives the fault: an
/// option's word where no command has the option, where this command hasn't, where it was given before, or where
/// it lacks its value; a word where the value in it is none that the option takes; a name too many; and a word that is
/// to name a guest or its size and doesn't. Where none is wrong, a name may be missing.
pub fn words_fault(words: &[String]) -> Option<WordsFault>
    ensures fault { result ≡ words_fault (texts words.now) }
    ensures among { IfSome result (IsAmong (length words.now)) }
{
    read_all(words).err()
}

/// Reads the words, up to the first that is wrong.
#[tactic(auto, unfolding(crate::specs::WordFaults::words_fault))]
fn read_all(words: &[String]) -> Result<(), WordsFault>
    ensures { result_err result ≡ words_fault (texts words.now) }
{
    let (command, rest) = words.split_first().ok_or(WordsFault::NoCommand)?;
    let takes = takes_of(command).ok_or(WordsFault::UnknownCommand)?;
    read_behind(takes, rest)
}

/// Reads the words behind that of a command which takes this.
fn read_behind(takes: Takes, words: &[String]) -> Result<(), WordsFault>
    ensures { result_err result ≡ fault_among (command_read (takes_kept takes)) (texts words.now) }
{
    let mut reader = Reader::new(takes);
    for word in words {
        reader.read(word)?;
    }
    reader.end()
}
