//! Words that ask for help or for the version, in place of a command.

ghost use Rattle.std.specs.Prelude.{◌≡◌};
ghost use Rattle.command_words.specs.Questions.{asks_help, asks_version, has_help, question_of};
ghost use Rattle.command_words.specs.Words.{texts};

use crate::table::command_kind;

/// What words ask, in place of a command.
#[derive(Clone, Copy, Drop)]
pub enum Question {
    /// What all commands are: the first word is `--help`, `-h` or `help`.
    AllCommands,
    /// What the command of the first word is: `--help` or `-h` is among the words after it, and no `--` before that.
    OneCommand,
    /// Which version this is: the first word is `--version` or `-V`.
    Version,
}

/// What the words ask; None where they ask nothing. Words that ask something are no command
/// ([`questions_are_no_commands`](crate::questions_are_no_commands)).
#[tactic(auto, unfolding(crate::specs::Questions::question_of))]
pub fn question_of(words: &[String]) -> Option<Question>
    ensures { result ≡ question_of (texts words.now) }
{
    let (first, rest) = words.split_first()?;
    let word = first.as_str();
    if asks_help(word) || word == "help" {
        Some(Question::AllCommands)
    } else if asks_version(word) {
        Some(Question::Version)
    } else if command_kind(word).is_some() && has_help(rest) {
        Some(Question::OneCommand)
    } else {
        None
    }
}

/// Whether a word asks for help.
fn asks_help(word: &str) -> bool
    ensures { result ≡ asks_help word.now }
{
    word == "--help" || word == "-h"
}

/// Whether a word asks for the version.
fn asks_version(word: &str) -> bool
    ensures { result ≡ asks_version word.now }
{
    word == "--version" || word == "-V"
}

/// Whether a word that asks for help is among these, and no `--` before it.
fn has_help(words: &[String]) -> bool
    ensures { result ≡ has_help (texts words.now) }
{
    for word in words {
        let word = word.as_str();
        if word == "--" {
            return false;
        }
        if asks_help(word) {
            return true;
        }
    }
    false
}
