//! Reading the words of a command line.

ghost use Rattle.std.specs.Prelude.{◌≡◌, IfErr, IfOk, Some};
ghost use Rattle.command_words.specs.Commands.{HasItsHarts, HasItsShown, HasLimits};
ghost use Rattle.command_words.specs.Kept.{said};
ghost use Rattle.command_words.specs.WordErrors.{IsErrorOf};
ghost use Rattle.command_words.specs.Words.{command_of, texts};

use crate::commands::{Command, command_of};
use crate::faults::{WordsFault, words_fault};
use crate::theorems::{words_are_wrong_or_name_a_command, words_ask_for_what_can_be_shown};
use std::alloc::Global;

/// Why words give no command.
#[derive(Clone, Copy, Drop)]
pub enum WordsError {
    /// They are no command: this is what is wrong with them.
    Wrong(WordsFault),
    /// Memory ran out.
    NoMemory,
}

/// What the words ask for. What is wrong with them is found first, and takes no memory: only words of the grammar
/// may want it.
///
/// The first word is the command: `solo FILE`, with `--frames` and `--steps`; `play FILE SCRIPT` and the other
/// commands on the events of a script, with `--harts` too, `inspect` with `--memory` besides, and `trace` with `--from` and
/// `--to`; `run FILE`, with `--harts` and `--seed` too; `draw FILE`, with `--policy`, `--calm` and `--after` besides;
/// `explore FILE`, with `--policy`, `--calm`, `--runs`, `--until`, `--by`, `--jobs` and `--expect`;
/// `outcomes FILE`, with `--harts`, `--frames`, `--places`, `--deep`, `--scripts`, `--without`, `--preemptions` and `--signals`; `make NAME N`, with no option;
/// `trial NAME N`, with `--harts`, `--steps` and `--seed`; or `pair FILE1 FILE2 SCRIPT`, with the options of `play`. Each limit
/// is in its range.
pub fn read_words<'a>(alloc: Global, words: &'a [String]) -> Result<Command<'a>, WordsError>
    ensures command { IfOk result (λ command. command_of (texts words.now) ≡ Some (said command)) }
    ensures limits { IfOk result (λ command. HasLimits (said command)) }
    ensures harts { IfOk result (λ command. HasItsHarts (said command)) }
    ensures shown { IfOk result (λ command. HasItsShown (said command)) }
    ensures error { IfErr result (IsErrorOf (texts words.now)) }
{
    words_are_wrong_or_name_a_command();
    words_ask_for_what_can_be_shown();
    if let Some(fault) = words_fault(words) {
        return Err(WordsError::Wrong(fault));
    }
    match command_of(alloc, words) {
        Ok(Some(command)) => Ok(command),
        Ok(None) => unreachable!(),
        Err(_) => Err(WordsError::NoMemory),
    }
}
