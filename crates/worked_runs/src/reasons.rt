//! Reasons that no call over devices in memory gives: want of memory, files that are too big, and what the
//! system says of a device, and runs whose end isn't told. And a reason of each kind, for what is said of it where there is no memory for more.
//! What is due stands in the program's file `stdout`.

use crate::runs::words_of;
use call_reasons::{FileRole, LineFault, OtherEnd, Reason};
use command_words::WordsFault;
use elf_load::ElfFault;
use reason_text::{AtHand, brief, explain};
use std::alloc::Global;
use std::io::{self, ErrorKind};

/// The call whose reasons these are.
const CALL: &str = "play F S";

/// A program that couldn't be read, with what the system said.
macro_rules! unread {
    ($trouble:ident) => {
        Reason::Unread { file: FileRole::Program, trouble: Some(ErrorKind::$trouble) }
    };
}

/// A text that couldn't be written, with what the system said.
macro_rules! unwritten {
    ($trouble:ident) => {
        Reason::Unwritten { trouble: Some(ErrorKind::$trouble) }
    };
}

/// A program that is refused.
macro_rules! no_elf {
    ($fault:ident) => {
        Reason::Elf { file: FileRole::Program, fault: ElfFault::$fault, about: None }
    };
}

/// Runs that came to none of the outcomes that are told apart.
const UNKNOWN_END: Reason = Reason::EndedOtherwise(OtherEnd { end: None, seed: 9 });

/// Reasons that are said in whole.
const LONG: [Reason; 10] = [
    unread!(NotFound),
    unread!(IsADirectory),
    unread!(PermissionDenied),
    unwritten!(BrokenPipe),
    unwritten!(Uncategorized),
    Reason::NoMemory,
    no_elf!(NoMemory),
    Reason::TooBig(FileRole::Program),
    Reason::TooBig(FileRole::Script),
    UNKNOWN_END,
];

/// A reason of each kind but one, said in brief.
const BRIEF: [Reason; 8] = [
    Reason::Words(WordsFault::NoCommand),
    unread!(NotFound),
    unwritten!(BrokenPipe),
    Reason::NoMemory,
    Reason::TooBig(FileRole::Script),
    no_elf!(Magic),
    Reason::Script {
        line: 1,
        fault: LineFault::Malformed,
    },
    UNKNOWN_END,
];

/// Prints what is said of [`LONG`] and of [`BRIEF`].
pub(crate) fn say_reasons<R: Print>(alloc: Global, rt: &R) -> io::Result<()> {
    let words = words_of(alloc, CALL)?;
    for reason in LONG {
        let at_hand = AtHand {
            words: &words,
            script: &[],
        };
        let text = explain(alloc, &reason, at_hand)?;
        print!(rt; "{text}")?;
    }
    for reason in BRIEF {
        print!(rt; "{}", brief(&reason))?;
    }
    Ok(())
}
