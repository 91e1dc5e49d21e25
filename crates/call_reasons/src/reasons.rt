//! Why a call gives no output, exactly; and which outcome of an exploration ended otherwise than was expected.

ghost use Rattle.std.specs.Prelude.{◌≡◌};
ghost use Rattle.call_reasons.specs.Reasons.{fault_told, most_bytes, reason_status};

use crate::faults::Fault;
use block_model::Refused;
use command_words::WordsFault;
use elf_load::ElfFault;
use mach_types::{End, Entry};
use std::alloc::AllocError;
use std::io::ErrorKind;

/// How many bytes a program's file may have.
const MOST_PROGRAM_BYTES: usize = 8_388_608;

/// How many bytes a script may have.
const MOST_SCRIPT_BYTES: usize = 67_108_864;

/// What a file is to a command.
#[derive(Clone, Copy, Drop)]
pub enum FileRole {
    /// The program that it runs; of two the first.
    Program,
    /// The second of two programs that it runs.
    SecondProgram,
    /// The script whose events it makes.
    Script,
}

impl FileRole {
    /// How many bytes a file of this role may have.
    pub fn most_bytes(self) -> usize
        ensures { result ≡ most_bytes self }
    {
        match self {
            FileRole::Program | FileRole::SecondProgram => MOST_PROGRAM_BYTES,
            FileRole::Script => MOST_SCRIPT_BYTES,
        }
    }
}

/// What is wrong with a line of a script.
#[derive(Clone, Copy, Drop)]
pub enum LineFault {
    /// It can't be read.
    Malformed,
    /// Its event isn't allowed, for this reason.
    Refused(Refused),
    /// Its event isn't allowed: neither of two processes goes on.
    NoneGoesOn,
    /// Its event is allowed and is this entry, whose thread or pc isn't as the line says.
    Differs(Entry),
}

/// Some addresses, or some bytes of a file.
#[derive(Clone, Copy, Drop)]
pub struct Span {
    /// The first.
    pub from: u64,
    /// The one behind the last, or the greatest number, where that comes first.
    pub to: u64,
}

/// What a fault of a program's file is about.
#[derive(Clone, Copy, Drop)]
pub enum ElfPlace {
    /// A segment.
    Segment {
        /// Its memory.
        memory: Span,
        /// Its bytes in the file.
        file: Span,
    },
    /// The address of the entry.
    Entry(u64),
    /// The frames of memory.
    Frames {
        /// How many the program needs.
        needed: u64,
        /// How many there are.
        given: u32,
    },
}

/// An outcome of an exploration that ended otherwise than was expected.
#[derive(Clone, Copy, Drop)]
pub struct OtherEnd {
    /// How its runs ended; None where that isn't told: they came to none of the outcomes that are told apart.
    pub end: Option<End>,
    /// The seed of its first run.
    pub seed: u64,
}

/// Why a call gives no output, or how its output isn't as was expected.
#[derive(Clone, Copy, Drop)]
pub enum Reason {
    /// The words are no command: this is what is wrong with them.
    Words(WordsFault),
    /// A file couldn't be read.
    Unread {
        /// The file of this role.
        file: FileRole,
        /// What the system said, where that is known.
        trouble: Option<ErrorKind>,
    },
    /// Memory ran out.
    NoMemory,
    /// The file of this role has too many bytes.
    TooBig(FileRole),
    /// The program's file is refused.
    Elf {
        /// The program of this role.
        file: FileRole,
        /// For this fault.
        fault: ElfFault,
        /// The place that it is about, if it is about one.
        about: Option<ElfPlace>,
    },
    /// A line of the script is refused.
    Script {
        /// Its number, counted from 1.
        line: u64,
        /// What is wrong with it.
        fault: LineFault,
    },
    /// This number is outside the range of the guest that is asked for.
    Guest(u64),
    /// The output was written, and this outcome of it ended otherwise than was expected.
    EndedOtherwise(OtherEnd),
    /// The text couldn't be written.
    Unwritten {
        /// What the system said, where that is known.
        trouble: Option<ErrorKind>,
    },
}

impl Reason {
    /// The fault whose line is written; None where no line is: the output was written, or nothing could be.
    pub fn fault(&self) -> Option<Fault>
        ensures { result ≡ fault_told self.now }
    {
        match self {
            Reason::Words(_) => Some(Fault::Usage),
            Reason::Unread { .. } => Some(Fault::Read),
            Reason::NoMemory => Some(Fault::Memory),
            Reason::TooBig(_) => Some(Fault::Big),
            Reason::Elf { fault, .. } => Some(Fault::Elf(*fault)),
            Reason::Script { line, .. } => Some(Fault::Script(*line)),
            Reason::Guest(number) => Some(Fault::Guest(*number)),
            Reason::EndedOtherwise(_) | Reason::Unwritten { .. } => None,
        }
    }

    /// The exit status.
    pub fn status(&self) -> u8
        ensures { result ≡ reason_status self.now }
    {
        match self {
            Reason::EndedOtherwise(_) => 1,
            Reason::Words(_) => 2,
            Reason::Elf { .. } => 3,
            Reason::Script { .. } => 4,
            Reason::Unread { .. } => 5,
            Reason::Unwritten { .. } => 6,
            Reason::NoMemory => 7,
            Reason::TooBig(_) => 8,
            Reason::Guest(_) => 9,
        }
    }
}

impl From<AllocError> for Reason {
    ghost use Rattle.std.specs.Prelude.{◌≡◌};
    ghost use Rattle.call_reasons.specs.declared.reasons.Reason.TheVariants.{NoMemory};

    ghost from_gives = { λ _ reason. reason ≡ NoMemory };

    fn from(_error: AllocError) -> Reason {
        Reason::NoMemory
    }
}

/// The exit status of a call, and the reason that goes with it: there is none exactly at status 0.
///
/// At status 1 the whole output was written, and the reason is an outcome of it that ended otherwise than was expected.
/// At status 6 the reason is that the text couldn't be written; what that text was to tell stands beside it.
#[derive(Clone, Copy, Drop)]
pub struct Explained {
    /// The exit status.
    pub status: u8,
    /// Why there is no output, or not all of it, or how it isn't as was expected.
    pub reason: Option<Reason>,
    /// The reason that was to be told, where that couldn't be written.
    pub untold: Option<Reason>,
}
