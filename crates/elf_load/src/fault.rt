//! Why a file is refused.

ghost use Rattle.std.specs.Prelude.{◌≡◌};
ghost use Rattle.elf_load.specs.Numbers.{fault_detail, fault_number};

use std::alloc::AllocError;
use std::fmt;
use thiserror::Error;

/// Why a file is refused, in the order in which the faults are looked for. An index is that of the
/// program header in its table.
#[derive(Clone, Copy, Drop, Error)]
pub enum ElfFault {
    #[error("the file is shorter than a file header")]
    Short,
    #[error("the file does not begin with the magic number of ELF")]
    Magic,
    #[error("the file is not of 64-bit objects")]
    Class,
    #[error("the file is not little-endian")]
    Endian,
    #[error("the version is not 1")]
    Version,
    #[error("the file is not an executable linked at fixed addresses")]
    FileKind,
    #[error("the file is not for RISC-V")]
    Machine,
    /// `e_flags` asks for what is not there.
    #[error("the flags {0:#x} of the file header are not supported")]
    Flags(u32),
    #[error("the program header table is empty, too long or outside the file")]
    Headers,
    #[error("the file asks for a dynamic linker")]
    Dynamic,
    #[error("segment {0} does not fit the file or the address space")]
    Segment(usize),
    #[error("segment {0} does not lie in its page as it does in the file")]
    Align(usize),
    #[error("segment {0} is writable and executable")]
    WritableCode(usize),
    #[error("segment {0} has a page of an earlier one")]
    Overlap(usize),
    #[error("the entry is not in code")]
    Entry,
    /// So many frames are needed.
    #[error("{0} frames are needed")]
    TooLarge(u64),
    #[error("out of memory")]
    NoMemory,
}

/// It shows the message.
impl fmt::Debug for ElfFault {
    fn fmt<W: fmt::Write>(&self, f: &mut fmt::Formatter<W>) -> fmt::Result {
        fmt::Display::fmt(self, f)
    }
}

impl ElfFault {
    /// The number of the fault, from 1 to 17 in the order in which they are looked for.
    pub fn number(&self) -> u8
        ensures { result ≡ fault_number self.now }
    {
        match self {
            ElfFault::Short => 1,
            ElfFault::Magic => 2,
            ElfFault::Class => 3,
            ElfFault::Endian => 4,
            ElfFault::Version => 5,
            ElfFault::FileKind => 6,
            ElfFault::Machine => 7,
            ElfFault::Flags(_) => 8,
            ElfFault::Headers => 9,
            ElfFault::Dynamic => 10,
            ElfFault::Segment(_) => 11,
            ElfFault::Align(_) => 12,
            ElfFault::WritableCode(_) => 13,
            ElfFault::Overlap(_) => 14,
            ElfFault::Entry => 15,
            ElfFault::TooLarge(_) => 16,
            ElfFault::NoMemory => 17,
        }
    }

    /// The flags, the index of the program header or the number of frames that the fault names.
    pub fn detail(&self) -> Option<u64>
        ensures { result ≡ fault_detail self.now }
    {
        match self {
            ElfFault::Flags(flags) => Some(u64::from(*flags)),
            ElfFault::Segment(k)
            | ElfFault::Align(k)
            | ElfFault::WritableCode(k)
            | ElfFault::Overlap(k) => Some(*k as u64),
            ElfFault::TooLarge(needed) => Some(*needed),
            _ => None,
        }
    }
}

impl From<AllocError> for ElfFault {
    ghost use Rattle.elf_load.specs.declared.fault.ElfFault.TheVariants.{NoMemory};

    ghost from_gives = { λ _ fault. fault ≡ NoMemory };

    fn from(_: AllocError) -> ElfFault {
        ElfFault::NoMemory
    }
}
