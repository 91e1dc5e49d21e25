//! What a program is made of.

ghost use Rattle.std.specs.Prelude.{◌≡◌};

use std::alloc::AllocError;
use thiserror::Error;

/// A part of memory: a load segment.
#[derive(Drop)]
pub struct Part {
    /// Its address.
    pub at: u64,
    /// What is allowed: 4 to read, 2 to write, 1 to execute.
    pub perm: u8,
    /// Its first bytes. The others are zero.
    pub bytes: Vec<u8>,
    /// How many bytes it has in memory.
    pub memsz: u64,
}

/// A program.
#[derive(Drop)]
pub struct Parts {
    /// The address of the first instruction.
    pub entry: u64,
    /// `e_flags`: 0, or 16 for a program that needs the memory model Ztso.
    pub flags: u32,
    pub segments: Vec<Part>,
}

/// Why no file is made.
#[derive(Clone, Copy, Debug, Drop, Error)]
pub enum MakeFault {
    /// The first bad part, or the number of parts where the entry, the flags or that number are bad.
    #[error("part {0} is bad")]
    BadParts(usize),
    #[error("out of memory")]
    NoMemory,
}

impl From<AllocError> for MakeFault {
    ghost use Rattle.elf_make.specs.declared.parts.MakeFault.TheVariants.{NoMemory};

    ghost from_gives = { λ _ fault. fault ≡ NoMemory };

    fn from(_: AllocError) -> MakeFault {
        MakeFault::NoMemory
    }
}
