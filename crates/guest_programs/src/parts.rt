//! The parts of a guest's program.

ghost use Rattle.std.specs.Prelude.{◌≡◌, [], ◌∷◌, IfOk};

use crate::layout::{CODE, CODE_SIZE, DATA, DATA_SIZE};
use elf_make::{Part, Parts};
use std::alloc::{AllocError, Global};

/// The bit of `e_flags` for programs that need the memory model Ztso.
const EF_RISCV_TSO: u32 = 16;

// What is allowed in a part: to read and to execute, and to read and to write.
const CODE_PERM: u8 = 5;

const DATA_PERM: u8 = 6;

/// The program of this code and these first bytes of the data.
pub(crate) fn parts_of(alloc: Global, code: Vec<u8>, data: Vec<u8>) -> Result<Parts, AllocError>
    ensures entry { IfOk result (λ parts. parts.entry ≡ CODE) }
    ensures flags { IfOk result (λ parts. parts.flags ≡ EF_RISCV_TSO) }
    ensures segments { IfOk result (λ parts. parts.segments.items
        ≡ record { at = CODE; perm = CODE_PERM; bytes = code; memsz = CODE_SIZE }
        ∷ record { at = 0x20000; perm = DATA_PERM; bytes = «data»; memsz = DATA_SIZE }
        ∷ []) }
{
    let mut segments = Vec::with_capacity(alloc, 2)?;
    segments.push(Part {
        at: CODE,
        perm: CODE_PERM,
        bytes: code,
        memsz: CODE_SIZE,
    })?;
    segments.push(Part {
        at: DATA as u64,
        perm: DATA_PERM,
        bytes: data,
        memsz: DATA_SIZE,
    })?;
    Ok(Parts {
        entry: CODE,
        flags: EF_RISCV_TSO,
        segments,
    })
}
