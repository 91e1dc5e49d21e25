//! RISC-V instructions: their types, the table of their encodings, and what each of them means.
//!
//! RV64I, M, A, Zifencei and Ztso of the RISC-V Unprivileged ISA. The table (`specs/Table.antt`) has a
//! mask, a match and the fields of each instruction; the meaning (`specs/Meaning.antt`) is one equation an
//! instruction, over the registers and the pc. What an instruction asks of its hart and of memory, once its
//! effect is known, is its class (`specs/Class.antt`).
#![tactic(auto)]

mod asking;
mod class;
mod effects;
mod instruction;
mod theorems;

pub use asking::asks;
pub use class::{Access, Asks};
pub use effects::{AmoOp, Effect};
pub use instruction::{Inst, is_local};
pub use theorems::{
    accesses_are_sized, harts_go_on_in_words, local_rows_set_registers, rows_are_distinct,
    writes_are_asked,
};
