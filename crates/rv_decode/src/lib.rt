//! From a word to its instruction (RISC-V Unprivileged ISA, chapter "RV32/64G Instruction Set Listings").
//!
//! [`decode`] answers what the table of `rv_inst` says. It searches no table: it switches on the major opcode
//! and then on the fields that select a row within it.
#![tactic(auto)]

mod compute;
mod control;
mod decoder;
mod fields;
mod memory;
pub mod opcodes;

pub use decoder::decode;
pub use fields::bits;
