//! From instructions to words, and from words and labels to code
//! (RISC-V Unprivileged ISA, section "Base Instruction Formats").
//!
//! [`encode`] is the way back from `decode` of `rv_decode`. [`Asm`] collects words and branches to labels,
//! and aims the branches once all labels are bound.
#![tactic(auto)]

mod assembler;
mod code;
mod distance;
mod encoder;
mod fault;
mod fields;
mod formats;
mod item;
mod labels;

pub use assembler::Asm;
pub use encoder::encode;
pub use fault::AsmFault;
pub use item::Item;
