//! One hart: its registers, its store buffer, its reservation, and what an instruction does to them and to
//! memory.
//!
//! `rv_exec` says what an instruction asks of its hart; here it is done. Plain stores wait in the hart's
//! buffer until the hart lets them enter memory, and loads see them there; AMO and SC read and write memory
//! at once (RISC-V Unprivileged ISA, chapters RV64I, "A" and "Ztso"). Only [`HartState::new`] takes memory.
#![tactic(auto)]

mod faults;
mod gate;
mod hart;
mod reservation;

pub use hart::HartState;
