//! Words of threads: what one keeps while it doesn't run, and the states that one can be in.

use crate::events::Hart;
use crate::registers::Regs;

/// A thread's file: its integer registers, and the address of its next instruction.
#[derive(Clone, Copy, PartialEq, Eq, Drop)]
pub struct Saved {
    /// The integer registers.
    pub file: Regs,
    /// The address of the next instruction.
    pub pc: u64,
}

/// The state of a live thread.
#[derive(Clone, Copy, PartialEq, Eq, Drop)]
pub enum ThreadState {
    /// It may begin to run.
    Ready,
    /// It runs on this hart.
    Running(Hart),
    /// It waits for a wake at this address (futex(2)).
    Waiting(u64),
}
