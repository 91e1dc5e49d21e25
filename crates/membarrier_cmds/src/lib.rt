//! The commands of membarrier(2).
//!
//! A barrier is about the harts that run a thread of the process: what each stored before must be in memory
//! before the call returns. Here stands what a call answers at once, and else which harts have to acknowledge
//! the barrier. Nothing here takes memory.
#![tactic(auto)]

mod commands;
mod numbers;
mod targets;
mod theorems;
mod two_processes;

pub use commands::command;
pub use mach_types::{Answer, BarrierCommand, Registered};
pub use theorems::{global_barriers_are_about_both, nobody_beside};
pub use two_processes::command_two;
