//! Gathered logs: each restartable sequence (rseq(2)) that no other hart's events disturb is put together in the log, as if nothing had
//! run beside it.
#![tactic(auto)]

mod accesses;
mod byte_sets;
mod clashes;
mod gathering;
mod marks;
mod moving;
mod passing;
mod spans;
mod steps;
mod theorems;
mod turns;

pub use gathering::gather;
pub use theorems::gathered_logs_are_block_runs;
