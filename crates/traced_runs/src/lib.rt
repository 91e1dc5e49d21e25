//! Runs by a script that are told while they are made.
#![tactic(auto)]

mod line_numbers;
mod sequences;
mod tracing;

pub use tracing::{TracedRun, play_traced};
