//! Runs of two processes by a script, and their text.
#![tactic(auto)]

mod pairs;

pub use pairs::{pair_output, play_pair};
