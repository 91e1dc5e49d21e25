//! Runs by a script.
#![tactic(auto)]

mod scripts;

pub use scripts::{CountedRun, is_as_said, play, play_counted};
