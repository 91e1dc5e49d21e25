//! Checkpoints: copies of parts that stand after the first entries of a log. By them parts are made to stand at one place of a
//! search after another in the time of the entries in which their logs differ, and not in that of all entries.
//!
//! How many there are, and after which entries they stand, is own. No clause says so: it changes the time alone.
#![tactic(auto)]

mod checkpoint;
mod checkpoints;
mod prefixes;
mod program;

pub use checkpoints::Checkpoints;
pub use program::Program;
