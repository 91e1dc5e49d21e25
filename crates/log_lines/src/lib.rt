//! The lines of a log as one text, and written to a sink in pieces.
#![tactic(auto)]

mod fronts;
mod lines;
mod pieces;

pub use lines::push_lines;
pub use pieces::{LineBuffer, emit_around};
