//! The text of what a search of all runs of a program found.
#![tactic(auto)]

mod text;

pub use text::findings_text;
