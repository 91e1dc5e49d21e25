//! The text of facts: a line for each, behind two spaces.
#![tactic(auto)]

mod call_names;
mod lines;

pub use lines::{push_facts, put_changed};
