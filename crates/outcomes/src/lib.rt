//! What a call comes to: its output, or why there is none, and the exit status that goes with it.
//!
//! The definitions stand in `specs/`, one subject a file. They speak of words, files and devices, and of logs by
//! `block_model`; no code runs here.
#![tactic(auto)]

mod judged;

pub use judged::Judged;
