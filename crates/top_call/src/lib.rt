//! The top call: from words, files and a sink to a status, and to the reason that goes with it.
#![tactic(auto)]

mod calls;
mod texts;

pub use calls::{rseq_explained, rseq_quiet};
