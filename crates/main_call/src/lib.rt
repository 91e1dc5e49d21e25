//! The top call, also by its exit status alone: over any devices, and over those in memory that never fail.
#![tactic(auto)]

mod status;
mod sure;

pub use status::rseq_main;
pub use sure::{sure_main, sure_quiet};
pub use top_call::{rseq_explained, rseq_quiet};
