//! What is shown of a run at whose end a machine is.
#![tactic(auto)]

mod acts;
mod gather;
mod inspecting;
mod summary;
mod texts;

pub use texts::{acts_output, gathered_output, place_output, summary_output, trial_text};
