//! The text of a run of one program, of which something is shown at its end; of the trial of a guest, and a guest's file.
#![tactic(auto)]

mod guests;
mod runs;
mod shown;

pub use guests::{guest_output, tried};
pub use runs::{end_text, summed_text, workers_run_text};
