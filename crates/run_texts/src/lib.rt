//! The texts of runs: what they are (`specs/`), and what several of them are made by.
#![tactic(auto)]

mod forms;
mod output;

pub use forms::push_form;
pub use output::{Log, Output, output_with, run_output};
