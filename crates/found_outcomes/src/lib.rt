//! What a search of all runs of a program found: its outcomes, each with a run that ends so, and why the
//! search ended.
//!
//! What the findings mean stands in `specs/`, by `block_model` and `same_places`. Crates above cite `proofs/Laws.antt`, and nothing else
//! of `proofs/`.
#![tactic(auto)]

mod console;
mod findings;
mod theorems;

pub use console::ConsoleBytes;
pub use findings::{Closing, Findings, HopelessPlaces, OutcomeFound};
pub use theorems::complete_searches_agree;
