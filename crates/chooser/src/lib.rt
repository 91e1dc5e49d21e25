//! What `run` lets each hart do next: by rules where the hart has one thing to do, else by a word of its
//! generator.
//!
//! The cases and their weights are own. The generators are xoshiro256++ (Blackman and Vigna, "Scrambled
//! linear pseudorandom number generators"), one a hart, seeded as its authors recommend. Nothing here takes
//! memory.
#![tactic(auto)]

mod cases;
mod chooser;
mod theorems;

pub use chooser::{Chooser, Pick};
pub use theorems::{credit_is_small, only_execution_leaves_credit, only_open_picks_draw};
