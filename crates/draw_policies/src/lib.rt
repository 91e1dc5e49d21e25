//! Which event comes next in a run that is drawn from a seed: the rules of the policies, each for one hart.
//!
//! The policies and their weights are own. Nothing here takes memory.
#![tactic(auto)]

mod acting;
mod aims;
mod beginning;
mod outcome_keys;
mod policies;
mod theorems;
mod turns;
mod words;

pub use aims::{Aim, still_due};
pub use outcome_keys::OutcomeKey;
pub use policies::{Policies, Policy, Weights};
pub use theorems::{own_signals_come_first, turn_is_allowed, turns_come};
pub use turns::{Turn, turn_of};
pub use words::Word;
