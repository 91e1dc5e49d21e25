//! When two places of a process are the same, and which set of places has every outcome of a program.
//!
//! A search visits places: it remakes one ([`replay`]), tries each choice there ([`choices_at`],
//! [`try_choice`]), and goes on from the places that it hasn't seen. Where it comes to an end, no event
//! leaves the places that it visited ([`searched_places_are_closed`]), and so they have the outcome of every
//! run ([`closed_places_are_complete`]).
#![tactic(auto)]

mod choices;
mod making;
mod replaying;
mod theorems;
mod trying;

pub use choices::{all_choices_are_listed, choices_at};
pub use replaying::{play_on, replay};
pub use theorems::{closed_places_are_complete, searched_places_are_closed};
pub use trying::try_choice;
