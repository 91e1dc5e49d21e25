//! Explorations: the runs of a first seed and of the seeds behind it, and each different outcome of theirs once.
//!
//! A run is the one that `drawn_machine` makes of its seed. Nothing is kept of it but what it came to.
#![tactic(auto)]

mod deciles;
mod exploration;
mod explored;
mod exploring;
mod jobs;
mod lengths;
mod made;
mod printed;
mod rounds;
mod saying;
mod sharing;
mod tallies;
mod task;
mod text;
mod theorems;
mod waits;

pub use exploration::Exploration;
pub use explored::{Explored, Found, Others};
pub use exploring::explore;
pub use printed::Printed;
pub use sharing::explore_on;
pub use tallies::Tried;
pub use text::explored_text;
pub use theorems::{explorations_are_one, explored_runs_are_drawn, outcomes_are_told_once};
