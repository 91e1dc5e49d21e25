//! Runs that are drawn from a seed, made by a machine: each event is the one that a policy draws at its place.
//!
//! The rules are those of `draw_policies` and `drawings`; which logs are drawn so is said by `drawn_runs`.
#![tactic(auto)]

mod drawn_run;
mod hart_clock;
mod pc_set;
mod seen_harts;
mod starting_threads;
mod store_pcs;
mod store_waits;

pub use drawn_run::{DrawnRun, draw_on, run_drawn};
pub use pc_set::PcSet;
pub use store_pcs::StorePcs;
pub use store_waits::LONG_WAIT;
