//! A search that stores each place only after the local steps of its threads has the outcome of every run.
//!
//! Most instructions of a program touch registers alone, or load bytes that no one else writes. When such a
//! step is made can't be seen by any other thread. So a search makes them at once, and stores and compares
//! far fewer places. What it has to check for that, [`settled_searches_are_complete`] says; and of a search
//! that leaves out the runs that cost more than a budget, [`settled_searches_within_budgets_are_complete`].
//!
//! The events between the places that it stored tell more: from where a run can still end, and whether some
//! run executes instructions without end ([`walks_tell_who_can_end`], [`each_run_can_end`],
//! [`walks_tell_how_much_is_executed`]).
#![tactic(auto)]

mod endings;
mod theorems;

pub use endings::{each_run_can_end, walks_tell_how_much_is_executed, walks_tell_who_can_end};
pub use theorems::{settled_searches_are_complete, settled_searches_within_budgets_are_complete};
