//! The ready threads in order, and the harts that each thread may run on.
//!
//! A thread that becomes ready is the last one (own). Each live thread is held with a set of harts, one bit
//! each: a new one has its parent's, and sched_setaffinity(2) changes it. Nothing here takes memory.
#![tactic(auto)]

mod affinities;
mod entry_list;
mod hart_sets;
mod ready;
mod theorems;

pub use ready::Ready;
pub use theorems::{affinity_changes_alone, first_for_is_allowed, scheduling_stays_whole};
