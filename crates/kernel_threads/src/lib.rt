//! The table of threads: which threads live, what each keeps while it doesn't run, and who waits (clone(2),
//! exit(2), futex(2)).
//!
//! The table is fixed: after it is made, no call takes memory. At most 64 threads live (own).
#![tactic(auto)]

mod masks;
mod rows;
mod table;
mod theorems;
mod waiters;

pub use mach_types::{Saved, ThreadState};
pub use masks::futex_operation;
pub use rows::{Row, Stage};
pub use table::Threads;
pub use theorems::{
    others_keep_what_they_were_saved_with, thread_has_what_it_was_saved_with,
    thread_is_saved_while_it_does_not_run,
};
