//! Which harts of a process owe their thread a signal, read off its parts, and what is due there.
#![tactic(auto)]

mod dues;
mod owing;
mod theorems;
mod trapping;

pub use dues::Dues;
pub use owing::{has_hart, owed_after};
pub use theorems::{dues_say_what_comes_in_time, sets_say_what_is_owed};
pub use trapping::traps;
