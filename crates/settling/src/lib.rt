//! Whether the next instruction of a thread may be made at once, before the events of others: what a search
//! that settles has to look at.
#![tactic(auto)]

mod areas;
mod edges;
mod handlers;
mod local;
mod resting;

pub use areas::Glance;
pub use edges::{Look, are_kept, kept_areas_are_left, looks, own_of};
pub use handlers::has_no_handler;
pub use resting::{is_settling, settling_threads_rest};
