//! Walks along the edges of a graph, whose nodes are numbered from 0: from which nodes one of some others can
//! be reached, and whether a walk can go round and round along edges on which work is done.
#![tactic(auto)]

mod circles;
mod counts;
mod edge;
mod marks;
mod ranks;

pub use circles::has_busy_circle;
pub use counts::{count_unmarked, first_unmarked};
pub use edge::Edge;
pub use marks::marks_of;
