//! The guests that can be made: their names, and the sizes that each takes.
#![tactic(auto)]

mod names;

pub use names::Name;
