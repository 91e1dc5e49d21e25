//! What a search for all outcomes of a program is asked: of which runs it speaks, and its reductions, which are what it makes at once,
//! so that there are fewer places to visit.
#![tactic(auto)]

mod reductions;
mod signals;

pub use reductions::{ALL_REDUCTIONS, Reductions};
pub use signals::Signals;
