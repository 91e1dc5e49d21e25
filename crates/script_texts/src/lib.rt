//! The text of the commands that tell what a script does: the trace of a run by one, and the text of a pair.
#![tactic(auto)]

mod pairing;
mod tracing;

pub use pairing::pair_text;
pub use tracing::{Traced, traced_text};
