//! The text of the commands that look at many runs of one program: it explores some of them, or searches all.
#![tactic(auto)]

mod exploring;
mod searching;

pub use exploring::{explored_alone, explored_together};
pub use searching::searched_text;
