//! The machine: a process on its harts, and the log of what happened.
//!
//! Every log is a block run: each entry is the one that the definitions of `block_model` allow at its place.
#![tactic(auto)]

mod credits;
mod machine;
mod stretches;
mod theorems;

pub use block_model::Refused;
pub use machine::Machine;
pub use process::Code;
pub use stretches::{Stretch, work};
pub use theorems::code_is_enough;
