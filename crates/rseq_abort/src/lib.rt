//! The interruption of a thread that may be inside a restartable sequence (rseq(2)).
//!
//! Before an interrupted thread goes on, the kernel looks at what its area names: a thread inside goes on at
//! the abort handler, and the area then names nothing. Nothing here takes memory.
#![tactic(auto)]

mod interruption;

pub use interruption::{foreseen, interrupt};
pub use mach_types::{Area, BadWhy, Outcome};
