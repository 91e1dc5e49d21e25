//! An answer is written, and how the call ended is explained.
#![tactic(auto)]

mod delivery;

pub use delivery::tell;
