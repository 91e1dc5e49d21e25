//! The text on standard error: why a call gives no output, for a person.
#![tactic(auto)]

mod conditions;
mod keeping;
mod messages;
mod usage;

pub use keeping::{Keep, Keeping, KeepingShelf};
pub use messages::{AtHand, OUT_OF_MEMORY, brief, explain};
pub use usage::{answer_text, usage_text};
