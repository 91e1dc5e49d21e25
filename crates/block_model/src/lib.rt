//! What a log of the machine means: definitions that read a log, and the laws that they obey.
//!
//! The definitions stand in `specs/`, one subject a file. A log is read as a history, newest event first;
//! everything about a place is read by looking back from it.
#![tactic(auto)]

mod acts;
mod refusals;
mod theorems;

pub use acts::SeqEnd;
pub use refusals::Refused;
