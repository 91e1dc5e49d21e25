//! Why a call gives no output: the reason, its exit status, and the fault whose line is written.
#![tactic(auto)]

mod faults;
mod reasons;

pub use faults::Fault;
pub use reasons::{ElfPlace, Explained, FileRole, LineFault, OtherEnd, Reason, Span};
