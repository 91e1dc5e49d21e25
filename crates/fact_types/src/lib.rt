//! Facts: the types of what came of an event of a log. Everything here is plain data.
//!
//! `event_facts` reads them off events, and `fact_text` makes text of them.
#![tactic(auto)]

mod areas;
mod calls;
mod facts;
mod faults;
mod interruptions;
mod killing;
mod threads;

pub use areas::AreaField;
pub use calls::SystemCall;
pub use facts::{Fact, Source};
pub use faults::FaultWhy;
pub use interruptions::{Interruption, WrongWord};
pub use killing::KillWhy;
pub use threads::ThreadChange;
