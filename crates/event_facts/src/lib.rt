//! What came of an event of a log, fact by fact: what it read and where that came from, what it stored, what
//! it reserved, and which registers changed.
//!
//! [`Lines`] knows in which line of the log each store was executed that waits, and in which line each byte
//! of memory was written last. [`trace`] makes an event on a machine, and tells all that came of it. It looks first
//! whether the event is plain: an instruction that makes neither a fault nor a call, or a store that enters memory.
//! Of any other it tells what is read at the places before it and after it (faults, calls, barriers, interruptions,
//! signals, threads and areas), and what the kernel wrote in it.
#![tactic(auto)]

mod areas;
mod by_number;
mod calls;
mod cuts;
mod deeds;
mod facts;
mod faults;
mod interruptions;
mod kept_reservations;
mod kernel_events;
mod kernel_writes;
mod killing;
mod lines;
mod long_writes;
mod other_registers;
mod own_registers;
mod pending;
mod places;
mod reads;
mod registers;
mod requests;
mod reservations;
mod sources;
mod telling;
mod theorems;
mod threads;
mod tracing;
mod written;

pub use lines::Lines;
pub use telling::PlainEvent;
pub use theorems::{
    kills_are_told_with_their_reason, lines_are_told_rightly, plain_events_are_told_by_their_facts,
};
pub use tracing::{trace, trace_freely};
