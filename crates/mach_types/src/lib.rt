//! The words of the machine: harts, threads, events, ends, registers, stores and memory.
//!
//! Everything here is plain data that the crates above share, and the trait by which they reach a
//! program's memory. Nothing here takes memory.
#![tactic(auto)]

pub mod address_space;
pub mod barriers;
pub mod errors;
mod events;
mod flat_memory;
mod kernel_words;
mod limits;
mod registers;
pub mod sequences;
mod signal_words;
pub mod signals;
mod threads;
mod user_memory;

pub use barriers::{Answer, BarrierCommand, Registered};
pub use errors::Errno;
pub use events::{
    Advance, BarrierPart, Choice, Entry, Hart, Interruption, Kind, Maker, Movement, Nature,
    OWN_CHOICES, Sight, Tid, Why,
};
pub use flat_memory::{FLAT_END, FLAT_START, FlatMemory};
pub use kernel_words::{CONSOLE_ROOM, MOST_PROT, MOST_THREADS, PROT_EXEC, PROT_READ, PROT_WRITE};
pub use limits::{End, Limits};
pub use registers::Regs;
pub use sequences::{Area, BadWhy, Descriptor, Named, Outcome, Seq};
pub use signal_words::{Action, Fault, ThreadSignals};
pub use threads::{Saved, ThreadState};
pub use user_memory::{STORE_BUFFER_CAPACITY, Store, UserMem, Write};
