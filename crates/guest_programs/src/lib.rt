//! Guests: programs that work on data of their processors by restartable sequences (rseq(2)), that try what a
//! barrier promises (membarrier(2)), that read and wait by user-space RCU, or that go from processor to
//! processor, each made for a size.
//!
//! The code of a guest is a list of steps. The size stands in memory, so the code is the same for all sizes.
#![tactic(auto)]

mod calls;
mod counter;
mod data;
mod dekker;
mod emitting;
mod fault;
mod labels;
mod layout;
mod list;
mod making;
mod migrate;
mod parts;
mod pool;
mod registers;
mod ring;
mod shared;
mod signals;
mod steps;
mod theorems;
mod urcu;

pub use fault::GuestFault;
pub use guest_names::Name;
pub use making::make;
pub use theorems::{
    counters_use_their_block, lists_use_their_block, made_files_hold_their_blocks,
    made_files_hold_their_code, made_files_start_their_programs, readers_are_waited_for,
};
