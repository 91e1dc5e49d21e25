//! The store buffer of one hart (RISC-V Ztso): plain stores wait here, oldest first, until they enter memory.
//!
//! A load of the hart sees its own waiting stores before memory. A buffer holds at most 8 stores (own).
#![tactic(auto)]

mod buffer;
mod forwarding;

pub use buffer::StoreBuffer;
pub use mach_types::Store;
