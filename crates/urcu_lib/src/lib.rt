//! User-space RCU on membarrier (liburcu's flavour memb): code for readers and for whoever waits for them,
//! emitted into an assembler, with what it promises in any run as a theorem.
//!
//! A reader stores the grace counter in a slot of its own before its section, and 0 behind it, without a
//! fence. Whoever waits calls membarrier, makes the counter larger, and waits for each slot until it is 0 or
//! holds a number that isn't below the new counter.
#![tactic(auto)]

mod reads;
mod regs;
mod syncs;
mod theorems;

pub use reads::{emit_read_lock, emit_read_unlock};
pub use regs::{ReadRegs, SyncRegs};
pub use syncs::emit_sync;
pub use theorems::{
    files_hold_rcu_blocks, handlers_return_to_sync_blocks, sections_end_before_grace_periods,
    sync_blocks_are_used, sync_is_soon_over,
};
