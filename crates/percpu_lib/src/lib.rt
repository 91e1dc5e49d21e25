//! Code that works on data of its processor inside a restartable sequence (rseq(2)): emitted into an
//! assembler, with what it does in any run as a theorem.
//!
//! A block asks the thread's area for the processor, stores the address of its descriptor in the area, and
//! starts its sequence: it asks for the processor once more, and begins anew where that has changed. Its last
//! instruction inside is the store that commits; where there is nothing to take or no room, a branch before
//! it commits without a store. An abort, or a change of the processor, leads back to its first word.
#![tactic(auto)]

mod block_lines;
mod block_theorems;
mod blocks;
mod fault;
mod lines;
mod ring_theorems;
mod rings;
mod room;
mod slots;
mod theorems;

pub use block_theorems::{
    all_blocks_lie_beside, blocks_are_done, blocks_are_of_the_library, blocks_are_signed,
    blocks_begin_outside, blocks_keep_registers, blocks_that_commit_are_left,
    blocks_work_once_or_not_at_all, files_hold_block, finished_code_holds_block,
    labels_of_blocks_are_those_of_their_sequences, retries_work_on_the_value,
};
pub use blocks::{BlockKind, emit_block};
pub use fault::EmitFault;
pub use lines::{Line, emit_lines};
pub use ring_theorems::{
    files_hold_ring, finished_code_holds_ring, labels_of_rings_are_those_of_their_sequences,
    retries_of_rings_work_on_the_value, ring_blocks_are_used, ring_blocks_lie_beside,
    rings_are_done, rings_are_of_the_library, rings_are_signed, rings_begin_outside,
    rings_keep_registers, rings_that_commit_are_left, rings_work_once_or_not_at_all,
};
pub use rings::{RingWay, emit_ring};
pub use slots::Slots;
pub use theorems::{
    aborted_adds_begin_anew, add_blocks_are_used, add_keeps_registers, adds_are_done,
    adds_begin_outside, adds_once_or_not_at_all, adds_that_commit_are_left,
    allocs_once_or_not_at_all, blocks_lie_beside, files_hold_add, finished_code_holds_add,
    finished_code_is_fetched, frees_once_or_not_at_all, handlers_return_to_blocks,
    labels_of_blocks_are_bound, list_blocks_are_used, pool_blocks_are_used,
    pops_once_or_not_at_all, push_keeps_registers, pushes_are_done, pushes_begin_outside,
    pushes_once_or_not_at_all, pushes_that_commit_are_left, retries_of_add_keep_its_value,
    retries_of_push_keep_its_value,
};
