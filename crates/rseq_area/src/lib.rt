//! The area that a thread registers for restartable sequences, and what it names (rseq(2); uapi
//! linux/rseq.h).
//!
//! A thread registers an area in its memory. The kernel keeps in it on which processor the thread runs; the
//! thread puts into it the address of a descriptor, which says where a restartable sequence starts and ends
//! and where its abort handler is. Nothing here takes memory.
#![tactic(auto)]

mod fields;
mod ids;
mod lookups;
mod naming;
mod registration;
mod words;

pub use ids::lowest_cid;
pub use lookups::{Lookups, looked_at};
pub use mach_types::{Area, BadWhy, Named, Seq};
pub use naming::named;
pub use registration::{register, unregister};
pub use words::{can_set_cpu, set_cpu, words_written};
