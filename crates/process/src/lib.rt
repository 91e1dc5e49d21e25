//! A process on its harts: its pages, the harts with their waiting stores, the kernel's tables, and the events that change
//! them. It keeps no log: each contract is said at a place, for every place at which the parts may stand.
#![tactic(auto)]

mod code;
mod code_pages;
mod copying;
mod drain;
mod exec;
mod exec_gate;
mod faults;
mod foresight;
mod free;
mod handlers;
mod hart_view;
mod interrupt;
mod kernel_writes;
mod membarrier;
mod next;
mod other_process;
mod parts;
mod plain;
mod preempt;
mod requests;
mod reservations;
mod rseq;
mod run;
mod search;
mod signal_delivery;
mod starting;

pub use code::Code;
pub use copying::copies_are_tied;
pub use exec::Written;
pub use handlers::is_handler;
pub use hart_view::HartView;
pub use kernel_writes::KernelWrites;
pub use next::{
    Next, effect_at, effect_of_next, fault_of_next, is_free, is_local, is_open, next_of,
};
pub use parts::Parts;
pub use requests::{is_all_taken, running_harts};
