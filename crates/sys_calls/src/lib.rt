//! The system calls of Linux for RISC-V: one call over the kernel's tables, the page map and the caller's registers.
//!
//! Nothing here takes memory but [`Console::new`].
#![tactic(auto)]

mod advice;
mod affinity;
mod arguments;
mod asking;
mod barrier_call;
mod call_answers;
mod calling;
mod cloning;
mod console;
mod ending;
mod futexes;
mod kernel;
mod limits;
mod memory;
mod memory_calls;
mod numbers;
mod policies;
mod random;
mod ranges;
mod rseq_areas;
mod sequences;
mod signal_calls;
mod signal_posting;
mod system;
mod terminal;
mod waking;
mod writing;

pub use arguments::{call_number, go_on, int_argument, signed_argument};
pub use barrier_call::end_command;
pub use calling::{CallEnd, Called, call, make_call};
pub use console::Console;
pub use kernel::Kernel;
pub use memory_calls::{PageSpan, pages_taken};
pub use rseq_areas::{Areas, MOST_AREAS, RegisteredArea, area_of};
