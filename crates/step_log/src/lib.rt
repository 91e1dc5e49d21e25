//! The lines of a log: printed from entries, and read back from a script.
//!
//! A line names an event: the hart, the kind of event, the thread and its pc. A log is printed with all
//! four; a script may leave the thread and the pc out. Nothing here takes memory.
#![tactic(auto)]

mod fields;
mod parsing;
mod printing;
mod reading;
mod theorems;

pub use fields::Line;
pub use printing::{EXEC_LINE, exec_line, hex_digits, kind_word, print_entry};
pub use reading::{BadLine, LineReader};
pub use theorems::{line_has_one_text, printed_entry_is_read, printed_log_is_read};
