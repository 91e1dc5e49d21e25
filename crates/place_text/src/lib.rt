//! The text of a place: what is seen of each hart and of each live thread of a machine after the log that it has, and what each hart may
//! do next.
#![tactic(auto)]

mod choices;
mod ends;
pub mod fields;
mod harts;
mod line_end;
mod memory;
mod place;
mod registers;
mod sequences;
mod threads;

pub use ends::{push_console, push_end, push_number_line};
pub use line_end::LineEnd;
pub use memory::push_memory;
pub use place::place_text;
pub use registers::put_register;
pub use sequences::bad_word;
