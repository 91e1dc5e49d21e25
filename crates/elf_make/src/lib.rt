//! Writes a program as an ELF file that is loaded to just its parts.
#![tactic(auto)]

mod layout;
mod parts;
mod refusals;
mod theorems;
mod writing;

pub use parts::{MakeFault, Part, Parts};
pub use theorems::parts_stand_at_the_lowest_places;
pub use writing::write_elf;
