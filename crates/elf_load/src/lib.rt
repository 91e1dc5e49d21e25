//! Reads an ELF file into the memory image with which its program starts.
#![tactic(auto)]

mod checks;
mod elf_format;
mod fault;
mod fields;
mod image;
mod loading;
mod paging;
mod program_headers;

pub use checks::{is_bad_entry, shares_page};
pub use fault::ElfFault;
pub use image::{Image, ImagePage};
pub use loading::load;
pub use program_headers::ProgramHeader;
