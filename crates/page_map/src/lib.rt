//! The pages of a process: which of them are mapped, with which permission, and their bytes.
//!
//! Each page that is mapped has a frame of its own. How pages are found is own. Only [`PageMap::boot`] takes
//! memory.
#![tactic(auto)]

mod access;
mod boot;
mod calls;
mod changes;
mod copying;
mod directory;
mod listing;
mod map;
mod mapped_page;
mod restart;
mod table;
mod theorems;
mod writing;

pub use calls::{ends_past, pages_of};
pub use listing::ALL_PAGES;
pub use map::PageMap;
pub use theorems::{
    addresses_end, alike_maps_hold_writes, code_is_bytes, held_bytes_are_seen,
    lowest_hole_is_lowest, permission_decides,
};
