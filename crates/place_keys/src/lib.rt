//! Keys of places: a place as a list of words, which is equal only to that of the same place.
//!
//! A search keeps the key of each place that it has seen, and so knows a place again. What no rule of an
//! event reads isn't in a key: counts of events and of instructions. A key is short, since of the pages it
//! has only the words that differ from those at the start of the program. What a key consists of is own.
#![tactic(auto)]

mod differences;
mod harts;
mod packing;
mod pages;
mod parts;
mod tables;
mod theorems;
mod words;

pub use packing::pack;
pub use parts::write_place;
pub use theorems::{
    equal_bytes_are_equal_words, equal_words_are_the_same_place, equal_words_lead_back,
};
