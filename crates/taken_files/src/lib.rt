//! The files of a command: the images of its programs are taken, and its script is read, each with the reason why it isn't.
#![tactic(auto)]

mod elf_places;
mod fetching;

pub use fetching::{ScriptFiles, read_file, scripted, taken, taken_as};
