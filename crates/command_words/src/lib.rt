//! The words of a command line: what they ask for, read with `clap`.
#![tactic(auto)]

mod arguments;
mod commands;
mod ends;
mod faults;
mod options;
mod questions;
mod read;
mod reader;
mod spans;
mod table;
mod takes;
mod theorems;

pub use commands::{
    Command, Draws, Explore, Guest, LineSpan, PairRun, Run, Search, SearchSettings, Settings,
    Shown, Source, Trial,
};
pub use faults::WordsFault;
pub use options::{ALL_OPTIONS, OptionName};
pub use questions::{Question, question_of};
pub use read::{WordsError, read_words};
pub use spans::{MemorySpan, MemorySpans};
pub use table::{COMMANDS, CommandKind, ShownKind, SourceKind, command_kind};
pub use takes::NameKind;
pub use theorems::{questions_are_no_commands, words_are_wrong_or_name_a_command};
