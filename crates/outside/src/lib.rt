//! The outside of the machine: where files come from, where text goes, and the gate between turns.
//!
//! A shelf gives files by name and a sink takes bytes. Neither can promise to work, so each has a
//! count of faults that never falls, and every answer that blames it comes only where that count
//! rose. Those in memory also tell their bytes, so that what is read and written can be stated.
#![tactic(auto)]

mod faults;
mod file_shelf;
mod files;
mod mem_shelf;
mod mem_sink;
mod meter;
mod metered_sink;
mod moves;
mod open_gate;
mod out_sink;
mod progress;
mod sure_shelf;
mod sure_sink;
mod traits;

pub use faults::{Failed, FetchError, StartFault};
pub use file_shelf::FileShelf;
pub use mem_shelf::MemShelf;
pub use mem_sink::MemSink;
pub use meter::Meter;
pub use metered_sink::MeteredSink;
pub use moves::{emit, fetch};
pub use open_gate::OpenGate;
pub use out_sink::OutSink;
pub use progress::{Counted, Progress};
pub use sure_shelf::SureShelf;
pub use sure_sink::SureSink;
pub use traits::{Gate, Shelf, Sink};
