//! The outcomes that a search found, and why it ended.

ghost use Rattle.std.specs.Prelude.{◌≡◌, []};

use crate::console::ConsoleBytes;
use mach_types::{End, Entry};
use std::alloc::Global;

/// An outcome that was found: how a run ends, and what it leaves on the console.
#[derive(Drop)]
pub struct OutcomeFound {
    /// How the run ends: by an exit, by a signal, or stuck.
    pub end: End,
    /// What it leaves on the console.
    pub console: ConsoleBytes,
    /// The log of the first run that was found to end so.
    pub log: Vec<Entry>,
}

/// Why a search ended.
#[derive(Clone, Copy, PartialEq, Eq, Drop)]
pub enum Closing {
    /// All places were visited: every run that ends has one of the outcomes that were found.
    Complete,
    /// All places were visited to which runs with so many preemptions come at most: each of these runs that ends has one of the outcomes
    /// that were found. Some event was left out that would have been one more.
    Within(u8),
    /// As many places were visited as were allowed, and there may be others.
    Places,
    /// A run that goes on is as long as the step limit.
    Deep,
    /// Memory was short.
    Memory,
}

/// The hopeless places among those that a search visited: from such a place no end can be reached, however a
/// run goes on there. A run that is stuck has ended, so its place is none.
#[derive(Drop)]
pub struct HopelessPlaces {
    /// How many there are.
    pub number: u32,
    /// A log that leads to the first of them that was visited; where there is none, the empty log.
    pub nearest: Vec<Entry>,
}

impl HopelessPlaces {
    /// None.
    pub fn none(alloc: Global) -> HopelessPlaces
        ensures number { result.number ≡ 0 }
        ensures nearest { result.nearest.items ≡ [] }
    {
        HopelessPlaces {
            number: 0,
            nearest: Vec::new(alloc),
        }
    }
}

/// What a search found.
#[derive(Drop)]
pub struct Findings {
    /// Each outcome that was found once, in the order in which they were found.
    pub outcomes: Vec<OutcomeFound>,
    /// How many places were visited.
    pub places: u32,
    /// How many entries the longest log has that was visited.
    pub deepest: u32,
    /// Whether some run executes instructions without end. It says something at `Complete` alone.
    pub endless: bool,
    /// The places from which no end can be reached. It says something at `Complete` alone.
    pub hopeless: HopelessPlaces,
    /// Why the search ended.
    pub closing: Closing,
}
