//! How a process of a pair stands, how a pair has ended, and why an event isn't made.

use mach_types::Why;

/// How a process of a pair stands.
#[derive(Clone, Copy, Drop)]
pub enum ProcState {
    /// Nothing ended it.
    Live,
    /// It exited with this status.
    Exit(u8),
    /// This signal ended it.
    Killed(u8),
}

/// How a pair ends that stops at a place, the first of these that holds.
#[derive(Clone, Copy, Drop)]
pub enum PairEnd {
    /// Both processes have ended.
    Done,
    /// No process goes on: of each that hasn't ended a thread is live, and none runs or is ready.
    Stuck,
    /// The log has as many entries as the step limit says.
    Limit,
    /// None of these.
    Unended,
}

/// Why a pair refuses an event. A refused event changes nothing.
#[derive(Clone, Copy, Drop)]
pub enum PairRefused {
    /// No process goes on.
    Ended,
    /// The log has as many entries as the step limit says.
    Full,
    /// This condition of the event is the first that fails.
    NotEnabled(Why),
}
