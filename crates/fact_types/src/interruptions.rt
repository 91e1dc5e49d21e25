//! Interruptions of threads (rseq(2)): what they came to, and which word was wrong where one killed the
//! process.

use mach_types::BadWhy;

/// A word in memory for which an area is bad.
#[derive(Clone, Copy, Drop)]
pub struct WrongWord {
    /// Its address.
    pub at: u64,
    /// Its number; None where one of its bytes can't be read.
    pub value: Option<u64>,
}

/// What the interruption of a thread came to.
#[derive(Clone, Copy, Drop)]
pub enum Interruption {
    /// Nothing: the thread had no area, or its area named nothing.
    Nothing,
    /// The pointer of its area became 0; it was outside of what that named.
    Cleared,
    /// The pointer of its area became 0, and it went on at `to`; it was inside, at `from`.
    Aborted { from: u64, to: u64 },
    /// The process was killed, since the area was bad.
    Killed { why: BadWhy, wrong: WrongWord },
}
