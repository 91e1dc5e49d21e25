//! What an entry makes of the restartable sequences of a log.

use crate::forms::Act;
use mach_types::Seq;

/// What an entry makes of the restartable sequences of a log (rseq(2)).
#[derive(Clone, Copy, Drop)]
pub enum Turn {
    /// One begins with it: this, which its hart's thread was inside before it.
    Begins(Seq),
    /// One has ended with it, which is this act, of earlier entries.
    Ends(Act),
}
