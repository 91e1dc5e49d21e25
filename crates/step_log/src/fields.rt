//! The fields of a script's line.

use mach_types::{Choice, Hart, Tid};

/// What a line of a script asks for.
#[derive(Clone, Copy, PartialEq, Eq, Drop)]
pub struct Line {
    /// The hart that is to make the event.
    pub hart: Hart,
    /// The event.
    pub choice: Choice,
    /// The thread and the pc that the line says the hart has before the event, where it says so.
    pub check: Option<(Tid, u64)>,
}
