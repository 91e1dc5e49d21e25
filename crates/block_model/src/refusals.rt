//! Why an event isn't made.

use mach_types::{End, Why};

/// Why the machine refuses an event. A refused event changes nothing.
#[derive(Clone, Copy, Drop)]
pub enum Refused {
    /// The run has ended in this way.
    Ended(End),
    /// The log has as many entries as the step limit says.
    Full,
    /// This condition of the event is the first that fails.
    NotEnabled(Why),
}
