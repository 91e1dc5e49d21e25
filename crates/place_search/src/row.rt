//! A place that was visited.

use mach_types::Entry;

/// A place that was visited, but for the first one, as the entries that led to it. Places are numbered in the order in which they were
/// visited, and the first has number 0.
#[derive(Drop)]
pub(crate) struct Row {
    /// The number of the place before the entries.
    pub(crate) parent: u32,
    /// The entries, the newest one first: those of settling steps, and before them that of the event.
    pub(crate) entries: Vec<Entry>,
    /// How many preemptions its log has, where their number is limited; else 0.
    pub(crate) preemptions: u8,
    /// The set of the harts that owe their thread a signal there.
    pub(crate) owed: u8,
}
