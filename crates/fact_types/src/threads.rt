//! What became of threads.

/// What became of a thread.
#[derive(Clone, Copy, Drop)]
pub enum ThreadChange {
    /// It was created.
    Created,
    /// It ended.
    Ended,
    /// It began to run, on the hart of the event.
    Runs,
    /// It left its hart, and is ready.
    MadeReady,
    /// It waits at this address (futex(2)): it left its hart, or waited at another one.
    Sleeps(u64),
    /// It waits no longer, and is ready.
    Woken,
}
