//! The limits of a run, and how it ends.

/// The limits of a run (own).
#[derive(Clone, Copy, Drop)]
pub struct Limits {
    /// How many harts there are, 1 to 8.
    pub harts: u8,
    /// How many frames of 4,096 bytes there are, 128 to 16,384.
    pub frames: u32,
    /// How many events the log can hold, 1 to 1,000,000.
    pub steps: u32,
}

/// How a run ends.
#[derive(Clone, Copy, PartialEq, Eq, Drop)]
pub enum End {
    /// The process exited with this status.
    Exit(u8),
    /// This signal ended the process.
    Killed(u8),
    /// A thread is live, and none runs or is ready.
    Stuck,
    /// The log is full.
    Limit,
    /// Nothing ended the run: the script was over.
    Unended,
}
