//! How a restartable sequence ended.

/// How a restartable sequence of a log ended, the first of these that holds.
#[derive(Clone, Copy, PartialEq, Eq, Drop)]
pub enum SeqEnd {
    /// The process ended in it, or by its interruption.
    Dead,
    /// It was interrupted inside, and its thread goes on at this address, its abort handler.
    Cut(u64),
    /// Its thread left it by its own instruction.
    Left,
    /// What its area names changed, so that its thread is no longer inside.
    Dropped,
    /// None of these so far.
    Unended,
}
