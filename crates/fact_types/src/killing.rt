//! Why an event ended its process by a signal.

use mach_types::BadWhy;

/// Why an event ends its process by a signal. Where several rules would, it is the first that the kernel asks.
#[derive(Clone, Copy, Drop)]
pub enum KillWhy {
    /// The interruption of its thread found this bad (rseq(2)).
    Bad(BadWhy),
    /// The kernel can't write the words of an area: of a thread that begins to run, or registers it (rseq(2)).
    AreaWords,
    /// The signal that is delivered, or of a fault, has no handler: its action is another one (sigaction(2)).
    NoHandler,
    /// The thread masks the signal of its fault (sigprocmask(2)).
    Masked,
    /// The frame of the handler of the signal that is delivered can't be written (sigaction(2)).
    FrameNotWritable,
    /// The frame at the stack pointer can't be read (sigreturn(2)).
    FrameNotReadable,
    /// A call is made inside a restartable sequence (own; Linux kills so where CONFIG_DEBUG_RSEQ is set).
    CallInside,
}
