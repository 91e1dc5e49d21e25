//! Words of membarrier(2) (uapi linux/membarrier.h).

/// A command of membarrier(2) that is offered here: all of `enum membarrier_cmd` but those on the
/// synchronization of cores (own).
#[derive(Clone, Copy, PartialEq, Eq, Drop)]
pub enum BarrierCommand {
    /// 0: which commands are offered.
    Query,
    /// 1: a barrier on all processors that run a thread.
    Global,
    /// 2: a barrier on the processors that run a thread of a process that is registered for it.
    GlobalExpedited,
    /// 4: registers the process for `GlobalExpedited`.
    RegisterGlobalExpedited,
    /// 8: a barrier on the processors that run a thread of this process, which must be registered for it.
    PrivateExpedited,
    /// 16: registers the process for `PrivateExpedited`.
    RegisterPrivateExpedited,
    /// 128: the same as 8, and restartable sequences are begun anew there.
    PrivateExpeditedRseq,
    /// 256: registers the process for `PrivateExpeditedRseq`.
    RegisterPrivateExpeditedRseq,
    /// 512: for what the process is registered.
    GetRegistrations,
}

/// The flag by which `PrivateExpeditedRseq` is about one processor alone.
pub const MEMBARRIER_CMD_FLAG_CPU: u32 = 1;

/// For which barriers a process is registered.
#[derive(Clone, Copy, PartialEq, Eq, Drop)]
pub struct Registered {
    /// For `GlobalExpedited`.
    pub global: bool,
    /// For `PrivateExpedited`.
    pub private: bool,
    /// For `PrivateExpeditedRseq`.
    pub rseq: bool,
}

/// What a call of membarrier(2) comes to.
#[derive(Clone, Copy, PartialEq, Eq, Drop)]
pub enum Answer {
    /// The call is over with this value: 0 or more, or an error number of errno(3) with a minus sign.
    Value(i64),
    /// A barrier begins.
    Begin {
        /// The harts that have to acknowledge it, one bit each; at least one.
        targets: u8,
        /// Whether restartable sequences there are begun anew.
        restart: bool,
    },
}
