//! Words of signals: what is done when one comes, and what a thread has of them.

/// What is done when a signal comes (sigaction(2)).
#[derive(Clone, Copy, Drop)]
pub struct Action {
    /// The address of the handler, or 0 for the default, or 1 to ignore the signal.
    pub at: u64,
    /// The flags. SA_SIGINFO, SA_NODEFER and SA_RESETHAND count; others are kept, and change nothing (own).
    pub flags: u64,
    /// The signals that are masked while the handler runs: bit s - 1 is signal s.
    pub mask: u64,
}

impl Default for Action {
    ghost use Rattle.std.specs.Prelude.{◌≡◌};
    ghost use Rattle.mach_types.specs.Kernel.Signals.{default_action};

    /// The default: no handler, no flags, nothing masked.
    fn default() -> Action
        ensures { result ≡ default_action }
    {
        Action {
            at: 0,
            flags: 0,
            mask: 0,
        }
    }
}

/// What a fault of a thread says of itself (sigaction(2), `siginfo_t`).
#[derive(Clone, Copy, PartialEq, Eq, Drop)]
pub struct Fault {
    /// Its signal.
    pub signal: u8,
    /// Which fault it is: `si_code`.
    pub code: u32,
    /// The address that it is about: `si_addr`.
    pub address: u64,
}

/// What a live thread has of signals. In both sets bit s - 1 is signal s.
#[derive(Clone, Copy, Drop)]
pub struct ThreadSignals {
    /// The thread's number.
    pub tid: u32,
    /// The signals that don't come to the thread now (sigprocmask(2)).
    pub mask: u64,
    /// The signals that were posted to the thread and haven't come to it (signal(7)).
    pub pending: u64,
    /// What the thread's newest fault says, as long as its signal is pending.
    pub fault: Option<Fault>,
}

impl Default for ThreadSignals {
    /// Nobody's: thread 0, nothing masked, nothing pending.
    fn default() -> ThreadSignals {
        ThreadSignals {
            tid: 0,
            mask: 0,
            pending: 0,
            fault: None,
        }
    }
}
