//! Signals by number, and the words of their calls (Linux, signal(7), sigaction(2), sigprocmask(2)).

/// A word that is no instruction.
pub const SIGILL: u8 = 4;

/// EBREAK.
pub const SIGTRAP: u8 = 5;

/// An address that isn't aligned.
pub const SIGBUS: u8 = 7;

/// The process is ended. It can't be caught, ignored or masked.
pub const SIGKILL: u8 = 9;

/// An address that can't be used so.
pub const SIGSEGV: u8 = 11;

/// A child stopped or ended; ignored by default.
pub const SIGCHLD: u8 = 17;

/// Go on if stopped; ignored by default here, where no process stops.
pub const SIGCONT: u8 = 18;

/// The process is stopped. It can't be caught, ignored or masked.
pub const SIGSTOP: u8 = 19;

/// Urgent data at a socket; ignored by default.
pub const SIGURG: u8 = 23;

/// The window was resized; ignored by default.
pub const SIGWINCH: u8 = 28;

/// The highest number of a signal; the lowest is 1. There are no real-time signals (own).
pub const LAST_SIGNAL: u8 = 31;

/// The handler of an action that is the default.
pub const SIG_DFL: u64 = 0;

/// The handler of an action that ignores the signal.
pub const SIG_IGN: u64 = 1;

/// The handler is given a `siginfo_t` and a `struct ucontext` (sigaction(2)).
pub const SA_SIGINFO: u64 = 4;

/// While a handler runs, its own signal isn't masked.
pub const SA_NODEFER: u64 = 0x4000_0000;

/// When a handler is entered, its action becomes the default.
pub const SA_RESETHAND: u64 = 0x8000_0000;

/// Signals are added to the mask.
pub const SIG_BLOCK: u32 = 0;

/// Signals are taken from the mask.
pub const SIG_UNBLOCK: u32 = 1;

/// The mask is set.
pub const SIG_SETMASK: u32 = 2;

/// The bytes of the frame of a handler without SA_SIGINFO: 34 words of 8 bytes (own).
pub const SIGNAL_FRAME_SIZE: u64 = 272;

/// The bytes of a `siginfo_t`, with which the frame of a handler with SA_SIGINFO begins (Linux).
pub const SIGINFO_SIZE: u64 = 128;

/// The bytes of the frame of a handler with SA_SIGINFO: a `siginfo_t` of 128 bytes, and a `struct ucontext` of 960
/// (Linux, RISC-V).
pub const INFO_FRAME_SIZE: u64 = 1088;

/// A signal that tkill(2) or tgkill(2) posted: -6 in 32 bits (Linux, `si_code`).
pub const SI_TKILL: u32 = 0xFFFF_FFFA;

/// A word that is no instruction (`si_code` of SIGILL).
pub const ILL_ILLOPC: u32 = 1;

/// EBREAK (`si_code` of SIGTRAP).
pub const TRAP_BRKPT: u32 = 1;

/// An address that isn't aligned (`si_code` of SIGBUS).
pub const BUS_ADRALN: u32 = 1;

/// An address that lies on no page (`si_code` of SIGSEGV).
pub const SEGV_MAPERR: u32 = 1;

/// An address on a page that can't be used so (`si_code` of SIGSEGV).
pub const SEGV_ACCERR: u32 = 2;

/// There is no other stack for handlers (sigaltstack(2), `ss_flags`).
pub const SS_DISABLE: u64 = 2;
