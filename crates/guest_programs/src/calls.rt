//! The calls of the kernel that guests make, by number, and what they ask of them.

pub(crate) const WRITE: i64 = 64;

pub(crate) const EXIT: i64 = 93;

pub(crate) const EXIT_GROUP: i64 = 94;

pub(crate) const FUTEX: i64 = 98;

pub(crate) const SCHED_SETAFFINITY: i64 = 122;

pub(crate) const TGKILL: i64 = 131;

pub(crate) const RT_SIGACTION: i64 = 134;

pub(crate) const CLONE: i64 = 220;

pub(crate) const MEMBARRIER: i64 = 283;

pub(crate) const RSEQ: i64 = 293;

// Commands of membarrier(2).
pub(crate) const PRIVATE_EXPEDITED: i64 = 8;

pub(crate) const REGISTER_PRIVATE_EXPEDITED: i64 = 16;

/// The signal that is sent.
pub(crate) const SIGUSR1: i64 = 10;
