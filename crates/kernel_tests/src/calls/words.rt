//! The numbers of the calls (Linux for RISC-V), of errors (errno(3)), and bits that don't count.

pub const IOCTL: u64 = 29;

pub const WRITE: u64 = 64;

pub const WRITEV: u64 = 66;

pub const FSTAT: u64 = 80;

pub const EXIT: u64 = 93;

pub const EXIT_GROUP: u64 = 94;

pub const SET_TID_ADDRESS: u64 = 96;

pub const FUTEX: u64 = 98;

pub const SCHED_GETSCHEDULER: u64 = 120;

pub const SCHED_GETPARAM: u64 = 121;

pub const SCHED_SETAFFINITY: u64 = 122;

pub const SCHED_GETAFFINITY: u64 = 123;

pub const SCHED_YIELD: u64 = 124;

pub const SCHED_GET_PRIORITY_MAX: u64 = 125;

pub const SCHED_GET_PRIORITY_MIN: u64 = 126;

pub const TKILL: u64 = 130;

pub const TGKILL: u64 = 131;

pub const RT_SIGACTION: u64 = 134;

pub const RT_SIGPROCMASK: u64 = 135;

pub const RT_SIGPENDING: u64 = 136;

pub const RT_SIGRETURN: u64 = 139;

pub const UNAME: u64 = 160;

pub const GETCPU: u64 = 168;

pub const GETPID: u64 = 172;

pub const GETPPID: u64 = 173;

pub const GETUID: u64 = 174;

pub const GETEUID: u64 = 175;

pub const GETGID: u64 = 176;

pub const GETEGID: u64 = 177;

pub const GETTID: u64 = 178;

pub const BRK: u64 = 214;

pub const MUNMAP: u64 = 215;

pub const CLONE: u64 = 220;

pub const MMAP: u64 = 222;

pub const MPROTECT: u64 = 226;

pub const MADVISE: u64 = 233;

pub const PRLIMIT64: u64 = 261;

pub const GETRANDOM: u64 = 278;

pub const MEMBARRIER: u64 = 283;

pub const RSEQ: u64 = 293;

/// The negatives of error numbers.
pub const EPERM: i64 = -1;

pub const ESRCH: i64 = -3;

pub const EINTR: i64 = -4;

pub const EBADF: i64 = -9;

pub const EAGAIN: i64 = -11;

pub const ENOMEM: i64 = -12;

pub const EACCES: i64 = -13;

pub const EFAULT: i64 = -14;

pub const EBUSY: i64 = -16;

pub const EINVAL: i64 = -22;

pub const ENOTTY: i64 = -25;

pub const ENOSPC: i64 = -28;

pub const ENOSYS: i64 = -38;

/// A bit above those of an `int`, in which it doesn't count.
pub const ABOVE: u64 = 0x1_0000_0000;

/// What clone must be given: CLONE_VM, CLONE_FS, CLONE_FILES, CLONE_SIGHAND and CLONE_THREAD.
pub const THREAD: u64 = 0x1_0f00;

/// The bytes of a page.
pub const PAGE: u64 = 0x1000;

/// Where the first mapping lies, and the same as an answer.
pub const MAPPED: u64 = 0x20_0000_0000;

pub const AT_MAPPED: i64 = 0x20_0000_0000;

/// The break at the start, as an answer.
pub const BREAK: i64 = 0x22000;

/// MAP_PRIVATE and MAP_ANONYMOUS.
pub const FLAGS: u64 = 0x22;

/// The signature that librseq has on RISC-V.
pub const SIGNATURE: u64 = 0xf140_1073;

/// Each signal from 1 to 64, and those of them that can be masked: not SIGKILL and not SIGSTOP.
pub const ALL: u64 = u64::MAX;

pub const MASKABLE: u64 = u64::MAX - (1 << 8) - (1 << 18);
