//! Calls that only ask: ioctl(2), fstat(2), uname(2), sched_getscheduler(2), sched_getparam(2), sched_get_priority_max(2), sched_get_priority_min(2),
//! sigpending(2), getppid(2), getuid(2), getgid(2) and prlimit(2).

use crate::calls::bench::{CODE, DATA, DATA_END, Row};
use crate::calls::steps::{Scene, Step};
use crate::calls::words::{
    ABOVE, CLONE, EBADF, EFAULT, EINVAL, ENOTTY, EPERM, ESRCH, FSTAT, GETEGID, GETEUID, GETGID,
    GETPPID, GETUID, IOCTL, PRLIMIT64, RT_SIGPENDING, RT_SIGPROCMASK, SCHED_GET_PRIORITY_MAX,
    SCHED_GET_PRIORITY_MIN, SCHED_GETPARAM, SCHED_GETSCHEDULER, THREAD, TKILL, UNAME,
};

/// The requests TIOCGWINSZ and TCGETS.
const WINDOW: u64 = 0x5413;

const MODES: u64 = 0x5401;

/// ioctl(fd, request, p).
const IOCTLS: [Row; 12] = [
    ([3, WINDOW, DATA, 0, 0], EBADF),
    ([3, MODES, 0, 0, 0], EBADF),
    ([u64::MAX, WINDOW, DATA, 0, 0], EBADF),
    ([0, MODES, 0, 0, 0], ENOTTY),
    ([1, WINDOW + ABOVE + 1, DATA, 0, 0], ENOTTY),
    ([1, WINDOW, 0, 0, 0], EFAULT),
    ([2, WINDOW, CODE, 0, 0], EFAULT),
    ([2, WINDOW, DATA_END - 7, 0, 0], EFAULT),
    ([1, WINDOW, u64::MAX, 0, 0], EFAULT),
    ([0, WINDOW, DATA, 0, 0], 0),
    ([1, WINDOW, DATA_END - 8, 0, 0], 0),
    ([ABOVE + 2, ABOVE + WINDOW, DATA + 9, 0, 0], 0),
];

/// fstat(fd, p).
const STATS: [Row; 8] = [
    ([3, DATA, 0, 0, 0], EBADF),
    ([u64::MAX, 0, 0, 0, 0], EBADF),
    ([0, 0, 0, 0, 0], EFAULT),
    ([1, CODE, 0, 0, 0], EFAULT),
    ([2, DATA_END - 127, 0, 0, 0], EFAULT),
    ([2, u64::MAX - 127, 0, 0, 0], EFAULT),
    ([0, DATA, 0, 0, 0], 0),
    ([ABOVE + 2, DATA_END - 128, 0, 0, 0], 0),
];

/// uname(p).
const NAMES: [Row; 6] = [
    ([0, 0, 0, 0, 0], EFAULT),
    ([CODE, 0, 0, 0, 0], EFAULT),
    ([DATA_END - 389, 0, 0, 0, 0], EFAULT),
    ([u64::MAX - 388, 0, 0, 0, 0], EFAULT),
    ([DATA, 0, 0, 0, 0], 0),
    ([DATA_END - 390, 0, 0, 0, 0], 0),
];

/// The lowest and the highest `int`.
const LOWEST: u64 = 0x8000_0000;

const HIGHEST: u64 = 0x7fff_ffff;

/// sched_getscheduler(tid), where thread 2 lives.
const POLICIES: [Row; 8] = [
    ([LOWEST, 0, 0, 0, 0], EINVAL),
    ([u64::MAX, 0, 0, 0, 0], EINVAL),
    ([3, 0, 0, 0, 0], ESRCH),
    ([HIGHEST, 0, 0, 0, 0], ESRCH),
    ([0, 0, 0, 0, 0], 0),
    ([1, 0, 0, 0, 0], 0),
    ([2, 0, 0, 0, 0], 0),
    ([ABOVE + 2, 0, 0, 0, 0], 0),
];

/// sched_getparam(tid, p), where thread 2 lives.
const PARAMETERS: [Row; 11] = [
    ([3, 0, 0, 0, 0], EINVAL),
    ([LOWEST, DATA_END, 0, 0, 0], EINVAL),
    ([u64::MAX, DATA, 0, 0, 0], EINVAL),
    ([3, DATA_END, 0, 0, 0], ESRCH),
    ([HIGHEST, DATA, 0, 0, 0], ESRCH),
    ([0, DATA_END - 3, 0, 0, 0], EFAULT),
    ([1, CODE, 0, 0, 0], EFAULT),
    ([2, u64::MAX, 0, 0, 0], EFAULT),
    ([0, DATA, 0, 0, 0], 0),
    ([2, DATA_END - 4, 0, 0, 0], 0),
    ([ABOVE + 1, DATA + 9, 0, 0, 0], 0),
];

/// sched_get_priority_max(policy).
const HIGHEST_PRIORITIES: [Row; 10] = [
    ([0, 0, 0, 0, 0], 0),
    ([1, 0, 0, 0, 0], 99),
    ([2, 0, 0, 0, 0], 99),
    ([3, 0, 0, 0, 0], 0),
    ([4, 0, 0, 0, 0], EINVAL),
    ([5, 0, 0, 0, 0], 0),
    ([6, 0, 0, 0, 0], 0),
    ([7, 0, 0, 0, 0], EINVAL),
    ([u64::MAX, 0, 0, 0, 0], EINVAL),
    ([ABOVE + 1, 0, 0, 0, 0], 99),
];

/// sched_get_priority_min(policy).
const LOWEST_PRIORITIES: [Row; 10] = [
    ([0, 0, 0, 0, 0], 0),
    ([1, 0, 0, 0, 0], 1),
    ([2, 0, 0, 0, 0], 1),
    ([3, 0, 0, 0, 0], 0),
    ([4, 0, 0, 0, 0], EINVAL),
    ([5, 0, 0, 0, 0], 0),
    ([6, 0, 0, 0, 0], 0),
    ([7, 0, 0, 0, 0], EINVAL),
    ([u64::MAX, 0, 0, 0, 0], EINVAL),
    ([ABOVE + 2, 0, 0, 0, 0], 1),
];

/// rt_sigpending(set, size).
const PENDING: [Row; 10] = [
    ([DATA_END, 7, 0, 0, 0], EINVAL),
    ([DATA, 0, 0, 0, 0], EINVAL),
    ([DATA, 16, 0, 0, 0], EINVAL),
    ([DATA, ABOVE + 8, 0, 0, 0], EINVAL),
    ([0, 8, 0, 0, 0], EFAULT),
    ([CODE, 8, 0, 0, 0], EFAULT),
    ([DATA_END - 7, 8, 0, 0, 0], EFAULT),
    ([u64::MAX, 8, 0, 0, 0], EFAULT),
    ([DATA, 8, 0, 0, 0], 0),
    ([DATA_END - 8, 8, 0, 0, 0], 0),
];

/// tkill(tid, sig): SIGUSR1, which the thread masks as it does SIGUSR2, and SIGALRM, which it doesn't.
const SENT: [Row; 2] = [([1, 10, 0, 0, 0], 0), ([1, 14, 0, 0, 0], 0)];

const SIGUSR1_ALONE: u64 = 1 << 9;

const BOTH_MASKED: u64 = (1 << 9) + (1 << 11);

/// prlimit64(pid, resource, new, old), where thread 2 lives. Resource 3 is RLIMIT_STACK.
const LIMITS: [Row; 17] = [
    ([3, 16, DATA_END, CODE, 0], EFAULT),
    ([0, 3, DATA_END - 15, 0, 0], EFAULT),
    ([0, 3, u64::MAX, 0, 0], EFAULT),
    ([3, 16, DATA, CODE, 0], ESRCH),
    ([u64::MAX, 3, 0, 0, 0], ESRCH),
    ([0, 16, DATA, CODE, 0], EINVAL),
    ([1, u64::MAX, 0, 0, 0], EINVAL),
    ([0, 3, DATA, CODE, 0], EPERM),
    ([2, 15, CODE, 0, 0], EPERM),
    ([0, 3, 0, CODE, 0], EFAULT),
    ([0, 3, 0, DATA_END - 15, 0], EFAULT),
    ([0, 3, 0, u64::MAX - 7, 0], EFAULT),
    ([0, 3, 0, u64::MAX, 0], EFAULT),
    ([0, 3, 0, 0, 0], 0),
    ([1, 3, 0, DATA + 0x40, 0], 0),
    ([2, 15, 0, DATA_END - 16, 0], 0),
    ([ABOVE, ABOVE + 7, 0, DATA + 0x60, 0], 0),
];

/// Any arguments of a call that takes none.
const ANY: [u64; 5] = [CODE + 1, 2, 3, 4, 5];

/// The second thread of a process.
const CHILD: [Row; 1] = [([THREAD, 0, 0, 0, 0], 2)];

/// Calls that only ask.
pub const SCENES: [Scene; 8] = [
    &[
        Step::Put(DATA + 8, u64::MAX),
        Step::Put(DATA + 128, u64::MAX),
        Step::Answers(FSTAT, &STATS),
        Step::Memory(DATA + 8, 0),
        Step::Memory(DATA + 16, 0x1_0000_2190),
        Step::Memory(DATA + 32, 0x501),
        Step::Memory(DATA + 56, 1024),
        Step::Memory(DATA + 128, u64::MAX),
        Step::Memory(DATA_END - 112, 0x1_0000_2190),
    ],
    &[
        Step::Put(DATA + 8, u64::MAX),
        Step::Put(DATA + 384, u64::MAX),
        Step::Answers(UNAME, &NAMES),
        Step::Memory(DATA, 0x78_756e_694c),
        Step::Memory(DATA + 8, 0),
        Step::Memory(DATA + 130, 0x30_2e33_2e36),
        Step::Memory(DATA + 260, 0x34_3676_6373_6972),
        Step::Memory(DATA + 384, 0xffff_0000_0000_0000),
        Step::Memory(DATA_END - 130, 0x34_3676_6373_6972),
    ],
    &[
        Step::Answers(IOCTL, &IOCTLS),
        Step::Memory(DATA, 0x50_0019),
        Step::Memory(DATA_END - 8, 0x50_0019),
        Step::Memory(DATA + 9, 0x50_0019),
    ],
    &[
        Step::Put(DATA, u64::MAX),
        Step::Put(DATA_END - 8, u64::MAX),
        Step::Answers(CLONE, &CHILD),
        Step::Answers(SCHED_GETSCHEDULER, &POLICIES),
        Step::Answers(SCHED_GETPARAM, &PARAMETERS),
        Step::Memory(DATA, 0xffff_ffff_0000_0000),
        Step::Memory(DATA_END - 8, 0xffff_ffff),
    ],
    &[
        Step::Answers(SCHED_GET_PRIORITY_MAX, &HIGHEST_PRIORITIES),
        Step::Answers(SCHED_GET_PRIORITY_MIN, &LOWEST_PRIORITIES),
    ],
    &[
        Step::Put(DATA, BOTH_MASKED),
        Step::Answers(RT_SIGPROCMASK, &[([2, DATA, 0, 8, 0], 0)]),
        Step::Answers(TKILL, &SENT),
        Step::Answers(RT_SIGPENDING, &PENDING),
        Step::Memory(DATA, SIGUSR1_ALONE),
        Step::Memory(DATA_END - 8, SIGUSR1_ALONE),
        Step::Next(1, Some(14)),
    ],
    &[
        Step::Answers(GETPPID, &[(ANY, 1)]),
        Step::Answers(GETUID, &[(ANY, 0)]),
        Step::Answers(GETEUID, &[(ANY, 0)]),
        Step::Answers(GETGID, &[(ANY, 0)]),
        Step::Answers(GETEGID, &[(ANY, 0)]),
    ],
    &[
        Step::Answers(CLONE, &CHILD),
        Step::Answers(PRLIMIT64, &LIMITS),
        Step::Memory(DATA + 0x40, 262_144),
        Step::Memory(DATA + 0x48, 262_144),
        Step::Memory(DATA_END - 16, u64::MAX),
        Step::Memory(DATA_END - 8, u64::MAX),
        Step::Memory(DATA + 0x60, u64::MAX),
    ],
];
