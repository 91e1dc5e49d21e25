//! sigaction(2), sigprocmask(2), tkill(2) and tgkill(2).

use crate::calls::bench::{CODE, DATA, DATA_END, Row};
use crate::calls::steps::{Scene, Step};
use crate::calls::words::{
    ABOVE, ALL, CLONE, EFAULT, EINVAL, ESRCH, RT_SIGACTION, RT_SIGPROCMASK, TGKILL, THREAD, TKILL,
};

/// The lowest `int`.
const LOWEST: u64 = 0x8000_0000;

/// Signals.
const SIGKILL: u64 = 9;

const SIGUSR1: u64 = 10;

/// rt_sigaction(sig, act, old, size): each action is the default.
const REFUSED_ACTIONS: [Row; 22] = [
    ([10, DATA, 0, 7, 0], EINVAL),
    ([10, DATA, 0, 128, 0], EINVAL),
    ([10, DATA, 0, ABOVE + 8, 0], EINVAL),
    ([99, DATA_END, CODE, 0, 0], EINVAL),
    ([10, DATA_END, CODE, 16, 0], EINVAL),
    ([10, DATA_END, 0, 8, 0], EFAULT),
    ([10, DATA_END - 23, 0, 8, 0], EFAULT),
    ([10, 8, 0, 8, 0], EFAULT),
    ([10, u64::MAX - 22, 0, 8, 0], EFAULT),
    ([10, u64::MAX, 0, 8, 0], EFAULT),
    ([0, DATA_END, CODE, 8, 0], EFAULT),
    ([0, DATA, CODE, 8, 0], EINVAL),
    ([0, 0, 0, 8, 0], EINVAL),
    ([32, 0, DATA_END, 8, 0], EINVAL),
    ([256 + 10, DATA, 0, 8, 0], EINVAL),
    ([u64::MAX, DATA, 0, 8, 0], EINVAL),
    ([9, DATA, CODE, 8, 0], EINVAL),
    ([19, DATA, 0, 8, 0], EINVAL),
    ([10, DATA, CODE, 8, 0], EFAULT),
    ([10, DATA, DATA_END - 23, 8, 0], EFAULT),
    ([10, DATA, u64::MAX - 15, 8, 0], EFAULT),
    ([10, DATA, u64::MAX - 7, 8, 0], EFAULT),
];

/// The same: none of these sets an action.
const READ_ACTIONS: [Row; 5] = [
    ([10, 0, 0, 8, 0], 0),
    ([ABOVE + 1, 0, DATA_END - 24, 8, 0], 0),
    ([9, 0, DATA + 0x40, 8, 0], 0),
    ([19, 0, DATA + 0x40, 8, 0], 0),
    ([31, 0, DATA + 0x40, 8, 0], 0),
];

/// rt_sigprocmask(how, set, old, size).
const REFUSED_MASKS: [Row; 15] = [
    ([2, DATA, 0, 7, 0], EINVAL),
    ([2, DATA, 0, 128, 0], EINVAL),
    ([2, DATA, 0, ABOVE + 8, 0], EINVAL),
    ([3, DATA_END, CODE, 4, 0], EINVAL),
    ([2, DATA_END, CODE, 0, 0], EINVAL),
    ([2, DATA_END, 0, 8, 0], EFAULT),
    ([2, DATA_END - 7, 0, 8, 0], EFAULT),
    ([3, DATA_END, CODE, 8, 0], EFAULT),
    ([3, DATA, 0, 8, 0], EINVAL),
    ([u64::MAX, DATA, 0, 8, 0], EINVAL),
    ([3, DATA, CODE, 8, 0], EINVAL),
    ([2, DATA, CODE, 8, 0], EFAULT),
    ([0, DATA, DATA_END - 7, 8, 0], EFAULT),
    ([1, DATA, u64::MAX, 8, 0], EFAULT),
    ([3, 0, CODE, 8, 0], EFAULT),
];

/// tkill(tid, sig), where threads 1 and 2 live.
const TKILLS: [Row; 22] = [
    ([0, SIGUSR1, 0, 0, 0], EINVAL),
    ([u64::MAX, SIGUSR1, 0, 0, 0], EINVAL),
    ([LOWEST, SIGUSR1, 0, 0, 0], EINVAL),
    ([ABOVE, 0, 0, 0, 0], EINVAL),
    ([0, 99, 0, 0, 0], EINVAL),
    ([3, SIGUSR1, 0, 0, 0], ESRCH),
    ([3, 0, 0, 0, 0], ESRCH),
    ([4, 99, 0, 0, 0], ESRCH),
    ([LOWEST - 1, SIGUSR1, 0, 0, 0], ESRCH),
    ([2, 32, 0, 0, 0], EINVAL),
    ([2, 256 + SIGUSR1, 0, 0, 0], EINVAL),
    ([2, u64::MAX, 0, 0, 0], EINVAL),
    ([2, 19, 0, 0, 0], EINVAL),
    ([2, 20, 0, 0, 0], EINVAL),
    ([2, 21, 0, 0, 0], EINVAL),
    ([2, 22, 0, 0, 0], EINVAL),
    ([2, 0, 0, 0, 0], 0),
    ([2, ABOVE, 0, 0, 0], 0),
    ([2, 18, 0, 0, 0], 0),
    ([2, 23, 0, 0, 0], 0),
    ([2, 31, 0, 0, 0], 0),
    ([ABOVE + 2, ABOVE + 24, 0, 0, 0], 0),
];

/// tgkill(pid, tid, sig), of the same threads.
const TGKILLS: [Row; 19] = [
    ([0, 2, SIGUSR1, 0, 0], EINVAL),
    ([u64::MAX, 2, SIGUSR1, 0, 0], EINVAL),
    ([LOWEST, 2, 0, 0, 0], EINVAL),
    ([1, 0, SIGUSR1, 0, 0], EINVAL),
    ([1, u64::MAX, SIGUSR1, 0, 0], EINVAL),
    ([2, 0, 99, 0, 0], EINVAL),
    ([0, 3, 99, 0, 0], EINVAL),
    ([2, 2, SIGUSR1, 0, 0], ESRCH),
    ([2, 2, 99, 0, 0], ESRCH),
    ([2, 1, 0, 0, 0], ESRCH),
    ([1, 3, SIGUSR1, 0, 0], ESRCH),
    ([1, 3, 99, 0, 0], ESRCH),
    ([1, 2, 32, 0, 0], EINVAL),
    ([1, 2, 19, 0, 0], EINVAL),
    ([1, 2, 22, 0, 0], EINVAL),
    ([1, 2, 0, 0, 0], 0),
    ([1, 2, 31, 0, 0], 0),
    ([ABOVE + 1, ABOVE + 2, ABOVE + 24, 0, 0], 0),
    ([1, 2, SIGKILL, 0, 0], 0),
];

/// The one child of a process.
const CHILD: [Row; 1] = [([THREAD, 0, 0, 0, 0], 2)];

/// Calls of signals.
pub const SCENES: [Scene; 4] = [
    &[
        Step::Put(DATA, CODE),
        Step::Put(DATA + 16, 7),
        Step::Put(DATA + 0x40, 9),
        Step::Put(DATA + 0x48, 9),
        Step::Put(DATA + 0x50, 9),
        Step::Answers(RT_SIGACTION, &REFUSED_ACTIONS),
        Step::Answers(RT_SIGACTION, &READ_ACTIONS),
        Step::Memory(DATA + 0x40, 0),
        Step::Memory(DATA + 0x48, 0),
        Step::Memory(DATA + 0x50, 0),
    ],
    &[
        Step::Put(DATA, ALL),
        Step::Put(DATA + 8, 1),
        Step::Answers(RT_SIGPROCMASK, &REFUSED_MASKS),
        Step::Answers(RT_SIGPROCMASK, &[([0, 0, DATA + 8, 8, 0], 0)]),
        Step::Memory(DATA + 8, 0),
    ],
    &[Step::Answers(CLONE, &CHILD), Step::Answers(TKILL, &TKILLS)],
    &[
        Step::Answers(CLONE, &CHILD),
        Step::Answers(TGKILL, &TGKILLS),
    ],
];
