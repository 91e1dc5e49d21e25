//! futex(2), sched_setaffinity(2), sched_getaffinity(2), getcpu(2), clone(2), numbers that a thread is
//! told, and those of no call.

use crate::calls::bench::{CODE, DATA, DATA_END, Row, USER_END};
use crate::calls::steps::{Scene, Step};
use crate::calls::words::{
    ABOVE, CLONE, EAGAIN, EFAULT, EINVAL, ENOSYS, EPERM, ESRCH, FUTEX, GETCPU, GETPID, GETTID,
    SCHED_GETAFFINITY, SCHED_SETAFFINITY, SET_TID_ADDRESS, THREAD,
};

/// futex(p, op, val, timeout): the word at [`DATA`] is 7.
const FUTEXES: [Row; 17] = [
    ([DATA + 1, 2, 0, 0, 0], ENOSYS),
    ([DATA, 130, 0, 0, 0], ENOSYS),
    ([DATA, 256, 7, 0, 0], ENOSYS),
    ([USER_END + 2, 0, 0, 1, 0], EINVAL),
    ([USER_END + 2, 1, 1, 0, 0], EINVAL),
    ([USER_END, 0, 0, 1, 0], EFAULT),
    ([USER_END, 129, 1, 0, 0], EFAULT),
    ([DATA_END, 0, 0, 1, 0], EINVAL),
    ([DATA, 0, 8, ABOVE, 0], EINVAL),
    ([DATA_END, 0, 7, 0, 0], EFAULT),
    ([0, 128, 0, 0, 0], EFAULT),
    ([DATA, 0, 8, 0, 0], EAGAIN),
    ([DATA + 4, 128, 7, 0, 0], EAGAIN),
    ([DATA, 1, 1, 1, 0], 0),
    ([DATA_END, 129, 1, 0, 0], 0),
    ([USER_END - 4, 1, 1, 0, 0], 0),
    ([DATA, ABOVE + 1, 1, 0, 0], 0),
];

/// Sets of harts in memory: both, hart 1 alone, none, and those that the machine lacks.
const BOTH: u64 = DATA;

const HART_1: u64 = DATA + 8;

const NO_HART: u64 = DATA + 16;

const LACKING: u64 = DATA + 24;

/// Both harts, in the last byte that can be read.
const LAST: u64 = DATA_END - 1;

/// sched_setaffinity(tid, len, p), of thread 1 on hart 0, beside which thread 2 lives.
const SETAFFINITIES: [Row; 16] = [
    ([3, 8, 0, 0, 0], EFAULT),
    ([2, 8, DATA_END - 7, 0, 0], EFAULT),
    ([0, 2, LAST, 0, 0], EFAULT),
    ([0, 8, u64::MAX, 0, 0], EFAULT),
    ([3, 8, NO_HART, 0, 0], ESRCH),
    ([u64::MAX, 8, BOTH, 0, 0], ESRCH),
    ([2, 8, NO_HART, 0, 0], EPERM),
    ([2, 8, BOTH, 0, 0], EPERM),
    ([0, 8, NO_HART, 0, 0], EINVAL),
    ([1, 8, LACKING, 0, 0], EINVAL),
    ([0, 0, 0, 0, 0], EINVAL),
    ([0, 8, BOTH, 0, 0], 0),
    ([1, 1, LAST, 0, 0], 0),
    ([0, 100, DATA_END - 8, 0, 0], EINVAL),
    ([1, u64::MAX, BOTH, 0, 0], 0),
    ([ABOVE, ABOVE + 8, BOTH, 0, 0], 0),
];

/// sched_getaffinity(tid, len, p), where thread 2 lives.
const GETAFFINITIES: [Row; 14] = [
    ([3, 0, 0, 0, 0], EINVAL),
    ([0, 7, DATA, 0, 0], EINVAL),
    ([0, 12, DATA, 0, 0], EINVAL),
    ([0, ABOVE, DATA, 0, 0], EINVAL),
    ([3, 8, 0, 0, 0], ESRCH),
    ([u64::MAX, 16, DATA, 0, 0], ESRCH),
    ([0, 8, 0, 0, 0], EFAULT),
    ([2, 8, CODE, 0, 0], EFAULT),
    ([1, 8, DATA_END - 7, 0, 0], EFAULT),
    ([0, 8, u64::MAX, 0, 0], EFAULT),
    ([0, 8, DATA, 0, 0], 8),
    ([1, 16, DATA_END - 8, 0, 0], 8),
    ([2, ABOVE + 8, DATA + 8, 0, 0], 8),
    ([ABOVE, 64, DATA + 16, 0, 0], 8),
];

/// getcpu(cpu, node).
const GETCPUS: [Row; 8] = [
    ([8, 0, 0, 0, 0], EFAULT),
    ([0, CODE, 0, 0, 0], EFAULT),
    ([DATA, CODE, 0, 0, 0], EFAULT),
    ([DATA_END - 2, DATA, 0, 0, 0], EFAULT),
    ([DATA, u64::MAX, 0, 0, 0], EFAULT),
    ([0, 0, 0, 0, 0], 0),
    ([DATA, 0, 0, 0, 0], 0),
    ([0, DATA + 5, 0, 0, 0], 0),
];

const PARENT_SETTID: u64 = 0x10_0000;

const CHILD_CLEARTID: u64 = 0x20_0000;

const CHILD_SETTID: u64 = 0x100_0000;

const BOTH_SETTIDS: u64 = PARENT_SETTID + CHILD_SETTID;

/// CLONE_SYSVSEM, CLONE_SETTLS and CLONE_DETACHED.
const MORE: u64 = 0x4c_0000;

/// clone(flags, stack, ptid, tls, ctid), of a process of one thread.
const CLONES: [Row; 19] = [
    ([0, 0, 0, 0, 0], EINVAL),
    ([THREAD - 0x100, 0, 0, 0, 0], EINVAL),
    ([THREAD - 0x200, 0, 0, 0, 0], EINVAL),
    ([THREAD - 0x400, 0, 0, 0, 0], EINVAL),
    ([THREAD - 0x800, 0, 0, 0, 0], EINVAL),
    ([THREAD - 0x1_0000, 0, 0, 0, 0], EINVAL),
    ([THREAD + 17, 0, 0, 0, 0], EINVAL),
    ([THREAD + 0x4000, 0, 0, 0, 0], EINVAL),
    ([THREAD + ABOVE, 0, 0, 0, 0], EINVAL),
    ([THREAD + PARENT_SETTID + 1, 0, 0, 0, 0], EINVAL),
    ([THREAD + PARENT_SETTID, 0, 0, 0, DATA], EFAULT),
    ([THREAD + PARENT_SETTID, 0, CODE, 0, 0], EFAULT),
    ([THREAD + CHILD_SETTID, 0, DATA, 0, 0], EFAULT),
    ([THREAD + BOTH_SETTIDS, 0, DATA, 0, DATA_END - 3], EFAULT),
    ([THREAD, 0, 0, 0, 0], 2),
    ([THREAD + CHILD_CLEARTID, 0, 0, 0, CODE], 3),
    ([THREAD + MORE, DATA, 0, u64::MAX, 0], 4),
    ([THREAD + PARENT_SETTID, 0, DATA, 0, 0], 5),
    ([THREAD + CHILD_SETTID, 0, 0, 0, DATA_END - 4], 6),
];

/// The one child of a process.
const CHILD: [Row; 1] = [([THREAD, 0, 0, 0, 0], 2)];

/// Any arguments of a call that takes none, or an address that isn't used yet.
const ANY: [u64; 5] = [CODE + 1, 2, 3, 4, 5];

/// The arguments of a call that isn't there.
const NO_CALL: [Row; 1] = [([1, DATA, 1, 0, 0], ENOSYS)];

/// Calls of threads.
pub const SCENES: [Scene; 7] = [
    &[Step::Put(DATA, 7), Step::Answers(FUTEX, &FUTEXES)],
    &[
        Step::Put(BOTH, 3),
        Step::Put(HART_1, 2),
        Step::Put(LACKING, 0xfffc),
        Step::Put(DATA_END - 8, 0x3 << 56),
        Step::Answers(CLONE, &CHILD),
        Step::Answers(SCHED_SETAFFINITY, &SETAFFINITIES),
    ],
    &[
        Step::Put(DATA + 0x40, 1),
        Step::Put(DATA, u64::MAX),
        Step::Answers(CLONE, &CHILD),
        Step::Answers(SCHED_SETAFFINITY, &[([0, 8, DATA + 0x40, 0, 0], 0)]),
        Step::Answers(SCHED_GETAFFINITY, &GETAFFINITIES),
        Step::Memory(DATA, 1),
        Step::Memory(DATA + 8, 3),
        Step::Memory(DATA + 16, 1),
        Step::Memory(DATA_END - 8, 1),
    ],
    &[
        Step::Put(DATA, u64::MAX),
        Step::Answers(GETCPU, &GETCPUS),
        Step::Memory(DATA, 0xff_0000_0000),
    ],
    &[
        Step::Answers(CLONE, &CLONES),
        Step::Memory(DATA, 5),
        Step::Memory(DATA_END - 8, 6 << 32),
    ],
    &[
        Step::Answers(GETPID, &[(ANY, 1)]),
        Step::Answers(GETTID, &[(ANY, 1)]),
        Step::Answers(SET_TID_ADDRESS, &[(ANY, 1)]),
    ],
    &[
        Step::Answers(0, &NO_CALL),
        Step::Answers(1000, &NO_CALL),
        Step::Answers(ABOVE + 64, &NO_CALL),
        Step::Answers(ABOVE + 172, &NO_CALL),
        Step::Answers(u64::MAX, &NO_CALL),
    ],
];
