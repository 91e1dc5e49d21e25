//! brk(2), mmap(2), munmap(2), mprotect(2) and madvise(2).

use crate::calls::bench::{CODE, DATA, DATA_END, Row, USER_END};
use crate::calls::steps::{Scene, Step};
use crate::calls::words::{
    ABOVE, AT_MAPPED, BREAK, BRK, EACCES, EINVAL, ENOMEM, FLAGS, MADVISE, MAPPED, MMAP, MPROTECT,
    MUNMAP, PAGE,
};

/// MAP_NORESERVE, MAP_POPULATE and MAP_STACK.
const IGNORED: u64 = 0x2_c000;

/// mmap(p, len, prot, flags, fd): MAP_SHARED is 1 and MAP_FIXED is 16.
const MMAPS: [Row; 18] = [
    ([0, PAGE, 3, 0, 0], EINVAL),
    ([0, PAGE, 3, 0x02, 0], EINVAL),
    ([0, PAGE, 4, 0x20, 0], EINVAL),
    ([0, PAGE, 4, 0x21, 0], EINVAL),
    ([0, u64::MAX, 3, FLAGS + 0x10, 0], EINVAL),
    ([0, PAGE, 3, FLAGS + ABOVE, 0], EINVAL),
    ([0, 0, 3, FLAGS, 0], EINVAL),
    ([0, 0, 4, FLAGS, 0], EINVAL),
    ([0, PAGE, 8, FLAGS, 0], EINVAL),
    ([0, u64::MAX, 12, FLAGS, 0], EINVAL),
    ([0, PAGE, 256, FLAGS, 0], EINVAL),
    ([0, PAGE, ABOVE + 3, FLAGS, 0], EINVAL),
    ([0, PAGE, 4, FLAGS, 0], EACCES),
    ([0, u64::MAX, 7, FLAGS, 0], EACCES),
    ([0, u64::MAX, 3, FLAGS, 0], ENOMEM),
    ([0, 60 * PAGE + 1, 3, FLAGS, 0], ENOMEM),
    ([DATA, 59 * PAGE + 1, 3, FLAGS + IGNORED, 7], AT_MAPPED),
    ([0, 1, 3, FLAGS, 0], ENOMEM),
];

/// munmap(p, len).
const MUNMAPS: [Row; 12] = [
    ([DATA + 1, 0, 0, 0, 0], EINVAL),
    ([CODE + 1, 1, 0, 0, 0], EINVAL),
    ([DATA, 0, 0, 0, 0], EINVAL),
    ([CODE, 0, 0, 0, 0], EINVAL),
    ([DATA, USER_END - DATA + 1, 0, 0, 0], EINVAL),
    ([0, u64::MAX, 0, 0, 0], EINVAL),
    ([CODE - PAGE, 2 * PAGE, 0, 0, 0], EACCES),
    ([0, USER_END, 0, 0, 0], EACCES),
    ([DATA_END, PAGE, 0, 0, 0], 0),
    ([DATA + PAGE, 1, 0, 0, 0], 0),
    ([DATA, 2 * PAGE, 0, 0, 0], 0),
    ([DATA, 2 * PAGE, 0, 0, 0], 0),
];

/// mprotect(p, len, prot).
const MPROTECTS: [Row; 16] = [
    ([DATA + 1, 0, 1, 0, 0], EINVAL),
    ([DATA, 0, 8, 0, 0], 0),
    ([DATA, 0, u64::MAX, 0, 0], 0),
    ([DATA, PAGE, 8, 0, 0], EINVAL),
    ([DATA, PAGE, 256, 0, 0], EINVAL),
    ([DATA, u64::MAX, 12, 0, 0], EINVAL),
    ([DATA, PAGE, ABOVE + 1, 0, 0], EINVAL),
    ([CODE, PAGE, 5, 0, 0], EACCES),
    ([DATA, u64::MAX, 5, 0, 0], EACCES),
    ([DATA, u64::MAX, 1, 0, 0], ENOMEM),
    ([DATA, 2 * PAGE + 1, 1, 0, 0], ENOMEM),
    ([CODE - PAGE, 2 * PAGE, 1, 0, 0], ENOMEM),
    ([CODE, PAGE, 1, 0, 0], EACCES),
    ([DATA, PAGE, 1, 0, 0], 0),
    ([DATA, 2 * PAGE, 0, 0, 0], 0),
    ([DATA, 2 * PAGE, 2, 0, 0], 0),
];

/// The page at which addresses end.
const LAST: u64 = u64::MAX - PAGE + 1;

/// Advice: MADV_WILLNEED, MADV_DONTNEED, MADV_FREE, and MADV_REMOVE, which isn't there.
const WILLNEED: u64 = 3;

const DONTNEED: u64 = 4;

const FREE: u64 = 8;

const REMOVE: u64 = 9;

/// madvise(p, len, advice), where two pages are mapped.
const ADVICE: [Row; 24] = [
    ([DATA + 1, PAGE, REMOVE, 0, 0], EINVAL),
    ([DATA, PAGE, 5, 0, 0], EINVAL),
    ([DATA, PAGE, 12, 0, 0], EINVAL),
    ([DATA, PAGE, 22, 0, 0], EINVAL),
    ([DATA, PAGE, u64::MAX, 0, 0], EINVAL),
    ([DATA + 1, 0, DONTNEED, 0, 0], EINVAL),
    ([DATA, u64::MAX, WILLNEED, 0, 0], EINVAL),
    ([LAST, 1, WILLNEED, 0, 0], EINVAL),
    ([LAST, 0, DONTNEED, 0, 0], 0),
    ([LAST - PAGE, 1, WILLNEED, 0, 0], ENOMEM),
    ([DATA, USER_END - DATA + 1, DONTNEED, 0, 0], ENOMEM),
    ([DATA, 2 * PAGE + 1, WILLNEED, 0, 0], ENOMEM),
    ([MAPPED + 2 * PAGE, 1, DONTNEED, 0, 0], ENOMEM),
    ([CODE - PAGE, 2 * PAGE, DONTNEED, 0, 0], ENOMEM),
    ([DATA, PAGE, DONTNEED, 0, 0], EINVAL),
    ([CODE, 1, DONTNEED, 0, 0], EINVAL),
    ([DATA, 2 * PAGE, WILLNEED, 0, 0], 0),
    ([CODE, PAGE, 0, 0, 0], 0),
    ([DATA, 1, 1, 0, 0], 0),
    ([DATA, 1, 2, 0, 0], 0),
    ([MAPPED, 2 * PAGE, FREE, 0, 0], 0),
    ([MAPPED, 2 * PAGE, 10, 0, 0], 0),
    ([MAPPED, 2 * PAGE, 21, 0, 0], 0),
    ([MAPPED, 1, ABOVE + DONTNEED, 0, 0], 0),
];

/// brk(p), which answers the break whether it moved or not.
const BRKS: [Row; 11] = [
    ([0, 0, 0, 0, 0], BREAK),
    ([DATA_END - 1, 0, 0, 0, 0], BREAK),
    ([MAPPED + 1, 0, 0, 0, 0], BREAK),
    ([u64::MAX, 0, 0, 0, 0], BREAK),
    ([DATA_END + 60 * PAGE + 1, 0, 0, 0, 0], BREAK),
    ([DATA_END + 1, 0, 0, 0, 0], BREAK + 1),
    ([DATA_END + 60 * PAGE + 1, 0, 0, 0, 0], BREAK + 1),
    ([DATA_END + 60 * PAGE, 0, 0, 0, 0], BREAK + 0x3c000),
    ([DATA_END - 1, 0, 0, 0, 0], BREAK + 0x3c000),
    ([DATA_END + PAGE, 0, 0, 0, 0], BREAK + 0x1000),
    ([DATA_END, 0, 0, 0, 0], BREAK),
];

/// Calls that change pages, over the 60 frames that are free at the start; in the last scene they run out
/// and come back.
pub const SCENES: [Scene; 6] = [
    &[Step::Answers(MMAP, &MMAPS)],
    &[Step::Answers(MUNMAP, &MUNMAPS)],
    &[
        Step::Put(DATA, 7),
        Step::Answers(MPROTECT, &MPROTECTS),
        Step::Memory(DATA, 7),
    ],
    &[Step::Answers(BRK, &BRKS)],
    &[
        Step::Answers(MMAP, &[([0, 2 * PAGE, 3, FLAGS, 0], AT_MAPPED)]),
        Step::PutAll(&[
            (DATA, 7),
            (MAPPED, 8),
            (MAPPED + PAGE - 8, 9),
            (MAPPED + PAGE, 10),
        ]),
        Step::Answers(MADVISE, &ADVICE),
        Step::Memory(DATA, 7),
        Step::Memory(MAPPED, 0),
        Step::Memory(MAPPED + PAGE - 8, 0),
        Step::Memory(MAPPED + PAGE, 10),
        Step::Answers(BRK, &[([DATA_END + PAGE, 0, 0, 0, 0], BREAK + 0x1000)]),
        Step::Put(DATA_END, 11),
        Step::Answers(MPROTECT, &[([DATA_END, PAGE, 0, 0, 0], 0)]),
        Step::Answers(MADVISE, &[([DATA_END, PAGE, DONTNEED, 0, 0], 0)]),
        Step::Answers(MPROTECT, &[([DATA_END, PAGE, 1, 0, 0], 0)]),
        Step::Memory(DATA_END, 0),
    ],
    &[
        Step::Answers(
            MMAP,
            &[
                ([0, 60 * PAGE, 3, FLAGS, u64::MAX], AT_MAPPED),
                ([0, 1, 3, FLAGS, u64::MAX], ENOMEM),
            ],
        ),
        Step::Answers(BRK, &[([DATA_END + 1, 0, 0, 0, 0], BREAK)]),
        Step::Answers(MUNMAP, &[([MAPPED + 59 * PAGE, 4 * PAGE, 0, 0, 0], 0)]),
        Step::Answers(BRK, &[([DATA_END + 1, 0, 0, 0, 0], BREAK + 1)]),
        Step::Answers(MMAP, &[([0, 1, 3, FLAGS, u64::MAX], ENOMEM)]),
        Step::Answers(BRK, &[([DATA_END, 0, 0, 0, 0], BREAK)]),
        Step::Answers(
            MMAP,
            &[
                ([0, PAGE + 1, 3, FLAGS, u64::MAX], ENOMEM),
                ([0, PAGE, 3, FLAGS, u64::MAX], AT_MAPPED + 0x3b000),
            ],
        ),
        Step::Answers(MUNMAP, &[([DATA, 2 * PAGE, 0, 0, 0], 0)]),
        Step::Answers(
            MMAP,
            &[([0, 2 * PAGE, 3, FLAGS, u64::MAX], AT_MAPPED + 0x3c000)],
        ),
    ],
];
