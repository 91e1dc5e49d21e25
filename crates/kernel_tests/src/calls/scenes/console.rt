//! write(2) and writev(2).

use crate::calls::bench::{CODE, DATA, DATA_END, Row};
use crate::calls::steps::{Scene, Step};
use crate::calls::words::{ABOVE, EBADF, EFAULT, EINVAL, ENOSPC, WRITE, WRITEV};

/// The pages of the stack, 262,144 bytes.
const STACK: u64 = 0x3f_fff0_0000;

/// write(fd, buf, len).
const WRITES: [Row; 13] = [
    ([0, DATA, 1, 0, 0], EBADF),
    ([3, 0, 1, 0, 0], EBADF),
    ([3, 0, 0, 0, 0], EBADF),
    ([1, 0, 0, 0, 0], 0),
    ([1, 0, 1, 0, 0], EFAULT),
    ([2, DATA_END - 1, 2, 0, 0], EFAULT),
    ([2, u64::MAX, 1, 0, 0], EFAULT),
    ([2, u64::MAX, 2, 0, 0], EFAULT),
    ([1, DATA, u64::MAX, 0, 0], EFAULT),
    ([1, DATA, 1, 0, 0], 1),
    ([2, DATA_END - 1, 1, 0, 0], 1),
    ([ABOVE + 1, CODE, 4, 0, 0], 4),
    ([1, DATA_END - 2, 2, 0, 0], 2),
];

/// write(fd, buf, len), where there is room for 8 bytes, and then for none.
const WRITES_TO_A_FULL_CONSOLE: [Row; 6] = [
    ([1, STACK, 65_528, 0, 0], 65_528),
    ([2, STACK, 9, 0, 0], 8),
    ([1, DATA, 1, 0, 0], ENOSPC),
    ([3, DATA, 1, 0, 0], EBADF),
    ([1, 0, 1, 0, 0], EFAULT),
    ([1, 0, 0, 0, 0], 0),
];

/// Records of writev that name three bytes, none, and two.
const HELLO: u64 = DATA;

/// The second of these names bytes of which the last can't be read.
const UNREADABLE: u64 = DATA + 0x30;

/// Bytes that can't be read: 2^31 - 1 in the first two, and none in the third.
const LONGEST: u64 = DATA + 0x50;

/// Bytes that can't be read, 2^31 in two records.
const TOO_LONG: u64 = DATA + 0x80;

/// The sum of these lengths is 1 modulo 2^64.
const WRAPPED: u64 = DATA + 0xa0;

/// writev(fd, iov, n).
const WRITEVS: [Row; 15] = [
    ([0, HELLO, 1, 0, 0], EBADF),
    ([3, 0, 1025, 0, 0], EBADF),
    ([1, 0, 1025, 0, 0], EINVAL),
    ([1, HELLO, u64::MAX, 0, 0], EINVAL),
    ([1, 0, 1024, 0, 0], EFAULT),
    ([1, DATA_END - 8, 1, 0, 0], EFAULT),
    ([1, 0, 0, 0, 0], 0),
    ([1, TOO_LONG, 2, 0, 0], EINVAL),
    ([1, WRAPPED, 2, 0, 0], EINVAL),
    ([1, LONGEST, 3, 0, 0], EFAULT),
    ([1, UNREADABLE, 2, 0, 0], EFAULT),
    ([2, LONGEST + 0x20, 1, 0, 0], 0),
    ([1, HELLO, 3, 0, 0], 5),
    ([ABOVE + 2, HELLO + 0x20, 1, 0, 0], 2),
    ([1, DATA + 0x1000, 256, 0, 0], 0),
];

/// writev(fd, iov, n), where there is room for 4 bytes, and then for none.
const WRITEVS_TO_A_FULL_CONSOLE: [Row; 6] = [
    ([1, HELLO, 3, 0, 0], 4),
    ([1, HELLO, 3, 0, 0], ENOSPC),
    ([0, HELLO, 3, 0, 0], EBADF),
    ([1, TOO_LONG, 2, 0, 0], EINVAL),
    ([1, UNREADABLE, 2, 0, 0], EFAULT),
    ([1, LONGEST + 0x20, 1, 0, 0], 0),
];

/// Records, of an address and a length each, and the bytes that the first name.
const RECORDS: [(u64, u64); 25] = [
    (DATA + 0x800, 0x6f_6c6c_6568),
    (HELLO, DATA + 0x800),
    (HELLO + 8, 3),
    (HELLO + 0x10, 0),
    (HELLO + 0x10 + 8, 0),
    (HELLO + 0x20, DATA + 0x803),
    (HELLO + 0x20 + 8, 2),
    (UNREADABLE, DATA + 0x800),
    (UNREADABLE + 8, 3),
    (UNREADABLE + 0x10, DATA_END - 1),
    (UNREADABLE + 0x10 + 8, 2),
    (LONGEST, 0),
    (LONGEST + 8, 0x4000_0000),
    (LONGEST + 0x10, 0),
    (LONGEST + 0x10 + 8, 0x3fff_ffff),
    (LONGEST + 0x20, 0),
    (LONGEST + 0x20 + 8, 0),
    (TOO_LONG, 0),
    (TOO_LONG + 8, 0x7fff_ffff),
    (TOO_LONG + 0x10, 0),
    (TOO_LONG + 0x10 + 8, 1),
    (WRAPPED, DATA),
    (WRAPPED + 8, u64::MAX),
    (WRAPPED + 0x10, DATA),
    (WRAPPED + 0x10 + 8, 2),
];

/// Writes to the console.
pub const SCENES: [Scene; 4] = [
    &[
        Step::Put(DATA, 0x61),
        Step::Put(DATA_END - 8, 0x6463_0000_0000_0000),
        Step::Answers(WRITE, &WRITES),
        Step::Console(b"ad\x7fELFcd"),
    ],
    &[Step::Answers(WRITE, &WRITES_TO_A_FULL_CONSOLE)],
    &[
        Step::PutAll(&RECORDS),
        Step::Answers(WRITEV, &WRITEVS),
        Step::Console(b"hellolo"),
    ],
    &[
        Step::PutAll(&RECORDS),
        Step::Answers(WRITE, &[([1, STACK, 65_532, 0, 0], 65_532)]),
        Step::Answers(WRITEV, &WRITEVS_TO_A_FULL_CONSOLE),
    ],
];
