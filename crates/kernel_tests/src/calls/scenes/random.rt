//! getrandom(2). The words are those of SplitMix64 from the state 0 on, as its authors print them.

use crate::calls::bench::{CODE, DATA, DATA_END, Row};
use crate::calls::steps::{Scene, Step};
use crate::calls::words::{ABOVE, EFAULT, EINVAL, GETRANDOM};

/// getrandom(p, len, flags): GRND_NONBLOCK is 1, GRND_RANDOM 2 and GRND_INSECURE 4.
const REFUSED: [Row; 10] = [
    ([CODE, 8, 8, 0, 0], EINVAL),
    ([DATA, 8, 6, 0, 0], EINVAL),
    ([DATA, 0, 7, 0, 0], EINVAL),
    ([DATA, 8, u64::MAX, 0, 0], EINVAL),
    ([0, 1, 0, 0, 0], EFAULT),
    ([CODE, 8, 1, 0, 0], EFAULT),
    ([DATA_END - 7, 8, 2, 0, 0], EFAULT),
    ([DATA_END - 255, u64::MAX, 4, 0, 0], EFAULT),
    ([u64::MAX - 6, 8, 5, 0, 0], EFAULT),
    ([u64::MAX, u64::MAX, 3, 0, 0], EFAULT),
];

/// The calls that write, in order.
const GIVEN: [Row; 5] = [
    ([0, 0, 0, 0, 0], 0),
    ([DATA, 16, 0, 0, 0], 16),
    ([DATA + 0x20, 3, ABOVE + 5, 0, 0], 3),
    ([DATA + 0x30, 9, 3, 0, 0], 9),
    ([DATA_END - 256, u64::MAX, 4, 0, 0], 256),
];

/// Random bytes; what is refused moves their generator no further.
pub const SCENES: [Scene; 1] = [&[
    Step::Answers(GETRANDOM, &REFUSED),
    Step::Answers(GETRANDOM, &GIVEN),
    Step::Memory(DATA, 0xe220_a839_7b1d_cdaf),
    Step::Memory(DATA + 8, 0x6e78_9e6a_a1b9_65f4),
    Step::Memory(DATA + 0x20, 0x0000_0000_0009_454f),
    Step::Memory(DATA + 0x30, 0xf88b_b8a8_724c_81ec),
    Step::Memory(DATA + 0x38, 0x0000_0000_0000_009b),
    Step::Answers(GETRANDOM, &REFUSED),
    Step::Memory(DATA_END - 256, 0x53cb_9f0c_747e_a2ea),
]];
