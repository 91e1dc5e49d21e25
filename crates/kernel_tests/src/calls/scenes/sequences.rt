//! rseq(2), and membarrier(2) (uapi linux/membarrier.h).

use crate::calls::bench::{CODE, DATA, Row, USER_END};
use crate::calls::steps::{Scene, Step};
use crate::calls::words::{ABOVE, EBUSY, EFAULT, EINVAL, EPERM, MEMBARRIER, RSEQ, SIGNATURE};

/// Another place of an area than [`DATA`].
const OTHER: u64 = DATA + 32;

/// rseq(area, len, flags, sig), where the thread has no area.
const WITHOUT_AREA: [Row; 12] = [
    ([DATA, 32, 2, SIGNATURE, 0], EINVAL),
    ([DATA, 31, 0, SIGNATURE, 0], EINVAL),
    ([DATA, 33, 0, SIGNATURE, 0], EINVAL),
    ([0, 32, 0, SIGNATURE, 0], EINVAL),
    ([DATA + 8, 32, 0, SIGNATURE, 0], EINVAL),
    ([USER_END, 31, 0, SIGNATURE, 0], EINVAL),
    ([USER_END, 32, 0, SIGNATURE, 0], EFAULT),
    ([u64::MAX - 31, 32, 0, SIGNATURE, 0], EFAULT),
    ([DATA, 32, 1, SIGNATURE, 0], EINVAL),
    ([DATA, 32, 3, SIGNATURE, 0], EINVAL),
    ([CODE, 32, 1, SIGNATURE, 0], EINVAL),
    ([DATA, ABOVE + 32, ABOVE, ABOVE + SIGNATURE, 0], 0),
];

/// The same, where it has one.
const WITH_AREA: [Row; 12] = [
    ([DATA, 32, 2, SIGNATURE, 0], EINVAL),
    ([OTHER, 32, 0, SIGNATURE + 1, 0], EINVAL),
    ([DATA, 31, 0, SIGNATURE + 1, 0], EINVAL),
    ([DATA, 32, 0, SIGNATURE + 1, 0], EPERM),
    ([DATA, 32, 0, SIGNATURE, 0], EBUSY),
    ([DATA, 32, 3, SIGNATURE, 0], EINVAL),
    ([OTHER, 32, 1, SIGNATURE + 1, 0], EINVAL),
    ([DATA, 31, 1, SIGNATURE + 1, 0], EINVAL),
    ([DATA, 32, 1, SIGNATURE + 1, 0], EPERM),
    ([DATA, ABOVE + 32, ABOVE + 1, ABOVE + SIGNATURE, 0], 0),
    ([DATA, 32, 1, SIGNATURE, 0], EINVAL),
    ([OTHER, 32, 0, SIGNATURE, 0], 0),
];

/// A processor of -1, which isn't one.
const NO_CPU: u64 = 0xFFFF_FFFF;

/// membarrier(cmd, flags, cpu) of a thread that runs alone, in order.
const ALONE: [Row; 31] = [
    ([0, 0, 0, 0, 0], 927),
    ([0, 0, 5, 0, 0], 927),
    ([0, 1, 0, 0, 0], EINVAL),
    ([1, 0, 0, 0, 0], 0),
    ([1, 1, 0, 0, 0], EINVAL),
    ([2, 0, 0, 0, 0], 0),
    ([3, 0, 0, 0, 0], EINVAL),
    ([32, 0, 0, 0, 0], EINVAL),
    ([64, 0, 0, 0, 0], EINVAL),
    ([1024, 0, 0, 0, 0], EINVAL),
    ([u64::MAX, 0, 0, 0, 0], EINVAL),
    ([8, 0, 0, 0, 0], EPERM),
    ([8, 1, 0, 0, 0], EINVAL),
    ([128, 0, 0, 0, 0], EPERM),
    ([128, 1, 0, 0, 0], EPERM),
    ([512, 0, 0, 0, 0], 0),
    ([16, 1, 0, 0, 0], EINVAL),
    ([8, 0, 0, 0, 0], EPERM),
    ([16, 0, 0, 0, 0], 0),
    ([8, 0, 0, 0, 0], 0),
    ([128, 0, 0, 0, 0], EPERM),
    ([256, 0, 0, 0, 0], 0),
    ([512, 0, 0, 0, 0], 272),
    ([128, 0, 0, 0, 0], 0),
    ([128, 1, 99, 0, 0], 0),
    ([128, 1, NO_CPU, 0, 0], 0),
    ([128, 2, 0, 0, 0], EINVAL),
    ([4, 0, 0, 0, 0], 0),
    ([512, 0, 0, 0, 0], 276),
    ([ABOVE, ABOVE, ABOVE, 0, 0], 927),
    ([ABOVE + 512, ABOVE, 0, 0, 0], 276),
];

/// Calls of restartable sequences.
pub const SCENES: [Scene; 2] = [
    &[
        Step::Answers(RSEQ, &WITHOUT_AREA),
        Step::Answers(RSEQ, &WITH_AREA),
    ],
    &[Step::Answers(MEMBARRIER, &ALONE)],
];
