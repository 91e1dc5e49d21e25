//! Tests of `rseq_abort`: worked rows, with values found by hand from the layout of the two structures.

use crate::memories::{ABORT, AREA, BEFORE_ABORT, DESCRIPTOR, POINTER, UNUSED, good_memory, put};
use mach_types::{Area, BadWhy, Outcome, UserMem};
use rseq_abort::interrupt;

/// A word of the memory that is changed, a pc, what an interruption there comes to, and whether the pointer
/// becomes 0.
type Row = ((u64, u64), u64, Outcome, bool);

/// Nothing is changed that anybody looks at.
const UNCHANGED: (u64, u64) = (UNUSED, 0);

const ROWS: [Row; 12] = [
    (UNCHANGED, 0x40_0000, Outcome::Aborted(0x1050), true),
    (UNCHANGED, 0x40_0004, Outcome::Aborted(0x1050), true),
    (UNCHANGED, 0x40_000B, Outcome::Aborted(0x1050), true),
    (UNCHANGED, 0x40_000C, Outcome::Cleared, true),
    (UNCHANGED, 0x3F_FFFC, Outcome::Cleared, true),
    (UNCHANGED, 0, Outcome::Cleared, true),
    ((POINTER, 0), 0x40_0000, Outcome::Nothing, true),
    (
        (POINTER, 1 << 38),
        0,
        Outcome::Killed(BadWhy::Pointer),
        false,
    ),
    ((DESCRIPTOR, 1), 0, Outcome::Killed(BadWhy::Version), false),
    (
        (ABORT, 0x40_0000),
        0,
        Outcome::Killed(BadWhy::AbortInside),
        false,
    ),
    (
        (BEFORE_ABORT, 0),
        0,
        Outcome::Killed(BadWhy::Signature),
        false,
    ),
    (
        (DESCRIPTOR, 1 << 32),
        0x40_0000,
        Outcome::Killed(BadWhy::SeqFlags),
        false,
    ),
];

#[test]
fn each_outcome_of_an_interruption(rt: HostRuntime) {
    for ((at, value), pc, outcome, cleared) in &ROWS {
        let mut memory = good_memory();
        put(&mut memory, *at, *value);
        let before = memory.get(POINTER, 8);
        let after = if *cleared { Some(0) } else { before };
        let comes = interrupt(&mut memory, Some(AREA), *pc);
        assert!(rt; comes == *outcome, "{at:x} {pc:x}");
        assert!(rt; memory.get(POINTER, 8) == after, "{at:x} {pc:x}");
    }
}

/// So many bytes of the memory that can be written, a pc, and what an interruption there comes to.
const WRITABLE: [(u16, u64, Outcome); 3] = [
    (15, 0x40_0000, Outcome::Killed(BadWhy::AreaBytes)),
    (15, 0x40_000C, Outcome::Killed(BadWhy::AreaBytes)),
    (16, 0x40_0000, Outcome::Aborted(0x1050)),
];

/// An area whose bytes go beyond the last address.
const FAR: Area = Area {
    at: u64::MAX - 7,
    sig: 0,
};

#[test]
fn pointer_must_be_writable(rt: HostRuntime) {
    for (writable, pc, outcome) in &WRITABLE {
        let mut memory = good_memory();
        memory.writable = *writable;
        let comes = interrupt(&mut memory, Some(AREA), *pc);
        assert!(rt; comes == *outcome, "{writable} {pc:x}");
    }
    let comes = interrupt(&mut good_memory(), Some(FAR), 0);
    assert!(rt; comes == Outcome::Killed(BadWhy::AreaBytes));
}
