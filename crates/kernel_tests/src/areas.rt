//! Tests of `rseq_area`: worked rows, with values found by hand from the layout of the two structures.

use crate::memories::{
    ABORT, AREA, BEFORE_ABORT, DESCRIPTOR, LENGTH, POINTER, SIGNATURE, START, UNUSED, good_memory,
    put,
};
use mach_types::errors::{EBUSY, EFAULT, EINVAL, EPERM};
use mach_types::{Area, BadWhy, Errno, FlatMemory, Named, Seq, UserMem};
use rseq_area::{looked_at, lowest_cid, named, register, set_cpu, unregister};

/// What the area names: 12 bytes from 0x400000 on, with the abort handler at 0x1050.
const GOOD: Named = Named::Good(Seq {
    start: 0x40_0000,
    length: 12,
    abort: 0x1050,
});

/// Where `flags` of the area stands.
const AREA_FLAGS: u64 = 0x1010;

/// A word that is changed, a pc, and what the area then names.
type Row = (u64, u64, u64, Named);

/// The longest sequence from 0x400000 on.
const LONGEST: u64 = (1 << 38) - 0x40_0000 - 1;

const LONG: Named = Named::Good(Seq {
    start: 0x40_0000,
    length: LONGEST,
    abort: 0x1050,
});

/// By the pointer, the range, the signature and the flags.
const NAMED: [Row; 25] = [
    (UNUSED, 0, 0x40_0000, GOOD),
    (POINTER, 0, 0x40_0000, Named::Nothing),
    (POINTER, 1 << 38, 0, Named::Bad(BadWhy::Pointer)),
    (POINTER, u64::MAX, 0, Named::Bad(BadWhy::Pointer)),
    (POINTER, (1 << 38) - 1, 0, Named::Bad(BadWhy::Descriptor)),
    (POINTER, 0x13E1, 0, Named::Bad(BadWhy::Descriptor)),
    (DESCRIPTOR, 1, 0, Named::Bad(BadWhy::Version)),
    (START, 1 << 38, 0, Named::Bad(BadWhy::Range)),
    (ABORT, 1 << 38, 0, Named::Bad(BadWhy::Range)),
    (LENGTH, LONGEST + 1, 0, Named::Bad(BadWhy::Range)),
    (LENGTH, LONGEST, 0, LONG),
    (LENGTH, u64::MAX - 0x3F_FFFF, 0, Named::Bad(BadWhy::Range)),
    (ABORT, 0x40_0000, 0, Named::Bad(BadWhy::AbortInside)),
    (ABORT, 0x40_000B, 0, Named::Bad(BadWhy::AbortInside)),
    (
        BEFORE_ABORT,
        0xF140_1072 << 32,
        0,
        Named::Bad(BadWhy::Signature),
    ),
    (BEFORE_ABORT, 0xF140_1073, 0, Named::Bad(BadWhy::Signature)),
    (ABORT, 0x40_000C, 0, Named::Bad(BadWhy::Signature)),
    (ABORT, 3, 0, Named::Bad(BadWhy::Signature)),
    (UNUSED, 0, 0, GOOD),
    (AREA_FLAGS, 1, 0x40_0000, Named::Bad(BadWhy::SeqFlags)),
    (AREA_FLAGS, 1, 0x3F_FFFF, GOOD),
    (AREA_FLAGS, 1, 0x40_000C, GOOD),
    (DESCRIPTOR, 4 << 32, 0x40_000B, Named::Bad(BadWhy::SeqFlags)),
    (DESCRIPTOR, 4 << 32, 0x40_000C, GOOD),
    (AREA_FLAGS, 7 << 32, 0x40_0000, GOOD),
];

#[test]
fn what_an_area_names(rt: HostRuntime) {
    for (at, value, pc, expected) in &NAMED {
        let mut memory = good_memory();
        put(&mut memory, *at, *value);
        assert!(rt;
            named(&memory, &AREA, *pc) == *expected,
            "{at:x} {value:x} {pc:x}"
        );
    }
}

/// A word that is changed, and the addresses of the descriptor and of the signature at which the check of the
/// area then looks.
const LOOKED_AT: [(u64, u64, Option<u64>, Option<u64>); 13] = [
    (UNUSED, 0, Some(DESCRIPTOR), Some(0x104C)),
    (POINTER, 0, None, None),
    (POINTER, 1 << 38, None, None),
    (POINTER, (1 << 38) - 1, Some((1 << 38) - 1), None),
    (DESCRIPTOR, 1, Some(DESCRIPTOR), None),
    (DESCRIPTOR, 4 << 32, Some(DESCRIPTOR), Some(0x104C)),
    (START, 1 << 38, Some(DESCRIPTOR), None),
    (LENGTH, LONGEST + 1, Some(DESCRIPTOR), None),
    (ABORT, 0x40_0000, Some(DESCRIPTOR), None),
    (ABORT, 0x40_000C, Some(DESCRIPTOR), Some(0x40_0008)),
    (ABORT, 3, Some(DESCRIPTOR), None),
    (ABORT, 4, Some(DESCRIPTOR), Some(0)),
    (AREA_FLAGS, 1, Some(DESCRIPTOR), Some(0x104C)),
];

#[test]
fn at_what_a_check_looks(rt: HostRuntime) {
    for (at, value, descriptor, signature) in &LOOKED_AT {
        let mut memory = good_memory();
        put(&mut memory, *at, *value);
        let looked = looked_at(&memory, &AREA);
        assert!(rt; looked.area == AREA.at, "{at:x} {value:x}");
        assert!(rt; looked.descriptor == *descriptor, "{at:x} {value:x}");
        assert!(rt; looked.signature == *signature, "{at:x} {value:x}");
    }
}

/// Arguments of rseq(2): address, length, flags, signature.
type Arguments = (u64, u32, u32, u32);

/// An area that is registered, arguments, and the refusal: bit 0 of the flags takes an area back.
const REGISTRATIONS: [(Option<Area>, Arguments, Option<Errno>); 19] = [
    (None, (0x2_0000, 32, 0, SIGNATURE), None),
    (None, (0x2_0000, 32, 2, SIGNATURE), Some(EINVAL)),
    (None, (0x2_0000, 31, 0, SIGNATURE), Some(EINVAL)),
    (None, (0x2_0000, 64, 0, SIGNATURE), Some(EINVAL)),
    (None, (0, 32, 0, SIGNATURE), Some(EINVAL)),
    (None, (0x2_0008, 32, 0, SIGNATURE), Some(EINVAL)),
    (None, (1 << 38, 32, 0, 7), Some(EFAULT)),
    (None, ((1 << 38) - 32, 32, 0, 7), None),
    (OLD, (0x2_0000, 32, 0, SIGNATURE), Some(EBUSY)),
    (OLD, (0x2_0000, 32, 0, 5), Some(EPERM)),
    (OLD, (0x2_0020, 32, 0, SIGNATURE), Some(EINVAL)),
    (OLD, (0x2_0000, 33, 0, 5), Some(EINVAL)),
    (OLD, (0x2_0000, 32, 4, SIGNATURE), Some(EINVAL)),
    (OLD, (0x2_0000, 32, 1, SIGNATURE), None),
    (OLD, (0x2_0000, 32, 3, SIGNATURE), Some(EINVAL)),
    (None, (0x2_0000, 32, 1, SIGNATURE), Some(EINVAL)),
    (OLD, (0x2_0020, 32, 1, SIGNATURE), Some(EINVAL)),
    (OLD, (0x2_0000, 64, 1, 5), Some(EINVAL)),
    (OLD, (0x2_0000, 32, 1, 5), Some(EPERM)),
];

const OLD: Option<Area> = Some(Area {
    at: 0x2_0000,
    sig: SIGNATURE,
});

#[test]
fn areas_are_registered_and_taken_back(rt: HostRuntime) {
    for (old, (at, len, flags, sig), refusal) in &REGISTRATIONS {
        let answer = if *flags % 2 == 1 {
            unregister(*old, *at, *len, *flags, *sig).err()
        } else {
            register(*old, *at, *len, *flags, *sig).err()
        };
        assert!(rt; answer == *refusal, "{at:x} {len} {flags} {sig}");
    }
}

/// The four words of the area of the tests, and what they then hold: `cpu_id_start` and `cpu_id`, `rseq_cs`,
/// `flags` and `node_id`, and `mm_cid`.
const SET: [(u64, u64); 4] = [
    (0x1000, 0x4_0000_0003),
    (0x1008, u64::MAX),
    (0x1010, 0x5_FFFF_FFFF),
    (0x1018, 6),
];

#[test]
fn words_are_set(rt: HostRuntime) {
    let mut memory = FlatMemory::new(28);
    put(&mut memory, 0x1008, u64::MAX);
    put(&mut memory, 0x1010, u64::MAX);
    assert!(rt; set_cpu(&mut memory, &AREA, 3, 4, 5, 6));
    for (at, expected) in &SET {
        assert!(rt; memory.get(*at, 8) == Some(*expected), "{at:x}");
    }
}

/// Sets of harts that hold a concurrency id, and the lowest that none holds.
const LOWEST: [(u8, u8); 5] = [(0, 0), (0b1, 1), (0b10, 0), (0b1011, 2), (0b0111_1111, 7)];

#[test]
fn lowest_ids(rt: HostRuntime) {
    for (held, lowest) in &LOWEST {
        assert!(rt; *held < 255);
        assert!(rt; lowest_cid(*held) == *lowest, "{held:b}");
    }
}
