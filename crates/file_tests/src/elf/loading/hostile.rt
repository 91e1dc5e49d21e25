//! Files that are not what they should be.
//!
//! The answers were made from the rows of faults by another program, and by hand for the first 27.

use super::programs::{answer, exits, threads};
use crate::elf::files::{FILE_HEADER, overwrite};
use Base::{Exits, Threads};
use std::alloc::{AllocError, Global};
use std::test::Fail;

/// The small programs.
enum Base {
    Exits,
    Threads,
}

/// The place of a field, its size, and the number that overwrites it.
type Change = (usize, usize, u64);

/// A file, a field that is overwritten, another one, and the number of the fault with what it tells. 0 stands for
/// no fault.
type Row = (Base, Change, Option<Change>, u8, Option<u64>);

const CHANGED: [Row; 111] = [
    (Exits, (0, 1, 0x7e), None, 2, None),
    (Exits, (4, 1, 0x1), None, 3, None),
    (Exits, (5, 1, 0x2), None, 4, None),
    (Exits, (6, 1, 0x0), None, 5, None),
    (Exits, (20, 1, 0x2), None, 5, None),
    (Exits, (16, 1, 0x3), None, 6, None),
    (Exits, (18, 1, 0x3e), None, 7, None),
    (Exits, (48, 1, 0x5), None, 8, Some(5)),
    (Exits, (48, 1, 0x1), None, 8, Some(1)),
    (Exits, (54, 1, 0x37), None, 9, None),
    (Exits, (56, 1, 0x0), None, 9, None),
    (Exits, (56, 1, 0x2), None, 9, None),
    (Exits, (32, 8, 0xffffffffffffffff), None, 9, None),
    (Exits, (64, 1, 0x2), None, 10, None),
    (Exits, (64, 1, 0x3), None, 10, None),
    (Exits, (104, 1, 0x83), None, 11, Some(0)),
    (Exits, (82, 1, 0x0), None, 11, Some(0)),
    (Exits, (80, 8, 0xffffffffffffffff), None, 11, Some(0)),
    (Exits, (80, 1, 0x4), None, 12, Some(0)),
    (Exits, (68, 1, 0x7), None, 13, Some(0)),
    (Threads, (138, 1, 0x1), None, 14, Some(1)),
    (Exits, (24, 1, 0x79), None, 15, None),
    (Exits, (24, 1, 0x84), None, 15, None),
    (Exits, (68, 1, 0x4), None, 15, None),
    (Exits, (64, 1, 0x4), None, 15, None),
    (Exits, (106, 1, 0x10), None, 16, Some(322)),
    (Exits, (48, 1, 0x10), None, 0, None),
    (Exits, (0, 4, 0x0), None, 2, None),
    (Exits, (0, 4, 0xffffffff), None, 2, None),
    (Exits, (4, 1, 0x0), None, 3, None),
    (Exits, (4, 1, 0xff), None, 3, None),
    (Exits, (5, 1, 0x0), None, 4, None),
    (Exits, (5, 1, 0xff), None, 4, None),
    (Exits, (6, 1, 0xff), None, 5, None),
    (Exits, (8, 8, 0xffffffffffffffff), None, 0, None),
    (Exits, (16, 2, 0x0), None, 6, None),
    (Exits, (16, 2, 0xffff), None, 6, None),
    (Exits, (18, 2, 0x0), None, 7, None),
    (Exits, (18, 2, 0xffff), None, 7, None),
    (Exits, (20, 4, 0x0), None, 5, None),
    (Exits, (20, 4, 0xffffffff), None, 5, None),
    (Exits, (24, 8, 0x0), None, 15, None),
    (Exits, (24, 8, 0xffffffffffffffff), None, 15, None),
    (Exits, (24, 8, 0xfffffffffffffffc), None, 15, None),
    (Exits, (24, 8, 0x10080), None, 0, None),
    (Exits, (24, 8, 0x10000), None, 0, None),
    (Exits, (32, 8, 0x0), None, 15, None),
    (Exits, (32, 8, 0x4c), None, 15, None),
    (Exits, (32, 8, 0x4d), None, 9, None),
    (Exits, (32, 8, 0xffffffffffffffc8), None, 9, None),
    (Exits, (32, 8, 0x8000000000000000), None, 9, None),
    (Exits, (48, 4, 0xffffffff), None, 8, Some(4294967295)),
    (Exits, (48, 4, 0x11), None, 8, Some(17)),
    (Exits, (54, 2, 0x0), None, 9, None),
    (Exits, (54, 2, 0xffff), None, 9, None),
    (Exits, (56, 2, 0x40), None, 9, None),
    (Exits, (56, 2, 0x41), None, 9, None),
    (Exits, (56, 2, 0xffff), None, 9, None),
    (Exits, (64, 4, 0x0), None, 15, None),
    (Exits, (64, 4, 0xffffffff), None, 15, None),
    (Exits, (68, 4, 0x0), None, 15, None),
    (Exits, (68, 4, 0x1), None, 0, None),
    (Exits, (68, 4, 0xffffffff), None, 13, Some(0)),
    (Exits, (68, 4, 0xfffffffd), None, 0, None),
    (Exits, (72, 8, 0x1), None, 11, Some(0)),
    (Exits, (72, 8, 0xffffffffffffffff), None, 11, Some(0)),
    (Exits, (72, 8, 0xffffffffffffff7c), None, 11, Some(0)),
    (Exits, (72, 8, 0x1000), None, 11, Some(0)),
    (Exits, (80, 8, 0x0), None, 11, Some(0)),
    (Exits, (80, 8, 0xfff), None, 11, Some(0)),
    (Exits, (80, 8, 0x1000), None, 15, None),
    (Exits, (80, 8, 0x1ffffff000), None, 15, None),
    (Exits, (80, 8, 0x1fffffff7c), None, 12, Some(0)),
    (Exits, (80, 8, 0x1fffffff7d), None, 11, Some(0)),
    (Exits, (80, 8, 0x2000000000), None, 11, Some(0)),
    (Exits, (88, 8, 0xffffffffffffffff), None, 0, None),
    (Exits, (96, 8, 0x0), None, 0, None),
    (Exits, (96, 8, 0x85), None, 11, Some(0)),
    (Exits, (96, 8, 0xffffffffffffffff), None, 11, Some(0)),
    (Exits, (104, 8, 0x83), None, 11, Some(0)),
    (Exits, (104, 8, 0x1fffff0000), None, 16, Some(33554481)),
    (Exits, (104, 8, 0x1fffff0001), None, 11, Some(0)),
    (Exits, (104, 8, 0xffffffffffffffff), None, 11, Some(0)),
    (Exits, (112, 8, 0x0), None, 0, None),
    (Exits, (112, 8, 0xffffffffffffffff), None, 0, None),
    (
        Exits,
        (72, 8, 0xffffffffffffffff),
        Some((96, 8, 0xffffffffffffffff)),
        11,
        Some(0),
    ),
    (
        Exits,
        (80, 8, 0xffffffffffffffff),
        Some((104, 8, 0xffffffffffffffff)),
        11,
        Some(0),
    ),
    (
        Exits,
        (32, 8, 0xffffffffffffffff),
        Some((56, 2, 0x40)),
        9,
        None,
    ),
    (Exits, (96, 8, 0x0), Some((104, 8, 0x0)), 15, None),
    (Threads, (136, 8, 0xf000), Some((160, 8, 0x1000)), 0, None),
    (
        Threads,
        (136, 8, 0xf000),
        Some((160, 8, 0x1001)),
        14,
        Some(1),
    ),
    (Threads, (104, 8, 0x10000), None, 0, None),
    (Threads, (104, 8, 0x10001), None, 14, Some(1)),
    (Threads, (136, 8, 0x10000), Some((160, 8, 0x0)), 0, None),
    (Threads, (136, 8, 0x11000), None, 0, None),
    (
        Threads,
        (136, 8, 0x1fffffffff),
        Some((128, 8, 0xfff)),
        11,
        Some(1),
    ),
    (Threads, (160, 8, 0x1fffffe0000), None, 11, Some(1)),
    (Exits, (0, 1, 0x0), Some((4, 1, 0x1)), 2, None),
    (Exits, (16, 1, 0x3), Some((48, 1, 0x5)), 6, None),
    (Exits, (48, 1, 0x5), Some((56, 1, 0x0)), 8, Some(5)),
    (Exits, (18, 1, 0x3e), Some((54, 1, 0x37)), 7, None),
    (Threads, (80, 1, 0x4), Some((136, 8, 0x0)), 11, Some(1)),
    (Threads, (68, 1, 0x7), Some((136, 8, 0x20004)), 12, Some(1)),
    (Threads, (124, 4, 0x7), Some((136, 8, 0x10000)), 13, Some(1)),
    (Threads, (80, 8, 0x0), Some((136, 8, 0x0)), 11, Some(0)),
    (
        Threads,
        (80, 8, 0x10004),
        Some((136, 8, 0x20004)),
        12,
        Some(0),
    ),
    (Threads, (68, 4, 0x7), Some((124, 4, 0x7)), 13, Some(0)),
    (Threads, (120, 4, 0x3), Some((80, 8, 0x0)), 10, None),
    (Threads, (136, 8, 0x10000), Some((24, 8, 0x1)), 14, Some(1)),
    (Threads, (24, 8, 0x2), Some((160, 8, 0x1000000)), 15, None),
    (Threads, (160, 8, 0x1000000), None, 16, Some(4162)),
];

fn make_change(file: &mut [u8], change: &Change) {
    overwrite(file, change.0, change.1, change.2);
}

/// A small program with one or two fields overwritten.
fn changed(
    alloc: Global,
    base: &Base,
    first: &Change,
    second: &Option<Change>,
) -> Result<Vec<u8>, AllocError> {
    let mut file = match base {
        Base::Exits => exits(alloc)?,
        Base::Threads => threads(alloc)?,
    };
    make_change(&mut file, first);
    if let Some(second) = second {
        make_change(&mut file, second);
    }
    Ok(file)
}

#[test]
fn changed_fields(rt: HostRuntime) -> Result<(), Fail> {
    for (base, first, second, number, detail) in &CHANGED {
        let file = changed(rt.alloc(), base, first, second)?;
        let found = answer(rt.alloc(), &file, 128);
        assert!(rt;
            found.0 == *number && found.1 == *detail,
            "{} {:x}",
            first.0,
            first.2
        );
    }
    Ok(())
}

/// A file of so many headers, each of a load segment of one page, at falling addresses.
fn many_headers(alloc: Global, count: u16) -> Result<Vec<u8>, AllocError> {
    let mut file = vec![in alloc; 0u8; 64 + 56 * usize::from(count)]?;
    for (byte, start) in file.iter_mut().zip(&FILE_HEADER) {
        *byte = *start;
    }
    overwrite(&mut file, 56, 2, u64::from(count));
    for k in 0..count {
        let at = 64 + 56 * usize::from(k);
        overwrite(&mut file, at, 4, 1);
        overwrite(&mut file, at + 4, 4, 5);
        overwrite(
            &mut file,
            at + 16,
            8,
            0x1_0000 + 0x1000 * (u64::from(u16::MAX) - u64::from(k)),
        );
        overwrite(&mut file, at + 40, 8, 0x1000);
    }
    overwrite(&mut file, 24, 8, 0x1_0000 + 0x1000 * u64::from(u16::MAX));
    Ok(file)
}

/// A count of headers, the frames of the machine, the number of the fault and what it tells.
const COUNTS: [(u16, u32, u8, Option<u64>); 5] = [
    (1, 66, 0, None),
    (64, 129, 0, None),
    (64, 128, 16, Some(129)),
    (65, 130, 9, None),
    (65535, 16384, 9, None),
];

#[test]
fn header_counts(rt: HostRuntime) -> Result<(), Fail> {
    for (count, frames, number, detail) in &COUNTS {
        let file = many_headers(rt.alloc(), *count)?;
        let found = answer(rt.alloc(), &file, *frames);
        assert!(rt; found.0 == *number && found.1 == *detail, "{count} headers");
    }
    Ok(())
}
