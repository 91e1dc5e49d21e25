//! Tests of `elf_make`: files for programs, what is due for them, and parts that are refused.

use crate::elf::files::file_of;
use elf_load::{ImagePage, load};
use elf_make::{MakeFault, Part, Parts, write_elf};
use mach_types::Limits;
use std::alloc::{AllocError, Global};
use std::process::Abort;
use std::test::Fail;

/// Three instructions that end the process with status 7.
const CODE: [u8; 12] = [
    0x13, 0x05, 0x70, 0x00, 0x93, 0x08, 0xd0, 0x05, 0x73, 0x00, 0x00, 0x00,
];

/// What stands behind the file header of the file that is due for them at 0x10078: they stand at 120, the next place
/// behind the headers.
const BEHIND_HEADER: [u8; 68] = [
    0x01, 0x00, 0x00, 0x00, 0x05, 0x00, 0x00, 0x00, 0x78, 0x00, 0x00, 0x00, 0x00, 0x00, 0x00, 0x00,
    0x78, 0x00, 0x01, 0x00, 0x00, 0x00, 0x00, 0x00, 0x78, 0x00, 0x01, 0x00, 0x00, 0x00, 0x00, 0x00,
    0x0c, 0x00, 0x00, 0x00, 0x00, 0x00, 0x00, 0x00, 0x0c, 0x00, 0x00, 0x00, 0x00, 0x00, 0x00, 0x00,
    0x00, 0x10, 0x00, 0x00, 0x00, 0x00, 0x00, 0x00, 0x13, 0x05, 0x70, 0x00, 0x93, 0x08, 0xd0, 0x05,
    0x73, 0x00, 0x00, 0x00,
];

fn part(alloc: Global, at: u64, perm: u8, bytes: &[u8], memsz: u64) -> Result<Part, AllocError> {
    Ok(Part {
        at,
        perm,
        bytes: Vec::from_slice(alloc, bytes)?,
        memsz,
    })
}

fn code_part(alloc: Global) -> Result<Part, AllocError> {
    part(alloc, 0x10078, 5, &CODE, 12)
}

/// A program of no part.
fn program(alloc: Global, entry: u64, flags: u32) -> Parts {
    Parts {
        entry,
        flags,
        segments: Vec::new(alloc),
    }
}

#[test]
fn one_part(rt: HostRuntime) -> Result<(), Fail> {
    let mut parts = program(rt.alloc(), 0x10078, 0);
    parts.segments.push(code_part(rt.alloc())?)?;
    let file = write_elf(rt.alloc(), &parts)?;
    let due = file_of(rt.alloc(), 0x10078, 1, &BEHIND_HEADER)?;
    assert!(rt; file.as_slice() == due.as_slice());
    Ok(())
}

/// The code, and before it a part of three bytes over two pages, of which one more follows in memory.
fn two_parts(alloc: Global) -> Result<Parts, AllocError> {
    let mut parts = program(alloc, 0x10078, 16);
    parts
        .segments
        .push(part(alloc, 0x2fffe, 2, &[7, 8, 9], 0x1003)?)?;
    parts.segments.push(code_part(alloc)?)?;
    Ok(parts)
}

/// Of each page its number and its permission, and its bytes 0, 0x78 and 0xffe.
const PAGES: [(u64, u8, [u8; 3]); 4] = [
    (0x10, 5, [0, 0x13, 0]),
    (0x2f, 6, [0, 0, 7]),
    (0x30, 6, [9, 0, 0]),
    (0x31, 6, [0, 0, 0]),
];

const LIMITS: Limits = Limits {
    harts: 1,
    frames: 128,
    steps: 1,
};

/// A page must be as a row says.
fn expect_page(rt: &impl Abort, page: &ImagePage, row: &(u64, u8, [u8; 3])) {
    let (number, perm, due) = row;
    assert!(rt;
        page.number == *number && page.perm == *perm,
        "page {number:x}"
    );
    let bytes = [page.bytes[0], page.bytes[0x78], page.bytes[0xffe]];
    assert!(rt; bytes == *due, "page {number:x}");
}

/// The file is loaded to the pages.
fn expect_loaded(rt: &impl Abort, alloc: Global, file: &[u8]) -> Result<(), Fail> {
    let image = load(alloc, file, &LIMITS)?;
    assert!(rt; image.break_at == 0x32000);
    assert!(rt; image.entry == 0x10078);
    assert!(rt; image.pages.len() == PAGES.len());
    for (page, row) in image.pages.iter().zip(&PAGES) {
        expect_page(rt, page, row);
    }
    Ok(())
}

#[test]
fn parts_stand_at_places_of_their_addresses(rt: HostRuntime) -> Result<(), Fail> {
    let file = write_elf(rt.alloc(), &two_parts(rt.alloc())?)?;
    // The headers end at 176. The next place that is 0xffe modulo 4096 is 4094, and the next that is
    // 0x78 is 4216.
    assert!(rt; file.len() == 4228);
    assert!(rt; file.get(4094).copied() == Some(7));
    assert!(rt; file.get(4216).copied() == Some(0x13));
    expect_loaded(&rt, rt.alloc(), &file)
}

/// A second part beside the code: its address, its permission, how many bytes it has in the file, and in
/// memory.
struct Second {
    at: u64,
    perm: u8,
    length: usize,
    memsz: u64,
}

/// The entry, the flags and a second part, and the index with which they are refused, if they are.
type Row = (u64, u32, Second, Option<usize>);

/// The entry of the code.
const ENTRY: u64 = 0x10078;

/// A part that can be read alone.
macro_rules! data {
    ($at:expr, $length:expr, $memsz:expr) => {
        second!($at, 4, $length, $memsz)
    };
}

/// A part.
macro_rules! second {
    ($at:expr, $perm:expr, $length:expr, $memsz:expr) => {
        Second { at: $at, perm: $perm, length: $length, memsz: $memsz }
    };
}

/// Parts at the ends of their ranges, and behind them.
const ROWS: [Row; 15] = [
    (ENTRY, 0, data!(0x11000, 3, 3), None),
    (ENTRY, 0, data!(0x11000, 3, 2), Some(1)),
    (ENTRY, 0, data!(0x10fff, 1, 1), Some(1)),
    (ENTRY, 0, data!(0x10fff, 0, 0), None),
    (ENTRY, 0, data!(0xfff, 1, 1), Some(1)),
    (ENTRY, 0, data!(0x1000, 1, 0xf000), None),
    (ENTRY, 0, data!(0x1000, 1, 0xf001), Some(1)),
    (ENTRY, 0, data!(0x1fffffffff, 1, 1), None),
    (ENTRY, 0, data!(0x1fffffffff, 1, 2), Some(1)),
    (ENTRY, 0, data!(u64::MAX, 1, u64::MAX), Some(1)),
    (ENTRY, 0, second!(0x11000, 7, 1, 1), Some(1)),
    (ENTRY, 5, data!(0x11000, 1, 1), Some(2)),
    (0x1007a, 0, data!(0x11000, 1, 1), Some(2)),
    (0x11000, 0, data!(0x11000, 4, 4), Some(2)),
    (0x11000, 5, second!(0x11000, 7, 4, 4), Some(1)),
];

/// The code and a second part.
fn with_second(
    alloc: Global,
    entry: u64,
    flags: u32,
    second: &Second,
) -> Result<Parts, AllocError> {
    let mut parts = program(alloc, entry, flags);
    parts.segments.push(code_part(alloc)?)?;
    let bytes = vec![in alloc; 0u8; second.length]?;
    parts
        .segments
        .push(part(alloc, second.at, second.perm, &bytes, second.memsz)?)?;
    Ok(parts)
}

/// The index with which parts are refused.
fn refused(alloc: Global, parts: &Parts) -> Result<Option<usize>, AllocError> {
    match write_elf(alloc, parts) {
        Ok(_) => Ok(None),
        Err(MakeFault::BadParts(k)) => Ok(Some(k)),
        Err(MakeFault::NoMemory) => Err(AllocError),
    }
}

#[test]
fn refusals(rt: HostRuntime) -> Result<(), Fail> {
    for (entry, flags, second, index) in &ROWS {
        let parts = with_second(rt.alloc(), *entry, *flags, second)?;
        assert!(rt; refused(rt.alloc(), &parts)? == *index, "at {}", second.at);
    }
    Ok(())
}
