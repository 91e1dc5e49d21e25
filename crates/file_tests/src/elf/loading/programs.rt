//! Small programs, and the answers that are due for them.

use crate::elf::files::{file_of, overwrite};
use elf_load::{ElfFault, load};
use mach_types::Limits;
use std::alloc::{AllocError, Global};
use std::test::Fail;

/// A segment that is loaded: its flags, where its bytes stand in the file, its address, and how many bytes it has there
/// and in memory.
type Segment = (u64, u64, u64, u64, u64);

/// The entry of a segment in the program header table.
fn program_header(segment: &Segment) -> [u8; 56] {
    let (flags, offset, address, in_file, in_memory) = *segment;
    let mut bytes = [0; 56];
    overwrite(&mut bytes, 0, 4, 1);
    overwrite(&mut bytes, 4, 4, flags);
    overwrite(&mut bytes, 8, 8, offset);
    overwrite(&mut bytes, 16, 8, address);
    overwrite(&mut bytes, 24, 8, address);
    overwrite(&mut bytes, 32, 8, in_file);
    overwrite(&mut bytes, 40, 8, in_memory);
    overwrite(&mut bytes, 48, 8, 4096);
    bytes
}

/// The file of a program with this entry, these segments, and these instructions behind the headers.
fn program(
    alloc: Global,
    entry: u64,
    segments: &[Segment],
    code: &[u32],
) -> Result<Vec<u8>, AllocError> {
    let mut rest = Vec::new(alloc);
    for segment in segments {
        rest.extend_from_slice(&program_header(segment))?;
    }
    for word in code {
        rest.extend_from_slice(&word.to_le_bytes())?;
    }
    file_of(alloc, entry, segments.len() as u64, &rest)
}

/// Three instructions that end the process with status 7. One segment at 0x10000 has the whole file.
pub(super) fn exits(alloc: Global) -> Result<Vec<u8>, AllocError> {
    let code = [0x0070_0513, 0x05d0_0893, 0x0000_0073];
    program(alloc, 0x10078, &[(5, 0, 0x10000, 0x84, 0x84)], &code)
}

/// The instructions of two threads over a page of data.
const THREADS: [u32; 20] = [
    0x0002_0437,
    0x0001_1537,
    0xf005_0513,
    0x0000_0593,
    0x0dc0_0893,
    0x0000_0073,
    0x0010_0293,
    0x0005_0e63,
    0x0454_3023,
    0x0804_3303,
    0x0c04_3383,
    0x0073_0533,
    0x05e0_0893,
    0x0000_0073,
    0x0854_3023,
    0x0404_3303,
    0x0043_0313,
    0x0c64_3023,
    0x05d0_0893,
    0x0000_0073,
];

/// Two threads over a page of data. A second segment at 0x20000 can be written and has nothing of the file.
pub(super) fn threads(alloc: Global) -> Result<Vec<u8>, AllocError> {
    let segments = [(5, 0, 0x10000, 0x100, 0x100), (6, 0, 0x20000, 0x0, 0x1000)];
    program(alloc, 0x100b0, &segments, &THREADS)
}

/// The number of the fault and what it tells, or 0 where there is none.
pub(super) fn answer(alloc: Global, file: &[u8], frames: u32) -> (u8, Option<u64>) {
    let limits = Limits {
        harts: 1,
        frames,
        steps: 1,
    };
    match load(alloc, file, &limits) {
        Ok(_) => (0, None),
        Err(fault) => (fault.number(), fault.detail()),
    }
}

#[test]
fn prints_faults(rt: HostRuntime) -> Result<(), Fail> {
    let text = format!(in rt.alloc(); "{}; {}", ElfFault::Flags(5), ElfFault::TooLarge(322))?;
    assert!(rt;
        text.as_str() == "the flags 0x5 of the file header are not supported; 322 frames are needed"
    );
    Ok(())
}
