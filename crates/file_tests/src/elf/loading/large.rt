//! The largest file, with memory for all frames.

use super::programs::exits;
use byte_views::write_word;
use elf_load::load;
use mach_types::Limits;
use std::alloc::{AllocError, Global};
use std::process::Abort;
use std::test::Fail;

/// The most bytes of a file, and the most pages of segments.
const FILE_SIZE: usize = 8_388_608;

const PAGES: usize = 16_319;

const LIMITS: Limits = Limits {
    harts: 1,
    frames: 16_384,
    steps: 1,
};

/// A file of that size, with that many pages of segments.
fn largest(rt: &impl Abort, alloc: Global) -> Result<Vec<u8>, AllocError> {
    let mut file = vec![in alloc; 1u8; FILE_SIZE]?;
    let program = exits(alloc)?;
    for (byte, start) in file.iter_mut().zip(program.as_slice()) {
        *byte = *start;
    }
    assert!(rt; write_word(&mut file, 96, 8, FILE_SIZE as u64));
    assert!(rt; write_word(&mut file, 104, 8, PAGES as u64 * 4096));
    Ok(file)
}

#[test]
fn largest_file(rt: HostRuntime) -> Result<(), Fail> {
    let file = largest(&rt, rt.alloc())?;
    let image = load(rt.alloc(), &file, &LIMITS)?;
    assert!(rt; image.pages.len() == PAGES);
    assert!(rt; image.pages[2047].bytes[4095] == 1);
    assert!(rt; image.pages[2048].bytes[0] == 0);
    assert!(rt; image.pages[16_318].number == 16_334);
    assert!(rt; image.break_at == 16_335 * 4096);
    Ok(())
}
