//! Files of small programs.

use byte_views::write_word;
use std::alloc::{AllocError, Global};

/// A file header that has no entry and counts no program header.
pub(super) const FILE_HEADER: [u8; 64] = [
    0x7f, 0x45, 0x4c, 0x46, 0x02, 0x01, 0x01, 0x00, 0x00, 0x00, 0x00, 0x00, 0x00, 0x00, 0x00, 0x00,
    0x02, 0x00, 0xf3, 0x00, 0x01, 0x00, 0x00, 0x00, 0x00, 0x00, 0x00, 0x00, 0x00, 0x00, 0x00, 0x00,
    0x40, 0x00, 0x00, 0x00, 0x00, 0x00, 0x00, 0x00, 0x00, 0x00, 0x00, 0x00, 0x00, 0x00, 0x00, 0x00,
    0x00, 0x00, 0x00, 0x00, 0x40, 0x00, 0x38, 0x00, 0x00, 0x00, 0x00, 0x00, 0x00, 0x00, 0x00, 0x00,
];

/// Writes a number of 1, 2, 4 or 8 bytes over those that stand at a place of a file.
pub(super) fn overwrite(file: &mut [u8], at: usize, size: usize, number: u64) {
    if size == 1 || size == 2 || size == 4 || size == 8 {
        let _written = write_word(file, at, size, number);
    }
}

/// A file of this entry and this number of program headers, which stand behind the file header.
pub(super) fn file_of(
    alloc: Global,
    entry: u64,
    count: u64,
    rest: &[u8],
) -> Result<Vec<u8>, AllocError> {
    let mut file = Vec::from_slice(alloc, &FILE_HEADER)?;
    overwrite(&mut file, 24, 8, entry);
    overwrite(&mut file, 56, 2, count);
    file.extend_from_slice(rest)?;
    Ok(file)
}
