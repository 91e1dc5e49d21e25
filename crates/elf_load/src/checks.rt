//! The faults of a file, in the order in which they are looked for.

ghost use Rattle.std.specs.Prelude.{◌≡◌, ◌+◌, ◌*◌, ◌^◌, ◌<◌, ◌≤◌, length, position, sum_by, IfOk, OnOk};
ghost use Rattle.std.specs.List.{enumerate_from, list_any};
ghost use Rattle.elf_load.specs.Fields.{is_dynamic, page_count};
ghost use Rattle.elf_load.specs.Faults.{Finds, file_rows, frame_rows, has_bad_flags, has_bad_table, has_bad_version, has_code, is_bad_entry, is_misplaced, is_unaligned, is_writable_code, overlaps, segment_rows, shares_page};

use crate::elf_format::{
    CLASS_64, E_FLAGS, E_MACHINE, E_PHENTSIZE, E_PHNUM, E_PHOFF, E_TYPE, E_VERSION, EF_RISCV_TSO,
    EI_CLASS, EI_DATA, EI_MAG, EI_VERSION, ELF_MAGIC, EM_RISCV, ENTRY_SIZE, ET_EXEC,
    FILE_HEADER_SIZE, LITTLE_ENDIAN,
};
use crate::fault::ElfFault;
use crate::fields::{byte, half, sum, word, xword};
use crate::program_headers::ProgramHeader;

/// How many entries the program header table may have (own).
const MOST_ENTRIES: u16 = 64;

/// The frames of the stack and of the return page.
const OTHER_FRAMES: u64 = 65;

/// Looks for a fault of the file header.
#[tactic(auto, unfolding(crate::specs::Faults::file_rows))]
pub(crate) fn check_file_header(file: &[u8]) -> Result<(), ElfFault>
    ensures fault { Finds result (file_rows file.now) }
    ensures length { OnOk result (64 ≤ length file.now) }
{
    if file.len() < FILE_HEADER_SIZE {
        return Err(ElfFault::Short);
    }
    if word(file, EI_MAG) != ELF_MAGIC {
        return Err(ElfFault::Magic);
    }
    if byte(file, EI_CLASS) != CLASS_64 {
        return Err(ElfFault::Class);
    }
    if byte(file, EI_DATA) != LITTLE_ENDIAN {
        return Err(ElfFault::Endian);
    }
    if has_bad_version(file) {
        return Err(ElfFault::Version);
    }
    if half(file, E_TYPE) != ET_EXEC {
        return Err(ElfFault::FileKind);
    }
    if half(file, E_MACHINE) != EM_RISCV {
        return Err(ElfFault::Machine);
    }
    if has_bad_flags(file) {
        return Err(ElfFault::Flags(word(file, E_FLAGS)));
    }
    if has_bad_table(file) {
        return Err(ElfFault::Headers);
    }
    Ok(())
}

fn has_bad_version(file: &[u8]) -> bool
    requires { 64 ≤ length file.now }
    ensures { result ≡ has_bad_version file.now }
{
    byte(file, EI_VERSION) != 1 || word(file, E_VERSION) != 1
}

fn has_bad_flags(file: &[u8]) -> bool
    requires { 64 ≤ length file.now }
    ensures { result ≡ has_bad_flags file.now }
{
    let flags = word(file, E_FLAGS);
    flags != 0 && flags != EF_RISCV_TSO
}

fn has_bad_table(file: &[u8]) -> bool
    requires { 64 ≤ length file.now }
    ensures { result ≡ has_bad_table file.now }
{
    let count = half(file, E_PHNUM);
    let size = ENTRY_SIZE as u64 * u64::from(count);
    usize::from(half(file, E_PHENTSIZE)) != ENTRY_SIZE
        || count == 0
        || MOST_ENTRIES < count
        || (file.len() as u128) < sum(xword(file, E_PHOFF), size)
}

/// Looks for a fault of the program headers.
#[tactic(auto, unfolding(crate::specs::Faults::segment_rows))]
pub(crate) fn check_segments(
    file_length: u64,
    entry: u64,
    headers: &[ProgramHeader],
) -> Result<(), ElfFault>
    ensures { Finds result (segment_rows file_length entry headers.now) }
{
    if has_dynamic(headers) {
        return Err(ElfFault::Dynamic);
    }
    if let Some(k) = first_misplaced(file_length, headers) {
        return Err(ElfFault::Segment(k));
    }
    if let Some(k) = first_unaligned(headers) {
        return Err(ElfFault::Align(k));
    }
    if let Some(k) = first_writable_code(headers) {
        return Err(ElfFault::WritableCode(k));
    }
    if let Some(k) = first_overlap(headers) {
        return Err(ElfFault::Overlap(k));
    }
    if is_bad_entry(entry, headers) {
        return Err(ElfFault::Entry);
    }
    Ok(())
}

fn has_dynamic(headers: &[ProgramHeader]) -> bool
    ensures { result ≡ list_any is_dynamic headers.now }
{
    headers.iter().any(|header| header.is_dynamic())
}

fn first_misplaced(file_length: u64, headers: &[ProgramHeader]) -> Option<usize>
    ensures { result ≡ position (is_misplaced file_length) headers.now }
{
    headers
        .iter()
        .position(|header| header.is_misplaced(file_length))
}

fn first_unaligned(headers: &[ProgramHeader]) -> Option<usize>
    ensures { result ≡ position is_unaligned headers.now }
{
    headers.iter().position(|header| header.is_unaligned())
}

fn first_writable_code(headers: &[ProgramHeader]) -> Option<usize>
    ensures { result ≡ position is_writable_code headers.now }
{
    headers.iter().position(|header| header.is_writable_code())
}

/// The first header that has a page of an earlier one.
fn first_overlap(headers: &[ProgramHeader]) -> Option<usize>
    ensures { result ≡ position (overlaps headers.now) (enumerate_from 0 headers.now) }
{
    for k in 0..headers.len() {
        if shares_page(&headers[..k], &headers[k]) {
            return Some(k);
        }
    }
    None
}

/// Whether the segment has a page of one of these.
pub fn shares_page(earlier: &[ProgramHeader], header: &ProgramHeader) -> bool
    ensures { result ≡ shares_page earlier.now header.now }
{
    earlier.iter().any(|other| other.shares_page(header))
}

/// Whether a program can't begin at this address: no instruction stands there, or no segment has code there.
pub fn is_bad_entry(entry: u64, headers: &[ProgramHeader]) -> bool
    ensures { result ≡ is_bad_entry entry headers.now }
{
    entry % 4 != 0 || !has_code(entry, headers)
}

fn has_code(at: u64, headers: &[ProgramHeader]) -> bool
    ensures { result ≡ list_any (has_code at) headers.now }
{
    headers.iter().any(|header| header.has_code(at))
}

/// Looks whether the pages of the segments fit the frames, and counts them.
#[tactic(auto, unfolding(crate::specs::Faults::frame_rows))]
pub(crate) fn check_frames(frames: u32, headers: &[ProgramHeader]) -> Result<u64, ElfFault>
    requires { length headers.now ≤ 64 }
    ensures fault { Finds result (frame_rows frames headers.now) }
    ensures count { IfOk result (λ pages. pages ≡ sum_by page_count headers.now) }
{
    let pages = page_total(headers);
    let needed = pages + OTHER_FRAMES;
    if u64::from(frames) < needed {
        return Err(ElfFault::TooLarge(needed));
    }
    Ok(pages)
}

/// How many pages the segments have.
fn page_total(headers: &[ProgramHeader]) -> u64
    requires { length headers.now ≤ 64 }
    ensures total { result ≡ sum_by page_count headers.now }
    ensures bound { result ≤ 2 ^ 54 * length headers.now }
{
    let mut total = 0;
    for header in headers {
        total += header.page_count();
    }
    total
}
