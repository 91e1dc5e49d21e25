//! Which parts are refused.

ghost use Rattle.std.specs.Prelude.{◌≡◌, ◌<◌, length, map, IfOk};
ghost use Rattle.elf_make.specs.Parts.{segment_of};
ghost use Rattle.elf_make.specs.Refusals.{bad_index, first_bad_segment, is_bad_after, is_bad_whole, segments_of};

use crate::parts::{Part, Parts};
use elf_load::{ProgramHeader, is_bad_entry, shares_page};
use std::alloc::{AllocError, Global};

/// `PT_LOAD`
const PT_LOAD: u32 = 1;

const MOST_PARTS: usize = 64;

/// The bit of `e_flags` for programs that need the memory model Ztso.
const EF_RISCV_TSO: u32 = 16;

/// A part as a load segment, wherever its bytes stand.
pub(crate) fn segment_of(part: &Part) -> ProgramHeader
    ensures segment { result ≡ segment_of part.now }
    ensures flags { result.flags < 256 }
{
    ProgramHeader {
        kind: PT_LOAD,
        flags: u32::from(part.perm),
        offset: 0,
        vaddr: part.at,
        filesz: part.bytes.len() as u64,
        memsz: part.memsz,
    }
}

/// The parts as load segments.
pub(crate) fn segments_of(alloc: Global, parts: &[Part]) -> Result<Vec<ProgramHeader>, AllocError>
    ensures { IfOk result (λ segments. segments.items ≡ map segment_of parts.now) }
{
    parts.iter().map(|part| segment_of(part)).collect(alloc)
}

/// The index with which the parts are refused, if they are.
pub(crate) fn bad_index(parts: &Parts, segments: &[ProgramHeader]) -> Option<usize>
    requires { segments.now ≡ segments_of parts.now }
    ensures { result ≡ bad_index (first_bad_segment segments.now)
        (is_bad_whole parts.now.entry parts.now.flags segments.now) (length segments.now) }
{
    if let Some(k) = first_bad_segment(segments) {
        return Some(k);
    }
    if is_bad_whole(parts.entry, parts.flags, segments) {
        return Some(segments.len());
    }
    None
}

/// The first bad segment.
fn first_bad_segment(segments: &[ProgramHeader]) -> Option<usize>
    ensures { result ≡ first_bad_segment segments.now }
{
    for k in 0..segments.len() {
        if is_bad_segment(&segments[..k], &segments[k]) {
            return Some(k);
        }
    }
    None
}

/// Whether the segment is bad in itself, or has a page of one of the others.
fn is_bad_segment(earlier: &[ProgramHeader], segment: &ProgramHeader) -> bool
    ensures { result ≡ is_bad_after earlier.now segment.now }
{
    segment.is_misplaced(segment.filesz)
        || segment.is_writable_code()
        || shares_page(earlier, segment)
}

/// Whether the number of segments, the flags or the entry is bad.
fn is_bad_whole(entry: u64, flags: u32, segments: &[ProgramHeader]) -> bool
    ensures { result ≡ is_bad_whole entry flags segments.now }
{
    segments.is_empty()
        || MOST_PARTS < segments.len()
        || (flags != 0 && flags != EF_RISCV_TSO)
        || is_bad_entry(entry, segments)
}
