//! Where the parts stand in the file.

ghost use Rattle.std.specs.Prelude.{◌≡◌, ◌+◌, ◌*◌, ◌^◌, ◌<◌, ◌≤◌, length, All, IfOk};
ghost use Rattle.elf_make.specs.Layout.{contents_start, place_from, placed_from};

use crate::parts::Part;
use crate::refusals::segment_of;
use elf_load::ProgramHeader;
use mach_types::address_space::PAGE_SIZE;
use std::alloc::{AllocError, Global};

// The sizes of the headers.
pub(crate) const FILE_HEADER_SIZE: u64 = 64;

pub(crate) const ENTRY_SIZE: u64 = 56;

/// The lowest place from `end` on that is the address modulo a page.
pub(crate) fn place_from(end: u64, at: u64) -> u64
    requires { end < 2 ^ 63 }
    ensures { result ≡ place_from end at }
{
    end + (at % PAGE_SIZE + PAGE_SIZE - end % PAGE_SIZE) % PAGE_SIZE
}

/// The parts as segments, with the places of their bytes.
pub(crate) fn placed(alloc: Global, parts: &[Part]) -> Result<Vec<ProgramHeader>, AllocError>
    requires few { length parts.now ≤ 64 }
    requires small { All (λ part. length part.bytes.items < 2 ^ 38) parts.now }
    ensures headers { IfOk result
        (λ headers. headers.items ≡ placed_from (contents_start parts.now) parts.now) }
    ensures flags { IfOk result (λ headers. All (λ h. h.flags < 256) headers.items) }
{
    let mut headers = Vec::with_capacity(alloc, parts.len())?;
    let mut end = FILE_HEADER_SIZE + ENTRY_SIZE * parts.len() as u64;
    for part in parts {
        let offset = place_from(end, part.at);
        headers.push(ProgramHeader {
            offset,
            ..segment_of(part)
        })?;
        end = offset + part.bytes.len() as u64;
    }
    Ok(headers)
}
