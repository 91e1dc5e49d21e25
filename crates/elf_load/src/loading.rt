//! From the bytes of a file to its image.

ghost use Rattle.std.specs.Prelude.{◌≡◌, ◌+◌, ◌*◌, ◌<◌, ◌≤◌, ◌⊎◌, Some, None, length, All, IfErr, IfOk, OnOk};
ghost use Rattle.elf_load.specs.Fields.{e_phnum, e_phoff, program_headers};
ghost use Rattle.elf_load.specs.Faults.{AreApart, first_fault};
ghost use Rattle.elf_load.specs.Images.{IsBootable, IsImage, IsLoaded, end_of, table_address};

use crate::checks::{check_file_header, check_frames, check_segments};
use crate::elf_format::{E_ENTRY, E_PHNUM, E_PHOFF, ENTRY_SIZE};
use crate::fault::ElfFault;
use crate::fields::{half, xword};
use crate::image::{Image, ImagePage};
use crate::paging::build_pages;
use crate::program_headers::{PAGE, ProgramHeader, read_program_headers};
use mach_types::Limits;
use std::alloc::Global;

/// The image of a file, under a number of frames.
///
/// The first fault is told, the one of the lowest number and, among those, of the lowest index. Want
/// of memory may be told in place of anything.
pub fn load(alloc: Global, bytes: &[u8], limits: &Limits) -> Result<Image, ElfFault>
    // The fault is the first of the file, or memory ran out.
    ensures fault { IfErr result
        (λ fault. (fault ≡ ElfFault.NoMemory) ⊎ (first_fault bytes.now limits.now.frames ≡ Some fault)) }

    // A file without a fault gives its image.
    ensures no_fault { OnOk result (first_fault bytes.now limits.now.frames ≡ None) }
    ensures image { IfOk result (IsImage bytes.now) }

    // So the image is good to start a machine with.
    ensures loaded { IfOk result (λ image. IsLoaded image limits.now.frames) }
    ensures bootable { IfOk result (IsBootable limits.now.frames) }
{
    check_file_header(bytes)?;
    let headers = read_program_headers(alloc, bytes)?;
    let entry = xword(bytes, E_ENTRY);
    check_segments(bytes.len() as u64, entry, &headers)?;
    let count = check_frames(limits.frames, &headers)?;
    let pages = build_pages(alloc, bytes, &headers, count)?;
    let break_at = end_of(&pages);
    Ok(Image {
        pages,
        entry,
        phdr: table_address(bytes, &headers),
        phnum: half(bytes, E_PHNUM),
        break_at,
    })
}

/// Where the program header table stands in memory, or 0.
fn table_address(file: &[u8], headers: &[ProgramHeader]) -> u64
    requires header { 64 ≤ length file.now }
    requires table { headers.now ≡ program_headers file.now }
    requires apart { AreApart (length file.now) headers.now }
    ensures { result ≡ table_address file.now }
{
    let offset = xword(file, E_PHOFF);
    let size = ENTRY_SIZE as u64 * u64::from(half(file, E_PHNUM));
    for header in headers {
        if header.holds(offset, size) {
            return header.vaddr + (offset - header.offset);
        }
    }
    0
}

/// The end of the last page.
fn end_of(pages: &[ImagePage]) -> u64
    requires some { 0 < length pages.now }
    requires below { All (λ page. page.number < 33554432) pages.now }
    ensures { result ≡ end_of pages.now }
{
    PAGE * (pages[pages.len() - 1].number + 1)
}
