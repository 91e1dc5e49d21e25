//! The pages of an image.

ghost use Rattle.std.specs.Prelude.{◌≡◌, ◌+◌, ◌-◌, ◌*◌, ◌^◌, ◌↔◌, ◌<◌, ◌≤◌, ℕ, true, false, length, slice_index, slice_index_or, All, IfOk, IfNone, IfSome, IsTrue, OnOk};
ghost use Rattle.elf_load.specs.declared.program_headers.ProgramHeader.{ProgramHeader};
ghost use Rattle.elf_load.specs.Fields.{first_page, has_page, has_pages, is_load, page_count, program_headers};
ghost use Rattle.elf_load.specs.Faults.{AreApart, is_misplaced};
ghost use Rattle.elf_load.specs.Images.{ArePages};
ghost use Rattle.elf_load.specs.Paging.{AppendsPages, IsNext, IsPageOf, segment_byte};

use crate::image::ImagePage;
use crate::program_headers::{PAGE, ProgramHeader};
use std::alloc::{AllocError, Global};

/// The bytes of a page.
const PAGE_SIZE: usize = 4096;

/// The pages of the load segments, in rising order of number.
pub(crate) fn build_pages(
    alloc: Global,
    file: &[u8],
    headers: &[ProgramHeader],
    count: u64,
) -> Result<Vec<ImagePage>, AllocError>
    requires table { headers.now ≡ program_headers file.now }
    requires apart { AreApart (length file.now) headers.now }
    ensures { IfOk result (λ pages. ArePages file.now pages.items) }
{
    let mut pages = Vec::with_capacity(alloc, count as usize)?;
    let mut from = 0;
    while let Some(header) = next_segment(headers, from) {
        push_segment(&mut pages, file, &header)?;
        from = header.last_page() + 1;
    }
    Ok(pages)
}

/// The segment whose pages come first from page `from` on.
fn next_segment(headers: &[ProgramHeader], from: u64) -> Option<ProgramHeader>
    ensures next { IfSome result (IsNext headers.now from) }
    ensures last { IfNone result
        ((k : ℕ) (d : ProgramHeader) → k < length headers.now
        → has_pages (slice_index_or headers.now k d) ≡ true
        → first_page (slice_index_or headers.now k d) < from) }
{
    let mut next = None;
    for header in headers {
        if header.has_pages() && from <= header.first_page() && is_before(header, &next) {
            next = Some(*header);
        }
    }
    next
}

/// Whether the segment comes before another, if there is one.
fn is_before(header: &ProgramHeader, other: &Option<ProgramHeader>) -> bool
    ensures { IsTrue result ↔ IfSome other.now (λ found. first_page header.now < first_page found) }
{
    match other {
        Some(found) => header.first_page() < found.first_page(),
        None => true,
    }
}

/// Appends the pages of a segment.
fn push_segment(
    pages: &mut Vec<ImagePage>,
    file: &[u8],
    header: &ProgramHeader,
) -> Result<(), AllocError>
    requires pages { has_pages header.now ≡ true }
    requires placed { is_misplaced (length file.now) header.now ≡ false }
    ensures { OnOk result
        (AppendsPages file.now header.now (page_count header.now) pages.old.items pages.new.items) }
{
    for number in header.first_page()..header.last_page() + 1 {
        pages.push(page_of(file, header, number))?;
    }
    Ok(())
}

/// A page of a segment.
fn page_of(file: &[u8], header: &ProgramHeader, number: u64) -> ImagePage
    requires page { has_page number header.now ≡ true }
    requires placed { is_misplaced (length file.now) header.now ≡ false }
    ensures number { result.number ≡ number }
    ensures page { IsPageOf file.now header.now result }
{
    let mut bytes = [0; PAGE_SIZE];
    fill(&mut bytes, file, header, number * PAGE);
    ImagePage {
        number,
        perm: header.permission(),
        bytes,
    }
}

/// Copies the part of the file that the segment has in the page at address `start`.
fn fill(page: &mut [u8], file: &[u8], header: &ProgramHeader, start: u64)
    requires size { length page.old ≡ 4096 }
    requires zero { (j : ℕ) → slice_index page.old j ≡ 0 }
    requires load { IsTrue (is_load header.now) }
    requires placed { is_misplaced (length file.now) header.now ≡ false }
    requires start { start < 2 ^ 38 }
    ensures { (j : ℕ) → j < 4096 → slice_index page.new j ≡ segment_byte file.now header.now (start + j) }
{
    let from = header.vaddr.max(start);
    let to = (header.vaddr + header.filesz).min(start + PAGE);
    if from < to {
        let source = (header.offset + (from - header.vaddr)) as usize;
        let size = (to - from) as usize;
        let at = (from - start) as usize;
        page[at..at + size].copy_from_slice(&file[source..source + size]);
    }
}
