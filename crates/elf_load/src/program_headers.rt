//! The program header table.

ghost use Rattle.std.specs.Prelude.{◌≡◌, ◌+◌, ◌*◌, ◌^◌, ◌<◌, ◌≤◌, length, IfOk, IsTrue};
ghost use Rattle.elf_load.specs.Fields.{e_phnum, e_phoff, first_page, has_pages, is_dynamic, is_executable, is_load, is_readable, is_writable, last_page, page_count, program_header, program_headers};
ghost use Rattle.elf_load.specs.Faults.{has_code, is_misplaced, is_unaligned, is_writable_code, share_page};
ghost use Rattle.elf_load.specs.Images.{holds, permission};

use crate::elf_format::{
    E_PHNUM, E_PHOFF, ENTRY_SIZE, PF_R, PF_W, PF_X, PT_DYNAMIC, PT_INTERP, PT_LOAD,
};
use crate::fields::{half, sum, word, xword};
use std::alloc::{AllocError, Global};

/// The size of a page.
pub(crate) const PAGE: u64 = 4096;

/// The addresses of a file's segments lie from the second page up to here.
const ADDRESS_END: u64 = 0x20_0000_0000;

/// An entry of the program header table, without its physical address and alignment, which nothing
/// depends on.
#[derive(Clone, Copy, Drop)]
pub struct ProgramHeader {
    /// `p_type`
    pub kind: u32,
    pub flags: u32,
    pub offset: u64,
    pub vaddr: u64,
    pub filesz: u64,
    pub memsz: u64,
}

impl ProgramHeader {
    /// The program header at a place of the file.
    fn read(file: &[u8], at: usize) -> ProgramHeader
        requires { at + 56 ≤ length file.now }
        ensures { result ≡ program_header file.now at }
    {
        ProgramHeader {
            kind: word(file, at),
            flags: word(file, at + 4),
            offset: xword(file, at + 8),
            vaddr: xword(file, at + 16),
            filesz: xword(file, at + 32),
            memsz: xword(file, at + 40),
        }
    }

    /// Whether the segment is loaded (`PT_LOAD`).
    pub(crate) fn is_load(&self) -> bool
        ensures { result ≡ is_load self.now }
    {
        self.kind == PT_LOAD
    }

    /// Whether it asks for a dynamic linker (`PT_DYNAMIC` or `PT_INTERP`).
    pub(crate) fn is_dynamic(&self) -> bool
        ensures { result ≡ is_dynamic self.now }
    {
        self.kind == PT_DYNAMIC || self.kind == PT_INTERP
    }

    /// Whether `PF_X` is set.
    pub(crate) fn is_executable(&self) -> bool
        ensures { result ≡ is_executable self.now }
    {
        self.flags & PF_X != 0
    }

    /// Whether `PF_W` is set.
    pub(crate) fn is_writable(&self) -> bool
        ensures { result ≡ is_writable self.now }
    {
        self.flags & PF_W != 0
    }

    /// Whether `PF_R` is set.
    pub(crate) fn is_readable(&self) -> bool
        ensures { result ≡ is_readable self.now }
    {
        self.flags & PF_R != 0
    }

    /// Whether the segment doesn't fit the file of that many bytes, or the addresses of a user.
    pub fn is_misplaced(&self, file_length: u64) -> bool
        ensures { result ≡ is_misplaced file_length self.now }
    {
        self.is_load()
            && (self.memsz < self.filesz
                || u128::from(file_length) < sum(self.offset, self.filesz)
                || self.vaddr < PAGE
                || u128::from(ADDRESS_END) < sum(self.vaddr, self.memsz))
    }

    /// Whether the offset and the address differ modulo a page.
    pub(crate) fn is_unaligned(&self) -> bool
        ensures { result ≡ is_unaligned self.now }
    {
        self.is_load() && self.offset % PAGE != self.vaddr % PAGE
    }

    /// Whether a load segment can be written and executed.
    pub fn is_writable_code(&self) -> bool
        ensures { result ≡ is_writable_code self.now }
    {
        self.is_load() && self.is_writable() && self.is_executable()
    }

    /// Whether the four bytes at the address are code of the segment.
    pub(crate) fn has_code(&self, at: u64) -> bool
        ensures { result ≡ has_code at self.now }
    {
        self.is_load()
            && self.is_executable()
            && self.vaddr <= at
            && sum(at, 4) <= sum(self.vaddr, self.memsz)
    }

    /// Whether it is a load segment with memory.
    pub(crate) fn has_pages(&self) -> bool
        ensures { result ≡ has_pages self.now }
    {
        self.is_load() && 0 < self.memsz
    }

    /// The page of its first byte of memory.
    pub(crate) fn first_page(&self) -> u64
        ensures { result ≡ first_page self.now }
    {
        self.vaddr / PAGE
    }

    /// The page of its last byte of memory.
    pub(crate) fn last_page(&self) -> u64
        requires { IsTrue (has_pages self.now) }
        ensures page { result ≡ last_page self.now }
        ensures bound { result < 2 ^ 53 }
    {
        ((sum(self.vaddr, self.memsz) - 1) / u128::from(PAGE)) as u64
    }

    /// How many pages it has.
    pub(crate) fn page_count(&self) -> u64
        ensures count { result ≡ page_count self.now }
        ensures bound { result ≤ 2 ^ 54 }
    {
        if self.has_pages() {
            self.last_page() + 1 - self.first_page()
        } else {
            0
        }
    }

    /// Whether a page of this segment is one of the other.
    pub(crate) fn shares_page(&self, other: &ProgramHeader) -> bool
        ensures { result ≡ share_page self.now other.now }
    {
        self.has_pages()
            && other.has_pages()
            && self.first_page() <= other.last_page()
            && other.first_page() <= self.last_page()
    }

    /// Whether so many bytes of the file lie in its part that the segment has.
    pub(crate) fn holds(&self, offset: u64, size: u64) -> bool
        ensures { result ≡ holds offset size self.now }
    {
        self.is_load()
            && self.offset <= offset
            && sum(offset, size) <= sum(self.offset, self.filesz)
    }

    /// What may be done with the segment's pages. Whoever may write may read.
    pub fn permission(&self) -> u8
        ensures { result ≡ permission self.now }
    {
        let read = if self.is_readable() || self.is_writable() {
            4
        } else {
            0
        };
        let write = if self.is_writable() { 2 } else { 0 };
        let execute = if self.is_executable() { 1 } else { 0 };
        read + write + execute
    }
}

/// The program header table of a file.
#[tactic(auto, unfolding(crate::specs::Fields::program_headers))]
pub(crate) fn read_program_headers(
    alloc: Global,
    file: &[u8],
) -> Result<Vec<ProgramHeader>, AllocError>
    requires header { 64 ≤ length file.now }
    requires table { e_phoff file.now + 56 * e_phnum file.now ≤ length file.now }
    ensures { IfOk result (λ headers. headers.items ≡ program_headers file.now) }
{
    let start = xword(file, E_PHOFF) as usize;
    let count = usize::from(half(file, E_PHNUM));
    (0..count)
        .map(|k| ProgramHeader::read(file, start + ENTRY_SIZE * k))
        .collect(alloc)
}
