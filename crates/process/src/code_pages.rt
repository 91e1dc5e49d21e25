//! The pages of a program, and the words in them.

ghost use Rattle.std.specs.Prelude.{◌≡◌, ◌≢◌, ℕ, ◌<◌, ◌≤◌, ◌+◌, ◌%◌, ◌^◌, Some, IfOk, length, map};
ghost use Rattle.std.specs.Option.{option_copied};
ghost use Rattle.std.specs.List.Sorted.{IsStrictlyIncreasing};
ghost use Rattle.elf_load.specs.Start.{code_word, page_of, return_byte};
ghost use Rattle.process.specs.Pages.{code_of, is_executable, word_in, word_of, word_of_page};

use crate::search::place_of;
use elf_load::ImagePage;
use mach_types::address_space::{FIRST_STACK_PAGE, PAGE_SIZE, RETURN_PAGE, STACK_PAGES};
use std::alloc::{AllocError, Global};
use std::marker::Model;

/// Pages of a program in rising order of number, with the numbers beside them for a search: where words are read from.
#[derive(Drop)]
pub struct CodePages {
    numbers: Vec<u64>,
    pages: Vec<ImagePage>,
}

impl Model for CodePages {
    ghost use Rattle.std.specs.Prelude.{List, ◌≡◌, map};
    ghost use Rattle.std.specs.List.Sorted.{IsStrictlyIncreasing};
    ghost use Rattle.elf_load.specs.declared.image.ImagePage.{ImagePage};

    ghost Value = { List ImagePage };

    ghost view = { λ p. p.pages.items };

    ghost invariant = { λ p. (p.numbers.items ≡ map (λ (q : ImagePage). q.number) p.pages.items)
        × IsStrictlyIncreasing (map (λ (q : ImagePage). q.number) p.pages.items) };
}

impl CodePages {
    /// A copy of these pages, whose numbers must rise. An error only where memory is wanting.
    pub fn new(alloc: Global, pages: &[ImagePage]) -> Result<CodePages, AllocError>
        requires { IsStrictlyIncreasing (map (λ p. p.number) pages.now) }
        ensures { IfOk result (λ copied. copied ≡ pages.now) }
    {
        CodePages::numbered(alloc, pages.iter().map(copy_of).collect(alloc)?)
    }

    /// A copy of those of its pages that may be executed, in the same order. An error only where memory is wanting.
    pub fn executable(&self, alloc: Global) -> Result<CodePages, AllocError>
        ensures copied { IfOk result (λ copied. copied ≡ code_of self.now) }
        ensures rising { IfOk result (λ copied. IsStrictlyIncreasing (map (λ p. p.number) self.now)) }
    {
        CodePages::numbered(alloc, executable_pages(alloc, &self.pages)?)
    }

    /// These pages, with their numbers.
    fn numbered(alloc: Global, pages: Vec<ImagePage>) -> Result<CodePages, AllocError>
        requires { IsStrictlyIncreasing (map (λ p. p.number) pages.items) }
        ensures { IfOk result (λ numbered. numbered ≡ pages.items) }
    {
        let numbers = pages.iter().map(|page| page.number).collect(alloc)?;
        Ok(CodePages { numbers, pages })
    }

    /// How many pages there are.
    pub fn len(&self) -> usize
        ensures { result ≡ length self.now }
    {
        self.pages.len()
    }

    /// The address at which the first page begins, or that of the stack where it begins behind that; 0 where there are no pages.
    pub fn first_address(&self) -> u64
        ensures aligned { result % 4 ≡ 0 }
        ensures small { result < 2 ^ 39 }
    {
        match self.numbers.first() {
            Some(number) => PAGE_SIZE * (*number).min(FIRST_STACK_PAGE),
            None => 0,
        }
    }

    /// The page with this number.
    fn page(&self, number: u64) -> Option<&ImagePage>
        ensures { option_copied result ≡ page_of self.now number }
    {
        match place_of(&self.numbers, number) {
            Some(index) => Some(&self.pages[index]),
            None => None,
        }
    }

    /// The instruction word at an address that is a multiple of 4; None exactly where its bytes may not be
    /// executed.
    pub fn fetch(&self, at: u64) -> Option<u32>
        requires { at % 4 ≡ 0 }
        ensures { result ≡ code_word self.now at }
    {
        let number = at / 4096;
        if (FIRST_STACK_PAGE..FIRST_STACK_PAGE + STACK_PAGES).contains(&number) {
            None
        } else if number == RETURN_PAGE {
            Some(return_word(at % 4096))
        } else {
            executable_word(self.page(number), at % 4096)
        }
    }
}

/// A copy of a page.
fn copy_of(page: &ImagePage) -> ImagePage
    ensures { result ≡ page.now }
{
    ImagePage {
        number: page.number,
        perm: page.perm,
        bytes: page.bytes,
    }
}

/// A copy of those pages that may be executed.
fn executable_pages(alloc: Global, pages: &[ImagePage]) -> Result<Vec<ImagePage>, AllocError>
    ensures { IfOk result (λ copies. copies.items ≡ code_of pages.now) }
{
    let mut copies = Vec::new(alloc);
    for page in pages {
        if is_executable(page) {
            copies.push(copy_of(page))?;
        }
    }
    Ok(copies)
}

/// Whether a page may be executed.
fn is_executable(page: &ImagePage) -> bool
    ensures { result ≡ is_executable page.now }
{
    page.perm & 1 != 0
}

/// The word at an offset of a page that may be executed, if there is one.
fn executable_word(page: Option<&ImagePage>, offset: u64) -> Option<u32>
    requires { offset + 4 ≤ 4096 }
    ensures { result ≡ word_of_page (option_copied page.entry) offset }
{
    let page = page?;
    if page.perm & 1 == 0 {
        return None;
    }
    Some(word(&page.bytes, offset as usize))
}

/// The word of the return page at an offset that is a multiple of 4: `li a7, 139` and `ecall`, twice, and then
/// zeros.
fn return_word(offset: u64) -> u32
    requires aligned { offset % 4 ≡ 0 }
    requires within { offset < 4096 }
    ensures { result ≡ word_of return_byte offset }
{
    if offset >= 16 {
        0
    } else if offset % 8 == 0 {
        0x08B0_0893
    } else {
        0x0000_0073
    }
}

/// The little-endian word at an offset.
fn word(bytes: &[u8], offset: usize) -> u32
    requires { offset + 4 ≤ length bytes.now }
    ensures { result ≡ word_in bytes.now offset }
{
    let word = [
        bytes[offset],
        bytes[offset + 1],
        bytes[offset + 2],
        bytes[offset + 3],
    ];
    u32::from_le_bytes(word)
}
