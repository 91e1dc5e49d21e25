//! The instructions of a loaded program: its pages, and the instructions of its first words.

ghost use Rattle.std.specs.Prelude.{◌≡◌, ℕ, ◌<◌, ◌≤◌, ◌+◌, ◌*◌, ◌%◌, ◌/◌, ◌^◌, Some, IfOk, IfSome, length, map};
ghost use Rattle.std.specs.List.Sorted.{IsStrictlyIncreasing};
ghost use Rattle.elf_load.specs.Start.{code_word};
ghost use Rattle.block_model.specs.Instruction.{instruction_of};
ghost use Rattle.process.specs.Pages.{AreDecoded, code_of};

use crate::code_pages::CodePages;
use elf_load::ImagePage;
use rv_decode::decode;
use rv_inst::Inst;
use std::alloc::{AllocError, Global};
use std::marker::Model;

/// The instructions of so many pages are kept at most, from the first one of a program on, and those of others are decoded at each
/// look. (own)
const DECODED_PAGES: usize = 64;

/// How many words a page has.
const PAGE_WORDS: usize = 1024;

/// Pages of a program in rising order of number, where instructions are read from, with the instructions of the words from the
/// first page on: of as many as so many pages have as the program has.
#[derive(Drop)]
pub struct Code {
    pages: CodePages,
    /// Where the first page begins.
    first: u64,
    /// The instructions of the words from there on, whether a page lies there or not.
    insts: Vec<Option<Inst>>,
}

impl Model for Code {
    ghost use Rattle.std.specs.Prelude.{List, ◌≡◌, ◌<◌, ◌≤◌, ◌%◌, ◌^◌, length};
    ghost use Rattle.elf_load.specs.declared.image.ImagePage.{ImagePage};
    ghost use Rattle.process.specs.Pages.{AreDecoded};

    ghost Value = { List ImagePage };

    ghost view = { λ p. p.pages };

    ghost invariant = { λ p. AreDecoded p.pages p.first p.insts.items × (length p.insts.items ≤ 65536)
        × (p.first % 4 ≡ 0) × (p.first < 2 ^ 39) };
}

impl Code {
    /// A copy of these pages, whose numbers must rise. An error only where memory is wanting.
    pub fn new(alloc: Global, pages: &[ImagePage]) -> Result<Code, AllocError>
        requires { IsStrictlyIncreasing (map (λ p. p.number) pages.now) }
        ensures { IfOk result (λ copied. copied ≡ pages.now) }
    {
        Code::decoded(alloc, CodePages::new(alloc, pages)?)
    }

    /// A copy of those of its pages that may be executed, in the same order. An error only where memory is wanting.
    pub fn executable(&self, alloc: Global) -> Result<Code, AllocError>
        ensures copied { IfOk result (λ copied. copied ≡ code_of self.now) }
        ensures rising { IfOk result (λ copied. IsStrictlyIncreasing (map (λ p. p.number) self.now)) }
    {
        Code::decoded(alloc, self.pages.executable(alloc)?)
    }

    /// These pages, with the instructions that are kept.
    fn decoded(alloc: Global, pages: CodePages) -> Result<Code, AllocError>
        ensures { IfOk result (λ decoded. decoded ≡ pages) }
    {
        let first = pages.first_address();
        let count = pages.len().min(DECODED_PAGES) * PAGE_WORDS;
        let insts = instructions(alloc, &pages, first, count)?;
        Ok(Code {
            pages,
            first,
            insts,
        })
    }

    /// The instruction word at an address that is a multiple of 4; None exactly where its bytes may not be
    /// executed.
    pub(crate) fn fetch(&self, at: u64) -> Option<u32>
        requires { at % 4 ≡ 0 }
        ensures { result ≡ code_word self.now at }
    {
        self.pages.fetch(at)
    }

    /// The instruction at an address that is a multiple of 4, where it is kept. None says nothing of what stands there.
    #[inline(always)]
    pub(crate) fn kept(&self, at: u64) -> Option<&Inst>
        requires { at % 4 ≡ 0 }
        ensures { IfSome result (λ inst. Some inst.now ≡ instruction_of (code_word self.now at)) }
    {
        let place = (at.wrapping_sub(self.first) / 4) as usize;
        if place < self.insts.len() {
            match &self.insts[place] {
                Some(inst) => Some(inst),
                None => None,
            }
        } else {
            None
        }
    }

    /// The instruction at an address that is a multiple of 4; None exactly where its bytes may not be executed, or
    /// where their word has no row.
    pub(crate) fn instruction(&self, at: u64) -> Option<Inst>
        requires { at % 4 ≡ 0 }
        ensures { result ≡ instruction_of (code_word self.now at) }
    {
        match self.kept(at) {
            Some(inst) => Some(*inst),
            None => decoded(self.fetch(at)),
        }
    }
}

/// The instructions of so many words from an address on.
fn instructions(
    alloc: Global,
    pages: &CodePages,
    first: u64,
    count: usize,
) -> Result<Vec<Option<Inst>>, AllocError>
    requires aligned { first % 4 ≡ 0 }
    requires first { first < 2 ^ 39 }
    requires count { count ≤ 65536 }
    ensures decoded { IfOk result (λ insts. AreDecoded pages.now first insts.items) }
    ensures count { IfOk result (λ insts. length insts.items ≡ count) }
{
    let mut insts = Vec::with_capacity(alloc, count)?;
    for place in 0..count {
        insts.push(decoded(pages.fetch(first + 4 * place as u64)))?;
    }
    Ok(insts)
}

/// The instruction that a word is, where there is a word and it has a row.
fn decoded(word: Option<u32>) -> Option<Inst>
    ensures { result ≡ instruction_of word }
{
    decode(word?)
}
