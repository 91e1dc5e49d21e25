//! Pages as words.

ghost use Rattle.std.specs.Prelude.{◌≡◌, true, false, ◌||◌, ◌<◌, ◌≤◌, ◌+◌, ◌-◌, ◌*◌, ◌^◌, ◌++◌, ℕ, IfOk, IfSome, IsSome, OnOk, length, replicate};
ghost use Rattle.std.specs.Bool.{OnTrue};
ghost use Rattle.mach_types.specs.Kernel.Pages.{first_page};
ghost use Rattle.page_map.specs.Map.{page_in};
ghost use Rattle.place_keys.specs.Differences.{IsWrittenOn};
ghost use Rattle.place_keys.specs.MappedPages.{is_page};
ghost use Rattle.place_keys.specs.PageWords.{memory_word, memory_words, page_word, pages_words, permissions_words, start_word};
ghost use Rattle.place_keys.specs.PageWords as spec;

use crate::differences::write_change;
use crate::words::write_word;
use byte_views::read_word;
use mach_types::address_space::{FIRST_MAPPING_PAGE, FIRST_STACK_PAGE, RETURN_PAGE, STACK_PAGES};
use page_map::{ALL_PAGES, PageMap, pages_of};
use std::alloc::AllocError;

/// How many words of 8 bytes a page has.
const PAGE_WORDS: u64 = 512;

/// The number of the page behind the stack.
const STACK_END: u64 = FIRST_STACK_PAGE + STACK_PAGES;

/// How many rows of 512 bytes a page has.
const ROWS: usize = 8;

/// How many blocks of 64 bytes a row has.
const BLOCKS: usize = 8;

/// The permission of a page with one added; 0 where it isn't mapped.
fn permission_word(pages: &PageMap, number: u64) -> u64
    ensures { result ≡ spec.permission_word pages.now number }
{
    match pages.permission(number) {
        Some(permission) => u64::from(permission) + 1,
        None => 0,
    }
}

/// Where to look on for a mapped page: past a gap that no process maps, where a page lies in it, and else at the page itself. One gap lies
/// between the break and the mappings, and one between the stack and the page that signal handlers return to.
fn past_gap(pages: &PageMap, from: u64) -> u64
    ensures from { from ≤ result }
    ensures unmapped { (n : ℕ) → from ≤ n → n < result → is_page pages.now n ≡ false }
{
    pages.keeps();
    if from < FIRST_MAPPING_PAGE && pages_of(pages.break_at()) <= from {
        FIRST_MAPPING_PAGE
    } else if STACK_END <= from && from < RETURN_PAGE {
        RETURN_PAGE
    } else {
        from
    }
}

/// The first page that is mapped, from one page on.
fn next_page(pages: &PageMap, from: u64) -> Option<u64>
    ensures from { IfSome result (λ n. from ≤ n) }
    ensures within { IfSome result (λ n. n < ALL_PAGES) }
    ensures mapped { IfSome result (λ n. is_page pages.now n ≡ true) }
    ensures first { result ≡ first_page (is_page pages.now) from (ALL_PAGES - from) }
{
    pages.next_page(past_gap(pages, from))
}

/// The first page that is mapped in one of two page maps, from one page on.
fn next_of_both(pages: &PageMap, start: &PageMap, from: u64) -> Option<u64>
    ensures from { IfSome result (λ n. from ≤ n) }
    ensures within { IfSome result (λ n. n < ALL_PAGES) }
    ensures first { result
        ≡ first_page (λ n. is_page pages.now n || is_page start.now n) from (ALL_PAGES - from) }
{
    let Some(number) = next_page(pages, from) else {
        return next_page(start, from);
    };
    if number == from {
        return Some(number);
    }
    match next_page(start, from) {
        Some(other) => Some(number.min(other)),
        None => Some(number),
    }
}

/// The first page from one on that may have been written, in one of two page maps, or [`ALL_PAGES`]: each page before it has zero bytes
/// in both, as far as it is mapped.
fn next_written(pages: &PageMap, start: &PageMap, from: u64) -> u64
    ensures from { from ≤ ALL_PAGES → from ≤ result }
    ensures within { result ≤ ALL_PAGES }
    ensures same { (k : ℕ) → 512 * from ≤ k → k < 512 * result
        → memory_word start.now pages.now k ≡ start_word start.now k }
{
    pages.next_written(from).min(start.next_written(from))
}

/// The pages that have another permission than at the start.
fn write_permissions(
    words: &mut Vec<u64>,
    pages: &PageMap,
    start: &PageMap,
) -> Result<(), AllocError>
    ensures { OnOk result (words.new.items ≡ words.old.items ++ permissions_words start.now pages.now) }
{
    if pages.has_pages_of(start) {
        return write_word(words, 0);
    }
    let mut past = 0;
    let mut from = 0;
    while let Some(number) = next_of_both(pages, start, from) {
        let old = permission_word(start, number);
        let now = permission_word(pages, number);
        past = write_change(words, past, number, old, now)?;
        from = number + 1;
    }
    write_word(words, 0)
}

/// A word of 8 bytes of a block.
fn word_of(bytes: &[u8], index: u64) -> u64
    requires size { length bytes.now ≡ 64 }
    requires index { index < 8 }
    ensures { result ≡ page_word bytes.now index }
{
    match read_word(bytes, 8 * index as usize, 8) {
        Some(word) => word,
        None => unreachable!(),
    }
}

/// The words of a block of 64 bytes, which begin at one word of memory, where they differ from those at the
/// start. Answers the place past the last one that differs.
fn write_block(
    words: &mut Vec<u64>,
    start: &[u8],
    bytes: &[u8],
    first: u64,
    past: u64,
) -> Result<u64, AllocError>
    requires start { length start.now ≡ 64 }
    requires bytes { length bytes.now ≡ 64 }
    requires order { past ≤ first }
    requires room { first < 2 ^ 62 }
    ensures order { IfOk result (λ last. last ≤ first + 8) }
    ensures written { IfOk result (λ last. (f g : ℕ → ℕ)
        → ((k : ℕ) → k < 8 → f (first + k) ≡ page_word start.now k)
        → ((k : ℕ) → k < 8 → g (first + k) ≡ page_word bytes.now k) → IsWrittenOn f g
        (record { words = words.old.items; past = past; next = first })
        (record { words = words.new.items; past = last; next = first + 8 })) }
{
    if bytes == start {
        return Ok(past);
    }
    let mut last = past;
    for index in 0..8 {
        let old = word_of(start, index);
        let now = word_of(bytes, index);
        last = write_change(words, last, first + index, old, now)?;
    }
    Ok(last)
}

/// The words of a row of 512 bytes, which begin at one word of memory, where they differ from those at the start, block by block. Answers the
/// place past the last one that differs.
fn write_row(
    words: &mut Vec<u64>,
    start: &[u8],
    bytes: &[u8],
    first: u64,
    past: u64,
) -> Result<u64, AllocError>
    requires start { length start.now ≡ 512 }
    requires bytes { length bytes.now ≡ 512 }
    requires order { past ≤ first }
    requires room { first < 2 ^ 62 - 64 }
    ensures order { IfOk result (λ last. last ≤ first + 64) }
    ensures written { IfOk result (λ last. (f g : ℕ → ℕ)
        → ((k : ℕ) → k < 64 → f (first + k) ≡ page_word start.now k)
        → ((k : ℕ) → k < 64 → g (first + k) ≡ page_word bytes.now k) → IsWrittenOn f g
        (record { words = words.old.items; past = past; next = first })
        (record { words = words.new.items; past = last; next = first + 64 })) }
{
    if bytes == start {
        return Ok(past);
    }
    let mut last = past;
    for block in 0..BLOCKS {
        let from = 64 * block;
        let old = &start[from..from + 64];
        let now = &bytes[from..from + 64];
        last = write_block(words, old, now, first + 8 * block as u64, last)?;
    }
    Ok(last)
}

/// The words of a page, which begin at one word of memory, where they differ from those at the start, row by row. Answers the place past the
/// last one that differs.
fn write_page_words(
    words: &mut Vec<u64>,
    start: &[u8],
    bytes: &[u8],
    first: u64,
    past: u64,
) -> Result<u64, AllocError>
    requires start { length start.now ≡ 4096 }
    requires bytes { length bytes.now ≡ 4096 }
    requires order { past ≤ first }
    requires room { first < 2 ^ 61 }
    ensures order { IfOk result (λ last. last ≤ first + 512) }
    ensures written { IfOk result (λ last. (f g : ℕ → ℕ)
        → ((k : ℕ) → k < 512 → f (first + k) ≡ page_word start.now k)
        → ((k : ℕ) → k < 512 → g (first + k) ≡ page_word bytes.now k) → IsWrittenOn f g
        (record { words = words.old.items; past = past; next = first })
        (record { words = words.new.items; past = last; next = first + 512 })) }
{
    let mut last = past;
    for row in 0..ROWS {
        let from = 512 * row;
        let old = &start[from..from + 512];
        let now = &bytes[from..from + 512];
        last = write_row(words, old, now, first + 64 * row as u64, last)?;
    }
    Ok(last)
}

/// The bytes of a page that isn't mapped at the start.
fn no_bytes() -> &'static [u8]
    ensures { result.now ≡ replicate 4096 0 }
{
    &[0; 4096]
}

/// The bytes of a page at the start; zeros where it wasn't mapped.
fn start_bytes(start: &PageMap, number: u64) -> &[u8]
    ensures size { length result.now ≡ 4096 }
    ensures words { (k : ℕ) → k < 512
        → start_word start.now (512 * number + k) ≡ page_word result.now k }
{
    match start.bytes(number) {
        Some(bytes) => bytes,
        None => no_bytes(),
    }
}

/// The words of a page, where they differ from those at the start. A page that isn't mapped has none.
fn write_page(
    words: &mut Vec<u64>,
    pages: &PageMap,
    start: &PageMap,
    number: u64,
    past: u64,
) -> Result<u64, AllocError>
    requires within { number < ALL_PAGES }
    requires order { past ≤ 512 * number }
    ensures order { IfOk result (λ last. last ≤ 512 * number + 512) }
    ensures written { IfOk result (λ last. IsWrittenOn (start_word start.now) (memory_word start.now pages.now)
        (record { words = words.old.items; past = past; next = 512 * number })
        (record { words = words.new.items; past = last; next = 512 * number + 512 })) }
{
    let Some(bytes) = pages.bytes(number) else {
        return Ok(past);
    };
    let old = start_bytes(start, number);
    if bytes == old {
        return Ok(past);
    }
    write_page_words(words, old, bytes, PAGE_WORDS * number, past)
}

/// The words of memory that differ from those at the start.
fn write_memory(words: &mut Vec<u64>, pages: &PageMap, start: &PageMap) -> Result<(), AllocError>
    ensures { OnOk result (words.new.items ≡ words.old.items ++ memory_words start.now pages.now) }
{
    let mut past = 0;
    let mut number = next_written(pages, start, 0);
    while number < ALL_PAGES {
        past = write_page(words, pages, start, number, past)?;
        number = next_written(pages, start, number + 1);
    }
    write_word(words, 0)
}

/// Where the pages of a process differ from those at the start, how many frames are free, and the break.
pub fn write_pages(words: &mut Vec<u64>, pages: &PageMap, start: &PageMap) -> Result<(), AllocError>
    ensures { OnOk result (words.new.items ≡ words.old.items ++ pages_words start.now pages.now) }
{
    write_permissions(words, pages, start)?;
    write_memory(words, pages, start)?;
    write_word(words, u64::from(pages.free()))?;
    write_word(words, pages.break_at())
}
