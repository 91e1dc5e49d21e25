//! A table from the numbers of pages to places.

ghost use Rattle.std.specs.Prelude.{◌≡◌, ℕ, ◌-◌, ◌<◌, ◌≤◌, ◌^◌, ◌==◌, if◌then◌else◌, None, true, IfOk, is_some, length, slice_index, vec_capacity, vec_len};
ghost use Rattle.mach_types.specs.Kernel.Pages.{first_page};
ghost use Rattle.page_map.specs.Layout.{empty_leaf, filled_with, names_with, rows_with};
ghost use Rattle.page_map.specs.Table.{place_in};

use crate::directory::Directory;
use mach_types::address_space::{FIRST_MAPPING_PAGE, PAGE_SIZE, USER_END};
use std::alloc::{AllocError, Global};
use std::marker::Model;

/// How many pages a process can have at most: the addresses of a user end at 2^38.
pub(crate) const PAGES: u64 = USER_END / PAGE_SIZE;

/// How many pages lie in one chunk.
pub(crate) const CHUNK: u64 = 512;

/// How many chunks there are.
pub(crate) const CHUNKS: u64 = PAGES / CHUNK;

/// The leaf that all chunks without a leaf of their own share.
const EMPTY_LEAF: u32 = 0;

/// The places of the pages of a chunk.
type Leaf = [Option<u32>; 512];

/// A table from the numbers of pages, below 2^26, to places. A page is found in three look-ups, however many
/// there are. Each mapping page before `filled_to` has a place, so that a hole is looked for from there on.
#[derive(Drop)]
pub(crate) struct PageTable {
    directory: Directory,
    leaves: Vec<Leaf>,
    filled_to: u64,
}

impl Model for PageTable {
    ghost use Rattle.std.specs.Prelude.{vec_capacity};
    ghost use Rattle.page_map.specs.Layout.{IsFilled, IsTable};
    ghost use Rattle.page_map.specs.Table.{Table};

    ghost Value = { Table };

    ghost view = { λ t. record { directory = t.directory; leaves = t.leaves.items } };

    ghost invariant = { λ t. IsTable t.directory t.leaves.items (vec_capacity t.leaves)
        × IsFilled (record { directory = t.directory; leaves = t.leaves.items }) t.filled_to };
}

impl PageTable {
    /// A table without entries. It has all the memory that it ever takes: room for a leaf of each chunk,
    /// which costs nothing until it is used.
    pub(crate) fn new(alloc: Global) -> Result<PageTable, AllocError>
        ensures empty { IfOk result (λ t. (n : ℕ) → place_in t n ≡ None) }
    {
        let directory = Directory::new(alloc)?;
        let mut leaves = Vec::with_capacity(alloc, CHUNKS as usize + 1)?;
        leaves.push(empty_leaf())?;
        Ok(PageTable {
            directory,
            leaves,
            filled_to: FIRST_MAPPING_PAGE,
        })
    }

    /// A table without entries again. It takes no memory.
    pub(crate) fn clear(&mut self)
        ensures { (n : ℕ) → place_in self.new n ≡ None }
    {
        self.directory.clear();
        self.leaves.clear();
        let _ = self.leaves.push(empty_leaf());
        self.filled_to = FIRST_MAPPING_PAGE;
    }

    /// The place of a page; None exactly where it has none, as each page whose number is 2^26 or more.
    pub(crate) fn get(&self, page: u64) -> Option<u32>
        ensures { result ≡ place_in self.now page }
    {
        if page >= PAGES {
            return None;
        }
        let leaf = self.directory.number((page / CHUNK) as usize);
        self.leaves[leaf as usize][(page % CHUNK) as usize]
    }

    /// Gives a page this place, or none, instead of the one that it had, if any. It takes no memory.
    pub(crate) fn set(&mut self, page: u64, place: Option<u32>)
        requires { page < PAGES }
        ensures { (n : ℕ) → place_in self.new n ≡ (if n == page then place else place_in self.old n) }
    {
        let leaf = own_leaf(
            &mut self.directory,
            &mut self.leaves,
            (page / CHUNK) as usize,
        );
        self.leaves[leaf][(page % CHUNK) as usize] = place;
        self.filled_to = filled_with(self.filled_to, page, place);
    }

    /// The first mapping page that has no place, and `filled_to` moves there. It costs time in the pages from
    /// `filled_to` on that it passes.
    pub(crate) fn pass_filled(&mut self) -> u64
        ensures same { self.new ≡ self.old }
        ensures from { FIRST_MAPPING_PAGE ≤ result }
        ensures filled { (n : ℕ) → FIRST_MAPPING_PAGE ≤ n → n < result
            → is_some (place_in self.old n) ≡ true }
        ensures free { place_in self.old result ≡ None }
    {
        self.filled_to = self.first_free();
        self.filled_to
    }

    /// The first mapping page that has no place, which is `filled_to` or lies past it.
    fn first_free(&self) -> u64
        ensures from { FIRST_MAPPING_PAGE ≤ result }
        ensures filled { (n : ℕ) → FIRST_MAPPING_PAGE ≤ n → n < result
            → is_some (place_in self.now n) ≡ true }
        ensures free { place_in self.now result ≡ None }
    {
        let mut page = self.filled_to;
        while self.get(page).is_some() {
            page += 1;
        }
        page
    }

    /// The first page that has a place, from one page on and before another; None exactly where none has. A
    /// chunk that never had a page is passed over in one step, and so are the 512 chunks of a group of which none
    /// had one.
    pub(crate) fn next(&self, from: u64, end: u64) -> Option<u64>
        requires { end ≤ PAGES }
        ensures { result ≡ first_page (λ n. is_some (place_in self.now n)) from (end - from) }
    {
        let mut page = from;
        while page < end {
            let chunk = (page / CHUNK) as usize;
            if self.directory.number(chunk) == EMPTY_LEAF {
                page = self.directory.past_empty(chunk) as u64 * CHUNK;
            } else if self.get(page).is_some() {
                return Some(page);
            } else {
                page += 1;
            }
        }
        None
    }
}

/// How far the mapping pages have places, once a page has this place, or none.
fn filled_with(filled_to: u64, page: u64, place: Option<u32>) -> u64
    requires { page < PAGES }
    ensures { result ≡ filled_with filled_to page place }
{
    if place.is_some() {
        if page == filled_to {
            page + 1
        } else {
            filled_to
        }
    } else if FIRST_MAPPING_PAGE <= page && page < filled_to {
        page
    } else {
        filled_to
    }
}

/// The leaf of a chunk, which gets one of its own if it has none.
fn own_leaf(directory: &mut Directory, leaves: &mut Vec<Leaf>, chunk: usize) -> usize
    requires chunk { chunk < CHUNKS }
    requires room { slice_index directory.old chunk ≡ 0 → vec_len leaves.old < vec_capacity leaves.old }
    requires numbers { slice_index directory.old chunk ≡ 0 → vec_len leaves.old < 2 ^ 32 }
    ensures directory { directory.new ≡ names_with directory.old (length leaves.old.items) chunk }
    ensures leaves { leaves.new.items ≡ rows_with directory.old leaves.old.items empty_leaf chunk }
    ensures leaf { result ≡ slice_index directory.new chunk }
    ensures capacity { vec_capacity leaves.old ≤ vec_capacity leaves.new }
{
    if directory.number(chunk) == EMPTY_LEAF {
        directory.set(chunk, leaves.len() as u32);
        let _ = leaves.push(empty_leaf());
    }
    directory.number(chunk) as usize
}

/// A leaf without entries.
fn empty_leaf() -> Leaf
    ensures { result ≡ empty_leaf }
{
    [None; 512]
}
