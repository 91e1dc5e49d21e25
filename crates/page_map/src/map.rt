//! The pages of a process, each with a frame of its own.

ghost use Rattle.std.specs.Prelude.{List, ◌≡◌, ◌⊎◌, ◌==◌, ◌&&◌, ◌≤◌, ℕ, ◌+◌, ◌-◌, ◌*◌, ◌/◌, ◌%◌, ◌<◌, if◌then◌else◌, [], ◌++◌, ◌∷◌, Some, None, true, false, IfOk, IfSome, IsSome, is_some, length, replicate, slice_get, slice_index, slice_set, vec_capacity, vec_len};
ghost use Rattle.std.specs.Bool.{OnTrue};
ghost use Rattle.std.specs.Option.{option_copied, option_map};
ghost use Rattle.byte_views.specs.Words.{with_word};
ghost use Rattle.mach_types.specs.Bytes.{IsAccessSize};
ghost use Rattle.mach_types.specs.Kernel.Pages.{can_execute, can_read, can_write, first_page, pages_of, permission_of};
ghost use Rattle.elf_load.specs.Images.{IsPermission};
ghost use Rattle.elf_load.specs.Start.{start_runs};
ghost use Rattle.elf_load.specs.declared.image.ImagePage.{ImagePage};
ghost use Rattle.frame_pool.specs.Held.{AreHeld};
ghost use Rattle.frame_pool.specs.Pool.{IsTaken, free_count, fresh};
ghost use Rattle.page_map.specs.Map.{Page, break_in, break_start_in, bytes_if, first_bytes, frame_bytes, frames_in, free_in, page_at, page_in, page_with, page_with_words, permission_in, protected_page, with_words, zero_page, zeroed_page};
ghost use Rattle.page_map.specs.Mapping.{CanLie, IsGap, frames_of};
ghost use Rattle.page_map.specs.Copying.{StandAlike};
ghost use Rattle.page_map.specs.Starting.{AreLaidOut, StandsWith};

use crate::mapped_page::MappedPage;
use crate::table::PageTable;
use byte_views::write_word;
use frame_pool::{Frame, FramePool};
use mach_types::address_space::{FIRST_MAPPING_PAGE, FIRST_STACK_PAGE, MAPPING_START, PAGE_SIZE};
use std::alloc::{AllocError, Global};
use std::marker::Model;

/// The bit of a permission to read.
pub(crate) const READ: u8 = 4;

/// The bit of a permission to write.
pub(crate) const WRITE: u8 = 2;

/// The bit of a permission to execute.
pub(crate) const EXECUTE: u8 = 1;

/// The pages of a process that are mapped, by number, and its break. It holds their frames, and all frames
/// that are free.
///
/// A page that can be written can be read and can't be executed, and no page lies between the stack and the
/// page that signal handlers return to.
pub struct PageMap {
    pool: FramePool,
    mapped: Vec<MappedPage>,
    table: PageTable,
    break_at: u64,
    break_start: u64,
}

impl Model for PageMap {
    ghost use Rattle.std.specs.Prelude.{vec_capacity};
    ghost use Rattle.page_map.specs.Map.{Map};
    ghost use Rattle.page_map.specs.Mapping.{IsMap};

    ghost Value = { Map };

    ghost view = { λ m.
        record {
          pool = m.pool;
          mapped = m.mapped.items;
          table = m.table;
          break_at = m.break_at;
          break_start = m.break_start;
        } };

    ghost invariant = { λ m. IsMap
        (record {
          pool = m.pool;
          mapped = m.mapped.items;
          table = m.table;
          break_at = m.break_at;
          break_start = m.break_start;
        })
        (vec_capacity m.mapped) };
}

impl Drop for PageMap {
    fn drop(self) {
        let PageMap {
            pool,
            mapped,
            table: _table,
            break_at: _break_at,
            break_start: _break_start,
        } = self;
        give_all(pool, mapped);
    }
}

/// Gives the frames of pages back to their pool, and frees the list of the pages.
fn give_all(mut pool: FramePool, mut mapped: Vec<MappedPage>)
    requires { AreHeld pool (frames_of mapped.items) }
{
    give_back(&mut pool, &mut mapped);
    mapped.destroy_empty();
}

/// Gives the frames of pages back to their pool, those of the last pages first.
fn give_back(pool: &mut FramePool, mapped: &mut Vec<MappedPage>)
    requires { AreHeld pool.old (frames_of mapped.old.items) }
    ensures mapped { mapped.new.items ≡ [] }
    ensures capacity { vec_capacity mapped.new ≡ vec_capacity mapped.old }
    ensures free { free_count pool.new ≡ free_count pool.old + length mapped.old.items }
{
    while let Some(page) = mapped.pop() {
        pool.give(page.into_frame());
    }
}

impl PageMap {
    /// No pages, over a pool, with this break, which is the lowest one. It has all the memory that it ever
    /// takes.
    pub(crate) fn empty(
        alloc: Global,
        pool: FramePool,
        break_at: u64,
    ) -> Result<PageMap, AllocError>
        requires { break_at ≤ MAPPING_START }
        ensures pages { IfOk result (λ m. (n : ℕ) → page_in m n ≡ None) }
        ensures free { IfOk result (λ m. free_in m ≡ free_count pool) }
        ensures break_at { IfOk result (λ m. break_in m ≡ break_at) }
        ensures break_start { IfOk result (λ m. break_start_in m ≡ break_at) }
    {
        let frames = pool.free();
        let table = PageTable::new(alloc)?;
        let mapped = Vec::with_capacity(alloc, frames as usize)?;
        Ok(PageMap {
            pool,
            mapped,
            table,
            break_at,
            break_start: break_at,
        })
    }

    /// No pages again, with this break, which is the lowest one. All frames are free, and no memory is taken.
    pub(crate) fn clear(&mut self, break_at: u64)
        requires { break_at ≤ MAPPING_START }
        ensures pages { (n : ℕ) → page_in self.new n ≡ None }
        ensures free { free_in self.new ≡ frames_in self.old }
        ensures break_at { break_in self.new ≡ break_at }
        ensures break_start { break_start_in self.new ≡ break_at }
    {
        give_back(&mut self.pool, &mut self.mapped);
        self.table.clear();
        self.break_at = break_at;
        self.break_start = break_at;
    }

    /// Maps a page with these bytes, or with zeros where there are none.
    pub(crate) fn add(&mut self, number: u64, permission: u8, bytes: Option<&[u8]>)
        requires number { CanLie (break_start_in self.old) (break_in self.old) number permission }
        requires permission { IsPermission permission }
        requires bytes { IfSome bytes (λ given. length given.now ≡ 4096) }
        requires free { 0 < free_in self.old }
        requires unmapped { page_in self.old number ≡ None }
        ensures pages { (n : ℕ) → page_in self.new n
            ≡ (if n == number then Some (record { permission = permission; bytes = first_bytes (option_copied bytes.entry) })
            else page_in self.old n) }
        ensures free { free_in self.new + 1 ≡ free_in self.old }
        ensures break_at { break_in self.new ≡ break_in self.old }
        ensures break_start { break_start_in self.new ≡ break_start_in self.old }
        ensures small { IfSome bytes.entry (λ given. (k : ℕ) → slice_index given.now k < 256) }
    {
        let frame = filled(&mut self.pool, bytes);
        let place = self.mapped.len() as u32;
        keep(
            &mut self.mapped,
            MappedPage {
                number,
                frame,
                permission,
            },
        );
        self.table.set(number, Some(place));
    }

    /// How many pages are mapped.
    pub(crate) fn count(&self) -> usize
        ensures { result ≡ length self.now.mapped }
    {
        self.mapped.len()
    }

    /// Whether a page with this number and this permission stands at a place of the list.
    pub(crate) fn has_at(&self, place: usize, number: u64, permission: u8) -> bool
        ensures { OnTrue result (StandsWith self.now.mapped place number permission) }
    {
        if place >= self.mapped.len() {
            return false;
        }
        let page = &self.mapped[place];
        page.has(number, permission)
    }

    /// Whether the same pages are mapped as in another page map, with the same permissions, in the same order.
    pub(crate) fn stands_as(&self, other: &PageMap) -> bool
        ensures { OnTrue result (StandAlike self.now.mapped other.now.mapped) }
    {
        stand_alike(&self.mapped, &other.mapped)
    }

    /// The bytes of the page at a place of the list.
    pub(crate) fn bytes_at(&self, place: usize) -> &[u8]
        requires { place < length self.now.mapped }
        ensures page { (n permission : ℕ) → StandsWith self.now.mapped place n permission
            → page_in self.now n ≡ Some (record { permission = permission; bytes = result.now }) }
        ensures size { length result.now ≡ 4096 }
    {
        let page = &self.mapped[place];
        self.pool.bytes(&page.frame)
    }

    /// The number of the page at a place of the list.
    pub(crate) fn number_at(&self, place: usize) -> u64
        requires { place < length self.now.mapped }
        ensures { (n permission : ℕ) → StandsWith self.now.mapped place n permission → n ≡ result }
    {
        self.mapped[place].number
    }

    /// Whether the page at a place of the list has zero bytes because nothing has written it. It looks at none
    /// of its bytes.
    pub(crate) fn is_fresh_at(&self, place: usize) -> bool
        requires { place < length self.now.mapped }
        ensures { OnTrue result ((n permission : ℕ) → StandsWith self.now.mapped place n permission
            → page_in self.now n ≡ Some (record { permission = permission; bytes = fresh })) }
    {
        let page = &self.mapped[place];
        self.pool.is_fresh(&page.frame)
    }

    /// It does nothing; its clauses say that the pages which are mapped are those that stand in the list.
    pub(crate) fn has_places(&self)
        ensures placed { (n : ℕ) → (page_in self.now n ≡ None)
            ⊎ ((i : ℕ) × (permission : ℕ) × StandsWith self.now.mapped i n permission) }
        ensures there { (i n permission : ℕ) → StandsWith self.now.mapped i n permission
            → permission_in self.now n ≡ Some permission }
    {
        let _ = &self.pool;
    }

    /// It does nothing; its clause says that pages which stand as a start maps them have the permissions of the
    /// start.
    pub(crate) fn has_start(&self)
        ensures { (pages : List ImagePage) → AreLaidOut pages self.now.mapped
            → (n : ℕ) → permission_in self.now n ≡ permission_of (start_runs pages) n }
    {
        let _ = &self.pool;
    }

    /// All pages that are mapped have zero bytes.
    pub(crate) fn zero_pages(&mut self)
        ensures pages { (n : ℕ) → page_in self.new n ≡ option_map zero_page (permission_in self.old n) }
        ensures mapped { self.new.mapped ≡ self.old.mapped }
        ensures free { free_in self.new ≡ free_in self.old }
        ensures break_at { break_in self.new ≡ break_in self.old }
        ensures break_start { break_start_in self.new ≡ break_start_in self.old }
    {
        self.pool.zero_taken();
    }

    /// Writes all bytes of the page at a place of the list.
    pub(crate) fn fill_at(&mut self, place: usize, bytes: &[u8])
        requires place { place < length self.old.mapped }
        requires size { length bytes.now ≡ 4096 }
        ensures pages { (n number permission : ℕ) → StandsWith self.old.mapped place number permission
            → page_in self.new n
            ≡ (if n == number then Some (record { permission = permission; bytes = bytes.now })
            else page_in self.old n) }
        ensures small { (k : ℕ) → slice_index bytes.now k < 256 }
        ensures mapped { self.new.mapped ≡ self.old.mapped }
        ensures free { free_in self.new ≡ free_in self.old }
        ensures break_at { break_in self.new ≡ break_in self.old }
        ensures break_start { break_start_in self.new ≡ break_start_in self.old }
    {
        let page = &self.mapped[place];
        write_whole(&mut self.pool, &page.frame, bytes);
    }

    /// The page at a place of the list has zero bytes again.
    pub(crate) fn zero_at(&mut self, place: usize)
        requires { place < length self.old.mapped }
        ensures pages { (n number permission : ℕ) → StandsWith self.old.mapped place number permission
            → page_in self.new n
            ≡ (if n == number then Some (record { permission = permission; bytes = fresh })
            else page_in self.old n) }
        ensures mapped { self.new.mapped ≡ self.old.mapped }
        ensures free { free_in self.new ≡ free_in self.old }
        ensures break_at { break_in self.new ≡ break_in self.old }
        ensures break_start { break_start_in self.new ≡ break_start_in self.old }
    {
        let page = &self.mapped[place];
        self.pool.zero(&page.frame);
    }

    /// Maps a page no longer. The last page of the list takes its place there.
    pub(crate) fn remove(&mut self, number: u64)
        requires { IsSome (page_in self.old number) }
        ensures pages { (n : ℕ) → page_in self.new n ≡ (if n == number then None else page_in self.old n) }
        ensures free { free_in self.new ≡ free_in self.old + 1 }
        ensures break_at { break_in self.new ≡ break_in self.old }
        ensures break_start { break_start_in self.new ≡ break_start_in self.old }
    {
        match self.table.get(number) {
            Some(place) => {
                let last = self.mapped[self.mapped.len() - 1].number;
                self.table.set(last, Some(place));
                self.table.set(number, None);
                let page = self.mapped.swap_remove(place as usize);
                self.pool.give(page.into_frame());
            }
            None => unreachable!(),
        }
    }

    /// Gives a page that is mapped another permission, by which it can't be executed.
    pub(crate) fn set_permission(&mut self, number: u64, permission: u8)
        requires mapped { IsSome (page_in self.old number) }
        requires permission { IsPermission permission }
        requires code { can_execute (Some permission) ≡ false }
        ensures pages { (n : ℕ) → page_in self.new n
            ≡ (if n == number then option_map (protected_page permission) (page_in self.old n)
            else page_in self.old n) }
        ensures free { free_in self.new ≡ free_in self.old }
        ensures break_at { break_in self.new ≡ break_in self.old }
        ensures break_start { break_start_in self.new ≡ break_start_in self.old }
    {
        match self.table.get(number) {
            Some(place) => self.mapped[place as usize].permission = permission,
            None => unreachable!(),
        }
    }

    /// Makes all bytes of a page that is mapped zero.
    pub(crate) fn zero_page(&mut self, number: u64)
        requires { IsSome (page_in self.old number) }
        ensures pages { (n : ℕ) → page_in self.new n
            ≡ (if n == number then option_map zeroed_page (page_in self.old n) else page_in self.old n) }
        ensures free { free_in self.new ≡ free_in self.old }
        ensures break_at { break_in self.new ≡ break_in self.old }
        ensures break_start { break_start_in self.new ≡ break_start_in self.old }
    {
        match self.table.get(number) {
            Some(place) => {
                let page = &self.mapped[place as usize];
                self.pool.zero_frame(&page.frame);
            }
            None => unreachable!(),
        }
    }

    /// Sets the break, past which no page is mapped below the mappings.
    pub(crate) fn set_break(&mut self, at: u64)
        requires from { break_start_in self.old ≤ at }
        requires to { at ≤ MAPPING_START }
        requires past { (n : ℕ) → pages_of at ≤ n → n < FIRST_MAPPING_PAGE → page_in self.old n ≡ None }
        ensures pages { (n : ℕ) → page_in self.new n ≡ page_in self.old n }
        ensures free { free_in self.new ≡ free_in self.old }
        ensures break_at { break_in self.new ≡ at }
        ensures break_start { break_start_in self.new ≡ break_start_in self.old }
    {
        self.break_at = at;
    }

    /// The first page that is mapped, from one page on and before another; None exactly where none is.
    pub(crate) fn next_mapped(&self, from: u64, end: u64) -> Option<u64>
        requires { end ≤ 67108864 }
        ensures { result ≡ first_page (λ n. is_some (permission_in self.now n)) from (end - from) }
    {
        self.table.next(from, end)
    }

    /// The first mapping page that isn't mapped, or the first page of the stack where each is. It changes
    /// only how soon that page is found.
    pub(crate) fn first_unmapped(&mut self) -> u64
        ensures same { self.new ≡ self.old }
        ensures from { FIRST_MAPPING_PAGE ≤ result }
        ensures end { result ≤ FIRST_STACK_PAGE }
        ensures filled { (n : ℕ) → FIRST_MAPPING_PAGE ≤ n → n < result
            → is_some (permission_in self.old n) ≡ true }
        ensures free { result < FIRST_STACK_PAGE → permission_in self.old result ≡ None }
    {
        self.table.pass_filled().min(FIRST_STACK_PAGE)
    }

    /// The frame and the permission of a page, where it is mapped.
    pub(crate) fn find(&self, number: u64) -> Option<&MappedPage>
        ensures page { option_map (page_at self.now.pool) (option_copied result) ≡ page_in self.now number }
        ensures taken { IfSome result (λ p. IsTaken self.now.pool p.now.frame) }
        ensures permission { IfSome result (λ p. IsPermission p.now.permission) }
    {
        let place = self.table.get(number)?;
        Some(&self.mapped[place as usize])
    }

    /// Whether a page is mapped.
    pub(crate) fn is_page(&self, number: u64) -> bool
        ensures { result ≡ is_some (permission_in self.now number) }
    {
        self.table.get(number).is_some()
    }

    /// The permission of the page of an address: 4 to read, 2 to write, 1 to execute; None exactly where no
    /// page is.
    pub fn perm(&self, at: u64) -> Option<u8>
        ensures { result ≡ permission_in self.now (at / 4096) }
    {
        Some(self.find(at / PAGE_SIZE)?.permission)
    }

    /// The bytes of a page whose permission has a bit.
    #[inline]
    pub(crate) fn bytes_if(&self, bit: u8, number: u64) -> Option<&[u8]>
        ensures bytes { option_copied result ≡ bytes_if bit (page_in self.now number) }
        ensures size { IfSome result (λ bytes. length bytes.now ≡ 4096) }
    {
        let page = self.find(number)?;
        if page.permission & bit != 0 {
            Some(self.pool.bytes(&page.frame))
        } else {
            None
        }
    }

    /// The bytes of a page, where it is mapped, whether or not they can be read.
    pub fn bytes(&self, number: u64) -> Option<&[u8]>
        ensures bytes { option_copied result ≡ option_map (λ (p : Page). p.bytes) (page_in self.now number) }
        ensures size { IfSome result (λ bytes. length bytes.now ≡ 4096) }
    {
        let page = self.find(number)?;
        Some(self.pool.bytes(&page.frame))
    }

    /// Whether a page that is mapped has zero bytes because nothing has written it. It looks at none of its
    /// bytes, and is false of a page that was written, with whatever bytes.
    pub fn is_fresh(&self, number: u64) -> bool
        ensures { OnTrue result (option_map (λ (p : Page). p.bytes) (page_in self.now number)
            ≡ Some (replicate 4096 0)) }
    {
        match self.find(number) {
            Some(page) => self.pool.is_fresh(&page.frame),
            None => false,
        }
    }

    /// Writes the low `size` bytes of `value`, the lowest first, in a page that is mapped.
    pub(crate) fn write_in_page(&mut self, at: u64, size: u8, value: u64)
        requires size { IsAccessSize size }
        requires page { at % 4096 + size ≤ 4096 }
        requires mapped { IsSome (page_in self.old (at / 4096)) }
        ensures pages { (n : ℕ) → page_in self.new n
            ≡ (if n == at / 4096 then option_map (page_with (at % 4096) size value) (page_in self.old n)
            else page_in self.old n) }
        ensures free { free_in self.new ≡ free_in self.old }
        ensures break_at { break_in self.new ≡ break_in self.old }
        ensures break_start { break_start_in self.new ≡ break_start_in self.old }
        ensures size { IfSome (page_in self.old (at / 4096)) (λ p. length p.bytes ≡ 4096) }
        ensures permission { IfSome (page_in self.old (at / 4096)) (λ p. IsPermission p.permission) }
    {
        match self.table.get(at / PAGE_SIZE) {
            Some(place) => {
                let page = &self.mapped[place as usize];
                write_frame(
                    &mut self.pool,
                    &page.frame,
                    (at % PAGE_SIZE) as usize,
                    size,
                    value,
                );
            }
            None => unreachable!(),
        }
    }

    /// Writes words of 8 bytes, one behind the other, in a page that is mapped.
    pub(crate) fn write_words_in_page(&mut self, at: u64, words: &[u64])
        requires page { at % 4096 + 8 * length words.now ≤ 4096 }
        requires mapped { IsSome (page_in self.old (at / 4096)) }
        ensures pages { (n : ℕ) → page_in self.new n
            ≡ (if n == at / 4096 then option_map (page_with_words (at % 4096) words.now) (page_in self.old n)
            else page_in self.old n) }
        ensures free { free_in self.new ≡ free_in self.old }
        ensures break_at { break_in self.new ≡ break_in self.old }
        ensures break_start { break_start_in self.new ≡ break_start_in self.old }
        ensures size { IfSome (page_in self.old (at / 4096)) (λ p. length p.bytes ≡ 4096) }
        ensures permission { IfSome (page_in self.old (at / 4096)) (λ p. IsPermission p.permission) }
    {
        match self.table.get(at / PAGE_SIZE) {
            Some(place) => {
                let page = &self.mapped[place as usize];
                write_frame_words(
                    &mut self.pool,
                    &page.frame,
                    (at % PAGE_SIZE) as usize,
                    words,
                );
            }
            None => unreachable!(),
        }
    }

    /// It does nothing; its clauses say what each page map keeps.
    pub fn keeps(&self)
        ensures writable { (n : ℕ) → can_write (permission_in self.now n) ≡ true
            → (can_read (permission_in self.now n) ≡ true)
            × (can_execute (permission_in self.now n) ≡ false) }
        ensures gap { (n : ℕ) → IsGap n → permission_in self.now n ≡ None }
        ensures past_break { (n : ℕ) → pages_of (break_in self.now) ≤ n → n < FIRST_MAPPING_PAGE
            → page_in self.now n ≡ None }
        ensures data { (n : ℕ) → pages_of (break_start_in self.now) ≤ n → n < FIRST_MAPPING_PAGE
            → can_execute (permission_in self.now n) ≡ false }
        ensures break_from { break_start_in self.now ≤ break_in self.now }
        ensures break_to { break_in self.now ≤ MAPPING_START }
    {
        let _ = &self.pool;
    }

    /// How many frames are free.
    pub fn free(&self) -> u32
        ensures { result ≡ free_in self.now }
    {
        self.pool.free()
    }

    /// How many frames there are: those that are free, and those of the pages.
    pub fn frames(&self) -> u32
        ensures { result ≡ frames_in self.now }
    {
        self.pool.free() + self.mapped.len() as u32
    }

    /// The break: the first address behind the data of the process.
    pub fn break_at(&self) -> u64
        ensures { result ≡ break_in self.now }
    {
        self.break_at
    }

    /// The lowest break, where the data ended with which the process started.
    pub fn break_start(&self) -> u64
        ensures { result ≡ break_start_in self.now }
    {
        self.break_start
    }
}

/// A frame of the pool, which is now taken, with these bytes, or with zeros where there are none.
fn filled(pool: &mut FramePool, bytes: Option<&[u8]>) -> Frame
    requires free { 0 < free_count pool.old }
    requires size { IfSome bytes (λ given. length given.now ≡ 4096) }
    ensures was_free { slice_get pool.old result ≡ Some None }
    ensures taken { pool.new ≡ slice_set pool.old result (Some (first_bytes (option_copied bytes.entry))) }
    ensures small { IfSome bytes.entry (λ given. (k : ℕ) → slice_index given.now k < 256) }
{
    let Some(frame) = pool.take() else {
        unreachable!()
    };
    fill(pool, &frame, bytes);
    frame
}

/// Writes the bytes of a page, if there are some, into a frame, which is zero.
fn fill(pool: &mut FramePool, frame: &Frame, bytes: Option<&[u8]>)
    requires zero { slice_get pool.old frame.now ≡ Some (Some fresh) }
    requires size { IfSome bytes (λ given. length given.now ≡ 4096) }
    ensures filled { pool.new ≡ slice_set pool.old frame.now (Some (first_bytes (option_copied bytes.entry))) }
    ensures small { IfSome bytes.entry (λ given. (k : ℕ) → slice_index given.now k < 256) }
{
    match bytes {
        Some(bytes) => write_whole(pool, frame, bytes),
        None => {}
    }
}

/// Writes all bytes of a frame.
fn write_whole(pool: &mut FramePool, frame: &Frame, bytes: &[u8])
    requires taken { IsTaken pool.old frame.now }
    requires size { length bytes.now ≡ 4096 }
    ensures written { pool.new ≡ slice_set pool.old frame.now (Some bytes.now) }
    ensures small { (k : ℕ) → slice_index bytes.now k < 256 }
{
    pool.fill(frame, bytes);
}

/// Whether two lists have the same pages with the same permissions, in the same order.
fn stand_alike(pages: &[MappedPage], others: &[MappedPage]) -> bool
    ensures { OnTrue result (StandAlike pages.now others.now) }
{
    if pages.len() != others.len() {
        return false;
    }
    for place in 0..pages.len() {
        let other = &others[place];
        if !pages[place].has(other.number, other.permission) {
            return false;
        }
    }
    true
}

/// Appends a page, for which there is room.
fn keep(mapped: &mut Vec<MappedPage>, page: MappedPage)
    requires { vec_len mapped.old < vec_capacity mapped.old }
    ensures items { mapped.new.items ≡ mapped.old.items ++ page ∷ [] }
    ensures capacity { vec_capacity mapped.old ≤ vec_capacity mapped.new }
{
    match mapped.push(page) {
        Ok(()) => {}
        Err(_) => unreachable!(),
    }
}

/// Writes the low `size` bytes of `value` into a frame, the lowest first.
fn write_frame(pool: &mut FramePool, frame: &Frame, at: usize, size: u8, value: u64)
    requires taken { IsTaken pool.old frame.now }
    requires size { IsAccessSize size }
    requires within { at + size ≤ 4096 }
    ensures written { pool.new
        ≡ slice_set pool.old frame.now
        (Some (with_word (frame_bytes (slice_get pool.old frame.now)) at size value)) }
    ensures whole { length (frame_bytes (slice_get pool.old frame.now)) ≡ 4096 }
{
    let _ = write_word(pool.bytes_mut(frame), at, size as usize, value);
}

/// Writes words of 8 bytes into a frame, one behind the other.
fn write_frame_words(pool: &mut FramePool, frame: &Frame, at: usize, words: &[u64])
    requires taken { IsTaken pool.old frame.now }
    requires within { at + 8 * length words.now ≤ 4096 }
    ensures written { pool.new
        ≡ slice_set pool.old frame.now
        (Some (with_words (frame_bytes (slice_get pool.old frame.now)) at words.now)) }
    ensures whole { length (frame_bytes (slice_get pool.old frame.now)) ≡ 4096 }
{
    put_words(pool.bytes_mut(frame), at, words);
}

/// Writes words of 8 bytes from a place on, one behind the other.
fn put_words(bytes: &mut [u8], at: usize, words: &[u64])
    requires { at + 8 * length words.now ≤ length bytes.old }
    ensures { bytes.new ≡ with_words bytes.old at words.now }
{
    for (k, word) in words.iter().enumerate() {
        let _ = write_word(bytes, at + 8 * k, 8, *word);
    }
}
