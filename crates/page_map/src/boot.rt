//! The pages of a process at its start.

ghost use Rattle.std.specs.Prelude.{◌≡◌, ℕ, ◌+◌, ◌*◌, ◌/◌, ◌%◌, ◌<◌, ◌≤◌, ◌==◌, true, if◌then◌else◌, Some, None, All, IfOk, IfSome, is_some, length, slice_index};
ghost use Rattle.std.specs.List.Sorted.{IsStrictlyIncreasing};
ghost use Rattle.std.specs.Option.{option_map};
ghost use Rattle.mach_types.specs.Bytes.{overlay};
ghost use Rattle.mach_types.specs.Kernel.Pages.{can_read, is_in, pages_of, permission_of};
ghost use Rattle.elf_load.specs.Images.{IsBootable, IsPermission, numbers};
ghost use Rattle.elf_load.specs.Start.{code_byte, program_of, return_byte, start_byte, start_runs, stack_run, start_words, stored_from};
ghost use Rattle.frame_pool.specs.Pool.{free_count, fresh};
ghost use Rattle.page_map.specs.Map.{break_in, break_start_in, byte_in, can_write_in, code_in, frames_in, free_in, held_in, page_in, permission_in};
ghost use Rattle.page_map.specs.Starting.{IsStartPage, IsStarted, image_page, stack_page};

use crate::map::PageMap;
use byte_views::write_word;
use elf_load::{Image, ImagePage};
use frame_pool::FramePool;
use mach_types::address_space::{
    FIRST_STACK_PAGE, NAME_AT, PAGE_SIZE, RETURN_PAGE, STACK_PAGES, START_SP,
};
use std::alloc::{AllocError, Global};

/// The permission of the stack's pages: to read and to write.
pub(crate) const STACK_PERMISSION: u8 = 6;

/// The number of the page behind the stack.
const STACK_END: u64 = FIRST_STACK_PAGE + STACK_PAGES;

/// The permission of the page that signal handlers return to: to read and to execute.
pub(crate) const RETURN_PERMISSION: u8 = 5;

/// The program's name as a word.
const NAME: u64 = 0x74_7365_7567;

/// The bytes of an empty page.
fn zeros() -> [u8; 4096]
    ensures { result ≡ fresh }
{
    [0; 4096]
}

/// The word of `addi x17, x0, 139` and `ecall`, by which a signal handler returns.
const RETURN_CALL: u64 = 0x0000_0073_08B0_0893;

/// The bytes of the page that signal handlers return to: [`RETURN_CALL`] twice, and zeros.
pub(crate) fn return_bytes() -> [u8; 4096]
    ensures long { length result ≡ 4096 }
    ensures bytes { (k : ℕ) → slice_index result k ≡ return_byte k }
{
    let mut bytes = zeros();
    let _ = write_word(&mut bytes, 0, 8, RETURN_CALL);
    let _ = write_word(&mut bytes, 8, 8, RETURN_CALL);
    bytes
}

/// The words that stand on the stack from the stack pointer on: the argument count, the arguments and the
/// environment with their ends, and the auxiliary vector.
fn stack_words(image: &Image) -> [u64; 22]
    ensures { result ≡ start_words (program_of image.now) }
{
    [
        1,
        NAME_AT,
        0,
        0,
        3,
        image.phdr,
        4,
        56,
        5,
        u64::from(image.phnum),
        6,
        PAGE_SIZE,
        9,
        image.entry,
        25,
        NAME_AT + 16,
        27,
        28,
        28,
        32,
        0,
        0,
    ]
}

impl PageMap {
    /// The pages with which a loaded program starts: its own, the stack with what the kernel writes on it
    /// (System V ABI, "Process Initialization"), and the page that signal handlers return to (own). The other
    /// frames of the pool stay free. It has all the memory that it ever takes.
    ///
    /// The image must be such as `elf_load`'s `load` gives: it has a page, its pages rise in number and lie
    /// below page 33,554,432 and none at address 0, each has 4,096 bytes and a permission by which it isn't
    /// both written and executed, the break is the end of the highest, and the entry is a multiple of 4.
    /// The pool must have 65 free frames more than the image has pages: the stack's 64, and one for the
    /// page that handlers return to.
    pub fn boot(alloc: Global, pool: FramePool, image: &Image) -> Result<PageMap, AllocError>
        requires { IsBootable (free_count pool) image.now }
        ensures permissions { IfOk result (λ m. (n : ℕ) → permission_in m n
            ≡ permission_of (start_runs image.now.pages.items) n) }
        ensures bytes { IfOk result (λ m. (a : ℕ) → byte_in m a
            ≡ (if can_read (permission_of (start_runs image.now.pages.items) (a / 4096))
            then Some (start_byte (program_of image.now) a) else None)) }
        ensures held { IfOk result (λ m. (a : ℕ) → held_in m a
            ≡ (if is_some (permission_of (start_runs image.now.pages.items) (a / 4096))
            then Some (start_byte (program_of image.now) a) else None)) }
        ensures code { IfOk result (λ m. (a : ℕ) → code_in m a ≡ code_byte image.now.pages.items a) }
        ensures free { IfOk result (λ m. free_in m + 65 + length image.now.pages.items ≡ free_count pool) }
        ensures break_at { IfOk result (λ m. break_in m ≡ image.now.break_at) }
        ensures break_start { IfOk result (λ m. break_start_in m ≡ image.now.break_at) }
    {
        let mut map = PageMap::empty(alloc, pool, image.break_at)?;
        map.lay_out(image);
        map.write_start(image);
        Ok(map)
    }

    /// The pages with which a loaded program starts, as [`PageMap::boot`] maps them, in place of all that are
    /// mapped. It takes no memory.
    ///
    /// The image must be such as `boot` takes, where there are 65 frames more than it has pages.
    pub fn reset(&mut self, image: &Image)
        requires { IsBootable (frames_in self.old) image.now }
        ensures permissions { (n : ℕ) → permission_in self.new n
            ≡ permission_of (start_runs image.now.pages.items) n }
        ensures bytes { (a : ℕ) → byte_in self.new a
            ≡ (if can_read (permission_of (start_runs image.now.pages.items) (a / 4096))
            then Some (start_byte (program_of image.now) a) else None) }
        ensures held { (a : ℕ) → held_in self.new a
            ≡ (if is_some (permission_of (start_runs image.now.pages.items) (a / 4096))
            then Some (start_byte (program_of image.now) a) else None) }
        ensures code { (a : ℕ) → code_in self.new a ≡ code_byte image.now.pages.items a }
        ensures free { free_in self.new + 65 + length image.now.pages.items ≡ frames_in self.old }
        ensures break_at { break_in self.new ≡ image.now.break_at }
        ensures break_start { break_start_in self.new ≡ image.now.break_at }
    {
        self.lay_out_again(image);
        self.write_start(image);
    }

    /// Writes what the kernel writes on the stack of a program, whose pages are mapped.
    fn write_start(&mut self, image: &Image)
        requires { (n : ℕ) → IsStartPage image.now.pages.items n (page_in self.old n) }
        ensures started { IsStarted image.now self.new }
        ensures free { free_in self.new ≡ free_in self.old }
        ensures break_at { break_in self.new ≡ break_in self.old }
        ensures break_start { break_start_in self.new ≡ break_start_in self.old }
    {
        let words = stack_words(image);
        self.write_words(START_SP, &words);
        self.write_words(NAME_AT, &[NAME]);
    }

    /// Maps the pages of an image, the stack, and the page that signal handlers return to.
    pub(crate) fn lay_out(&mut self, image: &Image)
        requires image { IsBootable (free_in self.old) image.now }
        requires empty { (n : ℕ) → page_in self.old n ≡ None }
        requires break_at { break_in self.old ≡ image.now.break_at }
        requires break_start { break_start_in self.old ≡ image.now.break_at }
        ensures pages { (n : ℕ) → IsStartPage image.now.pages.items n (page_in self.new n) }
        ensures free { free_in self.new + 65 + length image.now.pages.items ≡ free_in self.old }
        ensures break_at { break_in self.new ≡ break_in self.old }
        ensures break_start { break_start_in self.new ≡ break_start_in self.old }
    {
        self.add_image(&image.pages);
        self.add(RETURN_PAGE, RETURN_PERMISSION, Some(&return_bytes()));
        self.add_stack();
    }

    /// Maps the pages of an image.
    fn add_image(&mut self, pages: &[ImagePage])
        requires rising { IsStrictlyIncreasing (numbers pages.now) }
        requires below { All (λ page. page.number < 33554432) pages.now }
        requires below_break { All (λ page. page.number < pages_of (break_in self.old)) pages.now }
        requires below_start { All (λ page. page.number < pages_of (break_start_in self.old)) pages.now }
        requires sizes { All (λ page. length page.bytes ≡ 4096) pages.now }
        requires permissions { All (λ page. IsPermission page.perm) pages.now }
        requires free { length pages.now ≤ free_in self.old }
        requires empty { (n : ℕ) → page_in self.old n ≡ None }
        ensures pages { (n : ℕ) → page_in self.new n ≡ image_page pages.now n }
        ensures small { (n : ℕ) → IfSome (page_in self.new n) (λ p. (k : ℕ) → slice_index p.bytes k < 256) }
        ensures free { free_in self.new + length pages.now ≡ free_in self.old }
        ensures break_at { break_in self.new ≡ break_in self.old }
        ensures break_start { break_start_in self.new ≡ break_start_in self.old }
    {
        for page in pages {
            self.add(page.number, page.perm, Some(&page.bytes));
        }
    }

    /// Maps the pages of the stack, all zero, the highest first: those that are used first get the first frames.
    fn add_stack(&mut self)
        requires free { 64 ≤ free_in self.old }
        requires unmapped { (n : ℕ) → is_in stack_run n ≡ true → page_in self.old n ≡ None }
        ensures pages { (n : ℕ) → page_in self.new n
            ≡ (if is_in stack_run n then Some stack_page else page_in self.old n) }
        ensures free { free_in self.new + 64 ≡ free_in self.old }
        ensures break_at { break_in self.new ≡ break_in self.old }
        ensures break_start { break_start_in self.new ≡ break_start_in self.old }
    {
        for k in 0..STACK_PAGES {
            self.add(STACK_END - 1 - k, STACK_PERMISSION, None);
        }
    }

    /// Writes words one behind the other in a page, which can be written.
    fn write_words(&mut self, at: u64, words: &[u64])
        requires page { at % 4096 + 8 * length words.now ≤ 4096 }
        requires writable { can_write_in self.old at ≡ true }
        ensures bytes { (a : ℕ) → byte_in self.new a
            ≡ option_map (overlay (stored_from at words.now) a) (byte_in self.old a) }
        ensures held { (a : ℕ) → held_in self.new a
            ≡ option_map (overlay (stored_from at words.now) a) (held_in self.old a) }
        ensures permissions { (n : ℕ) → permission_in self.new n ≡ permission_in self.old n }
        ensures code { (a : ℕ) → code_in self.new a ≡ code_in self.old a }
        ensures free { free_in self.new ≡ free_in self.old }
        ensures break_at { break_in self.new ≡ break_in self.old }
        ensures break_start { break_start_in self.new ≡ break_start_in self.old }
    {
        self.write_words_in_page(at, words);
    }
}
