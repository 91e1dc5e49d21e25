//! Pages one behind the other: whether they are mapped and whether one can be executed, and how they are
//! mapped, protected, made zero and removed.

ghost use Rattle.std.specs.Prelude.{◌≡◌, ◌≤◌, ◌<◌, ◌+◌, ◌-◌, ◌&&◌, ℕ, Some, None, false, true, if◌then◌else◌, IsSome, IsTrue, is_some};
ghost use Rattle.std.specs.Option.{option_map};
ghost use Rattle.mach_types.specs.Kernel.Pages.{can_execute, is_in, is_mapped, is_without_code, lowest_hole, mapped_count, run};
ghost use Rattle.elf_load.specs.Images.{IsPermission};
ghost use Rattle.page_map.specs.Map.{break_in, break_start_in, code_in, free_in, held_in, held_zeroed, page_in, page_over, permission_in, protected_page, zeroed_page};
ghost use Rattle.page_map.specs.Mapping.{CanLie};

use crate::map::{EXECUTE, PageMap};
use mach_types::address_space::{FIRST_MAPPING_PAGE, FIRST_STACK_PAGE};

impl PageMap {
    /// Whether a page can be executed.
    fn can_execute(&self, number: u64) -> bool
        ensures { result ≡ can_execute (permission_in self.now number) }
    {
        match self.find(number) {
            Some(page) => page.permission & EXECUTE != 0,
            None => false,
        }
    }

    /// Whether so many pages from one on are all mapped.
    pub fn is_mapped(&self, first: u64, count: u64) -> bool
        requires { first + count ≤ 2251799813685248 }
        ensures { result ≡ is_mapped (permission_in self.now) first count }
    {
        for k in 0..count {
            if !self.is_page(first + k) {
                return false;
            }
        }
        true
    }

    /// Whether none of so many pages from one on can be executed.
    pub fn is_without_code(&self, first: u64, count: u64) -> bool
        requires { first + count ≤ 67108864 }
        ensures { result ≡ is_without_code (permission_in self.now) first count }
    {
        let mut from = first;
        while let Some(number) = self.next_mapped(from, first + count) {
            if self.can_execute(number) {
                return false;
            }
            from = number + 1;
        }
        true
    }

    /// The lowest page at which so many pages can be mapped; None exactly where they fit nowhere. It changes
    /// only how soon the next one is found.
    pub(crate) fn lowest_hole(&mut self, count: u64) -> Option<u64>
        requires some { 0 < count }
        requires few { count < 4294967296 }
        ensures same { self.new ≡ self.old }
        ensures hole { result ≡ lowest_hole (permission_in self.old) count }
    {
        let free = self.first_unmapped();
        self.hole_from(free, count)
    }

    /// The lowest page at which so many pages can be mapped, looked for from one on before which each mapping
    /// page is mapped; None exactly where they fit nowhere.
    fn hole_from(&self, free: u64, count: u64) -> Option<u64>
        requires some { 0 < count }
        requires few { count < 4294967296 }
        requires from { FIRST_MAPPING_PAGE ≤ free }
        requires end { free ≤ FIRST_STACK_PAGE }
        requires filled { (n : ℕ) → FIRST_MAPPING_PAGE ≤ n → n < free
            → is_some (permission_in self.now n) ≡ true }
        ensures { result ≡ lowest_hole (permission_in self.now) count }
    {
        let mut first = free;
        while first + count <= FIRST_STACK_PAGE {
            match self.next_mapped(first, first + count) {
                Some(number) => first = number + 1,
                None => return Some(first),
            }
        }
        None
    }

    /// Maps so many pages from one on, all zero.
    pub(crate) fn map_zeros(&mut self, first: u64, count: u64, permission: u8)
        requires end { first + count ≤ 67108864 }
        requires unmapped { (n : ℕ) → first ≤ n → n < first + count → page_in self.old n ≡ None }
        requires numbers { (n : ℕ) → first ≤ n → n < first + count
            → CanLie (break_start_in self.old) (break_in self.old) n permission }
        requires permission { IsPermission permission }
        requires free { count ≤ free_in self.old }
        ensures pages { (n : ℕ)
            → page_in self.new n ≡ page_over (run first count (Some permission)) (page_in self.old) n }
        ensures free { free_in self.new ≡ free_in self.old - count }
        ensures break_at { break_in self.new ≡ break_in self.old }
        ensures break_start { break_start_in self.new ≡ break_start_in self.old }
    {
        for k in 0..count {
            self.add(first + k, permission, None);
        }
    }

    /// Removes the pages that are mapped, of so many from one on.
    pub(crate) fn remove_pages(&mut self, first: u64, count: u64)
        requires { first + count ≤ 67108864 }
        ensures pages { (n : ℕ) → page_in self.new n ≡ page_over (run first count None) (page_in self.old) n }
        ensures free { free_in self.new
            ≡ free_in self.old + mapped_count (permission_in self.old) first count }
        ensures break_at { break_in self.new ≡ break_in self.old }
        ensures break_start { break_start_in self.new ≡ break_start_in self.old }
    {
        let mut from = first;
        while let Some(number) = self.next_mapped(from, first + count) {
            self.remove(number);
            from = number + 1;
        }
    }

    /// Gives so many pages from one on, which are all mapped, another permission, by which they can't be
    /// executed.
    pub(crate) fn protect_pages(&mut self, first: u64, count: u64, permission: u8)
        requires end { first + count ≤ 67108864 }
        requires mapped { (n : ℕ) → first ≤ n → n < first + count → IsSome (page_in self.old n) }
        requires permission { IsPermission permission }
        requires code { can_execute (Some permission) ≡ false }
        ensures pages { (n : ℕ) → page_in self.new n
            ≡ (if is_in (run first count (Some permission)) n
            then option_map (protected_page permission) (page_in self.old n) else page_in self.old n) }
        ensures free { free_in self.new ≡ free_in self.old }
        ensures break_at { break_in self.new ≡ break_in self.old }
        ensures break_start { break_start_in self.new ≡ break_start_in self.old }
    {
        for k in 0..count {
            self.set_permission(first + k, permission);
        }
    }

    /// Makes all bytes of so many pages from one on zero, which are all mapped.
    fn zero_run(&mut self, first: u64, count: u64)
        requires end { first + count ≤ 67108864 }
        requires mapped { (n : ℕ) → first ≤ n → n < first + count → IsSome (page_in self.old n) }
        ensures pages { (n : ℕ) → page_in self.new n
            ≡ (if is_in (run first count None) n then option_map zeroed_page (page_in self.old n)
            else page_in self.old n) }
        ensures free { free_in self.new ≡ free_in self.old }
        ensures break_at { break_in self.new ≡ break_in self.old }
        ensures break_start { break_start_in self.new ≡ break_start_in self.old }
    {
        for k in 0..count {
            self.zero_page(first + k);
        }
    }

    /// Makes all bytes of so many pages from one on zero, which are all mapped, and none of which can be
    /// executed. Their permissions stay, and so do their frames (madvise(2), MADV_DONTNEED).
    pub fn drop_bytes(&mut self, first: u64, count: u64)
        requires end { first + count ≤ 67108864 }
        requires mapped { IsTrue (is_mapped (permission_in self.old) first count) }
        requires code { IsTrue (is_without_code (permission_in self.old) first count) }
        ensures permissions { (n : ℕ) → permission_in self.new n ≡ permission_in self.old n }
        ensures held { (a : ℕ) → held_in self.new a ≡ held_zeroed (run first count None) (held_in self.old) a }
        ensures code { (a : ℕ) → code_in self.new a ≡ code_in self.old a }
        ensures free { free_in self.new ≡ free_in self.old }
        ensures break_at { break_in self.new ≡ break_in self.old }
        ensures break_start { break_start_in self.new ≡ break_start_in self.old }
    {
        self.zero_run(first, count);
    }
}
