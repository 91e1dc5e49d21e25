//! The calls that change the pages of a process (mmap(2), munmap(2), mprotect(2), brk(2)).

ghost use Rattle.std.specs.Prelude.{◌≡◌, ◌≤◌, ◌<◌, ◌+◌, ◌-◌, ◌/◌, ℕ, Bool, true, false, not, Some, None, IfOk, IfErr, if◌then◌else◌, nat_le, nat_lt};
ghost use Rattle.mach_types.specs.Kernel.Pages.{mapped_count, pages_of, run, run_over};
ghost use Rattle.mach_types.specs.Kernel.PageCalls.{answer_unless, break_run, free_past, may_move_break, mmap_answer, mprotect_refusal, munmap_refusal, permission_for};
ghost use Rattle.page_map.specs.Map.{break_in, break_start_in, code_in, free_in, held_in, held_over, page_in, page_over, permission_in};

use crate::map::{PageMap, READ, WRITE};
use mach_types::address_space::{FIRST_STACK_PAGE, MAPPING_START, PAGE_SIZE, USER_END};
use mach_types::errors::{EACCES, EINVAL, ENOMEM};
use mach_types::{Errno, MOST_PROT, PROT_EXEC, PROT_READ, PROT_WRITE};

/// How many pages so many bytes fill, the last one maybe in part.
pub fn pages_of(len: u64) -> u64
    ensures { result ≡ pages_of len }
{
    len / PAGE_SIZE + u64::from(len % PAGE_SIZE != 0)
}

/// The permission that a prot gives.
fn permission_for(prot: u8) -> u8
    ensures { result ≡ permission_for prot }
{
    if prot & PROT_WRITE != 0 {
        READ + WRITE
    } else if prot & PROT_READ != 0 {
        READ
    } else {
        0
    }
}

/// Whether so many bytes from an address on end past the addresses of a process.
pub fn ends_past(at: u64, len: u64) -> bool
    ensures { result ≡ nat_lt USER_END (at + len) }
{
    match at.checked_add(len) {
        Some(end) => end > USER_END,
        None => true,
    }
}

impl PageMap {
    /// Maps the pages that so many bytes fill, all zero, at the lowest place where they fit, and answers its
    /// address. A prot of PROT_WRITE lets read and write, PROT_READ lets read, and 0 lets nothing be done
    /// (mmap(2)).
    ///
    /// Errors, in this order: EINVAL for no bytes and for a prot above 7 (own), EACCES for PROT_EXEC (own),
    /// ENOMEM where fewer frames are free than pages are needed, or where they fit nowhere between
    /// 0x2000000000 and the stack.
    pub fn map(&mut self, len: u64, perm: u8) -> Result<u64, Errno>
        ensures answer { result ≡ mmap_answer (permission_in self.old) (free_in self.old) len perm }
        ensures refused { IfErr result (λ _. self.new ≡ self.old) }
        ensures permissions { IfOk result (λ at. (n : ℕ) → permission_in self.new n
            ≡ run_over (run (at / 4096) (pages_of len) (Some (permission_for perm)))
            (permission_in self.old) n) }
        ensures held { IfOk result (λ at. (a : ℕ) → held_in self.new a
            ≡ held_over (run (at / 4096) (pages_of len) (Some (permission_for perm))) (held_in self.old) a) }
        ensures ends { IfOk result (λ at. at / 4096 + pages_of len ≤ FIRST_STACK_PAGE) }
        ensures free { IfOk result (λ _. free_in self.new ≡ free_in self.old - pages_of len) }
        ensures code { (a : ℕ) → code_in self.new a ≡ code_in self.old a }
        ensures break_at { break_in self.new ≡ break_in self.old }
        ensures break_start { break_start_in self.new ≡ break_start_in self.old }
    {
        if len == 0 || perm > MOST_PROT {
            return Err(EINVAL);
        }
        if perm & PROT_EXEC != 0 {
            return Err(EACCES);
        }
        let count = pages_of(len);
        if u64::from(self.free()) < count {
            return Err(ENOMEM);
        }
        match self.lowest_hole(count) {
            Some(first) => {
                self.map_zeros(first, count, permission_for(perm));
                Ok(first * PAGE_SIZE)
            }
            None => Err(ENOMEM),
        }
    }

    /// Why [`PageMap::unmap`] would be refused; None where it would not.
    pub fn unmap_refusal(&self, at: u64, len: u64) -> Option<Errno>
        ensures { result ≡ munmap_refusal (permission_in self.now) at len }
    {
        if at % PAGE_SIZE != 0 || len == 0 || ends_past(at, len) {
            return Some(EINVAL);
        }
        if !self.is_without_code(at / PAGE_SIZE, pages_of(len)) {
            return Some(EACCES);
        }
        None
    }

    /// Removes the pages that are mapped, of those that so many bytes from an address on fill. Their frames
    /// are free again (munmap(2)).
    ///
    /// Errors, in this order: EINVAL for an address within a page, for no bytes, and where they end past
    /// 2^38; EACCES where one of the pages can be executed (own).
    pub fn unmap(&mut self, at: u64, len: u64) -> Result<(), Errno>
        ensures answer { result ≡ answer_unless (munmap_refusal (permission_in self.old) at len) }
        ensures refused { IfErr result (λ _. self.new ≡ self.old) }
        ensures permissions { IfOk result (λ _. (n : ℕ) → permission_in self.new n
            ≡ run_over (run (at / 4096) (pages_of len) None) (permission_in self.old) n) }
        ensures held { IfOk result (λ _. (a : ℕ) → held_in self.new a
            ≡ held_over (run (at / 4096) (pages_of len) None) (held_in self.old) a) }
        ensures free { IfOk result (λ _. free_in self.new
            ≡ free_in self.old + mapped_count (permission_in self.old) (at / 4096) (pages_of len)) }
        ensures code { (a : ℕ) → code_in self.new a ≡ code_in self.old a }
        ensures break_at { break_in self.new ≡ break_in self.old }
        ensures break_start { break_start_in self.new ≡ break_start_in self.old }
    {
        if let Some(errno) = self.unmap_refusal(at, len) {
            return Err(errno);
        }
        let first = at / PAGE_SIZE;
        let count = pages_of(len);
        self.remove_pages(first, count);
        Ok(())
    }

    /// Why [`PageMap::protect`] would be refused; None where it would not.
    pub fn protect_refusal(&self, at: u64, len: u64, perm: u8) -> Option<Errno>
        ensures { result ≡ mprotect_refusal (permission_in self.now) at len perm }
    {
        if at % PAGE_SIZE != 0 {
            return Some(EINVAL);
        }
        if len == 0 {
            return None;
        }
        if perm > MOST_PROT {
            return Some(EINVAL);
        }
        if perm & PROT_EXEC != 0 {
            return Some(EACCES);
        }
        if ends_past(at, len) || !self.is_mapped(at / PAGE_SIZE, pages_of(len)) {
            return Some(ENOMEM);
        }
        if !self.is_without_code(at / PAGE_SIZE, pages_of(len)) {
            return Some(EACCES);
        }
        None
    }

    /// Gives the pages that so many bytes from an address on fill the permission of a prot, as in
    /// [`PageMap::map`]; their bytes stay (mprotect(2)). No bytes change nothing.
    ///
    /// Errors, in this order: EINVAL for an address within a page; none for no bytes; EINVAL for a prot above
    /// 7 (own); EACCES for PROT_EXEC (own); ENOMEM where they end past 2^38, or a page isn't mapped; EACCES
    /// where one of the pages can be executed (own).
    pub fn protect(&mut self, at: u64, len: u64, perm: u8) -> Result<(), Errno>
        ensures answer { result ≡ answer_unless (mprotect_refusal (permission_in self.old) at len perm) }
        ensures refused { IfErr result (λ _. self.new ≡ self.old) }
        ensures permissions { IfOk result (λ _. (n : ℕ) → permission_in self.new n
            ≡ run_over (run (at / 4096) (pages_of len) (Some (permission_for perm)))
            (permission_in self.old) n) }
        ensures held { (a : ℕ) → held_in self.new a ≡ held_in self.old a }
        ensures free { free_in self.new ≡ free_in self.old }
        ensures code { (a : ℕ) → code_in self.new a ≡ code_in self.old a }
        ensures break_at { break_in self.new ≡ break_in self.old }
        ensures break_start { break_start_in self.new ≡ break_start_in self.old }
    {
        if let Some(errno) = self.protect_refusal(at, len, perm) {
            return Err(errno);
        }
        if len == 0 {
            return Ok(());
        }
        let first = at / PAGE_SIZE;
        let count = pages_of(len);
        self.protect_pages(first, count, permission_for(perm));
        Ok(())
    }

    /// Whether the break may move to an address: from the lowest break to 0x2000000000, and, where it grows,
    /// only if a frame is free for each page.
    pub fn may_move_break(&self, at: u64) -> bool
        ensures { result
            ≡ may_move_break (break_start_in self.now) (free_in self.now) (break_in self.now) at }
    {
        let grows_by = pages_of(at).saturating_sub(pages_of(self.break_at()));
        self.break_start() <= at && at <= MAPPING_START && grows_by <= u64::from(self.free())
    }

    /// Moves the break to an address, where it may be there, and answers the break (brk(2)). It may be from
    /// the lowest break to 0x2000000000, and, where it grows, only if a frame is free for each page. Where it
    /// grows, whole pages above that of the old break are mapped, zero, to be read and written; where it
    /// shrinks, those that are mapped above that of the new one are removed.
    pub fn move_break(&mut self, at: u64) -> u64
        ensures answer { result ≡ break_in self.new }
        ensures break_at { break_in self.new
            ≡ (if may_move_break (break_start_in self.old) (free_in self.old) (break_in self.old) at then at
            else break_in self.old) }
        ensures refused { may_move_break (break_start_in self.old) (free_in self.old) (break_in self.old) at
            ≡ false → self.new ≡ self.old }
        ensures permissions { may_move_break (break_start_in self.old) (free_in self.old)
            (break_in self.old) at ≡ true
            → (n : ℕ) → permission_in self.new n
            ≡ run_over (break_run (break_in self.old) at) (permission_in self.old) n }
        ensures held { may_move_break (break_start_in self.old) (free_in self.old) (break_in self.old) at
            ≡ true
            → (a : ℕ)
            → held_in self.new a ≡ held_over (break_run (break_in self.old) at) (held_in self.old) a }
        ensures free { may_move_break (break_start_in self.old) (free_in self.old) (break_in self.old) at
            ≡ true
            → free_in self.new
            ≡ free_past (permission_in self.old) (free_in self.old) (break_in self.old) at }
        ensures code { (a : ℕ) → code_in self.new a ≡ code_in self.old a }
        ensures break_start { break_start_in self.new ≡ break_start_in self.old }
    {
        if !self.may_move_break(at) {
            return self.break_at();
        }
        if self.break_at() <= at {
            self.grow_break(at);
        } else {
            self.shrink_break(at);
        }
        at
    }

    /// Moves the break up, and maps whole pages above that of the old break.
    fn grow_break(&mut self, at: u64)
        requires from { break_in self.old ≤ at }
        requires to { at ≤ MAPPING_START }
        requires free { pages_of at - pages_of (break_in self.old) ≤ free_in self.old }
        ensures pages { (n : ℕ) → page_in self.new n
            ≡ page_over
            (run (pages_of (break_in self.old)) (pages_of at - pages_of (break_in self.old)) (Some 6))
            (page_in self.old) n }
        ensures free { free_in self.new ≡ free_in self.old - (pages_of at - pages_of (break_in self.old)) }
        ensures code { (a : ℕ) → code_in self.new a ≡ code_in self.old a }
        ensures break_at { break_in self.new ≡ at }
        ensures break_start { break_start_in self.new ≡ break_start_in self.old }
    {
        self.keeps();
        let first = pages_of(self.break_at());
        let end = pages_of(at);
        self.set_break(at);
        self.map_zeros(first, end - first, READ + WRITE);
    }

    /// Moves the break down, and removes the pages above that of the new one that are mapped.
    fn shrink_break(&mut self, at: u64)
        requires from { break_start_in self.old ≤ at }
        requires to { at ≤ break_in self.old }
        ensures pages { (n : ℕ) → page_in self.new n
            ≡ page_over (run (pages_of at) (pages_of (break_in self.old) - pages_of at) None)
            (page_in self.old) n }
        ensures free { free_in self.new
            ≡ free_in self.old + mapped_count (permission_in self.old) (pages_of at)
            (pages_of (break_in self.old) - pages_of at) }
        ensures code { (a : ℕ) → code_in self.new a ≡ code_in self.old a }
        ensures break_at { break_in self.new ≡ at }
        ensures break_start { break_start_in self.new ≡ break_start_in self.old }
    {
        self.keeps();
        let first = pages_of(at);
        let end = pages_of(self.break_at());
        self.remove_pages(first, end - first);
        self.set_break(at);
    }
}
