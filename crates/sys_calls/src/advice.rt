//! madvise(2): what the process will do with its pages.

ghost use Rattle.std.specs.Prelude.{◌≡◌, ◌+◌, ◌/◌, ◌≤◌, ◌==◌, ◌&&◌, ◌∷◌, [], ℕ, None, not, IfErr, IfSome, IsTrue};
ghost use Rattle.mach_types.specs.Kernel.Pages.{is_in, is_mapped, is_without_code, pages_of, run, zeros_of};
ghost use Rattle.page_map.specs.Map.{break_in, break_start_in, code_in, free_in, held_in, held_zeroed, permission_in};
ghost use Rattle.block_model.specs.Here.{Here};
ghost use Rattle.block_model.specs.Calls.Memory as call;
ghost use Rattle.sys_calls.specs.Made.{HasPages};
ghost use Rattle.sys_calls.specs.Remapped.{IsRemapped, has_page};

use crate::arguments::{argument, int_argument};
use crate::memory::Written;
use crate::memory_calls::{NO_PAGES, PageSpan, tell_zeros, unless_refused};
use mach_types::address_space::PAGE_SIZE;
use mach_types::errors::{EINVAL, ENOMEM};
use mach_types::{Errno, Saved};
use page_map::{PageMap, ends_past, pages_of};

/// The bytes of the pages are needed no more, and are zero from now on (MADV_DONTNEED).
const DONTNEED: u32 = 4;

/// How many pages there are up to the last address.
const ALL_ADDRESSES: u64 = 0x10_0000_0000_0000;

/// Whether advice changes nothing here: MADV_NORMAL, MADV_RANDOM, MADV_SEQUENTIAL, MADV_WILLNEED, MADV_FREE, MADV_DONTFORK,
/// MADV_DOFORK, and from MADV_HUGEPAGE to MADV_PAGEOUT.
fn is_idle_advice(advice: u32) -> bool
    ensures { result ≡ call.is_idle_advice advice }
{
    advice <= 3 || advice == 8 || (10 <= advice && advice <= 11) || (14 <= advice && advice <= 21)
}

/// Whether whole pages that hold so many bytes from an address on would pass the last address.
fn passes_last(at: u64, len: u64) -> bool
    ensures { result ≡ call.passes_last at len }
{
    at / PAGE_SIZE + pages_of(len) >= ALL_ADDRESSES
}

/// Whether so many pages from one on, which are all mapped, can be dropped: none is the program's own or can be executed.
fn can_drop(pages: &PageMap, first: u64, count: u64) -> bool
    requires { first + count ≤ 67108864 }
    ensures { result ≡ call.can_drop (permission_in pages.now) (break_start_in pages.now) first count }
{
    pages_of(pages.break_start()) <= first && pages.is_without_code(first, count)
}

/// Why madvise would be refused; None where it would not.
pub fn advice_refusal(pages: &PageMap, at: u64, len: u64, advice: u32) -> Option<Errno>
    ensures refusal { result
        ≡ call.madvise_refusal (permission_in pages.now) (break_start_in pages.now) at len advice }
    ensures errno { IfSome result (λ e. 1 ≤ e.0) }
{
    if !(is_idle_advice(advice) || advice == DONTNEED) {
        return Some(EINVAL);
    }
    if at % PAGE_SIZE != 0 {
        return Some(EINVAL);
    }
    if passes_last(at, len) {
        return Some(EINVAL);
    }
    if len == 0 {
        return None;
    }
    if ends_past(at, len) || !pages.is_mapped(at / PAGE_SIZE, pages_of(len)) {
        return Some(ENOMEM);
    }
    if advice == DONTNEED && !can_drop(pages, at / PAGE_SIZE, pages_of(len)) {
        return Some(EINVAL);
    }
    None
}

/// Whether advice about so many bytes drops pages, unless it is refused.
fn drops(advice: u32, len: u64) -> bool
    ensures { result ≡ (call.is_dropping advice && not (len == 0)) }
{
    advice == DONTNEED && len != 0
}

/// The pages whose bytes advice drops, unless it is refused; none by other advice.
pub fn pages_dropped(pages: &PageMap, at: u64, len: u64, advice: u32) -> PageSpan
    ensures { (n : ℕ) → has_page result n
        ≡ is_in
        (call.taken_by_advice
        (call.madvise_refusal (permission_in pages.now) (break_start_in pages.now) at len advice) at len advice) n }
{
    if advice != DONTNEED {
        return NO_PAGES;
    }
    unless_refused(advice_refusal(pages, at, len, advice), at, len)
}

/// Drops the bytes of so many pages from one on, and tells their zeros.
fn drop_pages(pages: &mut PageMap, written: &mut Written, first: u64, count: u64)
    requires fresh { written.old.items ≡ [] }
    requires end { first + count ≤ 67108864 }
    requires mapped { IsTrue (is_mapped (permission_in pages.old) first count) }
    requires code { IsTrue (is_without_code (permission_in pages.old) first count) }
    ensures told { written.new.items ≡ zeros_of (run first count None) ∷ [] }
    ensures permissions { (n : ℕ) → permission_in pages.new n ≡ permission_in pages.old n }
    ensures held { (a : ℕ) → held_in pages.new a ≡ held_zeroed (run first count None) (held_in pages.old) a }
    ensures code { (a : ℕ) → code_in pages.new a ≡ code_in pages.old a }
    ensures free { free_in pages.new ≡ free_in pages.old }
    ensures break_at { break_in pages.new ≡ break_in pages.old }
    ensures break_start { break_start_in pages.new ≡ break_start_in pages.old }
{
    pages.drop_bytes(first, count);
    tell_zeros(written, first, count);
}

/// madvise(p, len, advice): answers 0. MADV_DONTNEED makes the pages zero; advice that changes nothing here is taken, and any other is
/// EINVAL (own). Then EINVAL for an address within a page and for pages past the last address, ENOMEM where the bytes end past the
/// addresses of a process or a page isn't mapped, and EINVAL for pages of the program itself that are to be dropped (own). No bytes
/// are no error.
pub fn madvise(pages: &mut PageMap, written: &mut Written, saved: &Saved) -> Result<u64, Errno>
    requires fresh { written.old.items ≡ [] }
    ensures errno { IfErr result (λ e. 1 ≤ e.0) }
    ensures remapped { (h : Here) (t : ℕ) → HasPages h pages.old → saved.now ≡ h.file t
        → IsRemapped h t pages.old pages.new written.new.items result (call.madvise h t) }
{
    let at = argument(saved, 0);
    let len = argument(saved, 1);
    let advice = int_argument(saved, 2);
    if let Some(errno) = advice_refusal(pages, at, len, advice) {
        return Err(errno);
    }
    if !drops(advice, len) {
        return Ok(0);
    }
    drop_pages(pages, written, at / PAGE_SIZE, pages_of(len));
    Ok(0)
}
