//! brk(2), mmap(2), munmap(2) and mprotect(2): the calls that map, remove and protect pages; and the pages that a call takes.

ghost use Rattle.std.specs.Prelude.{◌≡◌, ℕ, ◌+◌, ◌/◌, ◌<◌, ◌≤◌, ◌&&◌, ◌∷◌, [], Ok, IfErr, Option, if◌then◌else◌, nat_lt};
ghost use Rattle.mach_types.specs.Kernel.Pages.{is_in, pages_of, run, zeros_of};
ghost use Rattle.mach_types.specs.Kernel.PageCalls.{break_run, may_move_break};
ghost use Rattle.page_map.specs.Map.{break_in, break_start_in, free_in};
ghost use Rattle.block_model.specs.Here.{Here};
ghost use Rattle.block_model.specs.Calls.Answers.{call_number};
ghost use Rattle.block_model.specs.Calls.Memory.{are_mapping_flags, brk, mmap, mprotect, munmap, no_pages, taken_by, unless_refused, zeros_if_mapped};
ghost use Rattle.sys_calls.specs.Made.{HasPages};
ghost use Rattle.sys_calls.specs.Remapped.{IsRemapped, has_page};

use crate::advice::pages_dropped;
use crate::arguments::{A0, A7, argument, low_half};
use crate::memory::Written;
use mach_types::address_space::{MAPPING_START, PAGE_SIZE};
use mach_types::errors::EINVAL;
use mach_types::{Errno, MOST_PROT, Regs, Saved, Write};
use page_map::{PageMap, pages_of};

/// The numbers of the calls that can take a page (Linux for RISC-V).
const BRK: u64 = 214;

const MUNMAP: u64 = 215;

const MPROTECT: u64 = 226;

const MADVISE: u64 = 233;

/// Changes of a mapping are seen by this process alone (mmap(2)).
const MAP_PRIVATE: u64 = 0x02;

/// A mapping is zero, and of no file.
const MAP_ANONYMOUS: u64 = 0x20;

/// Room for a mapping needn't be kept.
const MAP_NORESERVE: u64 = 0x4000;

/// A mapping has its frames at once.
const MAP_POPULATE: u64 = 0x8000;

/// A mapping is for a stack.
const MAP_STACK: u64 = 0x2_0000;

/// The flags that change nothing here (own).
const IGNORED_FLAGS: u64 = MAP_NORESERVE + MAP_POPULATE + MAP_STACK;

/// Pages one behind the other: so many from a first one on.
#[derive(Clone, Copy, Drop)]
pub struct PageSpan {
    /// The number of the first page.
    pub first: u64,
    /// How many they are.
    pub count: u64,
}

/// No pages.
pub(crate) const NO_PAGES: PageSpan = PageSpan { first: 0, count: 0 };

/// Whether these are the flags that mmap takes: MAP_PRIVATE and MAP_ANONYMOUS, and any of those that change nothing.
fn are_mapping_flags(flags: u64) -> bool
    ensures { result ≡ are_mapping_flags flags }
{
    flags - (flags & IGNORED_FLAGS) == MAP_PRIVATE + MAP_ANONYMOUS
}

/// The prot of an argument; for one that is above 7, and so is refused, any above 7.
fn prot_of(argument: u64) -> u8
    ensures same { argument ≤ MOST_PROT → result ≡ argument }
    ensures above { MOST_PROT < argument → MOST_PROT < result }
{
    u8::try_from(argument).unwrap_or(u8::MAX)
}

/// Tells the zeros of so many pages from a first one on.
pub(crate) fn tell_zeros(written: &mut Written, first: u64, count: u64)
    requires fresh { written.old.items ≡ [] }
    requires end { first + count ≤ 67108864 }
    ensures { (permission : Option ℕ) → written.new.items ≡ zeros_of (run first count permission) ∷ [] }
{
    written.push(Write::Zeroed {
        at: first * PAGE_SIZE,
        length: count * PAGE_SIZE,
    });
}

/// Tells the zeros of the pages that are mapped where the break moves from one address to another.
fn tell_growth(written: &mut Written, from: u64, to: u64)
    requires fresh { written.old.items ≡ [] }
    requires low { to ≤ MAPPING_START }
    ensures { written.new.items ≡ zeros_if_mapped (break_run from to) }
{
    let first = pages_of(from);
    let end = pages_of(to);
    if first < end {
        tell_zeros(written, first, end - first);
    }
}

/// brk(p): moves the break to p where it may be there, and answers the break.
pub fn brk(pages: &mut PageMap, written: &mut Written, saved: &Saved) -> u64
    requires fresh { written.old.items ≡ [] }
    ensures remapped { (h : Here) (t : ℕ) → HasPages h pages.old → saved.now ≡ h.file t
        → IsRemapped h t pages.old pages.new written.new.items (Ok result) (brk h t) }
{
    let from = pages.break_at();
    let to = pages.move_break(argument(saved, 0));
    pages.keeps();
    tell_growth(written, from, to);
    to
}

/// munmap(p, len): removes pages, and answers 0. EINVAL, EACCES, in the order of [`PageMap::unmap`].
pub fn munmap(pages: &mut PageMap, saved: &Saved) -> Result<u64, Errno>
    ensures errno { IfErr result (λ e. 1 ≤ e.0) }
    ensures remapped { (h : Here) (t : ℕ) → HasPages h pages.old → saved.now ≡ h.file t
        → IsRemapped h t pages.old pages.new [] result (munmap h t) }
{
    pages.unmap(argument(saved, 0), argument(saved, 1))?;
    Ok(0)
}

/// mmap(p, len, prot, flags, fd, off): maps pages, all zero, at the lowest place where they fit, and answers its address. EINVAL
/// for other flags than MAP_PRIVATE and MAP_ANONYMOUS (MAP_NORESERVE, MAP_POPULATE and MAP_STACK change nothing), and then EINVAL,
/// EACCES, ENOMEM, in the order of [`PageMap::map`]. `p`, `fd` and `off` are ignored (own).
pub fn mmap(pages: &mut PageMap, written: &mut Written, saved: &Saved) -> Result<u64, Errno>
    requires fresh { written.old.items ≡ [] }
    ensures errno { IfErr result (λ e. 1 ≤ e.0) }
    ensures remapped { (h : Here) (t : ℕ) → HasPages h pages.old → saved.now ≡ h.file t
        → IsRemapped h t pages.old pages.new written.new.items result (mmap h t) }
{
    let len = argument(saved, 1);
    let prot = argument(saved, 2);
    if !are_mapping_flags(argument(saved, 3)) {
        return Err(EINVAL);
    }
    let at = pages.map(len, prot_of(prot))?;
    tell_zeros(written, at / PAGE_SIZE, pages_of(len));
    Ok(at)
}

/// mprotect(p, len, prot): gives pages another permission, and answers 0. EINVAL, EACCES, ENOMEM, in the order of
/// [`PageMap::protect`].
pub fn mprotect(pages: &mut PageMap, saved: &Saved) -> Result<u64, Errno>
    ensures errno { IfErr result (λ e. 1 ≤ e.0) }
    ensures remapped { (h : Here) (t : ℕ) → HasPages h pages.old → saved.now ≡ h.file t
        → IsRemapped h t pages.old pages.new [] result (mprotect h t) }
{
    let prot = prot_of(argument(saved, 2));
    pages.protect(argument(saved, 0), argument(saved, 1), prot)?;
    Ok(0)
}

/// The pages that so many bytes from an address on fill, unless a call over them is refused.
pub(crate) fn unless_refused(refusal: Option<Errno>, at: u64, len: u64) -> PageSpan
    ensures { (permission : Option ℕ) (n : ℕ)
        → has_page result n ≡ is_in (unless_refused refusal (run (at / 4096) (pages_of len) permission)) n }
{
    match refusal {
        Some(_) => NO_PAGES,
        None => PageSpan {
            first: at / PAGE_SIZE,
            count: pages_of(len),
        },
    }
}

/// The pages that are removed where the break falls to an address; none where it doesn't fall there.
fn below_break(pages: &PageMap, at: u64) -> PageSpan
    ensures { (n : ℕ) → has_page result n
        ≡ is_in
        (if may_move_break (break_start_in pages.now) (free_in pages.now) (break_in pages.now) at
        && nat_lt at (break_in pages.now)
        then break_run (break_in pages.now) at else no_pages) n }
{
    if !pages.may_move_break(at) || pages.break_at() <= at {
        return NO_PAGES;
    }
    let first = pages_of(at);
    PageSpan {
        first,
        count: pages_of(pages.break_at()) - first,
    }
}

/// The pages that the call of a thread with these registers would remove, protect or drop. A call that would be refused takes none,
/// and no other call takes a page.
pub fn pages_taken(pages: &PageMap, file: &Regs) -> PageSpan
    ensures { (h : Here) (t : ℕ) → HasPages h pages.now → file.now ≡ (h.file t).file
        → (n : ℕ) → has_page result n ≡ is_in (taken_by (call_number h t) h t) n }
{
    let at = file.get(A0);
    let len = file.get(A0 + 1);
    match file.get(A7) {
        BRK => below_break(pages, at),
        MUNMAP => unless_refused(pages.unmap_refusal(at, len), at, len),
        MPROTECT => {
            let prot = prot_of(file.get(A0 + 2));
            unless_refused(pages.protect_refusal(at, len, prot), at, len)
        }
        MADVISE => pages_dropped(pages, at, len, low_half(file.get(A0 + 2))),
        _ => NO_PAGES,
    }
}
