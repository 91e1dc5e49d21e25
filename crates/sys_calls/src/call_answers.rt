//! The calls whose thread goes on, each with its answer.

ghost use Rattle.std.specs.Prelude.{◌≡◌, ◌≤◌, [], IfErr};
ghost use Rattle.block_model.specs.Here.{Here};
ghost use Rattle.block_model.specs.Calls.{call_of};
ghost use Rattle.sys_calls.specs.Answered.{IsAnswered, IsRead, MayAnswer};
ghost use Rattle.sys_calls.specs.Tables.{HoldsTables};
ghost use Rattle.sys_calls.specs.Made.{HasPages};
ghost use Rattle.sys_calls.specs.Numbers.{IsOffPages, IsOther};

use crate::advice::madvise;
use crate::affinity::{getcpu, sched_getaffinity};
use crate::arguments::widened;
use crate::asking::asked;
use crate::cloning::clone;
use crate::kernel::Kernel;
use crate::memory::Written;
use crate::memory_calls::{brk, mmap, mprotect, munmap};
use crate::numbers::set_tid_address;
use crate::random::getrandom;
use crate::signal_calls::{rt_sigaction, rt_sigprocmask};
use crate::signal_posting::{tgkill, tkill};
use crate::writing::{write, writev};
use mach_types::{Errno, Hart, Saved, Tid};
use page_map::PageMap;

/// The numbers of the calls after which the thread goes on (Linux for RISC-V).
const WRITE: u64 = 64;

const WRITEV: u64 = 66;

const SET_TID_ADDRESS: u64 = 96;

const SCHED_GETAFFINITY: u64 = 123;

const TKILL: u64 = 130;

const TGKILL: u64 = 131;

const RT_SIGACTION: u64 = 134;

const RT_SIGPROCMASK: u64 = 135;

const GETCPU: u64 = 168;

const GETPID: u64 = 172;

const GETTID: u64 = 178;

const BRK: u64 = 214;

const MUNMAP: u64 = 215;

const CLONE: u64 = 220;

const MMAP: u64 = 222;

const MPROTECT: u64 = 226;

const MADVISE: u64 = 233;

const GETRANDOM: u64 = 278;

/// The answer of a call whose thread goes on; ENOSYS where the number is none of those.
pub fn answered(
    number: u64,
    kernel: &mut Kernel,
    pages: &mut PageMap,
    written: &mut Written,
    here: Hart,
    tid: Tid,
    saved: &Saved,
) -> Result<u64, Errno>
    requires caller { MayAnswer kernel.old tid.0 }
    requires fresh { written.old.items ≡ [] }
    requires others { IsOther number }
    ensures errno { IfErr result (λ e. 1 ≤ e.0) }
    ensures answered { (h : Here) → h.hart ≡ here.0 → HoldsTables kernel.old h.kernel → HasPages h pages.old
        → IsRead h pages.old tid.0 saved.now
        → IsAnswered h tid.0 kernel.old pages.old kernel.new pages.new written.new.items result
        (call_of number h tid.0) }
{
    match number {
        BRK => Ok(brk(pages, written, saved)),
        MUNMAP => munmap(pages, saved),
        MMAP => mmap(pages, written, saved),
        MPROTECT => mprotect(pages, saved),
        MADVISE => madvise(pages, written, saved),
        _ => widened(answered_on_same_pages(number, kernel, pages, written, here, tid, saved)),
    }
}

/// The answer of a call whose thread goes on, and which changes no pages; ENOSYS where the number is none of those.
fn answered_on_same_pages(
    number: u64,
    kernel: &mut Kernel,
    pages: &mut PageMap,
    written: &mut Written,
    here: Hart,
    tid: Tid,
    saved: &Saved,
) -> Result<u32, Errno>
    requires caller { MayAnswer kernel.old tid.0 }
    requires fresh { written.old.items ≡ [] }
    requires others { IsOther number }
    requires off_pages { IsOffPages number }
    ensures errno { IfErr result (λ e. 1 ≤ e.0) }
    ensures answered { (h : Here) → h.hart ≡ here.0 → HoldsTables kernel.old h.kernel
        → IsRead h pages.old tid.0 saved.now
        → IsAnswered h tid.0 kernel.old pages.old kernel.new pages.new written.new.items result
        (call_of number h tid.0) }
{
    match number {
        WRITE => write(kernel, pages, saved),
        WRITEV => writev(kernel, pages, saved),
        SET_TID_ADDRESS => Ok(set_tid_address(kernel, tid, saved)),
        SCHED_GETAFFINITY => sched_getaffinity(kernel, pages, written, tid, saved),
        TKILL => tkill(kernel, saved),
        TGKILL => tgkill(kernel, saved),
        RT_SIGACTION => rt_sigaction(kernel, pages, written, saved),
        RT_SIGPROCMASK => rt_sigprocmask(kernel, pages, written, tid, saved),
        GETCPU => getcpu(pages, written, here, saved),
        GETPID => Ok(1),
        GETTID => Ok(tid.0),
        CLONE => clone(kernel, pages, written, tid, saved),
        GETRANDOM => getrandom(kernel, pages, written, saved),
        _ => asked(number, kernel, pages, written, tid, saved),
    }
}
