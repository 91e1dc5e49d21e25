//! exit(2) and exit_group(2): a thread ends, or the process does.

ghost use Rattle.std.specs.Prelude.{◌≡◌, ◌≤◌, ◌==◌, ◌%◌, ◌&&◌, ℕ, [], ◌∷◌, not, map, if◌then◌else◌, IsTrue, Some};
ghost use Rattle.mach_types.specs.Bytes.{each_byte};
ghost use Rattle.mach_types.specs.Kernel.Threads.{running_on};
ghost use Rattle.page_map.specs.Map.{can_write_in};
ghost use Rattle.block_model.specs.Here.{Here};
ghost use Rattle.block_model.specs.Calls.Answers.{word_written};
ghost use Rattle.block_model.specs.Calls.Ending.{ended_with, exit};
ghost use Rattle.sys_calls.specs.Answered.{IsCaller, IsEntered, IsRead};
ghost use Rattle.sys_calls.specs.Tables.{HoldsTables};
ghost use Rattle.sys_calls.specs.Ended.{IsGone};
ghost use Rattle.sys_calls.specs.Made.{HasPages, IsMade};
ghost use Rattle.sys_calls.specs.declared.calling.CallEnd.TheVariants as over;

use crate::arguments::argument;
use crate::calling::CallEnd;
use crate::kernel::Kernel;
use crate::memory::{Written, write_word};
use crate::rseq_areas::remove_area;
use crate::waking::wake;
use mach_types::{End, Hart, Saved, Tid, UserMem};
use page_map::PageMap;

/// How the process ends: with the code modulo 256.
fn end_of(saved: &Saved) -> End
    ensures { (h : Here) (t : ℕ) → saved.now ≡ h.file t → result ≡ ended_with h t }
{
    End::Exit((argument(saved, 0) % 256) as u8)
}

/// Writes 0 to the word at an address, and answers whether: not where it is 0 or can't be written.
fn clear_word(pages: &mut PageMap, written: &mut Written, at: u64) -> bool
    requires { written.old.items ≡ [] }
    ensures clears { result ≡ (not (at == 0) && each_byte (can_write_in pages.old) at 4) }
    ensures entered { IsEntered pages.old pages.new written.new.items }
    ensures told { written.new.items ≡ (if result then word_written at 0 ∷ [] else []) }
{
    if at == 0 || !pages.writable(at, 4) {
        return false;
    }
    write_word(pages, written, at, 0);
    true
}

/// Wakes at most so many waiters at an address, and then the thread is gone, and with it its signals and its area.
fn go(kernel: &mut Kernel, here: Hart, tid: Tid, at: u64, most: u32)
    requires { IsCaller kernel.old here.0 tid.0 }
    ensures gone { (h : Here) → HoldsTables kernel.old h.kernel
        → IsGone h kernel.old kernel.new tid.0 most at here.0 }
{
    let _ = wake(kernel, at, most, None);
    kernel.threads.exit(tid);
    kernel.ready.remove(tid);
    kernel.signals.remove(tid);
    remove_area(&mut kernel.areas, tid);
}

/// exit(code): the word at the thread's clear address becomes 0, one waiter there is woken, and the thread is gone, and with it its
/// signals and its area. The last thread ends the process.
pub fn exit(
    kernel: &mut Kernel,
    pages: &mut PageMap,
    written: &mut Written,
    here: Hart,
    tid: Tid,
    saved: &Saved,
) -> CallEnd
    requires caller { IsCaller kernel.old here.0 tid.0 }
    requires fresh { written.old.items ≡ [] }
    ensures told { (h : Here) → HoldsTables kernel.old h.kernel → IsRead h pages.old tid.0 saved.now
        → written.new.items ≡ (exit h tid.0).entered }
    ensures made { (h : Here) → h.hart ≡ here.0 → HoldsTables kernel.old h.kernel → HasPages h pages.old
        → IsRead h pages.old tid.0 saved.now
        → IsMade h tid.0 kernel.old pages.old kernel.new pages.new saved.now result (exit h tid.0) }
{
    let at = kernel.threads.clear_at(tid);
    let is_cleared = clear_word(pages, written, at);
    if kernel.threads.live() <= 1 {
        return CallEnd::ProcessEnd(end_of(saved));
    }
    go(kernel, here, tid, at, u32::from(is_cleared));
    CallEnd::ThreadEnd
}

/// exit_group(code): the process ends.
pub fn exit_group(saved: &Saved) -> CallEnd
    ensures { (h : Here) (t : ℕ) → saved.now ≡ h.file t → result ≡ over.ProcessEnd (ended_with h t) }
{
    CallEnd::ProcessEnd(end_of(saved))
}
