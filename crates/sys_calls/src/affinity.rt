//! sched_setaffinity(2), sched_getaffinity(2), sched_yield(2) and getcpu(2). A set of harts is a mask whose bit h stands for
//! hart h.

ghost use Rattle.std.specs.Prelude.{◌≡◌, ◌≤◌, ◌<◌, ◌==◌, ◌||◌, ◌&&◌, ◌%◌, ℕ, ◌++◌, [], length, not, nat_lt, if◌then◌else◌, IfErr, IfOk, IsTrue, Some, pos};
ghost use Rattle.kernel_threads.specs.Table.{with_saved};
ghost use Rattle.mach_types.specs.declared.threads.Saved.{Saved as File};
ghost use Rattle.mach_types.specs.Bytes.{each_byte};
ghost use Rattle.mach_types.specs.Registers.{register};
ghost use Rattle.mach_types.specs.Kernel.Scheduling.{affinity_of, harts_in, with_ready};
ghost use Rattle.mach_types.specs.Kernel.Threads.{is_live, with_state};
ghost use Rattle.mach_types.specs.declared.threads.ThreadState.TheVariants as state;
ghost use Rattle.page_map.specs.Map.{Map, can_write_in};
ghost use Rattle.block_model.specs.Here.{Here};
ghost use Rattle.block_model.specs.Calls.Affinity.{getcpu, moved_off, sched_getaffinity, sched_setaffinity, sched_yield, set_at, written_unless_zero};
ghost use Rattle.block_model.specs.Calls.Answers.{argument as argument_of, int_argument as int_argument_of, refused, returned, said};
ghost use Rattle.block_model.specs.Tables.{IsTables};
ghost use Rattle.sys_calls.specs.Answered.{AreTables, IsAnswered, IsCaller, IsEntered, IsRead};
ghost use Rattle.sys_calls.specs.Tables.{HoldsTables};
ghost use Rattle.sys_calls.specs.Chosen.{setaffinity_with};
ghost use Rattle.sys_calls.specs.Made.{HasPages, IsMade};
ghost use Rattle.sys_calls.specs.declared.kernel.Kernel.{Kernel as Tables};
ghost use Rattle.sys_calls.specs.declared.calling.CallEnd.TheVariants as over;

use crate::arguments::{answer, argument, go_on, int_argument};
use crate::calling::CallEnd;
use crate::kernel::Kernel;
use crate::memory::{Written, byte_at, write_double, write_word};
use kernel_threads::Threads;
use mach_types::errors::{EFAULT, EINVAL, EPERM, ESRCH};
use mach_types::{Errno, Hart, Saved, Tid, UserMem};
use page_map::PageMap;

/// How many bytes a set of harts has.
const SET_SIZE: u32 = 8;

/// Whether the thread that a call names is no live one; 0 names the caller.
pub fn names_nobody(threads: &Threads, named: u32) -> bool
    ensures { result ≡ not ((named == 0) || is_live named threads.now.threads) }
{
    !(named == 0 || threads.state(Tid(named)).is_some())
}

/// The set of harts in memory: its first byte, where it has one.
fn set_at(pages: &PageMap, at: u64, len: u32) -> u8
    ensures { (h : Here) (t : ℕ) (saved : File) → IsRead h pages.now t saved → result ≡ set_at h at len }
{
    if len == 0 { 0 } else { byte_at(pages, at) }
}

/// The set that the caller gives itself: EFAULT for a set that can't be read, ESRCH for a thread that isn't live, EPERM for
/// another one (own), in this order.
fn asked_set(kernel: &Kernel, pages: &PageMap, tid: Tid, saved: &Saved) -> Result<u8, Errno>
    ensures errno { IfErr result (λ e. 1 ≤ e.0) }
    ensures refused { IfErr result
        (λ e. (h : Here) → HoldsTables kernel.now h.kernel → IsRead h pages.now tid.0 saved.now
        → sched_setaffinity h tid.0 ≡ refused h tid.0 e) }
    ensures set { IfOk result
        (λ set. (h : Here) → HoldsTables kernel.now h.kernel → IsRead h pages.now tid.0 saved.now
        → sched_setaffinity h tid.0 ≡ setaffinity_with h tid.0 set) }
{
    let named = int_argument(saved, 0);
    let len = int_argument(saved, 1);
    let at = argument(saved, 2);
    if !pages.readable(at, u64::from(len.min(SET_SIZE))) {
        return Err(EFAULT);
    }
    if names_nobody(&kernel.threads, named) {
        return Err(ESRCH);
    }
    if !(named == 0 || named == tid.0) {
        return Err(EPERM);
    }
    Ok(set_at(pages, at, len))
}

/// The thread leaves its hart with the answer 0, and is the last ready one.
fn leave(kernel: &mut Kernel, here: Hart, tid: Tid, saved: &mut Saved) -> CallEnd
    requires { IsCaller kernel.old here.0 tid.0 }
    ensures saved { saved.new ≡ returned 0 saved.old }
    ensures threads { kernel.new.threads.threads ≡ with_state tid.0 state.Ready kernel.old.threads.threads }
    ensures kept { kernel.new.threads.saved ≡ with_saved tid.0 (Some saved.new) kernel.old.threads.saved }
    ensures ready { kernel.new.ready ≡ with_ready tid.0 kernel.old.ready }
    ensures others { kernel.new
        ≡ record kernel.old { threads = kernel.new.threads; ready = kernel.new.ready } }
    ensures end { result ≡ over.Leave (pos 0) }
    ensures a0 { register saved.new.file 10 ≡ 0 }
{
    answer(saved, 0);
    kernel.threads.leave(tid, *saved);
    kernel.ready.push(tid);
    CallEnd::Leave(0)
}

/// sched_setaffinity(tid, len, p): lets the thread run on the harts of a set alone. EINVAL, beside the refusals of
/// [`asked_set`], where the machine has none of them. Where its own isn't among them the thread leaves it, and is ready.
pub fn sched_setaffinity(
    kernel: &mut Kernel,
    pages: &PageMap,
    here: Hart,
    harts: u8,
    tid: Tid,
    saved: &mut Saved,
) -> CallEnd
    requires some_hart { 1 ≤ harts }
    requires eight_harts { harts ≤ 8 }
    requires caller { IsCaller kernel.old here.0 tid.0 }
    ensures made { (h : Here) → h.hart ≡ here.0 → h.setting.limits.harts ≡ harts
        → HoldsTables kernel.old h.kernel → HasPages h pages.now
        → IsRead h pages.now tid.0 saved.old
        → IsMade h tid.0 kernel.old pages.now kernel.new pages.now saved.new result
        (sched_setaffinity h tid.0) }
{
    match asked_set(kernel, pages, tid, saved) {
        Ok(set) => restrict(kernel, here, harts, tid, saved, set),
        Err(errno) => go_on(saved, Err(errno)),
    }
}

/// Lets the thread run on the harts of a set alone. EINVAL where the machine has none of them.
fn restrict(
    kernel: &mut Kernel,
    here: Hart,
    harts: u8,
    tid: Tid,
    saved: &mut Saved,
    set: u8,
) -> CallEnd
    requires some_hart { 1 ≤ harts }
    requires eight_harts { harts ≤ 8 }
    requires caller { IsCaller kernel.old here.0 tid.0 }
    ensures made { (h : Here) (m : Map) → h.hart ≡ here.0 → h.setting.limits.harts ≡ harts
        → HoldsTables kernel.old h.kernel → HasPages h m
        → saved.old ≡ h.file tid.0
        → IsMade h tid.0 kernel.old m kernel.new m saved.new result (setaffinity_with h tid.0 set) }
{
    if let Err(errno) = kernel.ready.set_affinity(tid, set, harts) {
        return go_on(saved, Err(errno));
    }
    if kernel.ready.allows(tid, here) {
        return go_on(saved, Ok(0));
    }
    leave(kernel, here, tid, saved)
}

/// sched_yield(): the thread leaves its hart, and is ready.
pub fn sched_yield(kernel: &mut Kernel, here: Hart, tid: Tid, saved: &mut Saved) -> CallEnd
    requires { IsCaller kernel.old here.0 tid.0 }
    ensures made { (h : Here) (m : Map) → h.hart ≡ here.0 → HoldsTables kernel.old h.kernel → HasPages h m
        → saved.old ≡ h.file tid.0
        → IsMade h tid.0 kernel.old m kernel.new m saved.new result (sched_yield h tid.0) }
{
    leave(kernel, here, tid, saved)
}

/// Whether so many bytes can hold a set of harts as sched_getaffinity writes it: 8, or a multiple.
fn is_set_size(len: u32) -> bool
    ensures { result ≡ not (nat_lt len 8 || not (len % 8 == 0)) }
{
    len >= SET_SIZE && len % SET_SIZE == 0
}

/// The thread that a call names; 0 names the caller.
fn named_thread(named: u32, tid: Tid) -> Tid
    ensures { result.0 ≡ (if named == 0 then tid.0 else named) }
{
    if named == 0 { tid } else { Tid(named) }
}

/// sched_getaffinity(tid, len, p): writes the harts of a thread as 8 bytes, and answers 8. EINVAL for a length below 8 or no
/// multiple of 8, ESRCH, EFAULT in this order.
pub fn sched_getaffinity(
    kernel: &Kernel,
    pages: &mut PageMap,
    written: &mut Written,
    tid: Tid,
    saved: &Saved,
) -> Result<u32, Errno>
    requires fresh { written.old.items ≡ [] }
    requires tables { AreTables kernel.now }
    requires live { IsTrue (is_live tid.0 kernel.now.threads.threads) }
    ensures errno { IfErr result (λ e. 1 ≤ e.0) }
    ensures answered { (h : Here) → HoldsTables kernel.now h.kernel → IsRead h pages.old tid.0 saved.now
        → IsAnswered h tid.0 kernel.now pages.old kernel.now pages.new written.new.items result
        (sched_getaffinity h tid.0) }
{
    let named = int_argument(saved, 0);
    let len = int_argument(saved, 1);
    let at = argument(saved, 2);
    if !is_set_size(len) {
        return Err(EINVAL);
    }
    if names_nobody(&kernel.threads, named) {
        return Err(ESRCH);
    }
    if !pages.writable(at, 8) {
        return Err(EFAULT);
    }
    let set = kernel.ready.affinity(named_thread(named, tid));
    write_double(pages, written, at, u64::from(set));
    Ok(SET_SIZE)
}

/// Whether a pointer is 0, or its word can be written.
fn is_usable(pages: &PageMap, at: u64) -> bool
    ensures { result ≡ ((at == 0) || each_byte (can_write_in pages.now) at 4) }
{
    at == 0 || pages.writable(at, 4)
}

/// Whether each of two pointers is 0, or its word can be written.
fn are_usable(pages: &PageMap, cpu: u64, node: u64) -> bool
    ensures { result
        ≡ (((cpu == 0) || each_byte (can_write_in pages.now) cpu 4)
        && ((node == 0) || each_byte (can_write_in pages.now) node 4)) }
{
    is_usable(pages, cpu) && is_usable(pages, node)
}

/// Writes a u32 where the pointer isn't 0.
fn write_unless_zero(pages: &mut PageMap, written: &mut Written, at: u64, value: u32)
    requires room { length written.old.items < 4 }
    requires usable { IsTrue ((at == 0) || each_byte (can_write_in pages.old) at 4) }
    ensures entered { IsEntered pages.old pages.new (written_unless_zero at value) }
    ensures same { (a : ℕ) → can_write_in pages.new a ≡ can_write_in pages.old a }
    ensures told { written.new.items ≡ written.old.items ++ written_unless_zero at value }
{
    if at != 0 {
        write_word(pages, written, at, value);
    }
}

/// getcpu(cpu, node): writes the hart and node 0, as u32 each. EFAULT for a pointer that isn't 0 and can't be written.
pub fn getcpu(
    pages: &mut PageMap,
    written: &mut Written,
    here: Hart,
    saved: &Saved,
) -> Result<u32, Errno>
    requires { written.old.items ≡ [] }
    ensures errno { IfErr result (λ e. 1 ≤ e.0) }
    ensures answered { (h : Here) (k : Tables) (t : ℕ) → h.hart ≡ here.0 → HoldsTables k h.kernel
        → IsRead h pages.old t saved.now
        → IsAnswered h t k pages.old k pages.new written.new.items result (getcpu h t) }
{
    let cpu = argument(saved, 0);
    let node = argument(saved, 1);
    if !are_usable(pages, cpu, node) {
        return Err(EFAULT);
    }
    write_unless_zero(pages, written, cpu, u32::from(here.0));
    write_unless_zero(pages, written, node, 0);
    Ok(0)
}
