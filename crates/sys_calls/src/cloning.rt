//! clone(2): a child thread, which goes on as its parent does.

ghost use Rattle.std.specs.Prelude.{◌≡◌, ◌≤◌, ◌<◌, ◌+◌, ◌-◌, ◌^◌, ◌&&◌, ◌++◌, ℕ, ◌||◌, [], length, not, false, IfErr, IfOk, OnErr, OnOk, IsTrue, IsOk};
ghost use Rattle.kernel_threads.specs.Table.{IsTable, with_start};
ghost use Rattle.mach_types.specs.Bytes.{each_byte};
ghost use Rattle.mach_types.specs.Kernel.Threads.{is_full, is_live, with_child, with_clear};
ghost use Rattle.mach_types.specs.Kernel.Scheduling.{with_ready, with_thread};
ghost use Rattle.mach_types.specs.Kernel.Signals as signals;
ghost use Rattle.page_map.specs.Map.{can_write_in};
ghost use Rattle.block_model.specs.Here.{Here};
ghost use Rattle.block_model.specs.Calls.Answers.{refused};
ghost use Rattle.block_model.specs.Calls.Cloning.{are_flags, child_file, clone, has_flag, set_if, written_if};
ghost use Rattle.sys_calls.specs.Answered.{AreTables, IsAnswered, IsEntered, IsRead};
ghost use Rattle.sys_calls.specs.Tables.{HoldsTables};
ghost use Rattle.sys_calls.specs.Cloned.{CanWriteNumbers, HasChild, can_write_numbers, clear_asked, cloned, numbers_written};
ghost use Rattle.sys_calls.specs.Signalled.{HoldSignals};

use crate::arguments::{answer, argument};
use crate::kernel::Kernel;
use crate::memory::{Written, write_word};
use kernel_threads::Threads;
use mach_types::errors::{EAGAIN, EFAULT, EINVAL};
use mach_types::{Errno, MOST_THREADS, Saved, Tid, UserMem};
use page_map::PageMap;

/// The flags that must be given: CLONE_VM, CLONE_FS, CLONE_FILES, CLONE_SIGHAND, CLONE_THREAD.
const REQUIRED: u64 = 0x10F00;

const SETTLS: u64 = 0x80000;

const PARENT_SETTID: u64 = 0x10_0000;

const CHILD_CLEARTID: u64 = 0x20_0000;

const CHILD_SETTID: u64 = 0x100_0000;

/// Flags that change nothing: CLONE_SYSVSEM and CLONE_DETACHED.
const IGNORED: u64 = 0x44_0000;

/// The flags that may be given.
const KNOWN: u64 = REQUIRED + SETTLS + PARENT_SETTID + CHILD_CLEARTID + CHILD_SETTID + IGNORED;

/// The registers of the stack and of a thread's own data, sp and tp.
const SP: u8 = 2;

const TP: u8 = 4;

/// Whether a flag is given.
fn has_flag(flags: u64, flag: u64) -> bool
    requires { 0 < flag }
    ensures { result ≡ has_flag flags flag }
{
    flags / flag % 2 == 1
}

/// Whether these are flags that clone takes here.
fn are_flags(flags: u64) -> bool
    ensures { result ≡ are_flags flags }
{
    flags & REQUIRED == REQUIRED && flags & KNOWN == flags
}

/// Whether the word that a flag asks for can be written.
fn may_write(pages: &PageMap, flags: u64, flag: u64, at: u64) -> bool
    requires { 0 < flag }
    ensures { result ≡ (not (has_flag flags flag) || each_byte (can_write_in pages.now) at 4) }
{
    !has_flag(flags, flag) || pages.writable(at, 4)
}

/// Writes the word that a flag asks for.
fn write_if(pages: &mut PageMap, written: &mut Written, flags: u64, flag: u64, at: u64, value: u32)
    requires room { length written.old.items < 4 }
    requires flag { 0 < flag }
    requires writable { IsTrue (not (has_flag flags flag) || each_byte (can_write_in pages.old) at 4) }
    ensures entered { IsEntered pages.old pages.new (written_if flags flag at value) }
    ensures same { (a : ℕ) → can_write_in pages.new a ≡ can_write_in pages.old a }
    ensures told { written.new.items ≡ written.old.items ++ written_if flags flag at value }
{
    if has_flag(flags, flag) {
        write_word(pages, written, at, value);
    }
}

/// What the child begins with: its parent's registers past the call, with a0 0, sp where a stack is given, and tp where the
/// flag asks.
fn child_file(saved: &Saved) -> Saved
    ensures { (h : Here) (t : ℕ) → saved.now ≡ h.file t → result ≡ child_file h t }
{
    let flags = argument(saved, 0);
    let stack = argument(saved, 1);
    let mut child = *saved;
    if stack != 0 {
        child.file.set(SP, stack);
    }
    if has_flag(flags, SETTLS) {
        child.file.set(TP, argument(saved, 3));
    }
    answer(&mut child, 0);
    child
}

/// Whether a child can be made: EINVAL for the flags, EAGAIN where as many threads live as may, EFAULT for a word that can't be
/// written, in this order.
fn may_clone(kernel: &Kernel, pages: &PageMap, saved: &Saved) -> Result<(), Errno>
    ensures errno { IfErr result (λ e. 1 ≤ e.0) }
    ensures refused { IfErr result
        (λ e. (h : Here) (t : ℕ) → HoldsTables kernel.now h.kernel → IsRead h pages.now t saved.now
        → clone h t ≡ refused h t e) }
    ensures made { OnOk result
        ((h : Here) (t : ℕ) → HoldsTables kernel.now h.kernel → IsRead h pages.now t saved.now
        → clone h t ≡ cloned h t) }
    ensures room { OnOk result (is_full kernel.now.threads.threads ≡ false) }
    ensures words { OnOk result (CanWriteNumbers pages.now saved.now) }
    ensures table { IsTable kernel.now.threads }
{
    let live = kernel.threads.live();
    if !are_flags(argument(saved, 0)) {
        return Err(EINVAL);
    }
    if live >= MOST_THREADS {
        return Err(EAGAIN);
    }
    if !can_write_numbers(pages, saved) {
        return Err(EFAULT);
    }
    Ok(())
}

/// Whether the words that flags ask for can be written.
fn can_write_numbers(pages: &PageMap, saved: &Saved) -> bool
    ensures { result ≡ can_write_numbers pages.now saved.now }
{
    let flags = argument(saved, 0);
    may_write(pages, flags, PARENT_SETTID, argument(saved, 2))
        && may_write(pages, flags, CHILD_SETTID, argument(saved, 4))
}

/// Adds a child, which has its parent's mask and is the last ready thread. It is there, since there is room.
fn add_child(kernel: &mut Kernel, tid: Tid, start: Saved) -> Result<Tid, Errno>
    requires tables { AreTables kernel.old }
    requires signals { HoldSignals kernel.old }
    requires live { IsTrue (is_live tid.0 kernel.old.threads.threads) }
    requires numbers { kernel.old.threads.threads.given < 2 ^ 31 - 1 }
    requires room { is_full kernel.old.threads.threads ≡ false }
    ensures child { IsOk result }
    ensures number { IfOk result (λ t. t.0 ≡ kernel.old.threads.threads.given + 1) }
    ensures threads { kernel.new.threads.threads ≡ with_child kernel.old.threads.threads }
    ensures saved { kernel.new.threads.saved
        ≡ with_start (kernel.old.threads.threads.given + 1) start kernel.old.threads.saved }
    ensures ready { kernel.new.ready ≡ with_ready (kernel.old.threads.threads.given + 1)
        (with_thread tid.0 (kernel.old.threads.threads.given + 1) kernel.old.ready) }
    ensures signals { kernel.new.signals
        ≡ signals.with_thread tid.0 (kernel.old.threads.threads.given + 1) kernel.old.signals }
    ensures others { kernel.new
        ≡ record kernel.old {
          threads = kernel.new.threads;
          ready = kernel.new.ready;
          signals = kernel.new.signals;
        } }
{
    let child = kernel.threads.clone_thread(tid, start)?;
    kernel.ready.add(tid, child);
    kernel.ready.push(child);
    kernel.signals.add(tid, child);
    Ok(child)
}

/// Sets the address that the child's exit clears, where the flag asks.
fn set_clear_if(threads: &mut Threads, child: Tid, saved: &Saved)
    requires { IsTrue (is_live child.0 threads.old.threads) }
    ensures threads { threads.new.threads ≡ clear_asked saved.now child.0 threads.old.threads }
    ensures saved { threads.new.saved ≡ threads.old.saved }
{
    if has_flag(argument(saved, 0), CHILD_CLEARTID) {
        threads.set_clear(child, argument(saved, 4));
    }
}

/// Makes a child of the thread. It is there, since there is room.
fn make_child(kernel: &mut Kernel, tid: Tid, saved: &Saved) -> Result<Tid, Errno>
    requires tables { AreTables kernel.old }
    requires signals { HoldSignals kernel.old }
    requires live { IsTrue (is_live tid.0 kernel.old.threads.threads) }
    requires numbers { kernel.old.threads.threads.given < 2 ^ 31 - 1 }
    requires room { is_full kernel.old.threads.threads ≡ false }
    ensures child { IsOk result }
    ensures number { IfOk result (λ t. t.0 ≡ kernel.old.threads.threads.given + 1) }
    ensures made { (h : Here) → HoldsTables kernel.old h.kernel → saved.now ≡ h.file tid.0
        → HasChild h tid.0 kernel.old kernel.new }
{
    let child = add_child(kernel, tid, child_file(saved))?;
    set_clear_if(&mut kernel.threads, child, saved);
    Ok(child)
}

/// Writes the child's number to the words that flags ask for.
fn write_numbers(pages: &mut PageMap, written: &mut Written, saved: &Saved, number: u32)
    requires words { CanWriteNumbers pages.old saved.now }
    requires fresh { written.old.items ≡ [] }
    ensures entered { IsEntered pages.old pages.new written.new.items }
    ensures told { (h : Here) (t : ℕ) → saved.now ≡ h.file t
        → written.new.items ≡ numbers_written h t number }
{
    let flags = argument(saved, 0);
    write_if(
        pages,
        written,
        flags,
        PARENT_SETTID,
        argument(saved, 2),
        number,
    );
    write_if(
        pages,
        written,
        flags,
        CHILD_SETTID,
        argument(saved, 4),
        number,
    );
}

/// clone(flags, stack, ptid, tls, ctid): makes a child that goes on past the call with a0 0, and answers its number. Refused as
/// [`may_clone`] says.
pub fn clone(
    kernel: &mut Kernel,
    pages: &mut PageMap,
    written: &mut Written,
    tid: Tid,
    saved: &Saved,
) -> Result<u32, Errno>
    requires fresh { written.old.items ≡ [] }
    requires tables { AreTables kernel.old }
    requires signals { HoldSignals kernel.old }
    requires live { IsTrue (is_live tid.0 kernel.old.threads.threads) }
    requires numbers { kernel.old.threads.threads.given < 2 ^ 31 - 1 }
    ensures errno { IfErr result (λ e. 1 ≤ e.0) }
    ensures answered { (h : Here) → HoldsTables kernel.old h.kernel → IsRead h pages.old tid.0 saved.now
        → IsAnswered h tid.0 kernel.old pages.old kernel.new pages.new written.new.items result
        (clone h tid.0) }
{
    may_clone(kernel, pages, saved)?;
    let child = make_child(kernel, tid, saved)?;
    write_numbers(pages, written, saved, child.0);
    Ok(child.0)
}
