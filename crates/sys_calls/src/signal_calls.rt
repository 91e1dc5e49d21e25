//! sigaction(2), sigprocmask(2), sigpending(2) and sigreturn(2): what is done when a signal comes, and which ones a thread masks, is
//! set; which of these are pending is told; and a handler returns. A set of signals has 8 bytes, which a call is told (own: no other size).

ghost use Rattle.std.specs.Prelude.{◌≡◌, ◌≤◌, ◌+◌, ◌==◌, ◌||◌, ◌&&◌, ℕ, [], ◌∷◌, not, false, is_some, if◌then◌else◌, unwrap_or, IfErr, IfOk, OnOk, IsTrue};
ghost use Rattle.mach_types.specs.Bytes.{each_byte, word_at};
ghost use Rattle.mach_types.specs.Kernel.Signals as spec;
ghost use Rattle.mach_types.specs.declared.threads.Saved.{Saved as File};
ghost use Rattle.page_map.specs.Map.{byte_in, can_write_in};
ghost use Rattle.block_model.specs.Here.{Here};
ghost use Rattle.block_model.specs.Calls.Answers.{double_written, refused};
ghost use Rattle.block_model.specs.Calls.Signals as call;
ghost use Rattle.sys_calls.specs.Answered.{IsAnswered, IsCaller, IsEntered, IsRead};
ghost use Rattle.sys_calls.specs.Tables.{HoldsTables};
ghost use Rattle.sys_calls.specs.Made.{HasPages, IsMade};
ghost use Rattle.sys_calls.specs.Registered.{int_in};
ghost use Rattle.sys_calls.specs.Signalled.{mask_changed, pass_action, sigaction_with, sigprocmask_done};
ghost use Rattle.sys_calls.specs.declared.kernel.Kernel.{Kernel as Tables};
ghost use Rattle.mach_types.specs.Registers.{register};

use crate::arguments::{argument, int_argument, signal_number};
use crate::calling::CallEnd;
use crate::kernel::Kernel;
use crate::memory::{Written, number_at, write_double};
use mach_types::errors::{EFAULT, EINVAL};
use mach_types::signals::{
    LAST_SIGNAL, SIG_BLOCK, SIG_SETMASK, SIG_UNBLOCK, SIGKILL, SIGSEGV, SIGSTOP,
};
use mach_types::{Action, End, Errno, Hart, Saved, Tid, UserMem};
use page_map::PageMap;
use signals::Signals;

/// How many bytes a set of signals has.
const SET_SIZE: u64 = 8;

/// How many bytes an action has: the handler, the flags and the mask.
const ACTION_SIZE: u64 = 24;

/// Whether the bytes of an action can be read.
fn can_read_action(pages: &PageMap, at: u64) -> bool
    ensures { result ≡ pass_action (λ a. is_some (byte_in pages.now a)) at }
{
    pages.readable(at, ACTION_SIZE)
}

/// Whether a pointer is 0, or the bytes of an action at it can be read.
fn may_read_action(pages: &PageMap, at: u64) -> bool
    ensures { result ≡ ((at == 0) || pass_action (λ a. is_some (byte_in pages.now a)) at) }
{
    at == 0 || can_read_action(pages, at)
}

/// The action at an address, where it can be read.
fn action_at(pages: &PageMap, at: u64) -> Action
    requires readable { IsTrue (pass_action (λ a. is_some (byte_in pages.now a)) at) }
    ensures { (h : Here) (t : ℕ) (saved : File) → IsRead h pages.now t saved → result ≡ call.action_at h at }
{
    Action {
        at: number_at(pages, at, 8),
        flags: number_at(pages, at + 8, 8),
        mask: number_at(pages, at + 16, 8),
    }
}

/// The action that is given; None where the pointer is 0.
fn action_given(pages: &PageMap, at: u64) -> Option<Action>
    requires readable { IsTrue ((at == 0) || pass_action (λ a. is_some (byte_in pages.now a)) at) }
    ensures { (h : Here) (t : ℕ) (saved : File) → IsRead h pages.now t saved
        → result ≡ call.action_given h at }
{
    if at == 0 {
        None
    } else {
        Some(action_at(pages, at))
    }
}

/// Whether the bytes of an action can be written, whose last word begins at `last`.
fn can_write_words(pages: &PageMap, at: u64, last: u64) -> bool
    requires last { last ≡ at + 16 }
    ensures { result ≡ pass_action (can_write_in pages.now) at }
{
    if !pages.writable(at, 8) {
        return false;
    }
    if !pages.writable(at + 8, 8) {
        return false;
    }
    pages.writable(last, 8)
}

/// Whether the bytes of an action can be written.
fn can_write_action(pages: &PageMap, at: u64) -> bool
    ensures { result ≡ pass_action (can_write_in pages.now) at }
{
    match at.checked_add(16) {
        Some(last) => can_write_words(pages, at, last),
        None => false,
    }
}

/// Whether a pointer is 0, or the bytes of an action at it can be written.
fn may_write_action(pages: &PageMap, at: u64) -> bool
    ensures { result ≡ ((at == 0) || pass_action (can_write_in pages.now) at) }
{
    at == 0 || can_write_action(pages, at)
}

/// Writes an action.
fn write_action(pages: &mut PageMap, written: &mut Written, at: u64, action: &Action)
    requires writable { IsTrue (pass_action (can_write_in pages.old) at) }
    requires fresh { written.old.items ≡ [] }
    ensures entered { IsEntered pages.old pages.new (call.action_written at action.now) }
    ensures told { written.new.items ≡ call.action_written at action.now }
{
    write_double(pages, written, at, action.at);
    write_double(pages, written, at + 8, action.flags);
    write_double(pages, written, at + 16, action.mask);
}

/// Writes an action where the pointer isn't 0.
fn write_action_unless_zero(pages: &mut PageMap, written: &mut Written, at: u64, action: &Action)
    requires usable { IsTrue ((at == 0) || pass_action (can_write_in pages.old) at) }
    requires fresh { written.old.items ≡ [] }
    ensures entered { IsEntered pages.old pages.new
        (if at == 0 then [] else call.action_written at action.now) }
    ensures told { written.new.items ≡ (if at == 0 then [] else call.action_written at action.now) }
{
    if at != 0 {
        write_action(pages, written, at, action);
    }
}

/// Whether sigaction(2) refuses a number and a new action, if there is one: no signal has the number, or the action of SIGKILL or
/// SIGSTOP would change.
fn refuses_action(sig: u32, new: Option<Action>) -> bool
    ensures { result ≡ spec.refuses_action sig new }
{
    sig == 0
        || sig > u32::from(LAST_SIGNAL)
        || (new.is_some() && (sig == u32::from(SIGKILL) || sig == u32::from(SIGSTOP)))
}

/// The new action that rt_sigaction is given, if one is: EINVAL for a size that isn't 8, EFAULT for an action that can't be read,
/// EINVAL for a number that no signal has, or a new action of SIGKILL or SIGSTOP, EFAULT where the old one can't be written, in
/// this order.
fn asked_action(pages: &PageMap, saved: &Saved) -> Result<Option<Action>, Errno>
    ensures errno { IfErr result (λ e. 1 ≤ e.0) }
    ensures refused { IfErr result (λ e. (h : Here) (t : ℕ) → IsRead h pages.now t saved.now
        → call.rt_sigaction h t ≡ refused h t e) }
    ensures given { IfOk result (λ new. (h : Here) (t : ℕ) → IsRead h pages.now t saved.now
        → call.rt_sigaction h t ≡ sigaction_with h t new) }
    ensures accepted { IfOk result (λ new. spec.refuses_action (int_in saved.now 0) new ≡ false) }
    ensures usable { OnOk result (IsTrue ((register saved.now.file 12 == 0)
        || pass_action (can_write_in pages.now) (register saved.now.file 12))) }
{
    let act = argument(saved, 1);
    if argument(saved, 3) != SET_SIZE {
        return Err(EINVAL);
    }
    if !may_read_action(pages, act) {
        return Err(EFAULT);
    }
    let new = action_given(pages, act);
    if refuses_action(int_argument(saved, 0), new) {
        return Err(EINVAL);
    }
    if !may_write_action(pages, argument(saved, 2)) {
        return Err(EFAULT);
    }
    Ok(new)
}

/// rt_sigaction(sig, act, old, size): sets what is done when a signal comes where `act` isn't 0, and writes what was done before
/// where `old` isn't: the new action is read before the old one is written. Refused as [`asked_action`] says.
pub fn rt_sigaction(
    kernel: &mut Kernel,
    pages: &mut PageMap,
    written: &mut Written,
    saved: &Saved,
) -> Result<u32, Errno>
    requires fresh { written.old.items ≡ [] }
    ensures errno { IfErr result (λ e. 1 ≤ e.0) }
    ensures answered { (h : Here) (t : ℕ) → HoldsTables kernel.old h.kernel → IsRead h pages.old t saved.now
        → IsAnswered h t kernel.old pages.old kernel.new pages.new written.new.items result
        (call.rt_sigaction h t) }
{
    let new = asked_action(pages, saved)?;
    let sig = signal_number(int_argument(saved, 0));
    let Ok(old) = kernel.signals.act(sig, new) else {
        unreachable!()
    };
    write_action_unless_zero(pages, written, argument(saved, 2), &old);
    Ok(0)
}

/// Whether `how` isn't one of the three ways to change a mask.
fn refuses_how(how: u32) -> bool
    ensures { result ≡ spec.refuses_how how }
{
    !(how == SIG_BLOCK || how == SIG_UNBLOCK || how == SIG_SETMASK)
}

/// Whether a set is given, and `how` isn't one of three.
fn refuses_change(how: u32, set: u64) -> bool
    ensures { result ≡ (not (set == 0) && spec.refuses_how how) }
{
    set != 0 && refuses_how(how)
}

/// Whether a pointer is 0, or the bytes of a set at it can be read.
fn may_read_set(pages: &PageMap, at: u64) -> bool
    ensures { result ≡ ((at == 0) || each_byte (λ a. is_some (byte_in pages.now a)) at 8) }
{
    at == 0 || pages.readable(at, SET_SIZE)
}

/// Whether a pointer is 0, or the bytes of a set at it can be written.
fn may_write_set(pages: &PageMap, at: u64) -> bool
    ensures { result ≡ ((at == 0) || each_byte (can_write_in pages.now) at 8) }
{
    at == 0 || pages.writable(at, 8)
}

/// Writes a set where the pointer isn't 0.
fn write_set_unless_zero(pages: &mut PageMap, written: &mut Written, at: u64, set: u64)
    requires usable { IsTrue ((at == 0) || each_byte (can_write_in pages.old) at 8) }
    requires fresh { written.old.items ≡ [] }
    ensures entered { IsEntered pages.old pages.new (if at == 0 then [] else double_written at set ∷ []) }
    ensures told { written.new.items ≡ (if at == 0 then [] else double_written at set ∷ []) }
{
    if at != 0 {
        write_double(pages, written, at, set);
    }
}

/// Whether rt_sigprocmask can be done: EINVAL for a size that isn't 8, EFAULT for a set that can't be read, EINVAL where a set is
/// given and `how` isn't one of three, EFAULT where the old mask can't be written, in this order.
fn may_mask(pages: &PageMap, saved: &Saved) -> Result<(), Errno>
    ensures errno { IfErr result (λ e. 1 ≤ e.0) }
    ensures refused { IfErr result (λ e. (h : Here) (t : ℕ) → IsRead h pages.now t saved.now
        → call.rt_sigprocmask h t ≡ refused h t e) }
    ensures masks { OnOk result ((h : Here) (t : ℕ) → IsRead h pages.now t saved.now
        → call.rt_sigprocmask h t ≡ sigprocmask_done h t) }
    ensures how { OnOk result
        ((not (register saved.now.file 11 == 0) && spec.refuses_how (int_in saved.now 0)) ≡ false) }
    ensures usable { OnOk result (IsTrue ((register saved.now.file 12 == 0)
        || each_byte (can_write_in pages.now) (register saved.now.file 12) 8)) }
{
    let set = argument(saved, 1);
    if argument(saved, 3) != SET_SIZE {
        return Err(EINVAL);
    }
    if !may_read_set(pages, set) {
        return Err(EFAULT);
    }
    if refuses_change(int_argument(saved, 0), set) {
        return Err(EINVAL);
    }
    if !may_write_set(pages, argument(saved, 2)) {
        return Err(EFAULT);
    }
    Ok(())
}

/// Gives a thread the mask that `how` makes of its own and of the set at an address; where the address is 0 its mask stays.
fn change_mask(signals: &mut Signals, pages: &PageMap, tid: Tid, how: u32, at: u64)
    requires held { IsTrue (spec.is_held tid.0 signals.old) }
    requires how { (not (at == 0) && spec.refuses_how how) ≡ false }
    ensures { signals.new
        ≡ mask_changed tid.0 how at (unwrap_or (word_at (byte_in pages.now) at 8) 0) signals.old }
{
    if at != 0 {
        let set = number_at(pages, at, 8);
        let Ok(_old) = signals.mask(tid, how, set) else {
            unreachable!()
        };
    }
}

/// rt_sigprocmask(how, set, old, size): changes which signals the thread masks where `set` isn't 0, and writes which ones it masked
/// where `old` isn't: the set is read before the old mask is written. Refused as [`may_mask`] says.
pub fn rt_sigprocmask(
    kernel: &mut Kernel,
    pages: &mut PageMap,
    written: &mut Written,
    tid: Tid,
    saved: &Saved,
) -> Result<u32, Errno>
    requires fresh { written.old.items ≡ [] }
    requires held { IsTrue (spec.is_held tid.0 kernel.old.signals) }
    ensures errno { IfErr result (λ e. 1 ≤ e.0) }
    ensures answered { (h : Here) → HoldsTables kernel.old h.kernel → IsRead h pages.old tid.0 saved.now
        → IsAnswered h tid.0 kernel.old pages.old kernel.new pages.new written.new.items result
        (call.rt_sigprocmask h tid.0) }
{
    may_mask(pages, saved)?;
    let how = int_argument(saved, 0);
    let old = kernel.signals.mask_of(tid);
    change_mask(&mut kernel.signals, pages, tid, how, argument(saved, 1));
    write_set_unless_zero(pages, written, argument(saved, 2), old);
    Ok(0)
}

/// What is pending for a thread of the signals that it masks.
fn held_back(signals: &Signals, tid: Tid) -> u64
    requires { IsTrue (spec.is_held tid.0 signals.now) }
    ensures { result ≡ call.held_back tid.0 signals.now }
{
    signals.pending_of(tid) & signals.mask_of(tid)
}

/// rt_sigpending(set, size): writes what is pending for the thread of the signals that it masks. EINVAL for a size that isn't 8,
/// EFAULT, in this order.
pub fn rt_sigpending(
    signals: &Signals,
    pages: &mut PageMap,
    written: &mut Written,
    tid: Tid,
    saved: &Saved,
) -> Result<u32, Errno>
    requires fresh { written.old.items ≡ [] }
    requires held { IsTrue (spec.is_held tid.0 signals.now) }
    ensures errno { IfErr result (λ e. 1 ≤ e.0) }
    ensures answered { (h : Here) (k : Tables) → k.signals ≡ signals.now → HoldsTables k h.kernel
        → IsRead h pages.old tid.0 saved.now
        → IsAnswered h tid.0 k pages.old k pages.new written.new.items result (call.rt_sigpending h tid.0) }
{
    let at = argument(saved, 0);
    if argument(saved, 1) != SET_SIZE {
        return Err(EINVAL);
    }
    if !pages.writable(at, 8) {
        return Err(EFAULT);
    }
    let set = held_back(signals, tid);
    write_double(pages, written, at, set);
    Ok(0)
}

/// rt_sigreturn(): the thread goes on with the registers and the mask of the frame at its stack pointer. Where it can't be read the
/// process is killed, and nothing changes.
pub fn rt_sigreturn(
    kernel: &mut Kernel,
    pages: &PageMap,
    here: Hart,
    tid: Tid,
    saved: &mut Saved,
) -> CallEnd
    requires { IsCaller kernel.old here.0 tid.0 }
    ensures made { (h : Here) → h.hart ≡ here.0 → HoldsTables kernel.old h.kernel → HasPages h pages.now
        → IsRead h pages.now tid.0 saved.old
        → IsMade h tid.0 kernel.old pages.now kernel.new pages.now saved.new result
        (call.rt_sigreturn h tid.0) }
{
    if kernel.signals.pop_frame(pages, tid, saved) {
        CallEnd::Resume
    } else {
        CallEnd::ProcessEnd(End::Killed(SIGSEGV))
    }
}
