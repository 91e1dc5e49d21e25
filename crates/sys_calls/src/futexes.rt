//! futex(2): a thread waits at the address of a word, and others wake it, or let it wait at another word.

ghost use Rattle.std.specs.Prelude.{◌≡◌, ℕ, ◌≤◌, ◌&&◌, ◌||◌, ◌==◌, not, if◌then◌else◌, IfErr, IfOk, OnOk, IsTrue};
ghost use Rattle.mach_types.specs.Kernel.Futexes.{operation};
ghost use Rattle.mach_types.specs.Kernel.Signals.{is_held};
ghost use Rattle.block_model.specs.Here.{Here};
ghost use Rattle.block_model.specs.Calls.Answers.{CallDone, argument as argument_of, int_argument as int_argument_of, refused, said, unless};
ghost use Rattle.block_model.specs.Calls.Futexes.{counted, futex, futex_requeue, futex_wait, requeue as requeued};
ghost use Rattle.block_model.specs.Calls.Futexes as word;
ghost use Rattle.block_model.specs.Kernel.{waited};
ghost use Rattle.sys_calls.specs.Answered.{IsCaller, IsRead};
ghost use Rattle.sys_calls.specs.Tables.{HoldsTables};
ghost use Rattle.sys_calls.specs.Made.{AreSaved, HasPages, IsMade};
ghost use Rattle.sys_calls.specs.Registered.{int_in};
ghost use Rattle.sys_calls.specs.Woken.{compare_errors, futex_of};

use crate::arguments::{answer, argument, go_on, int_argument};
use crate::calling::CallEnd;
use crate::kernel::Kernel;
use crate::memory::number_at;
use crate::waking::{requeue, wake};
use kernel_threads::futex_operation;
use mach_types::address_space::USER_END;
use mach_types::errors::{EAGAIN, EFAULT, EINTR, EINVAL, ENOSYS};
use mach_types::{Errno, Hart, Saved, Tid};
use page_map::PageMap;

/// The operations, without the bits that make a futex private to the process, and a time one of CLOCK_REALTIME.
const WAIT: u32 = 0;

const WAKE: u32 = 1;

const REQUEUE: u32 = 3;

const CMP_REQUEUE: u32 = 4;

const WAIT_BITSET: u32 = 9;

const WAKE_BITSET: u32 = 10;

/// The bit of a time of CLOCK_REALTIME.
const CLOCK_REALTIME: u32 = 256;

/// What an operation does.
#[derive(Clone, Copy, Drop)]
enum Operation {
    Wait,
    Wake,
    Requeue,
}

/// Whether a time is one of CLOCK_REALTIME.
fn is_by_clock(op: u32) -> bool
    ensures { result ≡ word.is_by_clock op }
{
    op / CLOCK_REALTIME % 2 == 1
}

/// Whether an operation waits.
fn is_wait(op: u32) -> bool
    ensures { result ≡ word.is_wait op }
{
    op == WAIT || op == WAIT_BITSET
}

/// Whether it wakes.
fn is_wake(op: u32) -> bool
    ensures { result ≡ word.is_wake op }
{
    op == WAKE || op == WAKE_BITSET
}

/// Whether it lets threads wait at another word.
fn is_requeue(op: u32) -> bool
    ensures { result ≡ word.is_requeue op }
{
    op == REQUEUE || op == CMP_REQUEUE
}

/// Whether it has a mask.
fn has_mask(op: u32) -> bool
    ensures { result ≡ word.has_mask op }
{
    op == WAIT_BITSET || op == WAKE_BITSET
}

/// Whether a number is negative as an `int`.
fn is_negative(n: u32) -> bool
    ensures { result ≡ word.is_negative n }
{
    n >= 0x8000_0000
}

/// Whether an operation is built.
fn is_built(op: u32) -> bool
    ensures { result ≡ (word.is_wait op || word.is_wake op || word.is_requeue op) }
{
    is_wait(op) || is_wake(op) || is_requeue(op)
}

/// Whether the bit of CLOCK_REALTIME stands with another operation than WAIT_BITSET.
fn is_misclocked(op: u32) -> bool
    ensures { result ≡ (word.is_by_clock op && not (operation op == 9)) }
{
    is_by_clock(op) && futex_operation(op) != WAIT_BITSET
}

/// Whether an operation has a mask without a bit.
fn is_maskless(op: u32, mask: u32) -> bool
    ensures { result ≡ (word.has_mask op && mask == 0) }
{
    has_mask(op) && mask == 0
}

/// Whether it is to let fewer than none go.
fn asks_negative(op: u32, most: u32, more: u32) -> bool
    ensures { result ≡ (word.is_requeue op && (word.is_negative most || word.is_negative more)) }
{
    is_requeue(op) && (is_negative(most) || is_negative(more))
}

/// The operation that is asked: ENOSYS where it isn't built, or has the bit of CLOCK_REALTIME and isn't WAIT_BITSET;
/// EINVAL for a mask without a bit, negative numbers, and an address that isn't one of a word; EFAULT for one past those of the
/// process. They come in the order of futex(2).
fn asked(saved: &Saved) -> Result<Operation, Errno>
    ensures errno { IfErr result (λ e. 1 ≤ e.0) }
    ensures refused { IfErr result
        (λ e. (h : Here) (t : ℕ) → saved.now ≡ h.file t → futex h t ≡ refused h t e) }
    ensures asked { IfOk result
        (λ op. (h : Here) (t : ℕ) → saved.now ≡ h.file t → futex h t ≡ futex_of op h t) }
{
    let number = int_argument(saved, 1);
    let op = futex_operation(number);
    let mask = int_argument(saved, 5);
    let at = argument(saved, 0);
    if !is_built(op) || is_misclocked(number) {
        return Err(ENOSYS);
    }
    if is_maskless(op, mask) {
        return Err(EINVAL);
    }
    if asks_negative(op, int_argument(saved, 2), int_argument(saved, 3)) || at % 4 != 0 {
        return Err(EINVAL);
    }
    if at >= USER_END {
        return Err(EFAULT);
    }
    Ok(operation_of(op))
}

/// What a built operation does.
fn operation_of(op: u32) -> Operation
    ensures { (h : Here) (t : ℕ) → futex_of result h t
        ≡ (if word.is_wait op then futex_wait h t else if word.is_wake op then word.futex_wake h t else futex_requeue h t) }
{
    if is_wait(op) {
        Operation::Wait
    } else if is_wake(op) {
        Operation::Wake
    } else {
        Operation::Requeue
    }
}

/// Whether the thread can wait: EINVAL for a timeout, EFAULT for a word that can't be read, EAGAIN for one that differs, EINTR
/// where a signal can come to the thread, in this order.
fn may_wait(kernel: &Kernel, pages: &PageMap, tid: Tid, saved: &Saved) -> Result<(), Errno>
    requires held { IsTrue (is_held tid.0 kernel.now.signals) }
    ensures errno { IfErr result (λ e. 1 ≤ e.0) }
    ensures refused { IfErr result
        (λ e. (h : Here) → HoldsTables kernel.now h.kernel → IsRead h pages.now tid.0 saved.now
        → futex_wait h tid.0 ≡ refused h tid.0 e) }
    ensures waits { OnOk result
        ((h : Here) → HoldsTables kernel.now h.kernel → IsRead h pages.now tid.0 saved.now
        → futex_wait h tid.0
        ≡ record (said h tid.0 0) { kernel = waited tid.0 (argument_of h tid.0 0) h.kernel }) }
{
    let at = argument(saved, 0);
    if argument(saved, 3) != 0 {
        return Err(EINVAL);
    }
    if !pages.readable(at, 4) {
        return Err(EFAULT);
    }
    if number_at(pages, at, 4) != u64::from(int_argument(saved, 2)) {
        return Err(EAGAIN);
    }
    if kernel.signals.next_for(tid).is_some() {
        return Err(EINTR);
    }
    Ok(())
}

/// The thread leaves its hart and waits, unless it is refused.
fn wait(kernel: &mut Kernel, pages: &PageMap, here: Hart, tid: Tid, saved: &mut Saved) -> CallEnd
    requires { IsCaller kernel.old here.0 tid.0 }
    ensures made { (h : Here) → h.hart ≡ here.0 → HoldsTables kernel.old h.kernel → HasPages h pages.now
        → IsRead h pages.now tid.0 saved.old
        → IsMade h tid.0 kernel.old pages.now kernel.new pages.now saved.new result (futex_wait h tid.0) }
{
    match may_wait(kernel, pages, tid, saved) {
        Ok(()) => {
            let at = argument(saved, 0);
            answer(saved, 0);
            kernel.threads.wait(tid, at, *saved);
            CallEnd::Block
        }
        Err(errno) => go_on(saved, Err(errno)),
    }
}

/// Whether the operation compares the word.
fn is_compared(saved: &Saved) -> bool
    ensures { result ≡ (operation (int_in saved.now 1) == 4) }
{
    futex_operation(int_argument(saved, 1)) == CMP_REQUEUE
}

/// Whether the word is the last argument: EFAULT where it can't be read, EAGAIN where it differs.
fn unchanged(pages: &PageMap, saved: &Saved) -> Result<(), Errno>
    ensures errno { IfErr result (λ e. 1 ≤ e.0) }
    ensures refused { IfErr result (λ e. (h : Here) (t : ℕ) (done : CallDone) → IsRead h pages.now t saved.now
        → unless h t (compare_errors h t) done ≡ refused h t e) }
    ensures goes { OnOk result ((h : Here) (t : ℕ) (done : CallDone) → IsRead h pages.now t saved.now
        → unless h t (compare_errors h t) done ≡ done) }
{
    let at = argument(saved, 0);
    if !pages.readable(at, 4) {
        return Err(EFAULT);
    }
    if number_at(pages, at, 4) != u64::from(int_argument(saved, 5)) {
        return Err(EAGAIN);
    }
    Ok(())
}

/// Whether waiters of one word may wait at another one: EINVAL for an address of that one that isn't one of a word, EFAULT for one
/// past those of the process, EINVAL where both words are one; and where the word is compared, EFAULT for one that can't be read,
/// EAGAIN for one that differs. They come in this order.
fn may_requeue(pages: &PageMap, saved: &Saved) -> Result<(), Errno>
    ensures errno { IfErr result (λ e. 1 ≤ e.0) }
    ensures refused { IfErr result
        (λ e. (h : Here) (t : ℕ) → IsRead h pages.now t saved.now → futex_requeue h t ≡ refused h t e) }
    ensures goes { OnOk result
        ((h : Here) (t : ℕ) → IsRead h pages.now t saved.now → futex_requeue h t
        ≡ counted h t (requeued (int_argument_of h t 2) (int_argument_of h t 3) (argument_of h t 0) (argument_of h t 4) word.anyone h.kernel)) }
{
    let at = argument(saved, 0);
    let to = argument(saved, 4);
    if to % 4 != 0 {
        return Err(EINVAL);
    }
    if to >= USER_END {
        return Err(EFAULT);
    }
    if to == at {
        return Err(EINVAL);
    }
    if is_compared(saved) {
        return unchanged(pages, saved);
    }
    Ok(())
}

/// Some waiters of a word are woken, and some wait at another one, unless that is refused; the answer is how many.
fn move_waiters(
    kernel: &mut Kernel,
    pages: &PageMap,
    here: Hart,
    tid: Tid,
    saved: &mut Saved,
) -> CallEnd
    requires { IsCaller kernel.old here.0 tid.0 }
    ensures made { (h : Here) → h.hart ≡ here.0 → HoldsTables kernel.old h.kernel → HasPages h pages.now
        → IsRead h pages.now tid.0 saved.old
        → IsMade h tid.0 kernel.old pages.now kernel.new pages.now saved.new result (futex_requeue h tid.0) }
{
    match may_requeue(pages, saved) {
        Ok(()) => {
            let at = argument(saved, 0);
            let most = int_argument(saved, 2);
            let to = argument(saved, 4);
            let more = int_argument(saved, 3);
            let count = requeue(kernel, at, most, to, more, None);
            go_on(saved, Ok(count))
        }
        Err(errno) => go_on(saved, Err(errno)),
    }
}

/// The mask of a wake: None where it has none.
fn wake_mask(saved: &Saved) -> Option<u32>
    ensures { (h : Here) (t : ℕ) → saved.now ≡ h.file t → result ≡ word.wake_mask h t }
{
    if has_mask(futex_operation(int_argument(saved, 1))) {
        Some(int_argument(saved, 5))
    } else {
        None
    }
}

/// futex(p, op, val, timeout or val2, q, val3): a wait, a wake, or a requeue. A wake and a requeue answer how many were woken or wait
/// at the other word.
pub fn futex(
    kernel: &mut Kernel,
    pages: &PageMap,
    here: Hart,
    tid: Tid,
    saved: &mut Saved,
) -> CallEnd
    requires { IsCaller kernel.old here.0 tid.0 }
    ensures made { (h : Here) → h.hart ≡ here.0 → HoldsTables kernel.old h.kernel → HasPages h pages.now
        → IsRead h pages.now tid.0 saved.old → AreSaved h.file kernel.old.threads
        → IsMade h tid.0 kernel.old pages.now kernel.new pages.now saved.new result (futex h tid.0) }
{
    match asked(saved) {
        Ok(Operation::Wait) => wait(kernel, pages, here, tid, saved),
        Ok(Operation::Wake) => {
            let most = int_argument(saved, 2);
            let woken = wake(kernel, argument(saved, 0), most, wake_mask(saved));
            go_on(saved, Ok(woken))
        }
        Ok(Operation::Requeue) => move_waiters(kernel, pages, here, tid, saved),
        Err(errno) => go_on(saved, Err(errno)),
    }
}
