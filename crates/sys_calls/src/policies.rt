//! sched_getscheduler(2), sched_getparam(2), sched_get_priority_max(2) and sched_get_priority_min(2): how threads are scheduled, in
//! the words of sched(7). Each thread has the policy SCHED_OTHER, whose priority is 0.

ghost use Rattle.std.specs.Prelude.{◌≡◌, ◌≤◌, ◌==◌, ◌||◌, ℕ, [], IfErr};
ghost use Rattle.block_model.specs.Here.{Here};
ghost use Rattle.block_model.specs.Calls.Answers.{said};
ghost use Rattle.block_model.specs.Calls.Policies as call;
ghost use Rattle.sys_calls.specs.Answered.{IsAnswered, IsRead, answer_of};
ghost use Rattle.sys_calls.specs.Tables.{HoldsTables};
ghost use Rattle.sys_calls.specs.declared.kernel.Kernel.{Kernel as Tables};

use crate::affinity::names_nobody;
use crate::arguments::{argument, int_argument};
use crate::memory::{Written, write_word};
use kernel_threads::Threads;
use mach_types::errors::{EFAULT, EINVAL, ESRCH};
use mach_types::{Errno, Saved, UserMem};
use page_map::PageMap;

/// The policies (uapi linux/sched.h): SCHED_OTHER is 0, SCHED_BATCH 3, SCHED_IDLE 5, and 4 is none.
const SCHED_FIFO: u32 = 1;

const SCHED_RR: u32 = 2;

const NO_POLICY: u32 = 4;

const SCHED_DEADLINE: u32 = 6;

/// The lowest `int` that is negative.
const NEGATIVE: u32 = 0x8000_0000;

/// The policy and the priority of each thread.
const SCHED_OTHER: u32 = 0;

const PRIORITY: u32 = 0;

/// Whether an `int` is negative.
fn is_negative(number: u32) -> bool
    ensures { result ≡ call.is_negative number }
{
    number >= NEGATIVE
}

/// Whether sched_getparam refuses its arguments as such: the pointer is 0, or the number negative.
fn is_amiss(number: u32, at: u64) -> bool
    ensures { result ≡ ((at == 0) || call.is_negative number) }
{
    at == 0 || is_negative(number)
}

/// Whether a policy has this number.
fn is_policy(policy: u32) -> bool
    ensures { result ≡ call.is_policy policy }
{
    policy <= SCHED_DEADLINE && policy != NO_POLICY
}

/// Whether a policy is one with priorities above 0.
fn has_priorities(policy: u32) -> bool
    ensures { result ≡ call.has_priorities policy }
{
    policy == SCHED_FIFO || policy == SCHED_RR
}

/// sched_getscheduler(tid): answers SCHED_OTHER. EINVAL for a negative number, ESRCH where no such thread lives, in this order.
pub fn sched_getscheduler(threads: &Threads, saved: &Saved) -> Result<u32, Errno>
    ensures errno { IfErr result (λ e. 1 ≤ e.0) }
    ensures answered { (h : Here) (t : ℕ) → threads.now.threads ≡ h.kernel.threads → saved.now ≡ h.file t
        → call.sched_getscheduler h t ≡ said h t (answer_of result) }
{
    let named = int_argument(saved, 0);
    if is_negative(named) {
        return Err(EINVAL);
    }
    if names_nobody(threads, named) {
        return Err(ESRCH);
    }
    Ok(SCHED_OTHER)
}

/// sched_getparam(tid, p): writes the priority 0, as a u32. EINVAL where the pointer is 0 or the number negative, ESRCH where no
/// such thread lives, EFAULT, in this order.
pub fn sched_getparam(
    threads: &Threads,
    pages: &mut PageMap,
    written: &mut Written,
    saved: &Saved,
) -> Result<u32, Errno>
    requires { written.old.items ≡ [] }
    ensures errno { IfErr result (λ e. 1 ≤ e.0) }
    ensures answered { (h : Here) (k : Tables) (t : ℕ) → k.threads ≡ threads.now → HoldsTables k h.kernel
        → IsRead h pages.old t saved.now
        → IsAnswered h t k pages.old k pages.new written.new.items result (call.sched_getparam h t) }
{
    let named = int_argument(saved, 0);
    let at = argument(saved, 1);
    if is_amiss(named, at) {
        return Err(EINVAL);
    }
    if names_nobody(threads, named) {
        return Err(ESRCH);
    }
    if !pages.writable(at, 4) {
        return Err(EFAULT);
    }
    write_word(pages, written, at, PRIORITY);
    Ok(0)
}

/// sched_get_priority_max(policy): 99 for SCHED_FIFO and SCHED_RR, else 0. EINVAL where no policy has the number.
pub fn sched_get_priority_max(saved: &Saved) -> Result<u32, Errno>
    ensures errno { IfErr result (λ e. 1 ≤ e.0) }
    ensures answered { (h : Here) (t : ℕ) → saved.now ≡ h.file t
        → call.sched_get_priority_max h t ≡ said h t (answer_of result) }
{
    let policy = int_argument(saved, 0);
    if !is_policy(policy) {
        return Err(EINVAL);
    }
    Ok(if has_priorities(policy) { 99 } else { 0 })
}

/// sched_get_priority_min(policy): 1 for SCHED_FIFO and SCHED_RR, else 0. EINVAL where no policy has the number.
pub fn sched_get_priority_min(saved: &Saved) -> Result<u32, Errno>
    ensures errno { IfErr result (λ e. 1 ≤ e.0) }
    ensures answered { (h : Here) (t : ℕ) → saved.now ≡ h.file t
        → call.sched_get_priority_min h t ≡ said h t (answer_of result) }
{
    let policy = int_argument(saved, 0);
    if !is_policy(policy) {
        return Err(EINVAL);
    }
    Ok(if has_priorities(policy) { 1 } else { 0 })
}
