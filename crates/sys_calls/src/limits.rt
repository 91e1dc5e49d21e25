//! prlimit(2): the limits of the process, which can be read and not changed.

ghost use Rattle.std.specs.Prelude.{◌≡◌, ◌≤◌, ◌+◌, ◌==◌, ◌||◌, ◌&&◌, ℕ, [], not, is_some, if◌then◌else◌, IfErr, OnOk, IsTrue};
ghost use Rattle.mach_types.specs.Kernel.Threads.{is_live};
ghost use Rattle.mach_types.specs.Registers.{register};
ghost use Rattle.page_map.specs.Map.{byte_in, can_write_in};
ghost use Rattle.block_model.specs.Here.{Here};
ghost use Rattle.block_model.specs.Calls.Answers.{refused};
ghost use Rattle.block_model.specs.Calls.Limits as call;
ghost use Rattle.sys_calls.specs.Answered.{IsAnswered, IsEntered, IsRead};
ghost use Rattle.sys_calls.specs.Asked.{limits_told, pass_limits};
ghost use Rattle.sys_calls.specs.Tables.{HoldsTables};
ghost use Rattle.sys_calls.specs.declared.kernel.Kernel.{Kernel as Tables};

use crate::affinity::names_nobody;
use crate::arguments::{argument, int_argument};
use crate::memory::{Written, write_double};
use kernel_threads::Threads;
use mach_types::address_space::{PAGE_SIZE, STACK_PAGES};
use mach_types::errors::{EFAULT, EINVAL, EPERM, ESRCH};
use mach_types::{Errno, Saved, UserMem};
use page_map::PageMap;

/// The number of the process.
const PROCESS: u32 = 1;

/// How many resources have a limit, and which one is the stack (uapi asm-generic/resource.h).
const RLIM_NLIMITS: u32 = 16;

const RLIMIT_STACK: u32 = 3;

/// No limit.
const RLIM_INFINITY: u64 = u64::MAX;

/// How many bytes the limits of a resource have: the soft one and the hard one.
const LIMITS_SIZE: u64 = 16;

/// Whether a number names neither the process nor a live thread of it; 0 names the caller's.
fn names_no_process(threads: &Threads, named: u32) -> bool
    ensures { result
        ≡ (not (named == 1) && not ((named == 0) || is_live named threads.now.threads)) }
{
    named != PROCESS && names_nobody(threads, named)
}

/// Whether there is a resource of this number.
fn is_resource(resource: u32) -> bool
    ensures { result ≡ call.is_resource resource }
{
    resource < RLIM_NLIMITS
}

/// The limit of a resource, soft and hard.
fn limit_of(resource: u32) -> u64
    ensures { result ≡ call.limit_of resource }
{
    if resource == RLIMIT_STACK {
        STACK_PAGES * PAGE_SIZE
    } else {
        RLIM_INFINITY
    }
}

/// Whether a pointer is 0, or the limits at it can be read.
fn may_read_limits(pages: &PageMap, at: u64) -> bool
    ensures { result ≡ ((at == 0) || pass_limits (λ a. is_some (byte_in pages.now a)) at) }
{
    at == 0 || can_read_limits(pages, at)
}

/// Whether the bytes of limits can be read.
fn can_read_limits(pages: &PageMap, at: u64) -> bool
    ensures { result ≡ pass_limits (λ a. is_some (byte_in pages.now a)) at }
{
    pages.readable(at, LIMITS_SIZE)
}

/// Whether the bytes of limits can be written, the second of which begins at `next`.
fn can_write_both(pages: &PageMap, at: u64, next: u64) -> bool
    requires { next ≡ at + 8 }
    ensures { result ≡ pass_limits (can_write_in pages.now) at }
{
    if !pages.writable(at, 8) {
        return false;
    }
    pages.writable(next, 8)
}

/// Whether the bytes of limits can be written.
fn can_write_limits(pages: &PageMap, at: u64) -> bool
    ensures { result ≡ pass_limits (can_write_in pages.now) at }
{
    match at.checked_add(8) {
        Some(next) => can_write_both(pages, at, next),
        None => false,
    }
}

/// Whether a pointer is 0, or the bytes of limits at it can be written.
fn may_write_limits(pages: &PageMap, at: u64) -> bool
    ensures { result ≡ ((at == 0) || pass_limits (can_write_in pages.now) at) }
{
    at == 0 || can_write_limits(pages, at)
}

/// Writes a limit, soft and hard.
fn write_limits(pages: &mut PageMap, written: &mut Written, at: u64, limit: u64)
    requires writable { IsTrue (pass_limits (can_write_in pages.old) at) }
    requires fresh { written.old.items ≡ [] }
    ensures entered { IsEntered pages.old pages.new (call.limit_written at limit) }
    ensures told { written.new.items ≡ call.limit_written at limit }
{
    write_double(pages, written, at, limit);
    write_double(pages, written, at + 8, limit);
}

/// The same, where the pointer isn't 0.
fn write_limits_unless_zero(pages: &mut PageMap, written: &mut Written, at: u64, limit: u64)
    requires usable { IsTrue ((at == 0) || pass_limits (can_write_in pages.old) at) }
    requires fresh { written.old.items ≡ [] }
    ensures entered { IsEntered pages.old pages.new (if at == 0 then [] else call.limit_written at limit) }
    ensures told { written.new.items ≡ (if at == 0 then [] else call.limit_written at limit) }
{
    if at != 0 {
        write_limits(pages, written, at, limit);
    }
}

/// Whether prlimit64 can be done: EFAULT for new limits that can't be read, ESRCH where no such process lives, EINVAL where no
/// resource has the number, EPERM where new limits are given (own), EFAULT where the old ones can't be written, in this order.
fn may_tell_limits(threads: &Threads, pages: &PageMap, saved: &Saved) -> Result<(), Errno>
    ensures errno { IfErr result (λ e. 1 ≤ e.0) }
    ensures refused { IfErr result (λ e. (h : Here) (t : ℕ) → threads.now.threads ≡ h.kernel.threads
        → IsRead h pages.now t saved.now → call.prlimit64 h t ≡ refused h t e) }
    ensures told { OnOk result ((h : Here) (t : ℕ) → threads.now.threads ≡ h.kernel.threads
        → IsRead h pages.now t saved.now → call.prlimit64 h t ≡ limits_told h t) }
    ensures usable { OnOk result (IsTrue ((register saved.now.file 13 == 0)
        || pass_limits (can_write_in pages.now) (register saved.now.file 13))) }
{
    let new = argument(saved, 2);
    if !may_read_limits(pages, new) {
        return Err(EFAULT);
    }
    if names_no_process(threads, int_argument(saved, 0)) {
        return Err(ESRCH);
    }
    if !is_resource(int_argument(saved, 1)) {
        return Err(EINVAL);
    }
    if new != 0 {
        return Err(EPERM);
    }
    if !may_write_limits(pages, argument(saved, 3)) {
        return Err(EFAULT);
    }
    Ok(())
}

/// prlimit64(pid, resource, new, old): writes the limits of a resource where `old` isn't 0. Refused as [`may_tell_limits`] says.
pub fn prlimit64(
    threads: &Threads,
    pages: &mut PageMap,
    written: &mut Written,
    saved: &Saved,
) -> Result<u32, Errno>
    requires { written.old.items ≡ [] }
    ensures errno { IfErr result (λ e. 1 ≤ e.0) }
    ensures answered { (h : Here) (k : Tables) (t : ℕ) → k.threads ≡ threads.now → HoldsTables k h.kernel
        → IsRead h pages.old t saved.now
        → IsAnswered h t k pages.old k pages.new written.new.items result (call.prlimit64 h t) }
{
    may_tell_limits(threads, pages, saved)?;
    let limit = limit_of(int_argument(saved, 1));
    write_limits_unless_zero(pages, written, argument(saved, 3), limit);
    Ok(0)
}
