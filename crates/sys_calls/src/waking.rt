//! futex(2): of the threads that wait at an address some are woken, and some wait at another address from now on.

ghost use Rattle.std.specs.Prelude.{◌≡◌, ℕ, IfNone, IfSome, if◌then◌else◌};
ghost use Rattle.std.specs.Option.{option_map};
ghost use Rattle.kernel_threads.specs.Table.{IsTable, hears_saved, with_answer};
ghost use Rattle.mach_types.specs.Kernel.Futexes.{hears};
ghost use Rattle.mach_types.specs.Kernel.Scheduling.{with_ready};
ghost use Rattle.mach_types.specs.Kernel.Threads.{longest_waiter, with_waiter, with_woken};
ghost use Rattle.block_model.specs.Here.{Here};
ghost use Rattle.block_model.specs.Calls.Futexes.{requeue as requeued, wake as woken};
ghost use Rattle.sys_calls.specs.Answered.{AreTables};
ghost use Rattle.sys_calls.specs.Tables.{HoldsTables};
ghost use Rattle.sys_calls.specs.Woken.{AreHeard, IsOnward, IsWoken};

use crate::kernel::Kernel;
use mach_types::{Hart, Tid};

/// Makes a thread ready, as the last one, and answers which it is: of those that wait at an address and hear a wake with this mask,
/// or without one, the one that waits longest. None exactly where there is none.
fn wake_one(kernel: &mut Kernel, at: u64, mask: Option<u32>) -> Option<Tid>
    requires tables { AreTables kernel.old }
    ensures longest { option_map (λ t. t.0) result
        ≡ longest_waiter at (hears_saved mask kernel.old.threads.saved) kernel.old.threads.threads }
    ensures table { IsTable kernel.old.threads }
    ensures nobody { IfNone result (kernel.new ≡ kernel.old) }
    ensures threads { IfSome result
        (λ t. kernel.new.threads.threads ≡ with_woken t.0 kernel.old.threads.threads) }
    ensures saved { IfSome result
        (λ t. kernel.new.threads.saved ≡ with_answer t.0 0 kernel.old.threads.saved) }
    ensures ready { IfSome result (λ t. kernel.new.ready ≡ with_ready t.0 kernel.old.ready) }
    ensures others { kernel.new
        ≡ record kernel.old { threads = kernel.new.threads; ready = kernel.new.ready } }
{
    let tid = kernel.threads.wake_one(at, mask)?;
    kernel.ready.push(tid);
    Some(tid)
}

/// Lets that thread wait at another address from now on, behind all that wait, and answers which it is; None exactly where there is
/// none. (For the table it goes on, on some hart, and waits again.)
fn move_one(kernel: &mut Kernel, at: u64, to: u64, mask: Option<u32>) -> Option<Tid>
    requires tables { AreTables kernel.old }
    ensures longest { option_map (λ t. t.0) result
        ≡ longest_waiter at (hears_saved mask kernel.old.threads.saved) kernel.old.threads.threads }
    ensures table { IsTable kernel.old.threads }
    ensures nobody { IfNone result (kernel.new ≡ kernel.old) }
    ensures threads { IfSome result
        (λ t. kernel.new.threads.threads ≡ with_waiter t.0 to (with_woken t.0 kernel.old.threads.threads)) }
    ensures saved { IfSome result
        (λ t. kernel.new.threads.saved ≡ with_answer t.0 0 kernel.old.threads.saved) }
    ensures others { kernel.new ≡ record kernel.old { threads = kernel.new.threads } }
{
    let tid = kernel.threads.wake_one(at, mask)?;
    let saved = kernel.threads.run(tid, Hart(0));
    kernel.threads.wait(tid, to, saved);
    Some(tid)
}

/// Wakes that thread, or lets it wait at another address.
fn take_one(kernel: &mut Kernel, at: u64, to: u64, mask: Option<u32>, wakes: bool) -> Option<Tid>
    requires tables { AreTables kernel.old }
    ensures longest { option_map (λ t. t.0) result
        ≡ longest_waiter at (hears_saved mask kernel.old.threads.saved) kernel.old.threads.threads }
    ensures table { IsTable kernel.old.threads }
    ensures nobody { IfNone result (kernel.new ≡ kernel.old) }
    ensures threads { IfSome result (λ t. kernel.new.threads.threads
        ≡ (if wakes then with_woken t.0 kernel.old.threads.threads
        else with_waiter t.0 to (with_woken t.0 kernel.old.threads.threads))) }
    ensures saved { IfSome result
        (λ t. kernel.new.threads.saved ≡ with_answer t.0 0 kernel.old.threads.saved) }
    ensures ready { IfSome result
        (λ t. kernel.new.ready ≡ (if wakes then with_ready t.0 kernel.old.ready else kernel.old.ready)) }
    ensures others { kernel.new
        ≡ record kernel.old { threads = kernel.new.threads; ready = kernel.new.ready } }
{
    if wakes {
        wake_one(kernel, at, mask)
    } else {
        move_one(kernel, at, to, mask)
    }
}

/// Of the threads that wait at an address and hear a wake with this mask, or without one, wakes at most `most`, the longest waiting
/// first, and lets at most `more` others wait at another one; answers how many these are.
pub fn requeue(
    kernel: &mut Kernel,
    at: u64,
    most: u32,
    to: u64,
    more: u32,
    mask: Option<u32>,
) -> u64
    requires tables { AreTables kernel.old }
    ensures woken { (h : Here) → HoldsTables kernel.old h.kernel → AreHeard h mask kernel.old
        → IsWoken h kernel.old kernel.new (requeued most more at to (λ t. hears mask (h.file t)) h.kernel) result }
    ensures onward { IsOnward kernel.old kernel.new }
{
    let all = u64::from(most) + u64::from(more);
    for count in 0..all {
        let Some(_taken) = take_one(kernel, at, to, mask, count < u64::from(most)) else {
            return count;
        };
    }
    all
}

/// Wakes at most so many of the threads that wait at an address and hear a wake with this mask, or without one, the longest waiting
/// first, and answers how many.
pub fn wake(kernel: &mut Kernel, at: u64, most: u32, mask: Option<u32>) -> u64
    requires tables { AreTables kernel.old }
    ensures woken { (h : Here) → HoldsTables kernel.old h.kernel → AreHeard h mask kernel.old
        → IsWoken h kernel.old kernel.new (woken most at (λ t. hears mask (h.file t)) h.kernel) result }
    ensures onward { IsOnward kernel.old kernel.new }
{
    requeue(kernel, at, most, 0, 0, mask)
}
