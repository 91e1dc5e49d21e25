//! tkill(2) and tgkill(2): a signal is posted to a thread.

ghost use Rattle.std.specs.Prelude.{◌≡◌, ◌≤◌, ◌==◌, ◌&&◌, ◌||◌, ℕ, [], false, is_some, IfErr, IsTrue, Ok};
ghost use Rattle.std.specs.Bool.{OnTrue};
ghost use Rattle.std.specs.Option.{option_map_or};
ghost use Rattle.mach_types.specs.Kernel.Signals.{is_held, next_for};
ghost use Rattle.mach_types.specs.Kernel.Threads as threads_of;
ghost use Rattle.mach_types.specs.declared.signals.TheConstants.{LAST_SIGNAL};
ghost use Rattle.page_map.specs.Map.{Map};
ghost use Rattle.block_model.specs.Here.{Here};
ghost use Rattle.block_model.specs.Calls.Signals as call;
ghost use Rattle.sys_calls.specs.Answered.{AreTables, IsAnswered};
ghost use Rattle.sys_calls.specs.Tables.{HoldsTables};
ghost use Rattle.sys_calls.specs.Signalled.{HoldSignals};

use crate::arguments::{int_argument, signal_number};
use crate::kernel::Kernel;
use kernel_threads::Threads;
use mach_types::errors::{EINVAL, ESRCH};
use mach_types::signals::{LAST_SIGNAL, SIGSTOP};
use mach_types::{Errno, Saved, ThreadState, Tid};

/// The last of the signals that stop a process: SIGSTOP, SIGTSTP, SIGTTIN and SIGTTOU. They can't be sent (own).
const LAST_STOP: u8 = 22;

/// The number of the process.
const PROCESS: u32 = 1;

/// The lowest `int` that is negative.
const NEGATIVE: u32 = 0x8000_0000;

/// Whether an `int` is 0 or negative.
fn is_below_one(number: u32) -> bool
    ensures { result ≡ call.is_below_one number }
{
    number == 0 || number >= NEGATIVE
}

/// Whether one of two numbers is.
fn is_one_below(process: u32, number: u32) -> bool
    ensures { result ≡ (call.is_below_one process || call.is_below_one number) }
{
    is_below_one(process) || is_below_one(number)
}

/// Whether no signal of this number can be sent; 0 is none, and asks only whether there is a thread.
fn refuses_signal(sig: u32) -> bool
    ensures { result ≡ call.refuses_signal sig }
{
    sig > u32::from(LAST_SIGNAL) || (sig >= u32::from(SIGSTOP) && sig <= u32::from(LAST_STOP))
}

/// Whether a thread is live.
fn is_live(threads: &Threads, number: u32) -> bool
    ensures { result ≡ threads_of.is_live number threads.now.threads }
{
    threads.state(Tid(number)).is_some()
}

/// Whether a thread of the process with this number is live.
fn is_live_in(threads: &Threads, process: u32, number: u32) -> bool
    ensures { result ≡ ((process == 1) && threads_of.is_live number threads.now.threads) }
{
    process == PROCESS && is_live(threads, number)
}

/// Whether a thread waits.
fn is_waiting(threads: &Threads, tid: Tid) -> bool
    ensures answer { result
        ≡ option_map_or threads_of.is_waiting_state (threads_of.state_of tid.0 threads.now.threads) false }
    ensures waits { OnTrue result (threads_of.waits threads.now.threads tid.0) }
{
    matches!(threads.state(tid), Some(ThreadState::Waiting(_at)))
}

/// Whether a thread waits, and a signal can come to it.
fn waits_in_vain(kernel: &Kernel, tid: Tid) -> bool
    requires held { IsTrue (is_held tid.0 kernel.now.signals) }
    ensures answer { result
        ≡ (option_map_or threads_of.is_waiting_state
        (threads_of.state_of tid.0 kernel.now.threads.threads) false
        && is_some (next_for tid.0 kernel.now.signals)) }
    ensures waits { OnTrue result (threads_of.waits kernel.now.threads.threads tid.0) }
{
    is_waiting(&kernel.threads, tid) && kernel.signals.next_for(tid).is_some()
}

/// Posts a signal, 1 to 31, to a live thread. Where it waits, and a signal can come to it, its wait is broken: it is the last ready
/// thread, and finds EINTR in a0 (signal(7), "Interruption of system calls").
fn post(kernel: &mut Kernel, to: Tid, sig: u8)
    requires tables { AreTables kernel.old }
    requires signals { HoldSignals kernel.old }
    requires live { IsTrue (threads_of.is_live to.0 kernel.old.threads.threads) }
    requires lowest { 1 ≤ sig }
    requires highest { sig ≤ LAST_SIGNAL }
    ensures answered { (h : Here) (t : ℕ) (m : Map) → HoldsTables kernel.old h.kernel
        → IsAnswered h t kernel.old m kernel.new m [] (Ok 0) (call.post h t to.0 sig) }
{
    kernel.signals.post(to, sig);
    if waits_in_vain(kernel, to) {
        kernel.threads.break_wait(to);
        kernel.ready.push(to);
    }
}

/// Sends a signal to a live thread: EINVAL for one that can't be sent. 0 is none, and is sent to nobody.
fn send(kernel: &mut Kernel, to: Tid, sig: u32) -> Result<u32, Errno>
    requires tables { AreTables kernel.old }
    requires signals { HoldSignals kernel.old }
    requires live { IsTrue (threads_of.is_live to.0 kernel.old.threads.threads) }
    ensures errno { IfErr result (λ e. 1 ≤ e.0) }
    ensures answered { (h : Here) (t : ℕ) (m : Map) → HoldsTables kernel.old h.kernel
        → IsAnswered h t kernel.old m kernel.new m [] result (call.send h t to.0 sig) }
{
    if refuses_signal(sig) {
        return Err(EINVAL);
    }
    if sig != 0 {
        post(kernel, to, signal_number(sig));
    }
    Ok(0)
}

/// tkill(tid, sig): sends a signal to a thread. EINVAL for a number below 1, ESRCH where no such thread lives, EINVAL for a signal
/// that can't be sent, in this order.
pub fn tkill(kernel: &mut Kernel, saved: &Saved) -> Result<u32, Errno>
    requires tables { AreTables kernel.old }
    requires signals { HoldSignals kernel.old }
    ensures errno { IfErr result (λ e. 1 ≤ e.0) }
    ensures answered { (h : Here) (t : ℕ) (m : Map) → HoldsTables kernel.old h.kernel → saved.now ≡ h.file t
        → IsAnswered h t kernel.old m kernel.new m [] result (call.tkill h t) }
{
    let number = int_argument(saved, 0);
    if is_below_one(number) {
        return Err(EINVAL);
    }
    if !is_live(&kernel.threads, number) {
        return Err(ESRCH);
    }
    send(kernel, Tid(number), int_argument(saved, 1))
}

/// tgkill(pid, tid, sig): the same, of the process that has this number. EINVAL where it or the thread's is below 1, ESRCH where it
/// isn't 1 or no such thread lives, EINVAL for a signal that can't be sent, in this order.
pub fn tgkill(kernel: &mut Kernel, saved: &Saved) -> Result<u32, Errno>
    requires tables { AreTables kernel.old }
    requires signals { HoldSignals kernel.old }
    ensures errno { IfErr result (λ e. 1 ≤ e.0) }
    ensures answered { (h : Here) (t : ℕ) (m : Map) → HoldsTables kernel.old h.kernel → saved.now ≡ h.file t
        → IsAnswered h t kernel.old m kernel.new m [] result (call.tgkill h t) }
{
    let process = int_argument(saved, 0);
    let number = int_argument(saved, 1);
    if is_one_below(process, number) {
        return Err(EINVAL);
    }
    if !is_live_in(&kernel.threads, process, number) {
        return Err(ESRCH);
    }
    send(kernel, Tid(number), int_argument(saved, 2))
}
