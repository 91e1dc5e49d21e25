//! The lines of the live threads.

ghost use Rattle.std.specs.Prelude.{◌≡◌, ◌++◌, ◌∷◌, [], map, codes, true, All, IfOk, IsTrue, OnOk};
ghost use Rattle.kernel_threads.specs.Table.{IsTable};
ghost use Rattle.mach_types.specs.Kernel.Signals.{is_held};
ghost use Rattle.sys_calls.specs.Registered.{areas_by_number};
ghost use Rattle.place_text.specs.Fields.{behind, value_text};
ghost use Rattle.place_text.specs.Live.{saved_pc, told, told_of};
ghost use Rattle.place_text.specs.Sequences.{area_fields};
ghost use Rattle.place_text.specs.Threads as spec;

use crate::fields::{begin_line, push_named_number, push_named_value, push_word};
use crate::sequences::push_area_fields;
use kernel_threads::Threads;
use mach_types::{Area, ThreadState, Tid};
use std::alloc::{AllocError, Global};
use sys_calls::{Kernel, area_of};

/// A live thread, its state, and where it goes on if it runs nowhere.
#[derive(Clone, Copy, Drop)]
pub struct LiveThread {
    /// The thread.
    pub tid: Tid,
    /// Its state.
    pub state: ThreadState,
    /// The pc at which it goes on; None where it runs.
    pub pc: Option<u64>,
}

/// Where a thread goes on that runs nowhere; None where it runs, or isn't live.
fn resting_pc(threads: &Threads, tid: Tid) -> Option<u64>
    ensures { result ≡ saved_pc threads.now.saved tid.0 }
{
    let saved = threads.saved(tid)?;
    Some(saved.pc)
}

/// The live threads in rising order.
pub fn live_threads(alloc: Global, threads: &Threads) -> Result<Vec<LiveThread>, AllocError>
    ensures live { IfOk result
        (λ live. map told live.items ≡ map (told_of threads.now.saved) threads.now.threads.live) }
    ensures table { IfOk result (λ live. IsTable threads.now) }
{
    let mut live = Vec::with_capacity(alloc, threads.live() as usize)?;
    for earlier in 0..threads.numbers_given() {
        let tid = Tid(earlier + 1);
        if let Some(state) = threads.state(tid) {
            let pc = resting_pc(threads, tid);
            live.push(LiveThread { tid, state, pc })?;
        }
    }
    Ok(live)
}

/// Appends the fields of a state.
fn push_state_fields(text: &mut Vec<u8>, state: ThreadState) -> Result<(), AllocError>
    ensures { OnOk result (text.new.items ≡ text.old.items ++ behind (spec.state_fields state)) }
{
    match state {
        ThreadState::Ready => push_word(text, b"ready"),
        ThreadState::Running(hart) => push_named_number(text, b"running", u64::from(hart.0)),
        ThreadState::Waiting(at) => push_named_value(text, b"waiting", at),
    }
}

/// Appends the line of a thread's state.
fn push_state(text: &mut Vec<u8>, tid: Tid, state: ThreadState) -> Result<(), AllocError>
    ensures { OnOk result (text.new.items ≡ text.old.items ++ spec.state_line tid.0 state) }
{
    begin_line(text, b"thread", u64::from(tid.0))?;
    push_state_fields(text, state)?;
    text.push(b'\n')?;
    Ok(())
}

/// Appends the line of a thread's signals.
fn push_signals(text: &mut Vec<u8>, tid: Tid, mask: u64, pending: u64) -> Result<(), AllocError>
    ensures { OnOk result (text.new.items ≡ text.old.items ++ spec.signals_line tid.0 mask pending) }
{
    begin_line(text, b"thread", u64::from(tid.0))?;
    push_named_value(text, b"mask", mask)?;
    push_named_value(text, b"pending", pending)?;
    text.push(b'\n')?;
    Ok(())
}

/// Appends the line of the pc at which a thread goes on.
fn push_pc(text: &mut Vec<u8>, tid: Tid, pc: u64) -> Result<(), AllocError>
    ensures { OnOk result (text.new.items
        ≡ text.old.items ++ spec.line_of_thread tid.0 (codes "pc" ∷ value_text pc ∷ [])) }
{
    begin_line(text, b"thread", u64::from(tid.0))?;
    push_named_value(text, b"pc", pc)?;
    text.push(b'\n')?;
    Ok(())
}

/// Appends the line of a thread's area.
fn push_area(text: &mut Vec<u8>, tid: Tid, area: Option<Area>) -> Result<(), AllocError>
    ensures { OnOk result (text.new.items
        ≡ text.old.items ++ spec.line_of_thread tid.0 (codes "area" ∷ area_fields area)) }
{
    begin_line(text, b"thread", u64::from(tid.0))?;
    push_word(text, b"area")?;
    push_area_fields(text, area)?;
    text.push(b'\n')?;
    Ok(())
}

/// Appends the lines of a thread that runs nowhere, which goes on at a pc and has this area.
#[tactic(auto, unfolding(crate::specs::Threads::resting_lines))]
fn push_resting_lines(
    text: &mut Vec<u8>,
    tid: Tid,
    pc: u64,
    area: Option<Area>,
) -> Result<(), AllocError>
    ensures { OnOk result (text.new.items ≡ text.old.items ++ spec.resting_lines tid.0 pc area) }
{
    push_pc(text, tid, pc)?;
    push_area(text, tid, area)
}

/// Appends these lines where a thread runs nowhere.
fn push_resting(
    text: &mut Vec<u8>,
    tid: Tid,
    pc: Option<u64>,
    area: Option<Area>,
) -> Result<(), AllocError>
    ensures { OnOk result (text.new.items ≡ text.old.items ++ spec.resting_text tid.0 pc area) }
{
    match pc {
        Some(pc) => push_resting_lines(text, tid, pc, area),
        None => Ok(()),
    }
}

/// Appends the lines of a thread.
fn push_thread(text: &mut Vec<u8>, kernel: &Kernel, thread: LiveThread) -> Result<(), AllocError>
    requires { IsTrue (is_held thread.tid.0 kernel.now.signals) }
    ensures { OnOk result (text.new.items ≡ text.old.items
        ++ spec.thread_text kernel.now.signals (areas_by_number kernel.now.areas.items) (told thread)) }
{
    push_state(text, thread.tid, thread.state)?;
    let mask = kernel.signals.mask_of(thread.tid);
    let pending = kernel.signals.pending_of(thread.tid);
    push_signals(text, thread.tid, mask, pending)?;
    push_resting(text, thread.tid, thread.pc, area_of(kernel, thread.tid))
}

/// Appends the lines of these threads.
pub fn push_threads(
    text: &mut Vec<u8>,
    kernel: &Kernel,
    live: &[LiveThread],
) -> Result<(), AllocError>
    requires { All (λ thread. is_held thread.tid.0 kernel.now.signals ≡ true) live.now }
    ensures { OnOk result (text.new.items ≡ text.old.items
        ++ spec.told_text kernel.now.signals (areas_by_number kernel.now.areas.items) (map told live.now)) }
{
    for thread in live {
        push_thread(text, kernel, *thread)?;
    }
    Ok(())
}
