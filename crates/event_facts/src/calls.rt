//! System calls: which call an event is, and how it was answered.

ghost use Rattle.std.specs.Prelude.{◌≡◌, ℕ, ◌<◌, ◌++◌, ◌&&◌, OnOk, Option, if◌then◌else◌, is_none, is_some, option_to_list};
ghost use Rattle.std.specs.Option.{option_map};
ghost use Rattle.mach_types.specs.Events.{choice_of};
ghost use Rattle.mach_types.specs.Kernel.Threads.{state_of};
ghost use Rattle.mach_types.specs.Registers.{register};
ghost use Rattle.mach_types.specs.declared.events.Choice.TheVariants as asked;
ghost use Rattle.mach_types.specs.declared.threads.Saved.{Saved};
ghost use Rattle.rv_inst.specs.Class.{is_call};
ghost use Rattle.block_model.specs.Sights.{thread};
ghost use Rattle.sys_calls.specs.Made.{AreSaved};
ghost use Rattle.event_facts.specs.Calls as spec;
ghost use Rattle.event_facts.specs.Calls.{answer_at, answer_facts, answer_unless, call_by, call_facts, call_in};
ghost use Rattle.event_facts.specs.Telling.{here_on, past_of};

use crate::registers::{A0, A7};
use fact_types::{Fact, SystemCall};
use hart_state::HartState;
use kernel_threads::Threads;
use mach_types::{End, Entry, Hart, Kind, Regs, ThreadState, Tid};
use machine_core::Machine;
use rv_inst::Effect;
use std::alloc::AllocError;

/// The number of rt_sigreturn(2).
pub(crate) const RT_SIGRETURN: u64 = 139;

/// The greatest error number (Linux, MAX_ERRNO).
const LAST_ERRNO: u64 = 4095;

/// The call of a thread with these registers.
fn call_in(file: &Regs) -> SystemCall
    ensures { result ≡ call_in file.now }
{
    SystemCall {
        number: file.get(A7),
        arguments: [
            file.get(A0),
            file.get(A0 + 1),
            file.get(A0 + 2),
            file.get(A0 + 3),
            file.get(A0 + 4),
            file.get(A0 + 5),
        ],
    }
}

/// The call of a thread with these registers whose next instruction has this effect, and makes this fault or
/// none; None where it is no call.
fn call_of(effect: &Effect, fault: Option<u8>, file: &Regs) -> Option<SystemCall>
    ensures { result ≡ (if is_none fault && is_call effect.now then Some (call_in file.now) else None) }
{
    if fault.is_none() && matches!(effect, Effect::Call) {
        Some(call_in(file))
    } else {
        None
    }
}

/// The call of the thread on a hart, where its next instruction is one.
fn call_on(machine: &Machine, hart: Hart) -> Option<SystemCall>
    requires { hart.0 < machine.now.setting.limits.harts }
    ensures { result ≡ call_by asked.Exec (here_on machine.now hart.0) }
{
    let effect = machine.next_effect(hart)?;
    call_of(&effect, machine.next_fault(hart), &machine.hart(hart).file)
}

/// The call that an entry is: the next event of its hart on a machine. None exactly where it is no call.
pub(crate) fn next_call(machine: &Machine, entry: Entry) -> Option<SystemCall>
    requires { entry.hart.0 < machine.now.setting.limits.harts }
    ensures { result ≡ call_by (choice_of entry) (here_on machine.now entry.hart.0) }
{
    match entry.kind {
        Kind::Exec => call_on(machine, entry.hart),
        _ => None,
    }
}

/// What stands in a0 after a call: the negative of an error number, or else its value.
fn answer_told(value: u64) -> Fact
    ensures { result ≡ spec.answer_told value }
{
    let below = u64::MAX - value;
    if below < LAST_ERRNO {
        Fact::Refused {
            errno: below as u16 + 1,
        }
    } else {
        Fact::Answered { value }
    }
}

/// The answer of a call whose thread runs on this hart still.
fn answer_on(state: &HartState) -> Fact
    ensures { result ≡ answer_unless (is_some state.now.waits) (register state.now.file 10) }
{
    if state.waits.is_some() {
        Fact::AnsweredLater
    } else {
        answer_told(state.file.get(A0))
    }
}

/// The answer of a call whose thread runs on its hart no more.
fn answer_off(threads: &Threads, tid: Tid) -> Fact
    ensures { (file : ℕ → Saved) → AreSaved file threads.now
        → result ≡ spec.answer_off (state_of tid.0 threads.now.threads) (register (file tid.0).file 10) }
{
    if threads.live() == 0 {
        return Fact::NoAnswer;
    }
    match threads.state(tid) {
        Some(ThreadState::Ready) => match threads.saved(tid) {
            Some(saved) => answer_told(saved.file.get(A0)),
            None => unreachable!(),
        },
        Some(ThreadState::Waiting(_)) => Fact::AnsweredLater,
        Some(ThreadState::Running(_)) | None => Fact::NoAnswer,
    }
}

/// Whether a thread is the one that runs.
pub(crate) fn is_it(running: Option<Tid>, tid: Tid) -> bool
    ensures { (o : Option ℕ) → running ≡ option_map thread o → result ≡ spec.is_it tid.0 o }
{
    match running {
        Some(on) => on.0 == tid.0,
        None => false,
    }
}

/// Whether a process has ended.
pub(crate) fn is_process_end(end: End) -> bool
    ensures { result ≡ spec.is_process_end end }
{
    matches!(end, End::Exit(_) | End::Killed(_))
}

/// Whether a call of a number has no answer where the run is at this end.
fn has_no_answer(number: u64, end: End) -> bool
    ensures { result ≡ spec.has_no_answer number end }
{
    number == RT_SIGRETURN || is_process_end(end)
}

/// How the call was answered that an entry is, which was made.
fn answer(machine: &Machine, entry: Entry, call: &SystemCall) -> Fact
    requires { entry.hart.0 < machine.now.setting.limits.harts }
    ensures { result
        ≡ answer_at machine.now.setting (past_of machine.now) entry.hart.0 entry.tid.0 call.now }
{
    if has_no_answer(call.number, machine.end()) {
        return Fact::NoAnswer;
    }
    let state = machine.hart(entry.hart);
    if is_it(state.running, entry.tid) {
        answer_on(state)
    } else {
        answer_off(&machine.kernel().threads, entry.tid)
    }
}

/// Appends a call, if there is one.
pub(crate) fn push_called(facts: &mut Vec<Fact>, call: Option<SystemCall>) -> Result<(), AllocError>
    ensures { OnOk result (facts.new.items ≡ facts.old.items ++ call_facts call) }
{
    if let Some(call) = call {
        facts.push(Fact::Called(call))?;
    }
    Ok(())
}

/// How the call was answered that an entry is, which was made; None where it is none.
pub(crate) fn answered(machine: &Machine, entry: Entry, call: Option<SystemCall>) -> Option<Fact>
    requires { entry.hart.0 < machine.now.setting.limits.harts }
    ensures { option_to_list result
        ≡ answer_facts machine.now.setting (past_of machine.now) entry call }
{
    let call = call?;
    Some(answer(machine, entry, &call))
}
