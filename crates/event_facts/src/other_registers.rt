//! Registers of threads other than that of an event: of those that it woke, and of those that it created.

ghost use Rattle.std.specs.Prelude.{◌≡◌, ℕ, ◌-◌, ◌++◌, IfOk, OnOk};
ghost use Rattle.std.specs.List.{flat_map, range_with_len};
ghost use Rattle.mach_types.specs.{Kernel.Threads.state_of, declared.threads.Saved.Saved as File};
ghost use Rattle.block_model.specs.Here.{Here, runs};
ghost use Rattle.process.specs.Harts.{file_on};
ghost use Rattle.sys_calls.specs.Made.{AreSaved};
ghost use Rattle.event_facts.specs.OtherRegisters as spec;
ghost use Rattle.event_facts.specs.OtherRegisters.{AreRegisters, child_fact, other_registers, where_off, where_ready, where_waiting, woken_from};

use crate::by_number::at_place;
use crate::registers::REGISTERS;
use fact_types::Fact;
use kernel_threads::{Threads, thread_is_saved_while_it_does_not_run};
use mach_types::{Regs, Saved, ThreadState, Tid};
use std::alloc::{AllocError, Global};

/// The registers before an event.
#[derive(Drop)]
pub(crate) struct RegistersBefore {
    /// Those of each thread to which a number was given, in the order of the numbers; None where it doesn't wait.
    pub(crate) waiting: Vec<Option<Regs>>,
    /// Those of the event's hart.
    pub(crate) own: Regs,
}

/// The registers that are saved, where something is.
fn registers_of(saved: Option<Saved>) -> Option<Regs>
    ensures { result ≡ spec.registers_of saved }
{
    match saved {
        Some(saved) => Some(saved.file),
        None => None,
    }
}

/// The registers of a thread that is ready or waits; None where it runs, or is gone.
pub(crate) fn saved_registers(threads: &Threads, tid: Tid) -> Option<Regs>
    ensures { (file : ℕ → File) → AreSaved file threads.now
        → result ≡ where_off (state_of tid.0 threads.now.threads) (file tid.0) }
{
    thread_is_saved_while_it_does_not_run();
    let _live = threads.live();
    registers_of(threads.saved(tid))
}

/// The registers of a thread that waits; None where it doesn't.
fn waiting_registers(threads: &Threads, tid: Tid) -> Option<Regs>
    ensures { (file : ℕ → File) → AreSaved file threads.now
        → result ≡ where_waiting (state_of tid.0 threads.now.threads) (file tid.0) }
{
    match threads.state(tid) {
        Some(ThreadState::Waiting(_)) => saved_registers(threads, tid),
        Some(ThreadState::Ready) | Some(ThreadState::Running(_)) | None => None,
    }
}

/// The registers of a thread that is ready; None where it isn't.
fn ready_registers(threads: &Threads, tid: Tid) -> Option<Regs>
    ensures { (file : ℕ → File) → AreSaved file threads.now
        → result ≡ where_ready (state_of tid.0 threads.now.threads) (file tid.0) }
{
    match threads.state(tid) {
        Some(ThreadState::Ready) => saved_registers(threads, tid),
        Some(ThreadState::Waiting(_)) | Some(ThreadState::Running(_)) | None => None,
    }
}

/// The registers of the threads that wait, of all those to which numbers were given.
fn all_waiting(alloc: Global, threads: &Threads) -> Result<Vec<Option<Regs>>, AllocError>
    ensures { IfOk result (λ waiting. (file : ℕ → File) → AreSaved file threads.now
        → waiting.items ≡ spec.all_waiting file threads.now.threads) }
{
    let mut waiting = Vec::new(alloc);
    for earlier in 0..threads.numbers_given() {
        waiting.push(waiting_registers(threads, Tid(earlier + 1)))?;
    }
    Ok(waiting)
}

impl RegistersBefore {
    /// Those of a table of threads, and of a hart.
    pub(crate) fn of(
        alloc: Global,
        threads: &Threads,
        own: &Regs,
    ) -> Result<RegistersBefore, AllocError>
        ensures { IfOk result (λ before. (here : Here) → AreSaved here.file threads.now
            → threads.now.threads ≡ here.kernel.threads → own.now ≡ (file_on here (runs here)).file
            → AreRegisters here before) }
    {
        Ok(RegistersBefore {
            waiting: all_waiting(alloc, threads)?,
            own: *own,
        })
    }
}

/// Appends register `number` of a thread, where its value is another one.
fn push_thread_register(
    facts: &mut Vec<Fact>,
    tid: Tid,
    before: &Regs,
    after: &Regs,
    number: u8,
) -> Result<(), AllocError>
    ensures { OnOk result (facts.new.items
        ≡ facts.old.items ++ spec.thread_register tid.0 before.now after.now number) }
{
    let value = after.get(number);
    if before.get(number) != value {
        facts.push(Fact::ThreadRegister { tid, number, value })?;
    }
    Ok(())
}

/// Appends each register of a thread whose value is another one.
fn push_thread_registers(
    facts: &mut Vec<Fact>,
    tid: Tid,
    before: &Regs,
    after: &Regs,
) -> Result<(), AllocError>
    ensures { OnOk result (facts.new.items
        ≡ facts.old.items ++ spec.thread_registers tid.0 before.now after.now) }
{
    for number in 0..REGISTERS {
        push_thread_register(facts, tid, before, after, number)?;
    }
    Ok(())
}

/// Appends the registers of a thread that changed, where it waited with these and is ready with those.
fn push_woken(
    facts: &mut Vec<Fact>,
    tid: Tid,
    before: Option<Regs>,
    after: Option<Regs>,
) -> Result<(), AllocError>
    ensures { OnOk result (facts.new.items
        ≡ facts.old.items ++ spec.woken_registers tid.0 before after) }
{
    if let (Some(before), Some(after)) = (before, after) {
        push_thread_registers(facts, tid, &before, &after)?;
    }
    Ok(())
}

/// Appends the registers of the threads that were woken, of those with the first numbers, so many, where these
/// waited.
fn push_all_woken(
    facts: &mut Vec<Fact>,
    waiting: &[Option<Regs>],
    given: u32,
    threads: &Threads,
) -> Result<(), AllocError>
    ensures { OnOk result ((file : ℕ → File) → AreSaved file threads.now
        → facts.new.items ≡ facts.old.items
        ++ flat_map (woken_from waiting.now file threads.now.threads) (range_with_len 0 given)) }
{
    for earlier in 0..given {
        let tid = Tid(earlier + 1);
        let before = at_place(waiting, earlier);
        push_woken(facts, tid, before, ready_registers(threads, tid))?;
    }
    Ok(())
}

/// Appends the registers of a thread whose number was given since, where it is ready with these, and its parent
/// had those.
fn push_child(
    facts: &mut Vec<Fact>,
    tid: Tid,
    parent: &Regs,
    own: Option<Regs>,
) -> Result<(), AllocError>
    ensures { OnOk result (facts.new.items
        ≡ facts.old.items ++ spec.child_registers tid.0 parent.now own) }
{
    if let Some(own) = own {
        push_thread_registers(facts, tid, parent, &own)?;
    }
    Ok(())
}

/// Appends the registers of the threads that were created since so many numbers were given, where their parent
/// had these.
fn push_children(
    facts: &mut Vec<Fact>,
    given: u32,
    parent: &Regs,
    threads: &Threads,
) -> Result<(), AllocError>
    ensures { OnOk result ((file : ℕ → File) → AreSaved file threads.now
        → facts.new.items ≡ facts.old.items
        ++ flat_map (child_fact given parent.now file threads.now.threads)
        (range_with_len 0 (threads.now.threads.given - given))) }
{
    let created = threads.numbers_given().saturating_sub(given);
    for further in 0..created {
        let tid = Tid(given + further + 1);
        push_child(facts, tid, parent, ready_registers(threads, tid))?;
    }
    Ok(())
}

/// Appends what an event made of the registers of threads other than its own, which had these numbers and
/// registers before it.
pub(crate) fn push_other_registers(
    facts: &mut Vec<Fact>,
    before: &RegistersBefore,
    given: u32,
    threads: &Threads,
) -> Result<(), AllocError>
    ensures { OnOk result ((here : Here) (file : ℕ → File) → AreRegisters here before.now
        → given ≡ here.kernel.threads.given → AreSaved file threads.now
        → facts.new.items ≡ facts.old.items ++ other_registers here.file here.kernel.threads
        (file_on here (runs here)).file file threads.now.threads) }
{
    push_all_woken(facts, &before.waiting, given, threads)?;
    push_children(facts, given, &before.own, threads)?;
    Ok(())
}
