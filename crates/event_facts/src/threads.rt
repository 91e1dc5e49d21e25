//! Threads: which of them an event created, ended, or brought into another state.

ghost use Rattle.std.specs.Prelude.{◌≡◌, ◌-◌, ◌++◌, IfOk, OnOk, option_to_list};
ghost use Rattle.std.specs.List.{flat_map, range_with_len};
ghost use Rattle.mach_types.specs.Kernel.Threads as kernel;
ghost use Rattle.event_facts.specs.Threads as spec;
ghost use Rattle.event_facts.specs.Threads.{AreBefore, change_facts, created_fact, created_facts, thread_facts, told_from};

use crate::by_number::at_place;
use crate::facts::push_if;
use fact_types::{Fact, ThreadChange};
use kernel_threads::Threads;
use mach_types::{ThreadState, Tid};
use std::alloc::{AllocError, Global};

/// The threads before an event.
#[derive(Drop)]
pub(crate) struct ThreadsBefore {
    /// The states of those to which numbers were given, in the order of the numbers; None where one is gone.
    pub(crate) states: Vec<Option<ThreadState>>,
    /// How many numbers were given.
    pub(crate) given: u32,
}

/// The states of the threads to which numbers were given.
fn states_of(alloc: Global, threads: &Threads) -> Result<Vec<Option<ThreadState>>, AllocError>
    ensures { IfOk result (λ states. states.items ≡ spec.states_of threads.now.threads) }
{
    let mut states = Vec::new(alloc);
    for earlier in 0..threads.numbers_given() {
        states.push(threads.state(Tid(earlier + 1)))?;
    }
    Ok(states)
}

impl ThreadsBefore {
    /// Those of a table.
    pub(crate) fn of(alloc: Global, threads: &Threads) -> Result<ThreadsBefore, AllocError>
        ensures { IfOk result (λ before. AreBefore threads.now.threads before) }
    {
        Ok(ThreadsBefore {
            states: states_of(alloc, threads)?,
            given: threads.numbers_given(),
        })
    }
}

/// What became of a thread that was in this state, and is ready.
fn ready_from(before: ThreadState) -> Option<ThreadChange>
    ensures { result ≡ spec.ready_from before }
{
    match before {
        ThreadState::Ready => None,
        ThreadState::Running(_) => Some(ThreadChange::MadeReady),
        ThreadState::Waiting(_) => Some(ThreadChange::Woken),
    }
}

/// What became of a thread that was in this state, and runs.
fn runs_from(before: ThreadState) -> Option<ThreadChange>
    ensures { result ≡ spec.runs_from before }
{
    match before {
        ThreadState::Running(_) => None,
        ThreadState::Ready | ThreadState::Waiting(_) => Some(ThreadChange::Runs),
    }
}

/// What became of a thread that was in this state, and waits at an address.
fn waits_from(at: u64, before: ThreadState) -> Option<ThreadChange>
    ensures { result ≡ spec.waits_from at before }
{
    match before {
        ThreadState::Waiting(earlier) => {
            if earlier == at {
                None
            } else {
                Some(ThreadChange::Sleeps(at))
            }
        }
        ThreadState::Ready | ThreadState::Running(_) => Some(ThreadChange::Sleeps(at)),
    }
}

/// What became of a live thread that was in this state, and is in that one or gone.
fn changed_from(before: ThreadState, after: Option<ThreadState>) -> Option<ThreadChange>
    ensures { result ≡ spec.changed_from before after }
{
    match after {
        None => Some(ThreadChange::Ended),
        Some(ThreadState::Ready) => ready_from(before),
        Some(ThreadState::Running(_)) => runs_from(before),
        Some(ThreadState::Waiting(at)) => waits_from(at, before),
    }
}

/// The same of a thread that may have been gone: then nothing became of it.
fn change_of(before: Option<ThreadState>, after: Option<ThreadState>) -> Option<ThreadChange>
    ensures { result ≡ spec.change_of before after }
{
    match before {
        Some(state) => changed_from(state, after),
        None => None,
    }
}

/// The fact of a thread that was in this state, and is in that one; None where nothing became of it, or it was
/// gone.
fn changed(tid: Tid, before: Option<ThreadState>, after: Option<ThreadState>) -> Option<Fact>
    ensures { option_to_list result ≡ change_facts tid.0 before after }
{
    let change = change_of(before, after)?;
    Some(Fact::ThreadChanged { tid, change })
}

/// Appends what became of the threads with the first numbers, so many, where these were the states.
fn push_changes(
    facts: &mut Vec<Fact>,
    states: &[Option<ThreadState>],
    given: u32,
    threads: &Threads,
) -> Result<(), AllocError>
    ensures { OnOk result (facts.new.items ≡ facts.old.items
        ++ flat_map (told_from states.now threads.now.threads) (range_with_len 0 given)) }
{
    for earlier in 0..given {
        let tid = Tid(earlier + 1);
        let before = at_place(states, earlier);
        push_if(facts, changed(tid, before, threads.state(tid)))?;
    }
    Ok(())
}

/// That a thread was created, whose number was given since; None where it is gone.
fn created(tid: Tid, after: Option<ThreadState>) -> Option<Fact>
    ensures { option_to_list result ≡ created_facts tid.0 after }
{
    match after {
        Some(_) => Some(Fact::ThreadChanged {
            tid,
            change: ThreadChange::Created,
        }),
        None => None,
    }
}

/// Appends which threads were created since so many numbers were given.
fn push_all_created(facts: &mut Vec<Fact>, given: u32, threads: &Threads) -> Result<(), AllocError>
    ensures { OnOk result (facts.new.items ≡ facts.old.items
        ++ flat_map (created_fact given threads.now.threads)
        (range_with_len 0 (threads.now.threads.given - given))) }
{
    let since = threads.numbers_given().saturating_sub(given);
    for further in 0..since {
        let tid = Tid(given + further + 1);
        push_if(facts, created(tid, threads.state(tid)))?;
    }
    Ok(())
}

/// Appends what an event made of threads, which were these before it.
pub(crate) fn push_threads(
    facts: &mut Vec<Fact>,
    before: &ThreadsBefore,
    threads: &Threads,
) -> Result<(), AllocError>
    ensures { OnOk result ((earlier : kernel.Threads) → AreBefore earlier before.now
        → facts.new.items ≡ facts.old.items ++ thread_facts earlier threads.now.threads) }
{
    push_changes(facts, &before.states, before.given, threads)?;
    push_all_created(facts, before.given, threads)?;
    Ok(())
}
