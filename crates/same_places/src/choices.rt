//! The choices that have to be tried at a place.

ghost use Rattle.std.specs.Prelude.{◌≡◌, ℕ, Contains, IfOk};
ghost use Rattle.mach_types.specs.Kernel.{Scheduling.Scheduling, Threads.Threads};
ghost use Rattle.mach_types.specs.declared.events.Choice.{Choice};
ghost use Rattle.block_model.specs.Tables.{IsTables};
ghost use Rattle.same_places.specs.{Choices.all_choices, Searched.IsTried};

use mach_types::{Choice, Tid};
use scheduler::Ready;
use std::alloc::{AllocError, Global};

/// Each choice that names no thread, and for each ready thread that it begins to run.
///
/// # Errors
///
/// [`AllocError`] where memory runs out.
pub fn choices_at(alloc: Global, ready: &Ready) -> Result<Vec<Choice>, AllocError>
    ensures { IfOk result (λ list. list.items ≡ all_choices ready.now.order) }
{
    let mut list = Vec::new(alloc);
    list.push(Choice::Exec)?;
    list.push(Choice::Drain)?;
    list.push(Choice::Take)?;
    list.push(Choice::Done)?;
    list.push(Choice::Preempt)?;
    list.push(Choice::Signal)?;
    let order = ready.order();
    for entry in order {
        list.push(Choice::Run(Tid(entry.0)))?;
    }
    Ok(list)
}

/// [`choices_at`] lists every choice that has to be tried, where the ready list agrees with the threads.
pub fn all_choices_are_listed()
    ensures { (harts : ℕ) (ts : Threads) (sc : Scheduling) (c : Choice) → IsTables harts ts sc
        → IsTried ts c → Contains (all_choices sc.order) c }
{}
