//! What all areas look at, before an event and after it.

ghost use Rattle.std.specs.Prelude.{◌≡◌, ◌<◌, ℕ, Bool, Option, true, false, length, map, IfOk};
ghost use Rattle.std.specs.List.{list_all};
ghost use Rattle.mach_types.specs.Kernel.Threads.{running_on};
ghost use Rattle.block_model.specs.Plain.{Plain};
ghost use Rattle.block_model.specs.Setting.{Setting};
ghost use Rattle.local_steps.specs.Resting.{LeavesAreas};
ghost use Rattle.process.specs.Refinement.{IsTied};
ghost use Rattle.settling.specs.Edges.{IsEdge, own_thread};
ghost use Rattle.settling.specs.Glances.{glance_in, is_same_or_null};
ghost use Rattle.settling.specs.Looks.{is_kept, look_in, seen_in_parts};

use crate::areas::{Glance, glance_of};
use mach_types::{Area, Choice, Hart, ThreadState, Tid};
use process::{HartView, Parts};
use std::alloc::{AllocError, Global};

/// What the area of a thread looks at.
#[derive(Clone, Copy, Drop)]
pub struct Look {
    /// The thread.
    pub tid: Tid,
    /// Its area.
    pub area: Area,
    /// The words that it looks at, as the thread sees them.
    pub glance: Glance,
}

/// What an area of a thread looks at: as the hart sees memory on which the thread runs, else as memory is.
fn glance_by(parts: &Parts, tid: Tid, area: &Area) -> Glance
    ensures { result ≡ glance_in (seen_in_parts tid.0 parts.now) area.now }
{
    let Some(ThreadState::Running(hart)) = parts.kernel.threads.state(tid) else {
        return glance_of(&parts.pages, area);
    };
    match parts.harts.get(hart.0 as usize) {
        Some(state) => {
            let view = HartView {
                pages: &parts.pages,
                buffer: &state.buffer,
            };
            glance_of(&view, area)
        }
        None => glance_of(&parts.pages, area),
    }
}

/// What each registered area looks at.
///
/// # Errors
///
/// [`AllocError`] where memory runs out.
pub fn looks(alloc: Global, parts: &Parts) -> Result<Vec<Look>, AllocError>
    ensures { IfOk result (λ all. all.items ≡ map (look_in parts.now) parts.now.kernel.areas.items) }
{
    let mut all = Vec::new(alloc);
    for entry in &parts.kernel.areas {
        let glance = glance_by(parts, entry.tid, &entry.area);
        all.push(Look {
            tid: entry.tid,
            area: entry.area,
            glance,
        })?;
    }
    Ok(all)
}

/// Whether an area looks at the same now as before, or at nothing now.
fn is_same_or_null(now: &Glance, before: &Glance) -> bool
    ensures { result ≡ is_same_or_null now.now before.now }
{
    now == before || now.pointer == 0
}

/// Whether what an area looks at is as it was, or its pointer is null now; or the event was an instruction of
/// its thread.
fn is_kept(parts: &Parts, own: Option<Tid>, look: &Look) -> bool
    ensures { result ≡ is_kept parts.now own look.now }
{
    own == Some(look.tid) || is_same_or_null(&glance_by(parts, look.tid, &look.area), &look.glance)
}

/// Whether each of these areas looks at what it looked at before an event, or its pointer is null now; but
/// for that of the thread whose instruction the event was.
pub fn are_kept(parts: &Parts, own: Option<Tid>, looks: &[Look]) -> bool
    ensures { result ≡ list_all (is_kept parts.now own) looks.now }
{
    looks.iter().all(|look| is_kept(parts, own, look))
}

/// The thread whose instruction the event of a choice is, on a hart, which must be one of the list: None
/// where it is no instruction, or where no thread runs there.
pub fn own_of(parts: &Parts, hart: Hart, choice: Choice) -> Option<Tid>
    requires { hart.0 < length parts.now.harts.items }
    ensures { (s : Setting) (p : Plain) → IsTied s p parts.now → hart.0 < s.limits.harts
        → result ≡ own_thread choice (running_on hart.0 p.kernel.threads) }
{
    match choice {
        Choice::Exec => parts.harts[hart.0 as usize].running,
        Choice::Drain
        | Choice::Take
        | Choice::Done
        | Choice::Preempt
        | Choice::Run(_)
        | Choice::Signal => None,
    }
}

/// An event leaves the areas of all threads alone where no signal has a handler before it, and each area is
/// kept. No byte counts as private here.
pub fn kept_areas_are_left()
    ensures { (s : Setting) (p : Plain) (h : ℕ) (c : Choice) (before after : Parts) (threads : ℕ → Bool)
        → IsEdge s p h c before after → LeavesAreas s (λ t. threads t ≡ true) (λ t b. false) p (h, c) }
{}
