//! The ready list and the affinities.

ghost use Rattle.std.specs.Prelude.{◌≡◌, ◌≤◌, ◌<◌, ◌%◌, ◌^◌, ◌==◌, ◌&&◌, ◌↔◌, false, length, option_map, IsTrue, IsErr, IfErr, OnOk, OnErr};
ghost use Rattle.std.specs.Bool.{OnTrue, OnFalse};
ghost use Rattle.std.specs.List.{list_any};
ghost use Rattle.mach_types.specs.Kernel.Scheduling as scheduling;
ghost use Rattle.mach_types.specs.declared.errors.TheConstants.{EINVAL};
ghost use Rattle.mach_types.specs.declared.kernel_words.TheConstants.{MOST_THREADS};
ghost use Rattle.scheduler.specs.Entries.{numbers};
ghost use Rattle.scheduler.specs.Holding.{is_held, is_ready};

use crate::affinities::Affinities;
use crate::entry_list::{self, Entries};
use crate::hart_sets::{all_harts, harts_in, has_hart};
use arrayvec::ArrayVec;
use mach_types::errors::EINVAL;
use mach_types::{Errno, Hart, Tid};
use std::marker::Model;

/// The ready threads in order, and the harts of each thread that is held, at most 64.
#[derive(Drop)]
pub struct Ready {
    /// The ready threads, each with a copy of its harts, so that the first one for a hart is seen at once.
    order: Entries,
    affinities: Affinities,
}

impl Model for Ready {
    ghost use Rattle.mach_types.specs.Kernel.Scheduling.{Scheduling};
    ghost use Rattle.scheduler.specs.Entries.{scheduling_in, IsKept};

    ghost Value = { Scheduling };

    ghost view = { λ r. scheduling_in r.order.items r.affinities };

    ghost invariant = { λ r. IsKept r.order.items r.affinities };
}

impl Ready {
    /// Thread 1 alone, ready, with the first so many harts: 1 to 8.
    pub fn new(harts: u8) -> Ready
        requires some_hart { 1 ≤ harts }
        requires eight_harts { harts ≤ 8 }
        ensures { result ≡ scheduling.start_scheduling harts }
    {
        let set = all_harts(harts);
        let mut order = ArrayVec::new();
        order.push((1, set));
        Ready {
            order,
            affinities: Affinities::new(set),
        }
    }

    /// Thread 1 alone again, ready, with the first so many harts: 1 to 8.
    pub fn reset(&mut self, harts: u8)
        requires some_hart { 1 ≤ harts }
        requires eight_harts { harts ≤ 8 }
        ensures { self.new ≡ scheduling.start_scheduling harts }
    {
        let set = all_harts(harts);
        self.order.clear();
        self.order.push((1, set));
        self.affinities.reset(set);
    }

    /// The threads of another list, in place of its own. It takes no memory.
    pub fn copy_from(&mut self, other: &Ready)
        ensures { self.new ≡ other.now }
    {
        entry_list::copy(&mut self.order, &other.order);
        self.affinities.copy_from(&other.affinities);
    }

    /// Holds a new thread, with its parent's harts. It isn't ready.
    pub fn add(&mut self, parent: Tid, tid: Tid)
        requires parent { IsTrue (is_held parent.0 self.old) }
        requires not_held { is_held tid.0 self.old ≡ false }
        requires room { length self.old.affinities < MOST_THREADS }
        ensures { self.new ≡ scheduling.with_thread parent.0 tid.0 self.old }
    {
        let set = self.affinity(parent);
        self.affinities.add(tid.0, set);
    }

    /// Forgets a thread that isn't ready.
    pub fn remove(&mut self, tid: Tid)
        requires held { IsTrue (is_held tid.0 self.old) }
        requires not_ready { is_ready tid.0 self.old ≡ false }
        ensures { self.new ≡ scheduling.forget tid.0 self.old }
    {
        self.affinities.remove(tid.0);
    }

    /// Makes a thread ready, as the last one.
    pub fn push(&mut self, tid: Tid)
        requires held { IsTrue (is_held tid.0 self.old) }
        requires not_ready { is_ready tid.0 self.old ≡ false }
        ensures { self.new ≡ scheduling.with_ready tid.0 self.old }
    {
        let set = self.affinities.set_of(tid.0);
        self.order.push((tid.0, set));
    }

    /// Takes a thread out of the ready ones. False exactly where it isn't ready, and then nothing changes.
    pub fn take(&mut self, tid: Tid) -> bool
        ensures ready { result ≡ is_ready tid.0 self.old }
        ensures taken { OnTrue result (self.new ≡ scheduling.without_ready tid.0 self.old) }
        ensures unchanged { OnFalse result (self.new ≡ self.old) }
    {
        entry_list::take_out(&mut self.order, tid.0)
    }

    /// The ready threads in order, each with a copy of its harts.
    pub fn order(&self) -> &[(u32, u8)]
        ensures { numbers result.now ≡ self.now.order }
    {
        &self.order
    }

    /// The threads that are held, each with its harts.
    pub fn affinities(&self) -> &[(u32, u8)]
        ensures { result.now ≡ self.now.affinities }
    {
        self.affinities.entries()
    }

    /// Whether a thread is ready.
    pub fn is_ready(&self, tid: Tid) -> bool
        ensures { result ≡ is_ready tid.0 self.now }
    {
        entry_list::has(&self.order, tid.0)
    }

    /// Whether a thread may run on a hart; a thread that isn't held may run on none.
    pub fn allows(&self, tid: Tid, hart: Hart) -> bool
        ensures { result ≡ scheduling.has_hart (scheduling.affinity_of tid.0 self.now) hart.0 }
    {
        has_hart(self.affinities.set_of(tid.0), hart.0)
    }

    /// The first ready thread that may run on a hart; None exactly where there is none.
    pub fn first_for(&self, hart: Hart) -> Option<Tid>
        ensures { option_map (λ t. t.0) result ≡ scheduling.first_for hart.0 self.now }
    {
        let first = entry_list::first_allowed(&self.order, hart.0)?;
        Some(Tid(first))
    }

    /// Whether a ready thread may run on a hart, and on none of the first so many, 0 to 8.
    pub fn has_only_for(&self, hart: Hart, barred: u8) -> bool
        requires { barred ≤ 8 }
        ensures { result ≡ list_any
            (λ t. scheduling.has_hart (scheduling.affinity_of t self.now) hart.0
            && (scheduling.affinity_of t self.now % 2 ^ barred == 0))
            self.now.order }
    {
        entry_list::is_any_only_for(&self.order, hart.0, barred)
    }

    /// The harts of a thread, one bit each.
    pub fn affinity(&self, tid: Tid) -> u8
        requires { IsTrue (is_held tid.0 self.now) }
        ensures { result ≡ scheduling.affinity_of tid.0 self.now }
    {
        self.affinities.set_of(tid.0)
    }

    /// Lets a thread run on those of the first `harts` harts, 1 to 8, that are in the set. EINVAL exactly
    /// where there is none, and then nothing changes (sched_setaffinity(2)).
    pub fn set_affinity(&mut self, tid: Tid, set: u8, harts: u8) -> Result<(), Errno>
        requires held { IsTrue (is_held tid.0 self.old) }
        requires some_hart { 1 ≤ harts }
        requires eight_harts { harts ≤ 8 }
        ensures no_hart { IsErr result ↔ (scheduling.harts_in set harts ≡ 0) }
        ensures errno { IfErr result (λ e. e ≡ EINVAL) }
        ensures ok { OnOk result (
            self.new ≡ scheduling.with_affinity tid.0 (scheduling.harts_in set harts) self.old) }
        ensures err { OnErr result (self.new ≡ self.old) }
    {
        let allowed = harts_in(set, harts);
        if allowed == 0 {
            return Err(EINVAL);
        }
        let place = entry_list::place_in(&self.order, tid.0);
        entry_list::change_at(&mut self.order, place, tid.0, allowed);
        self.affinities.change(tid.0, allowed);
        Ok(())
    }
}
