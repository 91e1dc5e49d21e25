//! The harts of a machine, as a policy sees them.

ghost use Rattle.std.specs.Prelude.{◌≡◌, ◌<◌, ◌≤◌, ℕ, [], true, length, nat_lt};
ghost use Rattle.std.specs.Bool.{OnTrue};
ghost use Rattle.block_model.specs.{Deciding.history, History.waiting, Sights.is_all_taken};
ghost use Rattle.drawings.specs.Scenes.{is_able, startable};
ghost use Rattle.prompt_runs.specs.Owed.{traps_by};
ghost use Rattle.drawn_machine.specs.Scenes.{AreListed, scene_of};

use crate::starting_threads::startable_threads;
use arrayvec::ArrayVec;
use draw_policies::Aim;
use drawings::Harts;
use mach_types::{Hart, Named, Sight};
use machine_core::Machine;
use process::Next;
use rv_inst::asks;

/// The harts of a machine where it stands, as a policy sees them.
#[derive(Clone, Copy, Drop)]
pub struct SeenHarts<'a> {
    /// The machine.
    pub machine: &'a Machine,
    ghost few: { machine.now.setting.limits.harts ≤ 8 },
    ghost listed: { AreListed machine.now },
}

/// Whether no hart is left in a set of harts.
fn is_zero(set: Option<u8>) -> bool
    ensures { result ≡ is_all_taken set }
{
    match set {
        Some(left) => left == 0,
        None => false,
    }
}

/// Whether an instruction traps: it is a call, or makes a fault.
fn traps_by(next: &Next) -> bool
    ensures { result ≡ traps_by next.now.effect next.now.fault }
{
    if next.fault.is_some() {
        return true;
    }
    match &next.effect {
        Some(effect) => asks(effect).is_call,
        None => false,
    }
}

impl SeenHarts<'_> {
    /// Whether there is a ready thread that may begin to run on a hart, where the first so many harts are open.
    #[inline(never)]
    fn has_startable(&self, hart: Hart, opened: u8) -> bool
        requires { opened ≤ 8 }
        ensures { result
            ≡ nat_lt 0 (length (startable opened hart.0 (scene_of self.now.machine.now).scheduling)) }
    {
        let ready = &self.machine.kernel().ready;
        if hart.0 < opened {
            ready.has_only_for(hart, 0)
        } else {
            ready.has_only_for(hart, opened)
        }
    }

    /// Whether the thread on a hart is inside the sequence that its area names.
    fn is_inside_named(&self, hart: Hart) -> bool
        requires { hart.0 < self.now.machine.now.setting.limits.harts }
        ensures { result ≡ (scene_of self.now.machine.now).is_inside hart.0 }
    {
        match self.machine.named(hart) {
            Named::Good(sequence) => sequence.is_inside(self.machine.hart(hart).pc),
            Named::Nothing | Named::Bad(_) => false,
        }
    }

    /// Whether no store waits on any hart: then each thread that waits in no barrier may execute its next instruction.
    fn is_drained(&self) -> bool
        ensures { OnTrue result ((k : ℕ) → k < self.now.machine.now.setting.limits.harts
            → waiting k (history self.now.machine.now.setting self.now.machine.now.log) ≡ []) }
    {
        for number in 0..self.machine.harts() {
            if self.machine.hart(Hart(number)).buffer.len() != 0 {
                return false;
            }
        }
        true
    }

    /// Whether the thread on a hart may execute its next instruction.
    fn may_execute(&self, hart: Hart) -> bool
        requires { hart.0 < self.now.machine.now.setting.limits.harts }
        ensures { result ≡ ((scene_of self.now.machine.now).sight hart.0).exec_enabled }
    {
        let state = self.machine.hart(hart);
        if state.is_idle() || state.waits.is_some() {
            return false;
        }
        self.is_drained() || self.machine.may_execute(hart)
    }

    /// The same of a hart that can make an event, where the first so many harts are open: if no store of it waits, that is an
    /// instruction of its thread, or it has none.
    fn executes(&self, hart: Hart, opened: u8) -> bool
        requires hart { hart.0 < self.now.machine.now.setting.limits.harts }
        requires able { is_able (scene_of self.now.machine.now) opened hart.0 ≡ true }
        ensures { result ≡ ((scene_of self.now.machine.now).sight hart.0).exec_enabled }
    {
        let state = self.machine.hart(hart);
        if state.is_idle() || state.waits.is_some() {
            return false;
        }
        state.buffer.len() == 0 || self.may_execute(hart)
    }
}

impl Harts for SeenHarts<'_> {
    ghost scene = { λ v. scene_of v.machine.now };

    fn count(&self) -> u8 {
        self.machine.harts()
    }

    fn is_able(&self, hart: Hart, opened: u8) -> bool {
        let state = self.machine.hart(hart);
        if state.is_idle() {
            state.requests != 0 || self.has_startable(hart, opened)
        } else if state.waits.is_some() {
            state.requests != 0 || is_zero(state.waits)
        } else {
            state.buffer.len() != 0 || self.may_execute(hart)
        }
    }

    #[inline(always)]
    fn look(&self, hart: Hart, opened: u8) -> Sight {
        let state = self.machine.hart(hart);
        Sight {
            idle: state.is_idle(),
            first_ready: None,
            in_barrier: state.waits.is_some(),
            all_taken: false,
            requested: state.requests != 0,
            stores: state.buffer.len(),
            deliverable: self.machine.has_signal(hart),
            exec_enabled: self.executes(hart, opened),
            local: false,
            ran: 0,
            credit: 0,
        }
    }

    #[inline(always)]
    fn is_due(&self, hart: Hart, aim: Aim) -> bool {
        match aim {
            Aim::Preempt => true,
            Aim::Take => self.machine.hart(hart).requests != 0,
            Aim::Signal => self.machine.has_signal(hart),
        }
    }

    fn traps(&self, hart: Hart) -> bool {
        let next = self.machine.next(hart);
        traps_by(&next)
    }

    fn is_inside(&self, hart: Hart) -> bool {
        !self.machine.kernel().areas.is_empty() && self.is_inside_named(hart)
    }

    fn startable(&self, hart: Hart, opened: u8) -> ArrayVec<u32, 64> {
        let kernel = self.machine.kernel();
        startable_threads(&kernel.threads, &kernel.ready, hart, opened)
    }
}
