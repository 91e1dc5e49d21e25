//! `take` and `done`: a hart takes the requests of barriers that are pending there, and the barrier of a thread returns
//! (membarrier(2)).

ghost use Rattle.std.specs.Prelude.{◌≡◌, ◌<◌, ◌==◌, ℕ, slice_get};
ghost use Rattle.std.specs.Option.{option_map};
ghost use Rattle.mach_types.specs.Kernel.Barriers.{harts_that};
ghost use Rattle.block_model.specs.Stands.{Stand, here_at};
ghost use Rattle.sys_calls.specs.Made.{barrier_of};
ghost use Rattle.process.specs.Barriers.{IsRestarted, asked_by, ended_by, is_busy, taken_or_noticed};
ghost use Rattle.process.specs.ContextSwitch.{HasHart};
ghost use Rattle.process.specs.Refinement.{HasPlace, IsEvent, IsPlace, IsRefusal, MayMake};

use crate::parts::Parts;
use crate::requests::{ask_all, notice_all, running_harts, take_requests};
use mach_types::signals::SIGSEGV;
use mach_types::{Choice, End, Hart, Outcome, Why};
use sys_calls::{CallEnd, area_of};

/// The register of a call's answer.
const A0: u8 = 10;

impl Parts {
    /// The set of the harts on which threads run.
    pub(crate) fn busy_harts(&self) -> u8
        ensures { result ≡ harts_that (is_busy self.now.harts.items) 8 }
    {
        running_harts(&self.harts)
    }

    /// Where the call of the thread on a hart ended as a barrier, each hart that it is about has a request of it.
    pub(crate) fn ask(&mut self, hart: Hart, end: CallEnd)
        requires { hart.0 < 8 }
        ensures harts { (k : ℕ) → slice_get self.new.harts.items k
            ≡ option_map (asked_by k hart.0 (barrier_of end)) (slice_get self.old.harts.items k) }
        ensures pages { self.new.pages ≡ self.old.pages }
        ensures kernel { self.new.kernel ≡ self.old.kernel }
        ensures ended { self.new.ended ≡ self.old.ended }
    {
        ask_all(&mut self.harts, hart, end);
    }

    /// Why a hart can't take requests.
    pub(crate) fn refusal_take(&self, hart: Hart) -> Option<Why>
        requires { HasPlace self.now hart.0 }
        ensures { IsRefusal self.now hart.0 Choice.Take result }
    {
        let state = &self.harts[hart.0 as usize];
        if state.requests == 0 {
            Some(Why::NoRequest)
        } else if state.buffer.len() != 0 {
            Some(Why::Waiting)
        } else {
            None
        }
    }

    /// The thread on a hart that takes its requests is interrupted where one of them asks for it. Answers what that came to.
    fn restarted(&mut self, hart: Hart) -> Option<Outcome>
        requires { HasPlace self.old hart.0 }
        ensures restarted { (v : Stand) → IsPlace v self.old hart.0
            → IsRestarted (here_at v hart.0) result self.old self.new }
        ensures kernel { self.new.kernel ≡ self.old.kernel }
        ensures ended { self.new.ended ≡ self.old.ended }
    {
        let state = &self.harts[hart.0 as usize];
        if !state.restart {
            return None;
        }
        let pc = state.pc;
        let Some(tid) = state.running else {
            return None;
        };
        let area = area_of(&self.kernel, tid);
        Some(self.interrupted(hart, area, pc))
    }

    /// A hart has no requests any more, and barriers of other harts wait for it no longer. Its thread was interrupted where there is
    /// what that came to, by which the process may be killed.
    fn end_take(&mut self, hart: Hart, came: Option<Outcome>)
        requires listed { HasHart self.old.harts.items hart.0 }
        requires eight { hart.0 < 8 }
        ensures harts { (k : ℕ) → slice_get self.new.harts.items k
            ≡ option_map (taken_or_noticed (k == hart.0) hart.0 came) (slice_get self.old.harts.items k) }
        ensures pages { self.new.pages ≡ self.old.pages }
        ensures kernel { self.new.kernel ≡ self.old.kernel }
        ensures ended { self.new.ended ≡ ended_by came self.old.ended }
    {
        take_requests(&mut self.harts[hart.0 as usize], came);
        notice_all(&mut self.harts, hart);
        if let Some(Outcome::Killed(_)) = came {
            self.ended = Some(End::Killed(SIGSEGV));
        }
    }

    /// A hart takes its requests.
    pub(crate) fn taken(&mut self, hart: Hart)
        requires { MayMake self.old hart.0 Choice.Take }
        ensures { IsEvent self.old hart.0 Choice.Take self.new }
    {
        let came = self.restarted(hart);
        self.end_take(hart, came);
    }

    /// Why no barrier of the thread on a hart can return.
    pub(crate) fn refusal_done(&self, hart: Hart) -> Option<Why>
        requires { HasPlace self.now hart.0 }
        ensures { IsRefusal self.now hart.0 Choice.Done result }
    {
        let state = &self.harts[hart.0 as usize];
        match (state.running, state.waits) {
            (None, _) => Some(Why::Idle),
            (Some(_), None) => Some(Why::NotInBarrier),
            (Some(_), Some(0)) => None,
            (Some(_), Some(_)) => Some(Why::Targets),
        }
    }

    /// The barrier of the thread on a hart returns.
    pub(crate) fn returned(&mut self, hart: Hart)
        requires { MayMake self.old hart.0 Choice.Done }
        ensures { IsEvent self.old hart.0 Choice.Done self.new }
    {
        let state = &mut self.harts[hart.0 as usize];
        state.file.set(A0, 0);
        state.waits = None;
        state.reserved = None;
    }
}
