//! `exec`: an instruction, its fault, or a call.

ghost use Rattle.std.specs.Prelude.{◌≡◌, Option, Some, None, true, false, IfOk, IfErr, OnErr};
ghost use Rattle.rv_inst.specs.Class.{is_call};
ghost use Rattle.block_model.specs.Deciding.{entry_in};
ghost use Rattle.block_model.specs.Stands.{Stand, here_at};
ghost use Rattle.block_model.specs.Events.{done_of, refusal_of};
ghost use Rattle.sys_calls.specs.Made.{process_end};
ghost use Rattle.block_model.specs.Calls.Answers.{CallDone};
ghost use Rattle.process.specs.Called.{HasCalled, IsCalled};
ghost use Rattle.process.specs.EventOutcomes.{hart_after_call, over_after};
ghost use Rattle.process.specs.Planned.{IsPlanned, IsInside, HasEntered, HasPlan, IsExecuted};
ghost use Rattle.process.specs.Refinement.{IsAfter, IsAlone, IsPlace, HasCode, IsUncounted, answer_to};

use crate::code::Code;
use crate::faults::told_by;
use crate::handlers::has_handler;
use crate::next::{Next, effect_at, fault_of_next, is_free, next_of};
use crate::parts::{Parts, entry_of};
use arrayvec::ArrayVec;
use hart_state::HartState;
use mach_types::signals::SIGSEGV;
use mach_types::{Choice, End, Entry, Hart, Kind, Saved, Why, Write};
use rv_inst::Effect;
use sys_calls::{CallEnd, make_call};

/// The kernel's writes to memory in a call, in order.
pub type Written = ArrayVec<Write, 40>;

impl Parts {
    /// The next instruction of the thread on a hart, where it may be executed, or the condition that fails.
    fn planned(&self, code: &Code, hart: Hart) -> Result<Next, Why>
        requires { HasCode code.now self.now hart.0 }
        ensures err { (v : Stand) → IsPlace v self.now hart.0 → IsAlone code.now v
            → IfErr result (λ why. refusal_of Choice.Exec (here_at v hart.0) ≡ Some why) }
        ensures ok { (v : Stand) → IsPlace v self.now hart.0 → IsAlone code.now v
            → IfOk result (IsPlanned v hart.0) }
    {
        let state = &self.harts[hart.0 as usize];
        let effect = effect_at(code, &state.file, state.pc);
        let asked = effect.as_ref();
        if is_free(state, asked) {
            return Ok(Next {
                effect,
                fault: None,
            });
        }
        let fault = fault_of_next(code, &self.pages, state, asked);
        let next = Next { effect, fault };
        match self.exec_gate(hart, &next) {
            Some(why) => Err(why),
            None => Ok(next),
        }
    }

    /// Why the thread on a hart may not execute its next instruction.
    pub(crate) fn refusal_exec(&self, code: &Code, hart: Hart) -> Option<Why>
        requires { HasCode code.now self.now hart.0 }
        ensures { (v : Stand) → IsPlace v self.now hart.0 → IsAlone code.now v
            → result ≡ refusal_of Choice.Exec (here_at v hart.0) }
    {
        let state = &self.harts[hart.0 as usize];
        let next = next_of(code, &self.pages, state);
        self.exec_gate(hart, &next)
    }

    /// A fault of an instruction with this effect, or where there is none: its signal becomes pending for the thread, which keeps
    /// what the fault says, where it has a handler, and else the process is killed by it. The event is yet to be counted.
    pub fn fault(&mut self, hart: Hart, effect: Option<Effect>, signal: u8)
        requires { HasPlan self.old hart.0 (record { effect = effect; fault = Some signal }) }
        ensures { IsExecuted self.old hart.0 (record { effect = effect; fault = Some signal }) self.new }
    {
        let state = &mut self.harts[hart.0 as usize];
        let entry = entry_of(hart, Kind::Exec, state);
        let pc = state.pc;
        state.ran += 1;
        if has_handler(&self.kernel.signals, entry.tid, signal) {
            let fault = told_by(&self.pages, pc, effect.as_ref(), signal);
            self.kernel.signals.post_fault(entry.tid, fault);
        } else {
            self.ended = Some(End::Killed(signal));
        }
    }

    /// An instruction other than a call.
    fn plain(&mut self, hart: Hart, effect: &Effect)
        requires plan { HasPlan self.old hart.0 (record { effect = Some effect.now; fault = None }) }
        requires no_call { is_call effect.now ≡ false }
        ensures { IsExecuted self.old hart.0 (record { effect = Some effect.now; fault = None }) self.new }
    {
        let state = &mut self.harts[hart.0 as usize];
        let made = state.execute(&self.pages, effect);
        state.ran += 1;
        self.enter_made(hart, made);
    }

    /// How the run has ended after a call: the call ended the process, or a thread is live and none can go on.
    fn end_after(&self, end: CallEnd) -> Option<End>
        ensures { result ≡ over_after (process_end end) self.now.kernel.threads.threads }
    {
        match end {
            CallEnd::ProcessEnd(end) => Some(end),
            _ if self.kernel.threads.is_stuck() => Some(End::Stuck),
            _ => None,
        }
    }

    /// A call inside a restartable sequence: the process is killed, and the hart's reservation ends.
    fn call_inside(&mut self, hart: Hart)
        requires plan { HasPlan self.old hart.0 (record { effect = Some Effect.Call; fault = None }) }
        requires inside { IsInside true self.old hart.0 }
        ensures { IsExecuted self.old hart.0 (record { effect = Some Effect.Call; fault = None }) self.new }
    {
        let state = &mut self.harts[hart.0 as usize];
        state.reserved = None;
        state.ran += 1;
        self.ended = Some(End::Killed(SIGSEGV));
    }

    /// A call outside. Answers what the kernel wrote to memory.
    fn call_outside(&mut self, hart: Hart) -> Written
        requires plan { HasPlan self.old hart.0 (record { effect = Some Effect.Call; fault = None }) }
        requires outside { IsInside false self.old hart.0 }
        ensures made { IsExecuted self.old hart.0 (record { effect = Some Effect.Call; fault = None }) self.new }
        ensures written { HasEntered self.old hart.0 (record { effect = Some Effect.Call; fault = None })
            result.items }
    {
        let harts = self.harts.len() as u8;
        let running = self.busy_harts();
        let state = &self.harts[hart.0 as usize];
        let entry = entry_of(hart, Kind::Exec, state);
        let mut saved = Saved {
            file: state.file,
            pc: state.pc,
        };
        let done = make_call(
            &mut self.kernel,
            &mut self.pages,
            hart,
            running,
            harts,
            entry.tid,
            &mut saved,
            state.cid,
        );
        self.finish_call(hart, done.end, saved, done.written.as_slice());
        done.written
    }

    /// What is left of a call of the thread on a hart, once the tables and the pages are as the call leaves them: the hart goes on
    /// with these registers, waits in a barrier, or is given up; the other harts lose their reservations of what the kernel wrote;
    /// each hart that a barrier is about has a request; and the process may have ended. The event is yet to be counted.
    pub fn finish_call(&mut self, hart: Hart, end: CallEnd, saved: Saved, written: &[Write])
        requires { HasCalled self.old hart.0 end saved written.now }
        ensures { (v : Stand) (m : Parts) (d : CallDone) → IsCalled v hart.0 m self.old end saved written.now d
            → IsUncounted v hart.0 (done_of Choice.Exec (here_at v hart.0)) m self.new }
    {
        let state = &mut self.harts[hart.0 as usize];
        end_call(state, end, saved);
        state.ran += 1;
        self.pages.keeps();
        self.lose(hart, written);
        self.ask(hart, end);
        self.ended = self.end_after(end);
    }

    /// A call of the thread on a hart, which reads nothing of another process: there is none, or the call is neither membarrier(2)
    /// nor rseq(2), or it is made inside a sequence, which kills the process. The event is yet to be counted.
    pub fn call(&mut self, hart: Hart)
        requires { HasPlan self.old hart.0 (record { effect = Some Effect.Call; fault = None }) }
        ensures { IsExecuted self.old hart.0 (record { effect = Some Effect.Call; fault = None }) self.new }
    {
        self.call_with_writes(hart);
    }

    /// [`Parts::call`], which answers what the kernel wrote to memory in the call, in order.
    #[inline(never)]
    fn call_with_writes(&mut self, hart: Hart) -> Written
        requires { HasPlan self.old hart.0 (record { effect = Some Effect.Call; fault = None }) }
        ensures made { IsExecuted self.old hart.0 (record { effect = Some Effect.Call; fault = None }) self.new }
        ensures written { HasEntered self.old hart.0 (record { effect = Some Effect.Call; fault = None })
            result.items }
    {
        if self.is_inside(hart) {
            self.call_inside(hart);
            Written::new()
        } else {
            self.call_outside(hart)
        }
    }

    /// [`Parts::make`] of an `exec` that is allowed and is a call, as [`Parts::call`] makes it: its entry, and what the kernel wrote to
    /// memory in it, in order.
    pub fn make_call(&mut self, hart: Hart) -> (Entry, Written)
        requires { HasPlan self.old hart.0 (record { effect = Some Effect.Call; fault = None }) }
        ensures entry { (v : Stand) → IsPlace v self.old hart.0 → result.0 ≡ entry_in Choice.Exec (here_at v hart.0) }
        ensures after { (v : Stand) → IsPlace v self.old hart.0
            → IsPlanned v hart.0 (record { effect = Some Effect.Call; fault = None })
            → IsAfter v hart.0 (done_of Choice.Exec (here_at v hart.0)) self.old self.new }
        ensures written { HasEntered self.old hart.0 (record { effect = Some Effect.Call; fault = None })
            result.1.items }
    {
        let entry = self.entry(hart, Choice::Exec);
        let written = self.call_with_writes(hart);
        self.count(hart);
        (entry, written)
    }

    /// The next instruction of the thread on a hart.
    fn execute(&mut self, hart: Hart, next: Next)
        requires { HasPlan self.old hart.0 next }
        ensures { IsExecuted self.old hart.0 next self.new }
    {
        match (next.fault, next.effect) {
            (Some(signal), _) => self.fault(hart, next.effect, signal),
            (None, Some(Effect::Call)) => self.call(hart),
            (None, Some(effect)) => self.plain(hart, &effect),
            (None, None) => unreachable!(),
        }
    }

    /// `exec` of any instruction, but for the count of its event.
    #[inline(never)]
    pub(crate) fn exec_any(&mut self, code: &Code, hart: Hart) -> Result<Entry, Why>
        requires { HasCode code.now self.old hart.0 }
        ensures answer { (v : Stand) → IsPlace v self.old hart.0 → IsAlone code.now v
            → result ≡ answer_to v hart.0 Choice.Exec }
        ensures made { (v : Stand) → IsPlace v self.old hart.0 → IsAlone code.now v
            → IfOk result
            (λ e. IsUncounted v hart.0 (done_of Choice.Exec (here_at v hart.0)) self.old self.new) }
        ensures err { OnErr result (self.new ≡ self.old) }
    {
        match self.planned(code, hart) {
            Ok(next) => {
                let made = self.entry(hart, Choice::Exec);
                self.execute(hart, next);
                Ok(made)
            }
            Err(why) => Err(why),
        }
    }
}

/// A thread goes on with this file after its call.
fn go_on(state: &mut HartState, saved: Saved)
    ensures { state.new ≡ record state.old { file = saved.file; pc = saved.pc; reserved = None } }
{
    state.file = saved.file;
    state.pc = saved.pc;
    state.reserved = None;
}

/// The hart after the call of its thread, which left this in its registers: it goes on, waits there in a barrier, or gave up the hart.
fn end_call(state: &mut HartState, end: CallEnd, saved: Saved)
    ensures { state.new ≡ hart_after_call end saved state.old }
{
    match end {
        CallEnd::Block | CallEnd::Leave(_) | CallEnd::ThreadEnd => {
            let _kept = state.leave();
        }
        CallEnd::Return(_) | CallEnd::Resume | CallEnd::ProcessEnd(_) => go_on(state, saved),
        CallEnd::Barrier { targets, .. } => {
            go_on(state, saved);
            state.waits = Some(targets);
        }
    }
}
