//! `signal`: the lowest signal that can be delivered to the thread on a hart is (signal(7)). The thread is interrupted (rseq(2)),
//! and then enters the handler (sigaction(2)), or the process is killed.

ghost use Rattle.std.specs.Prelude.{◌≡◌, ◌<◌, ◌≤◌, ℕ, true, false, Some, IsTrue, length};
ghost use Rattle.mach_types.specs.Registers.{register};
ghost use Rattle.mach_types.specs.Kernel.Signals.{action_of, is_handler, is_held, is_ignored, refuses_action};
ghost use Rattle.mach_types.specs.declared.signals.TheConstants.{LAST_SIGNAL};
ghost use Rattle.page_map.specs.Map.{can_write_in};
ghost use Rattle.block_model.specs.Events.Signal.{dropped_if_ignored};
ghost use Rattle.block_model.specs.Here.{Here};
ghost use Rattle.block_model.specs.Plain.{Plain, here_in_plain};
ghost use Rattle.block_model.specs.Setting.{Setting};
ghost use Rattle.process.specs.ContextSwitch.{HasHart, IsChanged};
ghost use Rattle.process.specs.Delivering.{HasSignals, IsDelivered, IsEntered, IsInterrupted, ended_unless, gone_on_with, killer_of, next_on};
ghost use Rattle.process.specs.Refinement.{HasPlace, IsEvent, IsRefusal, IsTied, MayMake};

use crate::handlers::is_handler;
use crate::interrupt::pc_after;
use crate::parts::{Parts, entry_of};
use mach_types::signals::SIGSEGV;
use mach_types::{Choice, End, Fault, Hart, Kind, Outcome, Saved, Tid, Why, Write};
use signals::{Signals, next_signal_is_the_lowest};
use sys_calls::area_of;

/// The stack pointer (RISC-V psABI).
const SP: u8 = 2;

/// A file has 32 registers.
fn has_all_registers(saved: &Saved)
    ensures { length saved.now.file.x ≡ 32 }
{
    let registers: &[u64] = &saved.file.x;
    let _ = registers.len();
}

/// A write to the bytes of the frame, so many, of a handler that starts with this file. What is written there is of no matter to
/// those who lose their reservations of it.
fn frame_of(saved: &Saved, length: u64) -> Write
    ensures { result ≡ Write.Zeroed (register saved.now.file 2) length }
{
    Write::Zeroed {
        at: saved.file.get(SP),
        length,
    }
}

/// A signal, 1 to 31, whose action ignores it is dropped for all threads.
fn drop_if_ignored(signals: &mut Signals, signal: u8)
    requires lowest { 1 ≤ signal }
    requires highest { signal ≤ LAST_SIGNAL }
    requires kept { refuses_action signal (Some (action_of signal signals.old)) ≡ true
        → is_ignored signal (action_of signal signals.old) ≡ false }
    ensures { signals.new ≡ dropped_if_ignored signal signals.old }
{
    let action = signals.action(signal);
    let _ = signals.act(signal, Some(action));
}

impl Parts {
    /// The signal, 1 to 31, that can be delivered to the thread on a hart: the lowest that is pending and not masked. None where
    /// there is none, or no thread runs there. The hart must be one of the list, and the signals must be kept of the thread that
    /// runs there, as they are of every live thread.
    pub fn deliverable(&self, hart: Hart) -> Option<u8>
        requires listed { hart.0 < length self.now.harts.items }
        requires held { HasSignals self.now hart.0 }
        ensures { (s : Setting) (p : Plain) → IsTied s p self.now → hart.0 < s.limits.harts
            → result ≡ next_on (here_in_plain s p hart.0) }
    {
        match self.harts[hart.0 as usize].running {
            Some(tid) => self.kernel.signals.next_for(tid),
            None => None,
        }
    }

    /// Why no signal is delivered to the thread on a hart.
    pub(crate) fn refusal_signal(&self, hart: Hart) -> Option<Why>
        requires { HasPlace self.now hart.0 }
        ensures { IsRefusal self.now hart.0 Choice.Signal result }
    {
        let state = &self.harts[hart.0 as usize];
        if state.is_idle() {
            Some(Why::Idle)
        } else if state.waits.is_some() {
            Some(Why::InBarrier)
        } else if self.deliverable(hart).is_none() {
            Some(Why::NoSignal)
        } else if state.buffer.len() != 0 {
            Some(Why::Waiting)
        } else {
            None
        }
    }

    /// A thread with this file enters the handler of a signal, of a fault or of none. Where its frame can't be written nothing
    /// changes, and the signal is answered by which the process is to be killed.
    fn enter_handler(
        &mut self,
        hart: Hart,
        tid: Tid,
        signal: u8,
        fault: Option<Fault>,
        saved: &mut Saved,
    ) -> Option<u8>
        requires held { IsTrue (is_held tid.0 self.old.kernel.signals) }
        requires lowest { 1 ≤ signal }
        requires highest { signal ≤ LAST_SIGNAL }
        requires handler { IsTrue (is_handler (action_of signal self.old.kernel.signals)) }
        ensures killer { result
            ≡ killer_of (can_write_in self.old.pages) signal saved.old self.old.kernel.signals }
        ensures entered { IsEntered tid.0 hart.0 signal fault result saved.old saved.new self.old self.new }
        ensures others { self.new.kernel ≡ record self.old.kernel { signals = self.new.kernel.signals } }
        ensures ended { self.new.ended ≡ self.old.ended }
    {
        has_all_registers(saved);
        let size = self.kernel.signals.frame_size(signal);
        if !self
            .kernel
            .signals
            .push_frame(&mut self.pages, tid, signal, fault, saved)
        {
            return Some(SIGSEGV);
        }
        self.lose(hart, &[frame_of(saved, size)]);
        drop_if_ignored(&mut self.kernel.signals, signal);
        None
    }

    /// The same where the action of the signal may be no handler: then nothing changes, and the process is to be killed.
    fn enter_unless_killed(
        &mut self,
        hart: Hart,
        tid: Tid,
        signal: u8,
        fault: Option<Fault>,
        saved: &mut Saved,
    ) -> Option<u8>
        requires held { IsTrue (is_held tid.0 self.old.kernel.signals) }
        requires lowest { 1 ≤ signal }
        requires highest { signal ≤ LAST_SIGNAL }
        ensures killer { result
            ≡ killer_of (can_write_in self.old.pages) signal saved.old self.old.kernel.signals }
        ensures entered { IsEntered tid.0 hart.0 signal fault result saved.old saved.new self.old self.new }
        ensures others { self.new.kernel ≡ record self.old.kernel { signals = self.new.kernel.signals } }
        ensures ended { self.new.ended ≡ self.old.ended }
    {
        if !is_handler(self.kernel.signals.action(signal)) {
            return Some(signal);
        }
        self.enter_handler(hart, tid, signal, fault, saved)
    }

    /// A signal is delivered to a thread of a hart with this file: it isn't pending any more, the thread is interrupted, and then
    /// enters the handler. Where it can't, the signal is answered by which the process is to be killed.
    fn handled(&mut self, hart: Hart, tid: Tid, signal: u8, saved: &mut Saved) -> Option<u8>
        requires held { IsTrue (is_held tid.0 self.old.kernel.signals) }
        requires lowest { 1 ≤ signal }
        requires highest { signal ≤ LAST_SIGNAL }
        ensures delivered { (h : Here) → IsInterrupted h tid.0 hart.0 self.old saved.old
            → IsDelivered h tid.0 signal result saved.new self.old self.new }
        ensures others { self.new.kernel ≡ record self.old.kernel { signals = self.new.kernel.signals } }
        ensures ended { self.new.ended ≡ self.old.ended }
    {
        let fault = self.kernel.signals.fault_of(tid, signal);
        self.kernel.signals.take_pending(tid, signal);
        let area = area_of(&self.kernel, tid);
        let outcome = self.interrupted(hart, area, saved.pc);
        saved.pc = pc_after(saved.pc, outcome);
        match outcome {
            Outcome::Killed(_) => Some(SIGSEGV),
            Outcome::Nothing | Outcome::Cleared | Outcome::Aborted(_) => {
                self.enter_unless_killed(hart, tid, signal, fault, saved)
            }
        }
    }

    /// The thread on a hart goes on with this file after a signal was delivered to it, or the process is killed.
    fn go_on(&mut self, hart: Hart, saved: Saved, killer: Option<u8>)
        requires { HasHart self.old.harts.items hart.0 }
        ensures harts { IsChanged hart.0 (gone_on_with saved) self.old.harts.items self.new.harts.items }
        ensures pages { self.new.pages ≡ self.old.pages }
        ensures kernel { self.new.kernel ≡ self.old.kernel }
        ensures ended { self.new.ended ≡ ended_unless killer self.old.ended }
    {
        let state = &mut self.harts[hart.0 as usize];
        state.file = saved.file;
        state.pc = saved.pc;
        state.reserved = None;
        if let Some(signal) = killer {
            self.ended = Some(End::Killed(signal));
        }
    }

    /// The signal that can be delivered to the thread on a hart is.
    pub(crate) fn delivered(&mut self, hart: Hart)
        requires { MayMake self.old hart.0 Choice.Signal }
        ensures { IsEvent self.old hart.0 Choice.Signal self.new }
    {
        next_signal_is_the_lowest();
        let state = &self.harts[hart.0 as usize];
        let entry = entry_of(hart, Kind::Signal, state);
        let mut saved = Saved {
            file: state.file,
            pc: state.pc,
        };
        let Some(signal) = self.deliverable(hart) else {
            unreachable!()
        };
        let killer = self.handled(hart, entry.tid, signal, &mut saved);
        self.go_on(hart, saved, killer);
    }
}
