//! The parts of a machine, without its log: one event of a hart, and which events are refused.

ghost use Rattle.std.specs.Prelude.{◌≡◌, ◌≢◌, None, IfOk, OnErr};
ghost use Rattle.mach_types.specs.Kernel.Threads.{is_ready};
ghost use Rattle.block_model.specs.Deciding.{entry_in};
ghost use Rattle.block_model.specs.Events.{done_of, refusal_of};
ghost use Rattle.block_model.specs.Stands.{Stand, here_at};
ghost use Rattle.process.specs.ContextSwitch.{HasEvent, IsChanged};
ghost use Rattle.process.specs.EventOutcomes.{entry_from};
ghost use Rattle.process.specs.Harts.{counted};
ghost use Rattle.process.specs.Refinement.{HasCode, HasPlace, IsAfter, IsAlone, IsEvent, IsPlace, IsRefusal, IsUncounted, MayDrain, MayMake, answer_to};

use crate::code::Code;
use hart_state::HartState;
use mach_types::{Choice, End, Entry, Hart, Kind, ThreadState, Tid, Why};
use page_map::PageMap;
use sys_calls::Kernel;

/// Memory, the harts, the kernel's tables, and how the run has ended: all that an event changes but the log.
#[derive(Drop)]
pub struct Parts {
    /// The pages of the process.
    pub pages: PageMap,
    /// The harts, by number.
    pub harts: Vec<HartState>,
    /// The threads, the signals, the ready list, the areas, the registrations for barriers, the console and the generator of random
    /// bytes.
    pub kernel: Kernel,
    /// How the run has ended, if it has.
    pub ended: Option<End>,
}

/// The entry of an event of a hart in this state, before the event.
pub fn entry_of(hart: Hart, kind: Kind, state: &HartState) -> Entry
    ensures { result ≡ entry_from hart kind state.now.running state.now.pc }
{
    match state.running {
        Some(tid) => Entry {
            hart,
            kind,
            tid,
            pc: state.pc,
        },
        None => Entry {
            hart,
            kind,
            tid: Tid(0),
            pc: 0,
        },
    }
}

impl Parts {
    /// Whether a thread is ready.
    pub(crate) fn is_ready(&self, tid: Tid) -> bool
        ensures { result ≡ is_ready tid.0 self.now.kernel.threads.threads }
    {
        matches!(self.kernel.threads.state(tid), Some(ThreadState::Ready))
    }

    /// Makes the event of a choice on a hart, and answers its entry, or the first condition that fails; then nothing changes.
    ///
    /// The parts must stand at some place at which their process goes on, has room for one more entry and is alone on its
    /// machine, with these pages of code, and the hart must be one of the machine's (`HasCode`). At whichever such place that
    /// is, the answer is the one that is due there, and the parts are then those after its event.
    #[inline(always)]
    pub fn make(&mut self, code: &Code, hart: Hart, choice: Choice) -> Result<Entry, Why>
        requires { HasCode code.now self.old hart.0 }
        ensures answer { (v : Stand) → IsPlace v self.old hart.0 → IsAlone code.now v
            → result ≡ answer_to v hart.0 choice }
        ensures after { (v : Stand) → IsPlace v self.old hart.0 → IsAlone code.now v
            → IfOk result (λ e. IsAfter v hart.0 (done_of choice (here_at v hart.0)) self.old self.new) }
        ensures err { OnErr result (self.new ≡ self.old) }
    {
        if let Choice::Exec = choice {
            return self.make_exec(code, hart);
        }
        match self.made(code, hart, choice) {
            Ok(entry) => {
                self.count(hart);
                Ok(entry)
            }
            Err(why) => Err(why),
        }
    }

    /// [`Parts::make`] of `exec`: at first in the way of plain instructions, and then in that of all.
    #[inline(always)]
    fn make_exec(&mut self, code: &Code, hart: Hart) -> Result<Entry, Why>
        requires { HasCode code.now self.old hart.0 }
        ensures answer { (v : Stand) → IsPlace v self.old hart.0 → IsAlone code.now v
            → result ≡ answer_to v hart.0 Choice.Exec }
        ensures after { (v : Stand) → IsPlace v self.old hart.0 → IsAlone code.now v
            → IfOk result (λ e. IsAfter v hart.0 (done_of Choice.Exec (here_at v hart.0)) self.old self.new) }
        ensures err { OnErr result (self.new ≡ self.old) }
    {
        match self.make_plain(code, hart) {
            Some(entry) => Ok(entry),
            None => match self.exec_any(code, hart) {
                Ok(entry) => {
                    self.count(hart);
                    Ok(entry)
                }
                Err(why) => Err(why),
            },
        }
    }

    /// Counts an event of a hart: the last part of each event, after which the parts stand at the place behind it. The hart must be
    /// one of the list, and have made fewer than 2^32 - 1 events.
    #[inline(always)]
    pub fn count(&mut self, hart: Hart)
        requires { HasEvent self.old.harts.items hart.0 }
        ensures harts { IsChanged hart.0 counted self.old.harts.items self.new.harts.items }
        ensures pages { self.new.pages ≡ self.old.pages }
        ensures kernel { self.new.kernel ≡ self.old.kernel }
        ensures ended { self.new.ended ≡ self.old.ended }
    {
        let state = &mut self.harts[hart.0 as usize];
        state.events += 1;
    }

    /// [`Parts::make`] of a choice other than `exec`, but for the count of the event.
    #[inline(never)]
    fn made(&mut self, code: &Code, hart: Hart, choice: Choice) -> Result<Entry, Why>
        requires code { HasCode code.now self.old hart.0 }
        requires other { choice ≢ Choice.Exec }
        ensures answer { (v : Stand) → IsPlace v self.old hart.0 → IsAlone code.now v
            → result ≡ answer_to v hart.0 choice }
        ensures made { (v : Stand) → IsPlace v self.old hart.0 → IsAlone code.now v
            → IfOk result (λ e. IsUncounted v hart.0 (done_of choice (here_at v hart.0)) self.old self.new) }
        ensures err { OnErr result (self.new ≡ self.old) }
    {
        match self.refusal(code, hart, choice) {
            Some(why) => Err(why),
            None => {
                let made = self.entry(hart, choice);
                self.event(hart, choice);
                Ok(made)
            }
        }
    }

    /// The event of a choice other than `exec` that is allowed on a hart, but for its count ([`Parts::count`]). A store that enters
    /// memory by a `drain` must lie on pages of the process.
    #[inline(always)]
    pub fn event(&mut self, hart: Hart, choice: Choice)
        requires free { MayMake self.old hart.0 choice }
        requires other { choice ≢ Choice.Exec }
        requires drains { choice ≡ Choice.Drain → MayDrain self.old hart.0 }
        ensures { IsEvent self.old hart.0 choice self.new }
    {
        match choice {
            Choice::Exec => unreachable!(),
            Choice::Drain => self.drained(hart),
            Choice::Take => self.taken(hart),
            Choice::Done => self.returned(hart),
            Choice::Preempt => self.left(hart),
            Choice::Run(tid) => self.begun(hart, tid),
            Choice::Signal => self.delivered(hart),
        }
    }

    /// The first condition of a choice on a hart that fails; None exactly where the choice is allowed.
    pub(crate) fn refusal(&self, code: &Code, hart: Hart, choice: Choice) -> Option<Why>
        requires { HasCode code.now self.now hart.0 }
        ensures { (v : Stand) → IsPlace v self.now hart.0 → IsAlone code.now v
            → result ≡ refusal_of choice (here_at v hart.0) }
    {
        if let Choice::Exec = choice {
            return self.refusal_exec(code, hart);
        }
        self.refusal_unless_exec(hart, choice)
    }

    /// The first condition of a choice other than `exec` on a hart that fails; None exactly where the choice is allowed. The parts
    /// must stand at some place at which their process goes on and has room for one more entry, and the hart must be one of the
    /// machine's. What is answered is what is due at whichever such place that is, whatever stands beside the process.
    #[inline(always)]
    pub fn refusal_unless_exec(&self, hart: Hart, choice: Choice) -> Option<Why>
        requires place { HasPlace self.now hart.0 }
        requires other { choice ≢ Choice.Exec }
        ensures { IsRefusal self.now hart.0 choice result }
    {
        match choice {
            Choice::Exec => unreachable!(),
            Choice::Drain => self.refusal_drain(hart),
            Choice::Take => self.refusal_take(hart),
            Choice::Done => self.refusal_done(hart),
            Choice::Preempt => self.refusal_preempt(hart),
            Choice::Run(tid) => self.refusal_run(hart, tid),
            Choice::Signal => self.refusal_signal(hart),
        }
    }

    /// The entry of a ready thread that may begin to run on a hart.
    fn entry_of_run(&self, hart: Hart, tid: Tid) -> Entry
        requires { MayMake self.now hart.0 (Choice.Run tid) }
        ensures { (v : Stand) → IsPlace v self.now hart.0
            → result ≡ entry_in (Choice.Run tid) (here_at v hart.0) }
    {
        let Some(saved) = self.kernel.threads.saved(tid) else {
            unreachable!()
        };
        Entry {
            hart,
            kind: Kind::Run,
            tid,
            pc: saved.pc,
        }
    }

    /// The entry of a choice on a hart that is allowed, whatever stands beside the process.
    pub fn entry(&self, hart: Hart, choice: Choice) -> Entry
        requires { MayMake self.now hart.0 choice }
        ensures { (v : Stand) → IsPlace v self.now hart.0 → result ≡ entry_in choice (here_at v hart.0) }
    {
        match choice {
            Choice::Run(tid) => self.entry_of_run(hart, tid),
            _ => entry_of(hart, choice.kind(), &self.harts[hart.0 as usize]),
        }
    }

    /// What [`Parts::make`] would answer to a choice on a hart, under the same condition: the entry of its event, or the first
    /// condition that fails. Nothing changes.
    pub fn answer(&self, code: &Code, hart: Hart, choice: Choice) -> Result<Entry, Why>
        requires { HasCode code.now self.now hart.0 }
        ensures { (v : Stand) → IsPlace v self.now hart.0 → IsAlone code.now v
            → result ≡ answer_to v hart.0 choice }
    {
        match self.refusal(code, hart, choice) {
            Some(why) => Err(why),
            None => Ok(self.entry(hart, choice)),
        }
    }
}
