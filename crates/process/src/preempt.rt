//! `preempt`: the thread on a hart leaves it.

ghost use Rattle.std.specs.Prelude.{◌≡◌, None};
ghost use Rattle.process.specs.Refinement.{HasPlace, IsEvent, IsRefusal, MayMake};

use crate::parts::{Parts, entry_of};
use mach_types::{Choice, Hart, Kind, Why};

impl Parts {
    /// Why the thread on a hart can't leave it.
    pub(crate) fn refusal_preempt(&self, hart: Hart) -> Option<Why>
        requires { HasPlace self.now hart.0 }
        ensures { IsRefusal self.now hart.0 Choice.Preempt result }
    {
        let state = &self.harts[hart.0 as usize];
        if state.is_idle() {
            Some(Why::Idle)
        } else if state.waits.is_some() {
            Some(Why::InBarrier)
        } else if state.buffer.len() != 0 {
            Some(Why::Waiting)
        } else {
            None
        }
    }

    /// The thread on a hart leaves it, and is the last ready one.
    pub(crate) fn left(&mut self, hart: Hart)
        requires { MayMake self.old hart.0 Choice.Preempt }
        ensures { IsEvent self.old hart.0 Choice.Preempt self.new }
    {
        let state = &mut self.harts[hart.0 as usize];
        let entry = entry_of(hart, Kind::Preempt, state);
        let saved = state.leave();
        self.kernel.threads.leave(entry.tid, saved);
        self.kernel.ready.push(entry.tid);
    }
}
