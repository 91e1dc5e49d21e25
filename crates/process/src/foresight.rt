//! What the interruption of a thread will come to (rseq(2)), before the event that makes it.

ghost use Rattle.std.specs.Prelude.{◌≡◌, ◌<◌, None, length};
ghost use Rattle.block_model.specs.Events.{done_of, refusal_of};
ghost use Rattle.block_model.specs.Stands.{Stand, here_at};
ghost use Rattle.process.specs.Foresight.{interrupts};
ghost use Rattle.process.specs.Refinement.{IsPlace, MayMake};

use crate::parts::Parts;
use mach_types::{Choice, Hart, Outcome};
use rseq_abort::foreseen;
use sys_calls::area_of;

impl Parts {
    /// Whether the event of a choice that is allowed on a hart, which must be one of the list, interrupts a thread.
    fn interrupts(&self, hart: Hart, choice: Choice) -> bool
        requires { hart.0 < length self.now.harts.items }
        ensures { (v : Stand) → IsPlace v self.now hart.0 → result ≡ interrupts choice (here_at v hart.0) }
    {
        match choice {
            Choice::Run(_) | Choice::Signal => true,
            Choice::Take => {
                let state = &self.harts[hart.0 as usize];
                state.restart && !state.is_idle()
            }
            _ => false,
        }
    }

    /// What the interruption of a thread will come to by the event of a choice that is allowed on a hart, whatever stands beside the
    /// process. None where the event interrupts no thread. Nothing changes.
    pub fn foreseen(&self, hart: Hart, choice: Choice) -> Option<Outcome>
        requires { MayMake self.now hart.0 choice }
        ensures { (v : Stand) → IsPlace v self.now hart.0 → refusal_of choice (here_at v hart.0) ≡ None
            → result ≡ (done_of choice (here_at v hart.0)).interrupted }
    {
        if !self.interrupts(hart, choice) {
            return None;
        }
        let entry = self.entry(hart, choice);
        let area = area_of(&self.kernel, entry.tid);
        Some(foreseen(&self.pages, area, entry.pc))
    }
}
