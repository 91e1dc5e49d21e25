//! Restartable sequences of the thread on a hart (rseq(2)).

ghost use Rattle.std.specs.Prelude.{◌≡◌, ◌<◌, ℕ, Some, length};
ghost use Rattle.block_model.specs.Here.{runs};
ghost use Rattle.block_model.specs.Plain.{Plain, here_in_plain};
ghost use Rattle.block_model.specs.Sequences.{is_inside_here};
ghost use Rattle.block_model.specs.Setting.{Setting};
ghost use Rattle.process.specs.Sequences.{area_on, looked_at_on, named_on};
ghost use Rattle.process.specs.Refinement.{IsTied};

use crate::hart_view::HartView;
use crate::parts::Parts;
use mach_types::{Area, Hart, Named};
use rseq_area::{Lookups, looked_at, named};
use sys_calls::area_of;

impl Parts {
    /// The area that is registered for the thread on a hart, which must be one of the list; None where no thread runs there, or
    /// where it has none.
    pub fn area(&self, hart: Hart) -> Option<Area>
        requires { hart.0 < length self.now.harts.items }
        ensures { (s : Setting) (p : Plain) → IsTied s p self.now → hart.0 < s.limits.harts
            → result ≡ area_on (here_in_plain s p hart.0) }
    {
        match self.harts[hart.0 as usize].running {
            Some(tid) => area_of(&self.kernel, tid),
            None => None,
        }
    }

    /// What the area of the thread on a hart names at its pc, as the hart sees memory: behind its own waiting stores. The hart
    /// must be one of the list. Nothing where no thread runs there, or where it has no area.
    pub fn named(&self, hart: Hart) -> Named
        requires { hart.0 < length self.now.harts.items }
        ensures { (s : Setting) (p : Plain) → IsTied s p self.now → hart.0 < s.limits.harts
            → result ≡ named_on (here_in_plain s p hart.0) }
    {
        let Some(area) = self.area(hart) else {
            return Named::Nothing;
        };
        let state = &self.harts[hart.0 as usize];
        let view = HartView {
            pages: &self.pages,
            buffer: &state.buffer,
        };
        named(&view, &area, state.pc)
    }

    /// At which bytes the check of the area of the thread on a hart looks, as the hart sees memory. The hart must be one of the list.
    /// None where no thread runs there, or where it has no area.
    pub fn looked_at(&self, hart: Hart) -> Option<Lookups>
        requires { hart.0 < length self.now.harts.items }
        ensures { (s : Setting) (p : Plain) → IsTied s p self.now → hart.0 < s.limits.harts → result ≡ looked_at_on (here_in_plain s p hart.0) }
    {
        let area = self.area(hart)?;
        let state = &self.harts[hart.0 as usize];
        let view = HartView {
            pages: &self.pages,
            buffer: &state.buffer,
        };
        Some(looked_at(&view, &area))
    }

    /// Whether the thread on a hart, which must be one of the list, is inside a good sequence.
    pub fn is_inside(&self, hart: Hart) -> bool
        requires { hart.0 < length self.now.harts.items }
        ensures { (s : Setting) (p : Plain) (t : ℕ) → IsTied s p self.now → hart.0 < s.limits.harts
            → runs (here_in_plain s p hart.0) ≡ Some t
            → result ≡ is_inside_here (here_in_plain s p hart.0) t }
    {
        match self.named(hart) {
            Named::Good(sequence) => sequence.is_inside(self.harts[hart.0 as usize].pc),
            Named::Nothing | Named::Bad(_) => false,
        }
    }
}
