//! How long the stores of a hart wait, counted while a run is made.

ghost use Rattle.std.specs.Prelude.{◌≡◌, ◌<◌, ◌≤◌, ◌+◌, ◌-◌, length, option_to_list};
ghost use Rattle.drawn_machine.specs.Waits.{clock_behind, clock_by, first_clock, oldest_waits, waits_behind};

use arrayvec::ArrayVec;
use mach_types::{Kind, Maker};
use std::marker::Model;

/// What is kept of a store that waits.
#[derive(Clone, Copy, Default, Drop)]
pub struct Mark {
    /// How many instructions its hart had executed when it was, with it.
    pub(crate) instructions: u32,
    /// The address of its instruction.
    pub(crate) pc: u64,
}

/// What is counted of a hart.
#[derive(Drop)]
pub(crate) struct HartClock {
    /// How many instructions it executed.
    instructions: u32,
    /// A mark of each of its waiting stores, the oldest first.
    marks: ArrayVec<Mark, 8>,
}

impl Model for HartClock {
    ghost use Rattle.std.specs.Prelude.{◌≤◌, All};
    ghost use Rattle.drawn_machine.specs.Waits.{Clock};

    ghost Value = { Clock };

    ghost view = { λ c. record { instructions = c.instructions; marks = c.marks.items } };

    ghost invariant = { λ c. All (λ mark. mark.instructions ≤ c.instructions) c.marks.items };
}

impl HartClock {
    /// Before the first event.
    pub(crate) fn new() -> HartClock
        ensures { result ≡ first_clock }
    {
        HartClock {
            instructions: 0,
            marks: ArrayVec::new(),
        }
    }

    /// The marks of its waiting stores, the oldest first.
    pub(crate) fn marks(&self) -> &[Mark]
        ensures { result.now ≡ self.now.marks }
    {
        &self.marks
    }

    /// Counts an event of this kind, whose instruction stands at a pc, and behind which so many stores of the hart wait. Returns how
    /// long the store waited that entered memory by it, if one did.
    pub(crate) fn count(&mut self, kind: Kind, pc: u64, waiting: u8) -> Option<u32>
        requires instructions { self.old.instructions < 1000000 }
        requires waiting { waiting ≤ 8 }
        requires one { waiting ≤ length self.old.marks + 1 }
        ensures clock { self.new ≡ clock_behind kind pc waiting self.old }
        ensures wait { option_to_list result ≡ waits_behind kind self.old }
    {
        match kind.nature().maker {
            Maker::Thread => {
                self.execute(pc, waiting);
                None
            }
            Maker::Buffer => self.drain(),
            Maker::Kernel => None,
        }
    }

    /// Counts the instruction at a pc, behind which so many stores wait: at most one more than before it.
    fn execute(&mut self, pc: u64, waiting: u8)
        requires instructions { self.old.instructions < 1000000 }
        requires waiting { waiting ≤ 8 }
        requires one { waiting ≤ length self.old.marks + 1 }
        ensures { self.new ≡ clock_by 1 0 (waiting - length self.old.marks) pc self.old }
    {
        self.instructions += 1;
        if self.marks.len() < usize::from(waiting) {
            self.marks.push(Mark {
                instructions: self.instructions,
                pc,
            });
        }
    }

    /// Counts a store that enters memory, and gives how long it waited. None where none waits; then nothing changes.
    fn drain(&mut self) -> Option<u32>
        ensures clock { self.new ≡ clock_by 0 1 0 0 self.old }
        ensures wait { option_to_list result ≡ oldest_waits 1 self.old }
    {
        let mark = self.marks.pop_at(0)?;
        Some(self.instructions - mark.instructions)
    }
}
