//! How far a sequence goes on in a log.

ghost use Rattle.std.specs.Prelude.{ℕ, ◌<◌, length};
ghost use Rattle.log_gather.specs.{declared.marks.Details.Details, Marks.steps_of, Turns.IsReach};

use crate::marks::Mark;
use mach_types::Hart;

/// How far an act goes on from its first event.
#[derive(Clone, Copy, Drop)]
pub(crate) struct Reach {
    /// How many events there are from its first to its last.
    pub(crate) length: usize,
    /// Whether its last instruction moved the pc out of the sequence that its thread's area named before it.
    pub(crate) moved_out: bool,
    /// Whether the thread on its hart is inside a sequence before the hart's next event, or at the end of the log.
    pub(crate) inside_next: bool,
}

/// How far an act of a hart goes on in a log, from its first event: up to the hart's last event before it begins another act.
pub(crate) fn reach_from(from: &[Mark], hart: Hart, inside_at_end: bool) -> Reach
    requires { 0 < length from.now }
    ensures { (d : Details) → IsReach hart.0 inside_at_end (steps_of d from.now) result }
{
    let first = &from[0];
    let mut length = 1;
    let mut moved_out = first.is_of(hart) && first.is_instruction() && first.moves_out;
    for i in 1..from.len() {
        let step = &from[i];
        if !step.is_of(hart) {
            continue;
        }
        if step.begins_act() {
            return Reach {
                length,
                moved_out,
                inside_next: step.inside,
            };
        }
        length = i + 1;
        if step.is_instruction() {
            moved_out = step.moves_out;
        }
    }
    Reach {
        length,
        moved_out,
        inside_next: inside_at_end,
    }
}
