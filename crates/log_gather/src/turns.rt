//! The sequences of a log have their turn to be gathered, one after the other.

ghost use Rattle.std.specs.Prelude.{ℕ, ◌≡◌, ◌<◌, true, IfOk, length, map};
ghost use Rattle.std.specs.List.{list_all};
ghost use Rattle.log_gather.specs.declared.marks.Details.{Details};
ghost use Rattle.log_gather.specs.Marks.{AreOf, are_known, first_taken, steps_of};
ghost use Rattle.log_gather.specs.Steps.{AllAwait, AreOfEight, located_of};
ghost use Rattle.log_gather.specs.Turns.{IsNext, IsPrivateLength, after_turn, after_turns, inside_in, is_of_eight};

use crate::clashes::is_undisturbed;
use crate::marks::{Details, Mark};
use crate::moving::move_others;
use crate::spans::reach_from;
use mach_types::Hart;
use std::alloc::{AllocError, Global};

/// How many events a sequence of a hart has, from its first event to its last, if it is private: its thread left it by its own
/// instruction, all events in its span are plain, and none of another hart clashes with one of its own.
fn private_length(
    alloc: Global,
    details: &Details,
    from: &[Mark],
    hart: Hart,
    inside_at_end: bool,
) -> Result<Option<usize>, AllocError>
    requires { 0 < length from.now }
    ensures { IfOk result (λ o. IsPrivateLength hart.0 inside_at_end (steps_of details.now from.now) o) }
{
    let reach = reach_from(from, hart, inside_at_end);
    if !from[0].begins || !reach.moved_out || reach.inside_next {
        return Ok(None);
    }
    let undisturbed = is_undisturbed(alloc, details, &from[..reach.length], hart)?;
    Ok(if undisturbed {
        Some(reach.length)
    } else {
        None
    })
}

/// The first of these events awaits its turn no longer.
fn take_first(from: &mut [Mark])
    requires { 0 < length from.old }
    ensures { from.new ≡ first_taken from.old }
{
    from[0].awaits = false;
}

/// The sequence that begins with the first of these events has its turn: if it is private, the events of others in its span come before
/// its own.
fn take_turn(
    alloc: Global,
    details: &mut Details,
    from: &mut [Mark],
    inside_at_end: &[bool; 8],
) -> Result<(), AllocError>
    requires some { 0 < length from.old }
    requires eight { list_all is_of_eight (steps_of details.old from.old) ≡ true }
    requires known { are_known details.old from.old ≡ true }
    ensures { IfOk result (λ _. AreOf details.old
        (after_turn (inside_in inside_at_end.now) (steps_of details.old from.old)) details.new from.new) }
{
    take_first(from);
    let hart = from[0].hart;
    let inside = inside_at_end[usize::from(hart.0)];
    match private_length(alloc, details, from, hart, inside)? {
        Some(length) => move_others(alloc, details, &mut from[..length], hart)?,
        None => (),
    }
    Ok(())
}

/// The first event that awaits its turn.
fn next_turn(marks: &[Mark]) -> Option<usize>
    ensures { (d : Details) → IsNext (steps_of d marks.now) result }
{
    for (i, mark) in marks.iter().enumerate() {
        if mark.awaits {
            return Some(i);
        }
    }
    None
}

/// Gathers the sequences whose first events await their turn, in their order: each that is private in the log as it then stands. After a
/// turn all that wait stand where the sequence began, or later.
pub(crate) fn gather_all(
    alloc: Global,
    details: &mut Details,
    marks: &mut [Mark],
    inside_at_end: &[bool; 8],
) -> Result<(), AllocError>
    requires eight { AreOfEight (steps_of details.old marks.old) }
    requires awaits { AllAwait (steps_of details.old marks.old) }
    requires known { are_known details.old marks.old ≡ true }
    ensures { IfOk result (λ _. map located_of (steps_of details.new marks.new)
        ≡ after_turns (inside_in inside_at_end.now) (steps_of details.old marks.old)) }
{
    let mut from = 0;
    while let Some(next) = next_turn(&marks[from..]) {
        from += next;
        take_turn(alloc, details, &mut marks[from..], inside_at_end)?;
    }
    Ok(())
}
