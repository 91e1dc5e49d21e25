//! What choices cost where the number of preemptions is limited.

ghost use Rattle.std.specs.Prelude.{◌≡◌, ◌≤◌, if◌then◌else◌};
ghost use Rattle.settled_places.specs.Budgets.{preempt_cost};
ghost use Rattle.place_search.specs.Preemptions.{budget_of, cost_of, paid_with};

use mach_types::Choice;

/// Whether a choice is a preemption.
fn is_preemption(choice: Choice) -> bool
    ensures { preempt_cost choice ≡ (if result then 1 else 0) }
{
    match choice {
        Choice::Preempt => true,
        Choice::Exec
        | Choice::Drain
        | Choice::Take
        | Choice::Done
        | Choice::Run(_)
        | Choice::Signal => false,
    }
}

/// How many preemptions a log has with one choice more, that has so many, where their number is limited: None where that is above the
/// limit. Where it isn't, none is counted.
pub(crate) fn paid_with(limit: Option<u8>, preemptions: u8, choice: Choice) -> Option<u8>
    requires { preemptions ≤ budget_of limit }
    ensures { result ≡ paid_with limit preemptions choice }
{
    let Some(most) = limit else {
        return Some(preemptions);
    };
    if !is_preemption(choice) {
        return Some(preemptions);
    }
    if preemptions < most {
        Some(preemptions + 1)
    } else {
        None
    }
}
