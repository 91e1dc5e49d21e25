//! What a hart means to do once no store of it waits.

ghost use Rattle.std.specs.Prelude.{◌≡◌};
ghost use Rattle.draw_policies.specs.Aims as aims;

use mach_types::{Choice, Sight};

/// What a hart means to do once no store of it waits.
#[derive(Clone, Copy, Drop)]
pub enum Aim {
    /// Its thread leaves it.
    Preempt,
    /// It takes the requests that are pending at it.
    Take,
    /// A signal is delivered to its thread.
    Signal,
}

impl Aim {
    /// The event that is meant.
    pub fn choice(self) -> Choice
        ensures { result ≡ aims.choice_of_aim self }
    {
        match self {
            Aim::Preempt => Choice::Preempt,
            Aim::Take => Choice::Take,
            Aim::Signal => Choice::Signal,
        }
    }

    /// Whether it can still be done, by what is seen of the hart.
    fn is_due(self, sight: &Sight) -> bool
        ensures { result ≡ aims.is_due sight.now self }
    {
        match self {
            Aim::Preempt => true,
            Aim::Take => sight.requested,
            Aim::Signal => sight.deliverable,
        }
    }
}

/// The aim that a hart has, if it can still be done.
pub fn still_due(sight: &Sight, aim: Option<Aim>) -> Option<Aim>
    ensures { result ≡ aims.still_due sight.now aim }
{
    let held = aim?;
    if held.is_due(sight) { Some(held) } else { None }
}
