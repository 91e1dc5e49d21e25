//! What is told of the runs of an exploration.

ghost use Rattle.std.specs.Prelude.{◌≡◌, ◌<◌, ◌^◌, IfOk, IfSome, OnOk, All, position};
ghost use Rattle.explored_runs.specs.Tallies.{IsShort};
ghost use Rattle.explored_runs.specs.Accounts.{IsWithin, account_of, came_to, first_of, found_after, has_enough, nothing, others_after, told, with_other};

use crate::lengths::Lengths;
use crate::made::Made;
use crate::printed::Printed;
use crate::tallies::Tried;
use draw_policies::Policy;
use mach_types::End;
use std::alloc::{AllocError, Global};

/// How many outcomes are told apart.
pub const MOST_FOUND: usize = 64;

/// An outcome that was found.
#[derive(Drop)]
pub struct Found {
    /// The first seed whose run came to it.
    pub seed: u64,
    /// How many runs came to it.
    pub runs: u64,
    /// How many entries the log of its first run has.
    pub steps: u32,
    /// The policy of its first run.
    pub policy: Policy,
    /// What its runs left on the console, where outcomes are told apart by that; else nothing.
    pub console: Printed,
    /// How its runs ended.
    pub end: End,
}

/// The runs that came to none of the outcomes that are told apart.
#[derive(Clone, Copy, Drop)]
pub struct Others {
    /// How many there are.
    pub runs: u64,
    /// The seed of the first of them.
    pub seed: u64,
}

/// What is told of the runs of an exploration.
#[derive(Drop)]
pub struct Explored {
    /// Each different outcome, in the order of their first seeds, 64 at most.
    pub found: Vec<Found>,
    /// The runs that came to none of these. None where there are none.
    pub others: Option<Others>,
    /// How many runs there were.
    pub runs: u64,
    /// How many entries their logs have together, 2^64 - 1 at most. It isn't told.
    pub(crate) steps: u64,
    /// How many of them ended at the limit, and how long the others are. That isn't told either.
    pub(crate) lengths: Lengths,
    /// What was tried in them.
    pub tried: Tried,
}

impl Explored {
    /// Before the first run.
    pub(crate) fn nothing(alloc: Global) -> Result<Explored, AllocError>
        ensures { IfOk result (λ explored. account_of explored ≡ nothing) }
    {
        Ok(Explored {
            found: Vec::with_capacity(alloc, MOST_FOUND)?,
            others: None,
            runs: 0,
            steps: 0,
            lengths: Lengths::new(),
            tried: Tried::nothing(alloc),
        })
    }

    /// Whether as many outcomes were found as were asked for.
    pub(crate) fn has_enough(&self, until: Option<u8>) -> bool
        ensures { result ≡ has_enough until (account_of self.now) }
    {
        match until {
            Some(until) => self.found.len() >= usize::from(until),
            None => false,
        }
    }

    /// Tells one run more.
    pub(crate) fn tell(&mut self, made: Made) -> Result<(), AllocError>
        requires within { IsWithin (account_of self.old) }
        requires room { self.old.runs < 1000000000 }
        requires short { IsShort made.tally }
        ensures { OnOk result (account_of self.new ≡ told (account_of self.old) made) }
    {
        self.runs += 1;
        self.steps = self.steps.saturating_add(u64::from(made.steps));
        self.lengths.count(made.end, made.steps);
        self.tried.count(&made.tally)?;
        tell_outcome(&mut self.found, &mut self.others, made)
    }
}

/// Tells the outcome of one run more.
fn tell_outcome(
    found: &mut Vec<Found>,
    others: &mut Option<Others>,
    made: Made,
) -> Result<(), AllocError>
    requires found { All (λ f. f.runs < 2 ^ 63) found.old.items }
    requires others { IfSome others.old (λ o. o.runs < 2 ^ 63) }
    ensures found { OnOk result (found.new.items ≡ found_after made found.old.items) }
    ensures others { OnOk result (others.new ≡ others_after made found.old.items others.old) }
{
    match place_of(found, &made) {
        Some(place) => found[place].runs += 1,
        None if found.len() >= MOST_FOUND => *others = Some(with_other(&made, *others)),
        None => found.push(first_of(made))?,
    }
    Ok(())
}

/// The place of the outcome that a run came to, if it was found.
fn place_of(found: &[Found], made: &Made) -> Option<usize>
    ensures { result ≡ position (came_to made.now) found.now }
{
    found.iter().position(|known| came_to(made, known))
}

/// Whether a run came to an outcome that was found.
fn came_to(made: &Made, found: &Found) -> bool
    ensures { result ≡ came_to made.now found.now }
{
    found.console.bytes() == made.console.bytes() && found.end == made.end
}

/// A new outcome, with the run that came to it first.
fn first_of(made: Made) -> Found
    ensures { result ≡ first_of made }
{
    Found {
        seed: made.seed,
        runs: 1,
        steps: made.steps,
        policy: made.policy,
        console: made.console,
        end: made.end,
    }
}

/// One run more that came to none of the outcomes that are told apart.
fn with_other(made: &Made, others: Option<Others>) -> Others
    requires { IfSome others (λ o. o.runs < 2 ^ 63) }
    ensures { result ≡ with_other made.now others }
{
    match others {
        Some(others) => Others {
            runs: others.runs + 1,
            seed: others.seed,
        },
        None => Others {
            runs: 1,
            seed: made.seed,
        },
    }
}
