//! What was tried in a run, and in all runs.

ghost use Rattle.std.specs.Prelude.{◌≡◌, ◌≤◌, ◌<◌, ◌^◌, length, All, IfOk, OnOk};
ghost use Rattle.explored_runs.specs.Accounts.{nothing, tried_after};
ghost use Rattle.explored_runs.specs.Tallies.{IsShort, harts_in, preemptions_in, ran_on, switches_from, switches_in, tally_with};

use crate::waits::Waits;
use drawn_machine::StorePcs;
use mach_types::{Entry, Hart};
use std::alloc::{AllocError, Global};

/// What was tried in one run.
#[derive(Drop)]
pub(crate) struct Tally {
    /// On how many harts a thread ran, 0 to 8.
    harts: u8,
    /// How many events were of another hart than the event before.
    switches: u64,
    /// How often a thread was preempted.
    preemptions: u64,
    /// How often inside a restartable sequence.
    inside: u64,
    /// By the number of instructions that a hart executed behind one of its stores until that entered memory, 0 to 255: how many
    /// stores waited so long, at the last place for [`drawn_machine::LONG_WAIT`] instructions or more.
    waits: Waits,
    /// Which stores were executed, and which of them a load overtook.
    stores: StorePcs,
}

/// What was tried in all runs.
#[derive(Drop)]
pub struct Tried {
    /// By the number of harts, 0 to 8: in how many runs a thread ran on exactly so many.
    pub harts: [u64; 9],
    /// How many events were of another hart than the event before.
    pub switches: u64,
    /// How often a thread was preempted.
    pub preemptions: u64,
    /// How often inside a restartable sequence.
    pub inside: u64,
    /// By the number of instructions that a hart executed behind one of its stores until that entered memory, 0 to 255: how many
    /// stores waited so long, at the last place for [`drawn_machine::LONG_WAIT`] instructions or more.
    pub waits: [u64; 256],
    /// Which stores were executed, and which of them a load overtook.
    pub stores: StorePcs,
}

impl Tally {
    /// What was tried in the run of a log, on so many harts, where so often a thread was preempted inside a sequence, so many stores
    /// waited so long, and these stores were executed and overtaken.
    pub(crate) fn of(
        alloc: Global,
        harts: u8,
        log: &[Entry],
        inside: u32,
        waits: &[u32; 256],
        stores: &StorePcs,
    ) -> Result<Tally, AllocError>
        requires harts { harts ≤ 8 }
        requires log { length log.now ≤ 1000000 }
        requires inside { inside ≤ 1000000 }
        requires waits { All (λ stores. stores ≤ 1000000) waits.now }
        ensures is { IfOk result (λ tally. tally ≡ tally_with harts log.now inside waits.now stores.now) }
        ensures short { IfOk result IsShort }
    {
        Ok(Tally {
            harts: harts_of(harts, log),
            switches: switches(log) as u64,
            preemptions: preemptions(log) as u64,
            inside: u64::from(inside),
            waits: Waits::of(alloc, waits)?,
            stores: StorePcs::copied(alloc, stores)?,
        })
    }
}

impl Tried {
    /// Nothing.
    #[tactic(auto, unfolding(drawn_machine::specs::Waits::no_waits))]
    pub(crate) fn nothing(alloc: Global) -> Tried
        ensures { result ≡ nothing.tried }
    {
        Tried {
            harts: [0; 9],
            switches: 0,
            preemptions: 0,
            inside: 0,
            waits: [0; 256],
            stores: StorePcs::new(alloc),
        }
    }

    /// Counts one run more.
    pub(crate) fn count(&mut self, tally: &Tally) -> Result<(), AllocError>
        requires short { IsShort tally.now }
        requires harts { All (λ runs. runs < 2 ^ 63) self.old.harts }
        requires switches { self.old.switches < 2 ^ 63 }
        requires preemptions { self.old.preemptions < 2 ^ 63 }
        requires inside { self.old.inside < 2 ^ 63 }
        requires waits { All (λ stores. stores < 2 ^ 63) self.old.waits }
        ensures { OnOk result (self.new ≡ tried_after tally.now self.old) }
    {
        self.harts[tally.harts as usize] += 1;
        self.switches += tally.switches;
        self.preemptions += tally.preemptions;
        self.inside += tally.inside;
        tally.waits.add_to(&mut self.waits);
        self.stores.add(&tally.stores)
    }
}

/// On how many of the first harts, so many, a thread ran.
fn harts_of(harts: u8, log: &[Entry]) -> u8
    ensures is { result ≡ harts_in log.now harts }
    ensures few { result ≤ harts }
{
    let mut count = 0;
    for hart in 0..harts {
        count += u8::from(ran_on(hart, log));
    }
    count
}

/// Whether a thread began to run on a hart.
fn ran_on(hart: u8, log: &[Entry]) -> bool
    ensures { result ≡ ran_on hart log.now }
{
    log.iter()
        .any(|entry| entry.kind.is_run() && entry.hart.0 == hart)
}

/// How many entries are of another hart than the entry before them.
fn switches(log: &[Entry]) -> usize
    ensures is { result ≡ switches_in log.now }
    ensures few { result ≤ length log.now }
{
    match log.split_first() {
        Some((first, rest)) => switches_from(first.hart, rest),
        None => 0,
    }
}

/// The same, where this hart made the entry before the first.
fn switches_from(hart: Hart, log: &[Entry]) -> usize
    ensures is { result ≡ switches_from hart.0 log.now }
    ensures few { result ≤ length log.now }
{
    let mut last = hart.0;
    let mut count = 0;
    for entry in log {
        count += usize::from(entry.hart.0 != last);
        last = entry.hart.0;
    }
    count
}

/// How often a thread was preempted.
fn preemptions(log: &[Entry]) -> usize
    ensures is { result ≡ preemptions_in log.now }
    ensures few { result ≤ length log.now }
{
    log.iter().filter(|entry| entry.kind.is_preempt()).count()
}
