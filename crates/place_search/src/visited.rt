//! What was visited.

ghost use Rattle.std.specs.Prelude.{◌≡◌, ◌<◌, ◌-◌, ◌+◌, ◌^◌, length, OnErr, OnOk};
ghost use Rattle.place_search.specs.Preemptions.{kept_at, known_in};
ghost use Rattle.place_search.specs.Logs.{owed_at};
ghost use Rattle.place_search.specs.Visits.{IsAdded, IsFirst, IsNoted, IsUnchanged};

use crate::ends::note_end;
use crate::keys::Keys;
use crate::row::Row;
use found_outcomes::OutcomeFound;
use mach_types::Entry;
use process::Parts;
use std::alloc::{AllocError, Global};

/// What was visited, and what was found there.
#[derive(Drop)]
pub(crate) struct Visited {
    /// The places, but for the first one, in the order in which they were visited.
    pub(crate) rows: Vec<Row>,
    /// The keys of places that were visited, with their numbers.
    pub(crate) keys: Keys,
    /// Each outcome that was found.
    pub(crate) outcomes: Vec<OutcomeFound>,
    /// How many entries the longest log has.
    pub(crate) deepest: u32,
    /// Whether a log that goes on is as long as the step limit.
    pub(crate) deep: bool,
    /// Whether a preemption that is allowed was left out, since its log has as many as a run may have.
    pub(crate) left_out: bool,
}

impl Visited {
    /// The first place alone, with no key yet.
    pub(crate) fn first(alloc: Global) -> Visited
        ensures { IsFirst result }
    {
        Visited {
            rows: Vec::new(alloc),
            keys: Keys::new(alloc),
            outcomes: Vec::new(alloc),
            deepest: 0,
            deep: false,
            left_out: false,
        }
    }

    /// How many places were visited.
    pub(crate) fn places(&self) -> u32
        requires { length self.now.rows.items < 2 ^ 32 - 1 }
        ensures { result ≡ length self.now.rows.items + 1 }
    {
        self.rows.len() as u32 + 1
    }

    /// The set of the harts that owe their thread a signal at a place, as its row says; none at the first one.
    pub(crate) fn owed_at(&self, place: u32) -> u8
        ensures { result ≡ owed_at self.now.rows.items place }
    {
        match place {
            0 => 0,
            number => match self.rows.get(number as usize - 1) {
                Some(row) => row.owed,
                None => 0,
            },
        }
    }

    /// How many preemptions the log of the place with this number has, where their number is limited; else 0.
    pub(crate) fn preemptions_at(&self, place: u32) -> u8
        ensures { result ≡ kept_at self.now.rows.items place }
    {
        if place == 0 {
            return 0;
        }
        match self.rows.get(place as usize - 1) {
            Some(row) => row.preemptions,
            None => 0,
        }
    }

    /// The number of the place that has a key, where its log has no more preemptions than this.
    pub(crate) fn known(&self, key: &[u8], preemptions: u8) -> Option<u32>
        ensures { result ≡ known_in self.now.rows.items self.now.keys key.now preemptions }
    {
        let place = self.keys.find(key)?;
        if self.preemptions_at(place) <= preemptions {
            Some(place)
        } else {
            None
        }
    }

    /// Adds a place whose log has so many entries: it has the next number, and its key has that from now on. Where memory is short nothing
    /// changes.
    pub(crate) fn add(
        &mut self,
        alloc: Global,
        row: Row,
        key: &[u8],
        depth: u32,
    ) -> Result<(), AllocError>
        requires { length self.old.rows.items < 2 ^ 32 - 1 }
        ensures ok { OnOk result (IsAdded row key.now depth self.old self.new) }
        ensures err { OnErr result (IsUnchanged self.old self.new) }
    {
        let place = self.places();
        self.rows.push(row)?;
        match self.keys.put(alloc, key, place) {
            Ok(()) => {
                self.deepest = self.deepest.max(depth);
                Ok(())
            }
            Err(error) => {
                let _row = self.rows.pop();
                Err(error)
            }
        }
    }

    /// Notes how the run of a log has ended where these parts stand, if it has. Where memory is short nothing changes.
    pub(crate) fn note(
        &mut self,
        alloc: Global,
        parts: &Parts,
        log: &[Entry],
    ) -> Result<(), AllocError>
        ensures ok { OnOk result (IsNoted parts.now.ended parts.now.kernel.console log.now self.old self.new) }
        ensures err { OnErr result (IsUnchanged self.old self.new) }
    {
        match parts.ended {
            Some(end) => {
                let console = parts.kernel.console.bytes();
                note_end(alloc, &mut self.outcomes, end, console, log)
            }
            None => Ok(()),
        }
    }
}
