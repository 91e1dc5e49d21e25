//! What a person hears of a search that takes long: how far it is, what it found, and how it stops. No clause speaks of it. Where
//! memory is short for a line, it isn't said.

use crate::stop::Stop;
use crate::task::Task;
use crate::visited::Visited;
use found_outcomes::OutcomeFound;
use outside::{Counted, Progress, Sink};
use place_text::push_end;
use std::alloc::{AllocError, Global};

/// After so many places each it is said how far a search is.
const SAID: u32 = 65_536;

/// What is said where a search begins again.
const AGAIN: &str = "rseq_run: the search begins again, and visits each place\n";

/// Says how far a search is that comes to this place, where it is time; and, where it takes long, each outcome after those that were
/// said, so many. Answers how many outcomes are said then.
pub(crate) fn say_progress<K: Sink>(
    task: &Task,
    sink: &K,
    visited: &Visited,
    place: u32,
    said: usize,
) -> usize {
    if place != 0
        && place % SAID == 0
        && let Ok(line) = progress_line(task.alloc, visited, place)
    {
        sink.say(line.as_str());
    }
    if sink.show_progress(&progress_of(task, visited)) {
        say_outcomes(task.alloc, sink, &visited.outcomes, said)
    } else {
        said
    }
}

/// Says, where a search takes long that stops at this place, how many places are open; or that it begins again.
pub(crate) fn say_stop<K: Sink>(task: &Task, sink: &K, visited: &Visited, place: u32, stop: Stop) {
    if !is_long(task, sink, visited) {
        return;
    }
    match stop {
        Stop::Unsettled => sink.say(AGAIN),
        Stop::Places | Stop::Memory => {
            if let Ok(line) = open_line(task.alloc, visited, place) {
                sink.say(line.as_str());
            }
        }
    }
}

/// Whether a search takes long.
pub(crate) fn is_long<K: Sink>(task: &Task, sink: &K, visited: &Visited) -> bool {
    sink.show_progress(&progress_of(task, visited))
}

/// How far a search is.
fn progress_of(task: &Task, visited: &Visited) -> Progress {
    Progress {
        counted: Counted::Places,
        made: places_of(visited) as u64,
        all: u64::from(task.most),
        outcomes: visited.outcomes.len() as u64,
    }
}

/// How many places were visited.
fn places_of(visited: &Visited) -> usize {
    visited.rows.len().saturating_add(1)
}

/// How many of the places that were visited are to be expanded yet, this one and those that come later.
fn open_places(visited: &Visited, place: u32) -> usize {
    places_of(visited).saturating_sub(place as usize)
}

/// Says each outcome after those that were said, so many, and answers how many are said then.
fn say_outcomes<K: Sink>(alloc: Global, sink: &K, outcomes: &[OutcomeFound], said: usize) -> usize {
    for number in said..outcomes.len() {
        if let Ok(line) = outcome_line(alloc, number + 1, &outcomes[number]) {
            sink.say(line.as_str());
        }
    }
    outcomes.len()
}

/// `outcome K: end REASON, N events`: its number in the text, how its run ends, and how many entries the log has.
fn outcome_line(
    alloc: Global,
    number: usize,
    outcome: &OutcomeFound,
) -> Result<String, AllocError> {
    let mut end = Vec::new(alloc);
    push_end(&mut end, outcome.end)?;
    let _newline = end.pop();
    let end = String::from_utf8(end).map_err(|_| AllocError)?;
    let events = outcome.log.len();
    let plural = if events == 1 { "" } else { "s" };
    format!(in alloc; "outcome {number}: {end}, {events} event{plural}\n")
}

/// `rseq_run: places N, open M, depth D, outcomes K`: how many places were visited, how many of them are to be expanded yet, how many
/// entries the longest log has, and how many outcomes were found.
fn progress_line(alloc: Global, visited: &Visited, place: u32) -> Result<String, AllocError> {
    let places = places_of(visited);
    let left = open_places(visited, place);
    let depth = visited.deepest;
    let outcomes = visited.outcomes.len();
    format!(in alloc;
        "rseq_run: places {places}, open {left}, depth {depth}, outcomes {outcomes}\n"
    )
}

/// `rseq_run: N of M places were still open`: from so many of the places that were visited the search hadn't gone on.
fn open_line(alloc: Global, visited: &Visited, place: u32) -> Result<String, AllocError> {
    let places = places_of(visited);
    let left = open_places(visited, place);
    format!(in alloc; "rseq_run: {left} of {places} places were still open\n")
}
