//! What a person hears of an exploration that takes long: what it found so far, and at its end which limit would be enough. No
//! clause speaks of it.

use crate::explored::{Explored, Found};
use outside::{Counted, Progress, Sink};
use place_text::push_end;
use std::alloc::{AllocError, Global};

/// How many times as many steps as the longest run that ended otherwise are proposed.
const ROOM: u64 = 10;

/// How far an exploration is, of so many runs at most.
pub(crate) fn progress_of(explored: &Explored, runs: u64) -> Progress {
    Progress {
        counted: Counted::Runs,
        made: explored.runs,
        all: runs,
        outcomes: explored.found.len() as u64,
    }
}

/// Says each outcome behind those that were said, so many, and answers how many are said then. Where memory is short for a line, it
/// isn't said.
pub(crate) fn say_outcomes<K: Sink>(
    alloc: Global,
    sink: &K,
    found: &[Found],
    said: usize,
) -> usize {
    for place in said..found.len() {
        if let Ok(line) = outcome_line(alloc, place + 1, &found[place]) {
            sink.say(line.as_str());
        }
    }
    found.len()
}

/// Where runs ended at a limit of so many steps, says how many did, and which limit would cut them shorter.
pub(crate) fn say_limited<K: Sink>(alloc: Global, sink: &K, explored: &Explored, steps: u32) {
    if explored.lengths.limited != 0
        && let Ok(line) = limited_line(alloc, explored, steps)
    {
        sink.say(line.as_str());
    }
}

/// `outcome N: end REASON, seed S, policy NAME`.
fn outcome_line(alloc: Global, number: usize, found: &Found) -> Result<String, AllocError> {
    let mut end = Vec::new(alloc);
    push_end(&mut end, found.end)?;
    let _newline = end.pop();
    let end = String::from_utf8(end).map_err(|_| AllocError)?;
    let seed = found.seed;
    let policy = found.policy.word();
    format!(in alloc; "outcome {number}: {end}, seed {seed}, policy {policy}\n")
}

/// How many runs ended at the limit, how long the longest of the others is, and a limit for such runs, where it is a smaller one.
fn limited_line(alloc: Global, explored: &Explored, steps: u32) -> Result<String, AllocError> {
    let limited = explored.lengths.limited;
    let runs = explored.runs;
    let proposed = proposal(alloc, explored.lengths.longest, steps)?;
    format!(in alloc;
        "rseq_run: {limited} of {runs} runs ended at the limit of {steps} steps{proposed}\n"
    )
}

/// What is said of the runs that didn't end at the limit: nothing where there are none.
fn proposal(alloc: Global, longest: Option<u32>, steps: u32) -> Result<String, AllocError> {
    let Some(longest) = longest else {
        return Ok(String::new(alloc));
    };
    let enough = u64::from(longest) * ROOM;
    if enough < u64::from(steps) {
        format!(in alloc;
            "; the longest that ended otherwise has {longest}: --steps {enough} would cut them shorter"
        )
    } else {
        format!(in alloc; "; the longest that ended otherwise has {longest}")
    }
}
