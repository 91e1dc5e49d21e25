//! The outcomes that were found.

ghost use Rattle.std.specs.Prelude.{◌≡◌, ◌++◌, IfOk, OnErr, OnOk, ◌↔◌, IsTrue};
ghost use Rattle.std.specs.List.{list_any};
ghost use Rattle.found_outcomes.specs.Found.{HasBeenFound};
ghost use Rattle.place_search.specs.Ends.{AreNoted, is_so};

use found_outcomes::{ConsoleBytes, OutcomeFound};
use mach_types::{End, Entry};
use std::alloc::{AllocError, Global};

/// Whether an outcome has this end and this console.
fn is_so(outcome: &OutcomeFound, end: End, console: &[u8]) -> bool
    ensures { result ≡ is_so end console.now outcome.now }
{
    outcome.end == end && outcome.console.bytes() == console
}

/// Whether one of the outcomes has this end and this console.
fn is_found(outcomes: &[OutcomeFound], end: End, console: &[u8]) -> bool
    ensures { result ≡ list_any (is_so end console.now) outcomes.now }
{
    outcomes.iter().any(|outcome| is_so(outcome, end, console))
}

/// A copy of a log.
fn copy_of(alloc: Global, log: &[Entry]) -> Result<Vec<Entry>, AllocError>
    ensures { IfOk result (λ copy. copy.items ≡ log.now) }
{
    let mut copy = Vec::with_capacity(alloc, log.len())?;
    copy.extend_from_slice(log)?;
    Ok(copy)
}

/// Notes how the run of a log ends, and what it leaves on the console, where none was found yet that ends so.
pub(crate) fn note_end(
    alloc: Global,
    outcomes: &mut Vec<OutcomeFound>,
    end: End,
    console: &[u8],
    log: &[Entry],
) -> Result<(), AllocError>
    ensures ok { OnOk result (AreNoted end console.now log.now outcomes.old.items outcomes.new.items) }
    ensures err { OnErr result (outcomes.new.items ≡ outcomes.old.items) }
{
    if is_found(outcomes, end, console) {
        return Ok(());
    }
    let console = ConsoleBytes::copied(alloc, console)?;
    let log = copy_of(alloc, log)?;
    outcomes.push(OutcomeFound { end, console, log })?;
    Ok(())
}
