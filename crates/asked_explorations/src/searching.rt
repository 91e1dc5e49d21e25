//! The text of a search for all outcomes: a program is taken, and the places that its runs come to are visited.

ghost use Rattle.std.specs.Prelude.{◌≡◌, IfErr, IfOk};
ghost use Rattle.outside.specs.Counts.{NoneFalls};
ghost use Rattle.command_words.specs.Commands.{AreSearchable};
ghost use Rattle.outcomes.specs.Needs.{Program};
ghost use Rattle.outcomes.specs.Reasons.{IsReasonFor};
ghost use Rattle.outcomes.specs.Searches.{IsSearchOutput};

use call_reasons::Reason;
use command_words::Search;
use outside::{Shelf, Sink};
use place_search::search;
use run_texts::Output;
use search_text::findings_text;
use std::alloc::Global;
use taken_files::taken;

/// The text of a search for all outcomes of a program. The sink hears how far it is.
pub fn searched_text<S: Shelf, K: Sink>(
    alloc: Global,
    asked: &Search,
    shelf: &mut S,
    sink: &K,
) -> Result<Output, Reason>
    requires { AreSearchable asked.now.settings }
    ensures output { IfOk result (λ text. IsSearchOutput (S.file shelf.old) asked.now.program.now
        asked.now.settings text) }
    ensures cause { let needs = Program asked.now.program.now asked.now.settings.limits in
        IfErr result (IsReasonFor (S.file shelf.old) needs (S.faults shelf.old) (S.faults shelf.new)
        (S.last_trouble shelf.new)) }
    ensures files { S.file shelf.new ≡ S.file shelf.old }
    ensures counts { NoneFalls (S.faults shelf.old) (S.faults shelf.new) }
{
    let settings = asked.settings;
    let image = taken(alloc, asked.program, &settings.limits, shelf)?;
    let findings = search(
        alloc,
        &image,
        settings.limits,
        settings.places,
        settings.signals,
        settings.reductions,
        settings.preemptions,
        sink,
    )?;
    let (apart, signals) = (settings.apart, settings.signals);
    Ok(Output::whole(findings_text(alloc, &findings, apart, signals, settings.scripts)?))
}
