//! The text of what a search found.

ghost use Rattle.std.specs.Prelude.{◌≡◌, ◌++◌, All, IfOk, OnOk, length};
ghost use Rattle.search_text.specs.Text.{AreDigits, HasDigits, closing_line, endings_text, endless_line, findings_text, hopeless_text, console_part, has_end, is_printed, outcome_text, outcomes_text, places_text, printed, script_text, signals_line};

use draw_policies::OutcomeKey;
use found_outcomes::{Closing, Findings, HopelessPlaces, OutcomeFound};
use log_lines::push_lines;
use mach_types::{End, Entry};
use place_text::{push_console, push_end, push_number_line};
use search_reductions::Signals;
use std::alloc::{AllocError, Global};

/// The text of what a search found: how many outcomes there are, each of them with its script where `scripts` says so, how many places
/// were visited, where all were whether some run executes instructions without end and how many places are hopeless, with the script of
/// the nearest, of which runs it speaks, and why the search ended.
///
/// Fails only where memory is short.
#[tactic(auto, unfolding(crate::specs::Text::findings_text))]
pub fn findings_text(
    alloc: Global,
    findings: &Findings,
    apart: OutcomeKey,
    signals: Signals,
    scripts: bool,
) -> Result<Vec<u8>, AllocError>
    requires outcomes { All HasDigits findings.now.outcomes.items }
    requires nearest { AreDigits findings.now.hopeless.nearest.items }
    ensures { IfOk result (λ text. text.items ≡ findings_text apart signals scripts findings.now) }
{
    let mut text = Vec::new(alloc);
    let count = count_printed(&findings.outcomes, apart);
    push_number_line(&mut text, b"outcomes", count)?;
    push_outcomes(&mut text, &findings.outcomes, apart, scripts)?;
    push_places(&mut text, findings, signals, scripts)?;
    push_closing(&mut text, findings.closing)?;
    Ok(text)
}

/// Whether one of the outcomes has this end.
fn has_end(end: End, outcomes: &[OutcomeFound]) -> bool
    ensures { result ≡ has_end end outcomes.now }
{
    outcomes.iter().any(|outcome| outcome.end == end)
}

/// Whether an outcome is printed after these: where ends alone are told apart, only the first with its end is.
fn is_printed(outcome: &OutcomeFound, before: &[OutcomeFound], apart: OutcomeKey) -> bool
    ensures { result ≡ is_printed apart before.now outcome.now }
{
    match apart {
        OutcomeKey::ByText => true,
        OutcomeKey::ByEnd => !has_end(outcome.end, before),
    }
}

/// How many of the outcomes are printed.
fn count_printed(outcomes: &[OutcomeFound], apart: OutcomeKey) -> usize
    ensures { result ≡ length (printed apart outcomes.now) }
{
    let mut count = 0;
    for (place, outcome) in outcomes.iter().enumerate() {
        if is_printed(outcome, &outcomes[..place], apart) {
            count += 1;
        }
    }
    count
}

/// Appends the outcomes that are printed, numbered from 1.
fn push_outcomes(
    text: &mut Vec<u8>,
    outcomes: &[OutcomeFound],
    apart: OutcomeKey,
    scripts: bool,
) -> Result<(), AllocError>
    requires { All HasDigits outcomes.now }
    ensures { OnOk result (text.new.items ≡ text.old.items ++ outcomes_text apart scripts 0 (printed apart outcomes.now)) }
{
    let mut number = 0;
    for (place, outcome) in outcomes.iter().enumerate() {
        if is_printed(outcome, &outcomes[..place], apart) {
            number += 1;
            push_outcome(text, number, outcome, apart, scripts)?;
        }
    }
    Ok(())
}

/// Appends an outcome of this number.
fn push_outcome(
    text: &mut Vec<u8>,
    number: usize,
    outcome: &OutcomeFound,
    apart: OutcomeKey,
    scripts: bool,
) -> Result<(), AllocError>
    requires { HasDigits outcome.now }
    ensures { OnOk result (text.new.items ≡ text.old.items ++ outcome_text apart scripts number outcome.now) }
{
    push_number_line(text, b"outcome", number)?;
    push_end(text, outcome.end)?;
    push_console_part(text, outcome.console.bytes(), apart)?;
    push_script(text, &outcome.log, scripts)
}

/// Appends the console, where outcomes are told apart by it.
fn push_console_part(
    text: &mut Vec<u8>,
    console: &[u8],
    apart: OutcomeKey,
) -> Result<(), AllocError>
    ensures { OnOk result (text.new.items ≡ text.old.items ++ console_part apart console.now) }
{
    match apart {
        OutcomeKey::ByText => push_console(text, console),
        OutcomeKey::ByEnd => Ok(()),
    }
}

/// Appends how many lines the log has, and its lines, where scripts are printed.
fn push_script(text: &mut Vec<u8>, log: &[Entry], scripts: bool) -> Result<(), AllocError>
    requires { AreDigits log.now }
    ensures { OnOk result (text.new.items ≡ text.old.items ++ script_text scripts log.now) }
{
    if !scripts {
        return Ok(());
    }
    push_number_line(text, b"script", log.len())?;
    push_lines(text, log)
}

/// Appends how many places were visited, how long the longest log is, where runs end, and of which runs is spoken.
fn push_places(
    text: &mut Vec<u8>,
    findings: &Findings,
    signals: Signals,
    scripts: bool,
) -> Result<(), AllocError>
    requires { AreDigits findings.now.hopeless.nearest.items }
    ensures { OnOk result (text.new.items ≡ text.old.items ++ places_text signals scripts findings.now) }
{
    push_number_line(text, b"places", findings.places as usize)?;
    push_number_line(text, b"deepest", findings.deepest as usize)?;
    push_endings(text, findings, scripts)?;
    text.extend_from_slice(signals_line(signals))
}

/// Of which runs is spoken, as a line.
fn signals_line(signals: Signals) -> &'static [u8]
    ensures { result.now ≡ signals_line signals }
{
    match signals {
        Signals::Prompt => b"signals prompt\n",
        Signals::Any => b"signals any\n",
    }
}

/// Appends where runs end, if all places were visited.
#[tactic(auto, unfolding(crate::specs::Text::endings_text))]
fn push_endings(text: &mut Vec<u8>, findings: &Findings, scripts: bool) -> Result<(), AllocError>
    requires { AreDigits findings.now.hopeless.nearest.items }
    ensures { OnOk result (text.new.items ≡ text.old.items
        ++ endings_text scripts findings.now.closing findings.now.endless findings.now.hopeless) }
{
    match findings.closing {
        Closing::Complete => {
            text.extend_from_slice(endless_line(findings.endless))?;
            push_hopeless(text, &findings.hopeless, scripts)
        }
        Closing::Within(_) | Closing::Places | Closing::Deep | Closing::Memory => Ok(()),
    }
}

/// Whether some run executes instructions without end, as a line.
fn endless_line(endless: bool) -> &'static [u8]
    ensures { result.now ≡ endless_line endless }
{
    if endless {
        b"endless yes\n"
    } else {
        b"endless no\n"
    }
}

/// Appends how many places are hopeless, and the script of the nearest, where there is one and scripts are
/// printed.
fn push_hopeless(
    text: &mut Vec<u8>,
    hopeless: &HopelessPlaces,
    scripts: bool,
) -> Result<(), AllocError>
    requires { AreDigits hopeless.now.nearest.items }
    ensures { OnOk result (text.new.items ≡ text.old.items ++ hopeless_text scripts hopeless.now) }
{
    push_number_line(text, b"hopeless", hopeless.number as usize)?;
    let scripts = scripts && hopeless.number != 0;
    push_script(text, &hopeless.nearest, scripts)
}

/// Appends why the search ended.
fn push_closing(text: &mut Vec<u8>, closing: Closing) -> Result<(), AllocError>
    ensures { OnOk result (text.new.items ≡ text.old.items ++ closing_line closing) }
{
    match closing {
        Closing::Complete => text.extend_from_slice(b"complete\n"),
        Closing::Within(most) => {
            push_number_line(text, b"complete preemptions", usize::from(most))
        }
        Closing::Places => text.extend_from_slice(b"unfinished places\n"),
        Closing::Deep => text.extend_from_slice(b"unfinished deep\n"),
        Closing::Memory => text.extend_from_slice(b"unfinished memory\n"),
    }
}
