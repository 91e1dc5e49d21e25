//! The text of an exploration.

ghost use Rattle.std.specs.Prelude.{◌≡◌, ◌≤◌, ◌++◌, ◌∷◌, [], IfOk, OnOk, codes, length, map};
ghost use Rattle.std.specs.Fmt.{decimal};
ghost use Rattle.std.specs.List.{flat_map};
ghost use Rattle.place_text.specs.Ends.{number_line};
ghost use Rattle.place_text.specs.Fields.{behind, line};
ghost use Rattle.step_log.specs.Text.{space};
ghost use Rattle.explored_runs.specs.{Accounts.account_of, Deciles.deciles};
ghost use Rattle.explored_runs.specs.Text.{console_part, explored_text, found_line, found_text, harts_fields, others_text, wait_field, waited_line, overtaken_line};

use crate::deciles::{TENTHS, decile, total_of};
use crate::explored::{Explored, Found, Others};
use draw_policies::OutcomeKey;
use drawn_machine::{LONG_WAIT, StorePcs};
use place_text::fields::{begin_line, push_named_number, push_number, push_word};
use place_text::{push_console, push_end};
use std::alloc::{AllocError, Global};

/// The text of an exploration: how many outcomes there are, each of them, the others, and what was tried.
///
/// Fails only where memory is short.
#[tactic(auto, unfolding(crate::specs::Text::explored_text))]
pub fn explored_text(
    alloc: Global,
    explored: &Explored,
    apart: OutcomeKey,
) -> Result<Vec<u8>, AllocError>
    ensures { IfOk result (λ text. text.items ≡ explored_text apart (account_of explored.now)) }
{
    let mut text = Vec::new(alloc);
    push_count(&mut text, b"outcomes", explored.found.len() as u64)?;
    push_all_found(&mut text, apart, &explored.found)?;
    push_others(&mut text, explored.others)?;
    push_count(&mut text, b"runs", explored.runs)?;
    push_harts(&mut text, &explored.tried.harts)?;
    push_count(&mut text, b"switches", explored.tried.switches)?;
    let preemptions = explored.tried.preemptions;
    let inside = explored.tried.inside;
    push_two_counts(&mut text, b"preemptions", preemptions, b"inside", inside)?;
    push_waited(&mut text, &explored.tried.waits)?;
    push_overtaken(&mut text, &explored.tried.stores)?;
    Ok(text)
}

/// Appends a line of a word and a number.
fn push_count(text: &mut Vec<u8>, word: &[u8], count: u64) -> Result<(), AllocError>
    ensures { OnOk result (text.new.items ≡ text.old.items ++ number_line word.now count) }
{
    begin_line(text, word, count)?;
    text.push(b'\n')?;
    Ok(())
}

/// Appends a line of a word and a number, and another word and its number.
fn push_two_counts(
    text: &mut Vec<u8>,
    word: &[u8],
    count: u64,
    other: &[u8],
    of_these: u64,
) -> Result<(), AllocError>
    ensures { OnOk result (text.new.items
        ≡ text.old.items ++ line word.now (decimal count ∷ other.now ∷ decimal of_these ∷ [])) }
{
    begin_line(text, word, count)?;
    push_named_number(text, other, of_these)?;
    text.push(b'\n')?;
    Ok(())
}

/// Appends the outcomes.
fn push_all_found(text: &mut Vec<u8>, apart: OutcomeKey, all: &[Found]) -> Result<(), AllocError>
    ensures { OnOk result (text.new.items ≡ text.old.items ++ flat_map (found_text apart) all.now) }
{
    for found in all {
        push_found(text, apart, found)?;
    }
    Ok(())
}

/// Appends an outcome.
fn push_found(text: &mut Vec<u8>, apart: OutcomeKey, found: &Found) -> Result<(), AllocError>
    ensures { OnOk result (text.new.items ≡ text.old.items ++ found_text apart found.now) }
{
    push_found_line(text, found)?;
    push_told_console(text, apart, found.console.bytes())?;
    push_end(text, found.end)
}

/// Appends how many runs came to an outcome, and what is told of the first of them.
fn push_found_line(text: &mut Vec<u8>, found: &Found) -> Result<(), AllocError>
    ensures { OnOk result (text.new.items ≡ text.old.items ++ found_line found.now) }
{
    begin_line(text, b"runs", found.runs)?;
    push_named_number(text, b"seed", found.seed)?;
    push_word(text, b"policy")?;
    push_word(text, found.policy.word().as_bytes())?;
    push_named_number(text, b"steps", u64::from(found.steps))?;
    text.push(b'\n')?;
    Ok(())
}

/// Appends the console, where outcomes are told apart by it.
fn push_told_console(
    text: &mut Vec<u8>,
    apart: OutcomeKey,
    console: &[u8],
) -> Result<(), AllocError>
    ensures { OnOk result (text.new.items ≡ text.old.items ++ console_part apart console.now) }
{
    match apart {
        OutcomeKey::ByText => push_console(text, console),
        OutcomeKey::ByEnd => Ok(()),
    }
}

/// Appends how many runs came to none of the outcomes, and the seed of the first of them.
fn push_others(text: &mut Vec<u8>, others: Option<Others>) -> Result<(), AllocError>
    ensures { OnOk result (text.new.items ≡ text.old.items ++ others_text others) }
{
    let Some(others) = others else {
        return Ok(());
    };
    begin_line(text, b"others", others.runs)?;
    push_named_number(text, b"seed", others.seed)?;
    text.push(b'\n')?;
    Ok(())
}

/// Appends the line of how many runs had threads on how many harts.
fn push_harts(text: &mut Vec<u8>, harts: &[u64]) -> Result<(), AllocError>
    ensures { OnOk result (text.new.items ≡ text.old.items ++ line (codes "harts") (harts_fields 0 harts.now)) }
{
    text.extend_from_slice(b"harts")?;
    push_harts_fields(text, harts)?;
    text.push(b'\n')?;
    Ok(())
}

/// Appends its fields.
fn push_harts_fields(text: &mut Vec<u8>, harts: &[u64]) -> Result<(), AllocError>
    ensures { OnOk result (text.new.items ≡ text.old.items ++ behind (harts_fields 0 harts.now)) }
{
    for (number, runs) in harts.iter().enumerate() {
        if *runs != 0 {
            push_number(text, number as u64)?;
            push_number(text, *runs)?;
        }
    }
    Ok(())
}

/// Appends the line of how many of the stores that were executed a load overtook.
fn push_overtaken(text: &mut Vec<u8>, stores: &StorePcs) -> Result<(), AllocError>
    ensures { OnOk result (text.new.items ≡ text.old.items ++ overtaken_line stores.now) }
{
    let overtaken = stores.overtaken.len() as u64;
    push_two_counts(
        text,
        b"overtaken",
        overtaken,
        b"of",
        stores.executed.len() as u64,
    )
}

/// Appends the line of how long stores waited.
fn push_waited(text: &mut Vec<u8>, waits: &[u64]) -> Result<(), AllocError>
    requires { length waits.now ≤ 256 }
    ensures { OnOk result (text.new.items ≡ text.old.items ++ waited_line waits.now) }
{
    text.extend_from_slice(b"waited")?;
    push_deciles(text, waits)?;
    text.push(b'\n')?;
    Ok(())
}

/// Appends its fields.
fn push_deciles(text: &mut Vec<u8>, waits: &[u64]) -> Result<(), AllocError>
    requires { length waits.now ≤ 256 }
    ensures { OnOk result (text.new.items
        ≡ text.old.items ++ behind (map wait_field (deciles waits.now))) }
{
    let total = total_of(waits);
    if total == 0 {
        return Ok(());
    }
    for tenths in &TENTHS {
        push_wait(text, decile(waits, total, *tenths))?;
    }
    Ok(())
}

/// Appends how many instructions a store waited for, as a field.
fn push_wait(text: &mut Vec<u8>, wait: u64) -> Result<(), AllocError>
    ensures { OnOk result (text.new.items ≡ text.old.items ++ space ∷ wait_field wait) }
{
    push_number(text, wait)?;
    if wait >= u64::from(LONG_WAIT) {
        text.push(b'+')?;
    }
    Ok(())
}
