//! The lines of choices.

ghost use Rattle.std.specs.Prelude.{◌≡◌, ◌++◌, map, OnOk};
ghost use Rattle.mach_types.specs.Events.{own_choices};
ghost use Rattle.block_model.specs.Deciding.{decide};
ghost use Rattle.step_log.specs.Grammar.{run_field};
ghost use Rattle.place_text.specs.Choices as spec;
ghost use Rattle.place_text.specs.Fields.{behind};
ghost use Rattle.place_text.specs.Live.{run_of};
ghost use Rattle.place_text.specs.Seen.{past_of};

use crate::fields::{begin_line, push_number, push_value, push_word};
use crate::threads::LiveThread;
use block_model::Refused;
use mach_types::{Choice, Entry, Hart, OWN_CHOICES, Why};
use machine_core::Machine;
use std::alloc::AllocError;
use step_log::kind_word;

/// The name of a condition.
pub fn why_word(why: Why) -> &'static [u8]
    ensures { result.now ≡ spec.why_word why }
{
    match why {
        Why::NoHart => b"NoHart",
        Why::Idle => b"Idle",
        Why::InBarrier => b"InBarrier",
        Why::Waiting => b"Waiting",
        Why::FullBuffer => b"FullBuffer",
        Why::Others => b"Others",
        Why::NoStore => b"NoStore",
        Why::NoRequest => b"NoRequest",
        Why::NotInBarrier => b"NotInBarrier",
        Why::Targets => b"Targets",
        Why::Busy => b"Busy",
        Why::NotReady => b"NotReady",
        Why::NotAllowed => b"NotAllowed",
        Why::NoSignal => b"NoSignal",
    }
}

/// The word of a refusal.
fn refusal_word(refused: Refused) -> &'static [u8]
    ensures { result.now ≡ spec.refusal_word refused }
{
    match refused {
        Refused::Ended(_) => b"Ended",
        Refused::Full => b"Full",
        Refused::NotEnabled(why) => why_word(why),
    }
}

/// Appends the thread of a `run`.
fn push_run_field(text: &mut Vec<u8>, choice: Choice) -> Result<(), AllocError>
    ensures { OnOk result (text.new.items ≡ text.old.items ++ behind (run_field choice)) }
{
    if let Some(tid) = choice.begun() {
        push_number(text, u64::from(tid.0))?;
    }
    Ok(())
}

/// Appends the fields of a choice.
fn push_choice_fields(text: &mut Vec<u8>, choice: Choice) -> Result<(), AllocError>
    ensures { OnOk result (text.new.items ≡ text.old.items ++ behind (spec.choice_fields choice)) }
{
    push_word(text, kind_word(choice.kind()))?;
    push_run_field(text, choice)
}

/// Appends the line of a choice that is refused.
fn push_refused(
    text: &mut Vec<u8>,
    hart: Hart,
    choice: Choice,
    refused: Refused,
) -> Result<(), AllocError>
    ensures { OnOk result (text.new.items ≡ text.old.items ++ spec.refused_line hart.0 choice refused) }
{
    begin_line(text, b"not", u64::from(hart.0))?;
    push_choice_fields(text, choice)?;
    push_word(text, refusal_word(refused))?;
    text.push(b'\n')?;
    Ok(())
}

/// Appends the line of a choice that is allowed, which makes this entry.
fn push_allowed(text: &mut Vec<u8>, entry: Entry) -> Result<(), AllocError>
    ensures { OnOk result (text.new.items ≡ text.old.items ++ spec.allowed_line entry) }
{
    begin_line(text, b"may", u64::from(entry.hart.0))?;
    push_word(text, kind_word(entry.kind))?;
    push_number(text, u64::from(entry.tid.0))?;
    push_value(text, entry.pc)?;
    text.push(b'\n')?;
    Ok(())
}

/// Appends the line of a choice that is answered so.
fn push_answered(
    text: &mut Vec<u8>,
    hart: Hart,
    choice: Choice,
    answer: Result<Entry, Refused>,
) -> Result<(), AllocError>
    ensures { OnOk result (text.new.items ≡ text.old.items ++ spec.choice_line hart.0 choice answer) }
{
    match answer {
        Ok(entry) => push_allowed(text, entry),
        Err(refused) => push_refused(text, hart, choice, refused),
    }
}

/// Appends the line of a choice of a hart.
fn push_choice(
    text: &mut Vec<u8>,
    machine: &Machine,
    hart: Hart,
    choice: Choice,
) -> Result<(), AllocError>
    ensures { OnOk result (text.new.items ≡ text.old.items ++ spec.choice_line hart.0 choice
        (decide machine.now.setting (past_of machine.now) hart.0 choice)) }
{
    push_answered(text, hart, choice, machine.answer(hart, choice))
}

/// Appends the lines of a hart's own choices.
fn push_own_choices(text: &mut Vec<u8>, machine: &Machine, hart: Hart) -> Result<(), AllocError>
    ensures { OnOk result
        (text.new.items ≡ text.old.items
        ++ spec.choice_lines machine.now.setting (past_of machine.now) hart.0 own_choices) }
{
    for choice in OWN_CHOICES {
        push_choice(text, machine, hart, choice)?;
    }
    Ok(())
}

/// Appends the lines of a hart's choices to run one of these threads.
fn push_run_choices(
    text: &mut Vec<u8>,
    machine: &Machine,
    hart: Hart,
    live: &[LiveThread],
) -> Result<(), AllocError>
    ensures { OnOk result
        (text.new.items ≡ text.old.items
        ++ spec.choice_lines machine.now.setting (past_of machine.now) hart.0 (map run_of live.now)) }
{
    for thread in live {
        push_choice(text, machine, hart, Choice::Run(thread.tid))?;
    }
    Ok(())
}

/// Appends the lines of all choices of a hart, where these threads live.
#[tactic(auto, unfolding(crate::specs::Choices::choices_text))]
pub fn push_choices(
    text: &mut Vec<u8>,
    machine: &Machine,
    hart: Hart,
    live: &[LiveThread],
) -> Result<(), AllocError>
    ensures { OnOk result
        (text.new.items ≡ text.old.items
        ++ spec.choices_text machine.now.setting (past_of machine.now) (map run_of live.now) hart.0) }
{
    push_own_choices(text, machine, hart)?;
    push_run_choices(text, machine, hart, live)
}
