//! The text of a summary: how many acts of each form each hart has.

ghost use Rattle.std.specs.Prelude.{◌≡◌, ◌++◌, IfOk, OnOk};
ghost use Rattle.block_view.specs.Acts.{acts_of};
ghost use Rattle.block_view.specs.Counters.{AreCounts};
ghost use Rattle.place_text.specs.Fields.{behind};
ghost use Rattle.run_texts.specs.LogTexts.{log_summary};
ghost use Rattle.run_texts.specs.Summary.{barriers_line, count_fields, counts_line, ends_text, hart_lines};

use block_view::{Counts, Form, SeqEnd, form_word};
use mach_types::{Entry, Kind};
use machine_core::Machine;
use place_text::fields::{begin_line, push_named_number};
use place_text::{push_end, push_number_line};
use std::alloc::{AllocError, Global};

/// The summary of a run, at whose end a machine is: the counts of each hart, its barriers, and its end.
pub(crate) fn summary_text(
    alloc: Global,
    counts: &[Counts],
    machine: &Machine,
) -> Result<Vec<u8>, AllocError>
    requires { AreCounts machine.now.setting machine.now.log counts.now }
    ensures { IfOk result (λ text. text.items ≡ log_summary machine.now.setting machine.now.log) }
{
    let mut text = Vec::new(alloc);
    push_summary(&mut text, counts, machine)?;
    Ok(text)
}

/// Appends the summary of a run.
#[tactic(auto, unfolding(run_texts::specs::Summary::summary_text))]
pub(crate) fn push_summary(
    text: &mut Vec<u8>,
    counts: &[Counts],
    machine: &Machine,
) -> Result<(), AllocError>
    requires { AreCounts machine.now.setting machine.now.log counts.now }
    ensures { OnOk result (text.new.items ≡ text.old.items ++ log_summary machine.now.setting machine.now.log) }
{
    push_hart_lines(text, counts, machine)?;
    push_barriers_line(text, machine.log())?;
    push_end(text, machine.end())
}

/// Appends the lines of the harts of a machine.
fn push_hart_lines(
    text: &mut Vec<u8>,
    counts: &[Counts],
    machine: &Machine,
) -> Result<(), AllocError>
    requires { AreCounts machine.now.setting machine.now.log counts.now }
    ensures { let s = machine.now.setting in OnOk result (text.new.items
        ≡ text.old.items ++ hart_lines (acts_of s machine.now.log) s.limits.harts) }
{
    for hart in 0..machine.harts() {
        push_counts_line(text, hart, &counts[usize::from(hart)])?;
    }
    Ok(())
}

/// Appends the line of a hart.
fn push_counts_line(text: &mut Vec<u8>, hart: u8, counts: &Counts) -> Result<(), AllocError>
    ensures { OnOk result (text.new.items ≡ text.old.items ++ counts_line hart counts.now) }
{
    begin_line(text, b"hart", u64::from(hart))?;
    push_count(text, Form::Step, counts.step)?;
    push_ends(text, counts)?;
    push_count(text, Form::Kernel, counts.kernel)?;
    text.extend_from_slice(b"\n")
}

/// Appends how many sequences of a hart ended in each way.
#[tactic(auto, unfolding(run_texts::specs::Summary::ends_text))]
fn push_ends(text: &mut Vec<u8>, counts: &Counts) -> Result<(), AllocError>
    ensures { OnOk result (text.new.items ≡ text.old.items ++ ends_text counts.now) }
{
    push_count(text, Form::Sequence(SeqEnd::Left), counts.left)?;
    push_count(text, Form::Sequence(SeqEnd::Cut(0)), counts.cut)?;
    push_count(text, Form::Sequence(SeqEnd::Dropped), counts.dropped)?;
    push_count(text, Form::Sequence(SeqEnd::Dead), counts.dead)?;
    push_count(text, Form::Sequence(SeqEnd::Unended), counts.unended)
}

/// Appends the word of a form, and how many acts have it.
fn push_count(text: &mut Vec<u8>, form: Form, count: u32) -> Result<(), AllocError>
    ensures { OnOk result (text.new.items ≡ text.old.items ++ behind (count_fields form count)) }
{
    push_named_number(text, form_word(form), u64::from(count))
}

/// Appends how many barriers returned.
fn push_barriers_line(text: &mut Vec<u8>, log: &[Entry]) -> Result<(), AllocError>
    ensures { OnOk result (text.new.items ≡ text.old.items ++ barriers_line log.now) }
{
    let returns = log.iter().filter(|entry| entry.kind == Kind::Done).count();
    push_number_line(text, b"barriers", returns)
}
