//! The place of a run, with spans of memory.

ghost use Rattle.std.specs.Prelude.{◌≡◌, ◌+◌, ◌≤◌, ◌^◌, ◌++◌, All, IfOk, OnOk};
ghost use Rattle.block_model.specs.Deciding.{history};
ghost use Rattle.command_words.specs.Kept.{spans_kept};
ghost use Rattle.run_texts.specs.Places.{asked_place, spans_text};

use command_words::{MemorySpan, MemorySpans};
use machine_core::Machine;
use place_text::{place_text, push_memory};
use std::alloc::{AllocError, Global};

/// The text of the place that a machine has come to, and behind it the lines of these spans of memory, in their order.
#[tactic(auto, unfolding(run_texts::specs::Places::asked_place))]
pub(crate) fn inspected_text(
    alloc: Global,
    memory: &MemorySpans<'_>,
    machine: &Machine,
) -> Result<Vec<u8>, AllocError>
    ensures { IfOk result (λ text. text.items
        ≡ asked_place (spans_kept memory.now) machine.now.setting (history machine.now.setting machine.now.log)) }
{
    let spans = memory.to_vec(alloc)?;
    let mut text = place_text(alloc, machine)?;
    push_spans(&mut text, machine, &spans)?;
    Ok(text)
}

/// Appends the lines of spans of memory.
fn push_spans(text: &mut Vec<u8>, machine: &Machine, spans: &[MemorySpan]) -> Result<(), AllocError>
    requires { All (λ span. span.at + span.length ≤ 2 ^ 64) spans.now }
    ensures { OnOk result (text.new.items ≡ text.old.items
        ++ spans_text machine.now.setting (history machine.now.setting machine.now.log) spans.now) }
{
    for span in spans {
        push_memory(text, machine, span.at, span.length)?;
    }
    Ok(())
}
