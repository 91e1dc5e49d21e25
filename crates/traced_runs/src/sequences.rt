//! The lines of a trace that tell where restartable sequences begin and end.

ghost use Rattle.std.specs.Prelude.{◌≡◌, ◌++◌, OnOk};
ghost use Rattle.std.specs.List.{flat_map};
ghost use Rattle.traced_runs.specs.Tracing.{turn_text};
ghost use Rattle.trace_text.specs.Traces.{begins_line, ends_line};

use block_view::{Act, Turn};
use mach_types::Seq;
use place_text::fields::{push_named_number, push_number, push_value};
use run_texts::push_form;
use std::alloc::AllocError;

/// Appends the line of a sequence that begins.
fn push_beginning(text: &mut Vec<u8>, sequence: Seq) -> Result<(), AllocError>
    ensures { OnOk result (text.new.items ≡ text.old.items ++ begins_line sequence) }
{
    text.extend_from_slice(b"  sequence begins")?;
    push_value(text, sequence.start)?;
    push_number(text, sequence.length)?;
    push_value(text, sequence.abort)?;
    text.push(b'\n')?;
    Ok(())
}

/// Appends the line of a sequence that has ended.
fn push_end(text: &mut Vec<u8>, act: Act) -> Result<(), AllocError>
    ensures { OnOk result (text.new.items ≡ text.old.items ++ ends_line act) }
{
    text.extend_from_slice(b"  sequence ends")?;
    push_form(text, act.form)?;
    push_named_number(text, b"first", u64::from(act.first))?;
    push_named_number(text, b"last", u64::from(act.last))?;
    text.push(b'\n')?;
    Ok(())
}

/// Appends the line of what an entry makes of the sequences; nothing where it makes nothing of them.
pub(crate) fn push_turn(text: &mut Vec<u8>, turn: Option<Turn>) -> Result<(), AllocError>
    ensures { OnOk result (text.new.items ≡ text.old.items ++ turn_text turn) }
{
    match turn {
        Some(Turn::Begins(sequence)) => push_beginning(text, sequence),
        Some(Turn::Ends(act)) => push_end(text, act),
        None => Ok(()),
    }
}

/// Appends the lines of sequences that have ended, in order.
pub(crate) fn push_ends(text: &mut Vec<u8>, acts: &[Act]) -> Result<(), AllocError>
    ensures { OnOk result (text.new.items ≡ text.old.items ++ flat_map ends_line acts.now) }
{
    for act in acts {
        push_end(text, *act)?;
    }
    Ok(())
}
