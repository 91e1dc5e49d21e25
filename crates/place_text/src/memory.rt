//! The lines of bytes of memory.

ghost use Rattle.std.specs.Prelude.{◌≡◌, ◌≤◌, ◌<◌, ◌+◌, ◌^◌, ◌++◌, ℕ, OnOk};
ghost use Rattle.block_model.specs.Here.{memory, view};
ghost use Rattle.place_text.specs.Memory as spec;
ghost use Rattle.place_text.specs.Seen.{here_of, past_of};

use crate::fields::{begin_line, push_value, push_value_or_none, push_word};
use mach_types::Hart;
use machine_core::Machine;
use std::alloc::AllocError;

/// How many bytes a line is about.
const WORD: u8 = 8;

/// The number of the 8 bytes from an address on in memory; None where one of them can't be read.
#[tactic(auto, unfolding(crate::specs::Memory::number_at))]
fn number_held(machine: &Machine, at: u64) -> Option<u64>
    ensures { (h : ℕ) → result ≡ spec.number_at (memory (here_of machine.now h)) at }
{
    machine.memory(at, WORD)
}

/// The same as a hart sees it.
#[tactic(auto, unfolding(crate::specs::Memory::number_at))]
fn number_seen(machine: &Machine, hart: Hart, at: u64) -> Option<u64>
    requires { hart.0 < machine.now.setting.limits.harts }
    ensures { result ≡ spec.number_at (view (here_of machine.now hart.0)) at }
{
    machine.view(hart, at, WORD)
}

/// Whether two numbers, either of which may be absent, aren't the same.
fn is_other(one: Option<u64>, other: Option<u64>) -> bool
    ensures { result ≡ spec.is_other one other }
{
    match (one, other) {
        (Some(one), Some(other)) => one != other,
        (None, None) => false,
        (Some(_), None) | (None, Some(_)) => true,
    }
}

/// Appends the line of what memory has.
fn push_held(text: &mut Vec<u8>, at: u64, value: Option<u64>) -> Result<(), AllocError>
    ensures { OnOk result (text.new.items ≡ text.old.items ++ spec.memory_line at value) }
{
    text.extend_from_slice(b"memory")?;
    push_value(text, at)?;
    push_value_or_none(text, value)?;
    text.push(b'\n')?;
    Ok(())
}

/// Appends the line of what a hart sees.
fn push_sees(text: &mut Vec<u8>, hart: Hart, at: u64, value: Option<u64>) -> Result<(), AllocError>
    ensures { OnOk result (text.new.items ≡ text.old.items ++ spec.sees_line hart.0 at value) }
{
    begin_line(text, b"hart", u64::from(hart.0))?;
    push_word(text, b"sees")?;
    push_value(text, at)?;
    push_value_or_none(text, value)?;
    text.push(b'\n')?;
    Ok(())
}

/// Appends that line where memory has something else.
fn push_unlike(
    text: &mut Vec<u8>,
    hart: Hart,
    at: u64,
    seen: Option<u64>,
    held: Option<u64>,
) -> Result<(), AllocError>
    ensures { OnOk result (text.new.items ≡ text.old.items ++ spec.sees_text hart.0 at seen held) }
{
    if is_other(seen, held) {
        push_sees(text, hart, at, seen)
    } else {
        Ok(())
    }
}

/// Appends the line of a hart that sees something else in the 8 bytes from an address on than memory has.
fn push_seen(
    text: &mut Vec<u8>,
    machine: &Machine,
    hart: Hart,
    at: u64,
    held: Option<u64>,
) -> Result<(), AllocError>
    requires hart { hart.0 < machine.now.setting.limits.harts }
    requires held { held ≡ spec.number_at (memory (here_of machine.now hart.0)) at }
    ensures { OnOk result (text.new.items ≡ text.old.items ++ spec.seen_text (here_of machine.now hart.0) at) }
{
    push_unlike(text, hart, at, number_seen(machine, hart, at), held)
}

/// Appends the lines of the 8 bytes from an address on.
fn push_number(text: &mut Vec<u8>, machine: &Machine, at: u64) -> Result<(), AllocError>
    ensures { OnOk result (text.new.items
        ≡ text.old.items ++ spec.word_text machine.now.setting (past_of machine.now) at) }
{
    let held = number_held(machine, at);
    push_held(text, at, held)?;
    for number in 0..machine.harts() {
        push_seen(text, machine, Hart(number), at, held)?;
    }
    Ok(())
}

/// Appends the lines of so many bytes from an address on at the place that a machine has come to: of each aligned 8 bytes that have one
/// of them what memory has there, and what each hart sees there that sees something else. The last of the bytes is the last address, or
/// before it.
pub fn push_memory(
    text: &mut Vec<u8>,
    machine: &Machine,
    at: u64,
    count: u32,
) -> Result<(), AllocError>
    requires { at + count ≤ 2 ^ 64 }
    ensures { OnOk result (text.new.items
        ≡ text.old.items ++ spec.memory_text machine.now.setting (past_of machine.now) at count) }
{
    let words = (at % 8 + u64::from(count) + 7) / 8;
    for index in 0..words {
        push_number(text, machine, 8 * (at / 8 + index))?;
    }
    Ok(())
}
