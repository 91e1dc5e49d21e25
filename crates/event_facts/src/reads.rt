//! What an instruction read, and where that came from.

ghost use Rattle.std.specs.Prelude.{◌≡◌, ◌<◌, ◌++◌, ◌∷◌, [], map, IfSome, OnOk, length};
ghost use Rattle.std.specs.List.{range_with_len};
ghost use Rattle.mach_types.specs.Bytes.{IsAccessSize};
ghost use Rattle.rv_inst.specs.Execution.{word_seen};
ghost use Rattle.block_model.specs.Here.{view};
ghost use Rattle.event_facts.specs.Deeds.{bytes_of_read};
ghost use Rattle.event_facts.specs.Facts.{byte_fact, is_of_one, read_facts, reading_of};
ghost use Rattle.event_facts.specs.{Telling.here_on, Tied.kept_source, Written.IsWordOf};

use crate::deeds::Range;
use crate::lines::Lines;
use crate::sources::is_same_if;
use crate::written::Word;
use fact_types::{Fact, Source};
use mach_types::Hart;
use machine_core::Machine;
use std::alloc::AllocError;

/// Whether so many bytes from an address on come from the place from which the first of them does, as a hart reads them.
fn are_of_one(lines: &Lines, known: &Word, hart: Hart, at: u64, size: u8, first: Source) -> bool
    requires known { IsWordOf lines.now.written known.now }
    requires hart { hart.0 < length lines.now.waiting.items }
    requires first { first ≡ kept_source lines.now hart.0 at }
    ensures { result ≡ is_of_one (kept_source lines.now hart.0) at size }
{
    let mut one = true;
    for k in 0..size {
        let source = lines.source(known, hart, at.wrapping_add(u64::from(k)));
        one = is_same_if(one, source, first);
    }
    one
}

/// The number of so many bytes from an address on, as a hart sees them; 0 where one of them can't be read.
pub(crate) fn number_seen(machine: &Machine, hart: Hart, at: u64, size: u8) -> u64
    requires hart { hart.0 < machine.now.setting.limits.harts }
    requires size { IsAccessSize size }
    ensures { result ≡ word_seen (view (here_on machine.now hart.0)) at size }
{
    machine.view(hart, at, size).unwrap_or(0)
}

/// Appends that so many bytes from an address on were read, which come from this place.
fn push_read(
    facts: &mut Vec<Fact>,
    machine: &Machine,
    hart: Hart,
    at: u64,
    size: u8,
    source: Source,
) -> Result<(), AllocError>
    requires hart { hart.0 < machine.now.setting.limits.harts }
    requires size { IsAccessSize size }
    ensures { OnOk result (facts.new.items ≡ facts.old.items
        ++ Fact.Read at size (word_seen (view (here_on machine.now hart.0)) at size) source ∷ []) }
{
    let value = number_seen(machine, hart, at, size);
    facts.push(Fact::Read {
        at,
        size,
        value,
        source,
    })?;
    Ok(())
}

/// Appends each of so many bytes from an address on by itself.
fn push_each(
    facts: &mut Vec<Fact>,
    machine: &Machine,
    lines: &Lines,
    known: &Word,
    hart: Hart,
    at: u64,
    size: u8,
) -> Result<(), AllocError>
    requires known { IsWordOf lines.now.written known.now }
    requires hart { hart.0 < machine.now.setting.limits.harts }
    requires lines { hart.0 < length lines.now.waiting.items }
    ensures { OnOk result (facts.new.items ≡ facts.old.items
        ++ map (byte_fact (view (here_on machine.now hart.0)) (kept_source lines.now hart.0) at)
        (range_with_len 0 size)) }
{
    for k in 0..size {
        let byte = at.wrapping_add(u64::from(k));
        let source = lines.source(known, hart, byte);
        push_read(facts, machine, hart, byte, 1, source)?;
    }
    Ok(())
}

/// Appends what was read, if anything was: one fact where all bytes come from one place, and else one for
/// each.
#[tactic(auto, unfolding(crate::specs::Facts::read_facts))]
pub(crate) fn push_reading(
    facts: &mut Vec<Fact>,
    machine: &Machine,
    lines: &Lines,
    hart: Hart,
    range: Option<Range>,
) -> Result<(), AllocError>
    requires hart { hart.0 < machine.now.setting.limits.harts }
    requires lines { hart.0 < length lines.now.waiting.items }
    requires size { IfSome range (λ x. IsAccessSize x.size) }
    ensures { OnOk result (facts.new.items ≡ facts.old.items
        ++ reading_of (view (here_on machine.now hart.0)) (kept_source lines.now hart.0) (bytes_of_read range)) }
{
    let Some(Range { at, size }) = range else {
        return Ok(());
    };
    let known = lines.word_of(at);
    let first = lines.source(&known, hart, at);
    if lines.is_of_one(&known, hart, at, size) || are_of_one(lines, &known, hart, at, size, first) {
        push_read(facts, machine, hart, at, size, first)
    } else {
        push_each(facts, machine, lines, &known, hart, at, size)
    }
}
