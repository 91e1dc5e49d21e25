//! A plain event is made, and what came of it is told.

ghost use Rattle.std.specs.Prelude.{◌≡◌, ◌<◌, ◌++◌, ◌&&◌, ◌∷◌, [], Some, None, IfSome, OnOk, if◌then◌else◌, is_none, length, map, not, option_to_list, true};
ghost use Rattle.mach_types.specs.{Bytes.IsAccessSize, Events.choice_of, Limits.InRange, Registers.register};
ghost use Rattle.mach_types.specs.declared.events.Choice.TheVariants as asked;
ghost use Rattle.rv_inst.specs.Class.{is_call};
ghost use Rattle.rv_inst.specs.Execution.{word_seen};
ghost use Rattle.rv_inst.specs.Sizes.{HasAccessSizes};
ghost use Rattle.block_model.specs.Events.{done_of};
ghost use Rattle.block_model.specs.Here.{memory, view};
ghost use Rattle.block_model.specs.Run.{IsBlockRun};
ghost use Rattle.event_facts.specs.Deeds.{IsDeedOf, combined_by, drained_in, entered_in, executed_in};
ghost use Rattle.event_facts.specs.Facts.{entered_facts, executed_by, facts_of, memory_facts, reading_facts, register_fact};
ghost use Rattle.event_facts.specs.Reservations.{own_facts};
ghost use Rattle.event_facts.specs.Lines.{line_behind, next_line};
ghost use Rattle.event_facts.specs.Telling.{HasSizes, IsDecided, effect_in, here_on, past_of, plain_event_of, register_by, registers_on};
ghost use Rattle.event_facts.specs.Tied.{AreLinesOf, kept_on, kept_source};

use crate::deeds::{Deed, read_by};
use crate::lines::Lines;
use crate::reads::{number_seen, push_reading};
use crate::registers::{push_if_other, register_set};
use crate::reservations::{push_all_lost, push_reserving};
use fact_types::Fact;
use mach_types::{Entry, Hart, Kind, Store};
use machine_core::Machine;
use rv_inst::Effect;
use std::alloc::AllocError;

/// A plain event.
#[derive(Clone, Copy, Drop)]
pub enum PlainEvent {
    /// An instruction with this effect, which makes neither a fault nor a call.
    Instruction(Effect),
    /// The oldest store that waits enters memory: this.
    Drain(Store),
}

/// The effect of an instruction, unless it makes this fault or a call.
fn unless_fault_or_call(effect: Effect, fault: Option<u8>) -> Option<Effect>
    ensures { result ≡ (if is_none fault && not (is_call effect) then Some effect else None) }
{
    if fault.is_none() && !matches!(effect, Effect::Call) {
        Some(effect)
    } else {
        None
    }
}

/// The effect of the next instruction of a hart's thread, where it makes neither a fault nor a call.
fn plain_effect(machine: &Machine, hart: Hart) -> Option<Effect>
    requires { hart.0 < machine.now.setting.limits.harts }
    ensures effect { result ≡ executed_by asked.Exec (here_on machine.now hart.0) }
    ensures sizes { IfSome result HasAccessSizes }
{
    let next = machine.next(hart);
    let effect = next.effect?;
    unless_fault_or_call(effect, next.fault)
}

/// The event of an entry, where it is plain: the next of its hart on a machine. None exactly where it isn't
/// plain, or no store waits that could enter memory.
pub(crate) fn plain_event(machine: &Machine, entry: Entry) -> Option<PlainEvent>
    requires { entry.hart.0 < machine.now.setting.limits.harts }
    ensures event { result ≡ plain_event_of (choice_of entry) (here_on machine.now entry.hart.0) }
    ensures sizes { IfSome result HasSizes }
{
    match entry.kind {
        Kind::Exec => Some(PlainEvent::Instruction(plain_effect(machine, entry.hart)?)),
        Kind::Drain => Some(PlainEvent::Drain(machine.hart(entry.hart).buffer.oldest()?)),
        _ => None,
    }
}

/// The number that an AMO with this effect reads, of which it makes the one that it stores; 0 of any other instruction.
fn number_combined(machine: &Machine, hart: Hart, effect: &Effect) -> u64
    requires hart { hart.0 < machine.now.setting.limits.harts }
    requires sizes { HasAccessSizes effect.now }
    ensures { IfSome (combined_by effect.now)
        (λ x. result ≡ word_seen (view (here_on machine.now hart.0)) x.at x.count) }
{
    match *effect {
        Effect::Amo { at, size, .. } => number_seen(machine, hart, at, size),
        _ => 0,
    }
}

/// What the next plain event of a hart does to stores and to memory.
fn deed_of(machine: &Machine, entry: Entry, event: &PlainEvent) -> Deed
    requires hart { entry.hart.0 < machine.now.setting.limits.harts }
    requires event { plain_event_of (choice_of entry) (here_on machine.now entry.hart.0) ≡ Some event.now }
    requires sizes { HasSizes event.now }
    ensures deed { IsDeedOf (done_of (choice_of entry) (here_on machine.now entry.hart.0)) result }
    ensures size { IfSome result.entered (λ w. IsAccessSize w.size) }
{
    match event {
        PlainEvent::Instruction(effect) => {
            let seen = number_combined(machine, entry.hart, effect);
            Deed::of_effect(effect, seen, machine.hart(entry.hart).reserved)
        }
        PlainEvent::Drain(store) => Deed::of_drain(*store),
    }
}

/// Appends that a store waits, if one was executed.
fn push_waits(facts: &mut Vec<Fact>, executed: Option<Store>) -> Result<(), AllocError>
    ensures { OnOk result (facts.new.items
        ≡ facts.old.items ++ map Fact.Waits (option_to_list executed)) }
{
    if let Some(store) = executed {
        facts.push(Fact::Waits(store))?;
    }
    Ok(())
}

/// Appends the store that entered memory, if one did.
fn push_entered(
    facts: &mut Vec<Fact>,
    machine: &Machine,
    lines: &Lines,
    hart: Hart,
    deed: &Deed,
    line: u32,
) -> Result<(), AllocError>
    requires lines { hart.0 < length lines.now.waiting.items }
    requires size { IfSome deed.now.entered (λ w. IsAccessSize w.size) }
    ensures { OnOk result (facts.new.items ≡ facts.old.items
        ++ entered_facts (memory (here_on machine.now hart.0))
        (line_behind (kept_on lines.now hart.0) line (drained_in deed.now)) [] (entered_in deed.now)) }
{
    if let Some(store) = deed.entered {
        let old = machine.memory(store.at, store.size).unwrap_or(0);
        let line = lines.line_behind(hart, line, deed.drained);
        facts.push(Fact::Entered { store, old, line })?;
    }
    Ok(())
}

/// Appends what the instruction of an event read, if it is one that reads.
fn push_event_reading(
    facts: &mut Vec<Fact>,
    machine: &Machine,
    lines: &Lines,
    hart: Hart,
    event: &PlainEvent,
) -> Result<(), AllocError>
    requires hart { hart.0 < machine.now.setting.limits.harts }
    requires lines { hart.0 < length lines.now.waiting.items }
    requires sizes { HasSizes event.now }
    ensures { OnOk result (facts.new.items ≡ facts.old.items
        ++ reading_facts (view (here_on machine.now hart.0)) (kept_source lines.now hart.0)
        (effect_in event.now)) }
{
    match event {
        PlainEvent::Instruction(effect) => {
            push_reading(facts, machine, lines, hart, read_by(effect))
        }
        PlainEvent::Drain(_) => Ok(()),
    }
}

/// Appends what an event made of the reservation of its hart, which was this before.
fn push_own(
    facts: &mut Vec<Fact>,
    reserved: Option<u64>,
    event: &PlainEvent,
) -> Result<(), AllocError>
    ensures { OnOk result (facts.new.items
        ≡ facts.old.items ++ own_facts (effect_in event.now) reserved reserved) }
{
    match event {
        PlainEvent::Instruction(effect) => push_reserving(facts, reserved, effect),
        PlainEvent::Drain(_) => Ok(()),
    }
}

/// Appends what an event, before it is made, is to do to memory and to reservations.
fn push_memory(
    facts: &mut Vec<Fact>,
    machine: &Machine,
    lines: &Lines,
    hart: Hart,
    event: &PlainEvent,
    deed: &Deed,
    line: u32,
) -> Result<(), AllocError>
    requires hart { hart.0 < machine.now.setting.limits.harts }
    requires lines { AreLinesOf machine.now.setting.limits.harts (past_of machine.now) lines.now }
    requires line { line ≡ next_line (past_of machine.now) }
    requires sizes { HasSizes event.now }
    requires size { IfSome deed.now.entered (λ w. IsAccessSize w.size) }
    ensures { OnOk result (facts.new.items ≡ facts.old.items
        ++ memory_facts machine.now.setting (past_of machine.now) hart.0 true (effect_in event.now)
        (executed_in deed.now) (drained_in deed.now) (entered_in deed.now)
        (here_on machine.now hart.0).reserved) }
{
    push_event_reading(facts, machine, lines, hart, event)?;
    push_waits(facts, deed.executed)?;
    push_entered(facts, machine, lines, hart, deed, line)?;
    push_own(facts, machine.hart(hart).reserved, event)?;
    push_all_lost(facts, machine, hart, deed.entered)?;
    Ok(())
}

/// Makes an entry that is due.
pub(crate) fn make(machine: &mut Machine, entry: Entry)
    requires { IsDecided machine.old entry }
    ensures machine { machine.new ≡ record machine.old { log = machine.old.log ++ entry ∷ [] } }
    ensures run { IsBlockRun machine.new.setting machine.new.log }
{
    let _made = machine.step(entry.hart, entry.choice());
}

/// The register that a plain event sets; x0, which stays 0, where it sets none.
fn register_of(event: &PlainEvent) -> u8
    ensures { result ≡ register_by event.now }
{
    match event {
        PlainEvent::Instruction(effect) => register_set(effect),
        PlainEvent::Drain(_) => 0,
    }
}

/// The value of a register of a hart's thread.
pub(crate) fn register_on(machine: &Machine, hart: Hart, number: u8) -> u64
    requires { hart.0 < machine.now.setting.limits.harts }
    ensures { result ≡ register (registers_on machine.now hart.0) number }
{
    machine.hart(hart).file.get(number)
}

/// Makes an entry that is due, and appends this register of its hart's thread, where its value is another one then.
pub(crate) fn tell_register(
    facts: &mut Vec<Fact>,
    machine: &mut Machine,
    entry: Entry,
    number: u8,
) -> Result<(), AllocError>
    requires hart { entry.hart.0 < machine.old.setting.limits.harts }
    requires decided { IsDecided machine.old entry }
    ensures machine { machine.new ≡ record machine.old { log = machine.old.log ++ entry ∷ [] } }
    ensures run { IsBlockRun machine.new.setting machine.new.log }
    ensures facts { OnOk result (facts.new.items ≡ facts.old.items
        ++ register_fact (registers_on machine.old entry.hart.0) (registers_on machine.new entry.hart.0) number) }
{
    let before = register_on(machine, entry.hart, number);
    make(machine, entry);
    let value = register_on(machine, entry.hart, number);
    push_if_other(facts, number, before, value)
}

/// Makes a plain event that is due, and appends what came of it; the lines are then those of the longer log.
///
/// It errs only for want of memory.
#[inline(never)]
pub(crate) fn tell(
    facts: &mut Vec<Fact>,
    machine: &mut Machine,
    lines: &mut Lines,
    entry: Entry,
    event: &PlainEvent,
) -> Result<(), AllocError>
    requires limits { InRange machine.old.setting.limits }
    requires run { IsBlockRun machine.old.setting machine.old.log }
    requires decided { IsDecided machine.old entry }
    requires event { plain_event_of (choice_of entry) (here_on machine.old entry.hart.0) ≡ Some event.now }
    requires sizes { HasSizes event.now }
    requires lines { AreLinesOf machine.old.setting.limits.harts (past_of machine.old) lines.old }
    ensures machine { OnOk result
        (machine.new ≡ record machine.old { log = machine.old.log ++ entry ∷ [] }) }
    ensures run { OnOk result (IsBlockRun machine.new.setting machine.new.log) }
    ensures facts { OnOk result (facts.new.items
        ≡ facts.old.items ++ facts_of machine.old.setting (past_of machine.old) entry) }
    ensures lines { OnOk result
        (AreLinesOf machine.new.setting.limits.harts (past_of machine.new) lines.new) }
{
    let hart = entry.hart;
    let line = machine.log().len() as u32 + 1;
    let deed = deed_of(machine, entry, event);
    push_memory(facts, machine, lines, hart, event, &deed, line)?;
    tell_register(facts, machine, entry, register_of(event))?;
    lines.note(hart, &deed, line)?;
    Ok(())
}
