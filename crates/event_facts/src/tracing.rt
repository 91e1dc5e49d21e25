//! An event is made, and all that came of it is told.

ghost use Rattle.std.specs.Prelude.{◌≡◌, ◌<◌, ◌++◌, ◌∷◌, [], ℕ, false, IfNone, IfOk, IfSome, OnOk, Some, is_some};
ghost use Rattle.std.specs.Option.{option_map_or};
ghost use Rattle.mach_types.specs.Limits.{InRange};
ghost use Rattle.rv_inst.specs.Class.{sets_register};
ghost use Rattle.block_model.specs.Choosing.{has_ended};
ghost use Rattle.block_model.specs.Run.{IsBlockRun};
ghost use Rattle.block_model.specs.Sights.{effect_here};
ghost use Rattle.machine_core.specs.Free.{goes_freely};
ghost use Rattle.event_facts.specs.Freely.{IsMadeFreely};
ghost use Rattle.event_facts.specs.Telling.{IsDecided, here_on, past_of};
ghost use Rattle.event_facts.specs.Tied.{AreLinesOf};
ghost use Rattle.event_facts.specs.Trace.{trace_of};

use crate::kernel_events::tell_kernel;
use crate::lines::Lines;
use crate::registers::push_if_other;
use crate::telling::{PlainEvent, plain_event, register_on, tell, tell_register};
use crate::theorems::plain_events_are_told_by_their_facts;
use fact_types::Fact;
use mach_types::{Entry, Hart};
use machine_core::Machine;
use rv_inst::Effect;
use std::alloc::{AllocError, Global};

/// Makes an entry that is due, and appends all that is told of it; the lines are then those of the longer log.
///
/// It errs only for want of memory.
pub fn trace(
    alloc: Global,
    facts: &mut Vec<Fact>,
    machine: &mut Machine,
    lines: &mut Lines,
    entry: Entry,
) -> Result<(), AllocError>
    requires limits { InRange machine.old.setting.limits }
    requires run { IsBlockRun machine.old.setting machine.old.log }
    requires decided { IsDecided machine.old entry }
    requires lines { AreLinesOf machine.old.setting.limits.harts (past_of machine.old) lines.old }
    ensures machine { OnOk result
        (machine.new ≡ record machine.old { log = machine.old.log ++ entry ∷ [] }) }
    ensures run { OnOk result (IsBlockRun machine.new.setting machine.new.log) }
    ensures facts { OnOk result (facts.new.items
        ≡ facts.old.items ++ trace_of machine.old.setting (past_of machine.old) entry) }
    ensures lines { OnOk result
        (AreLinesOf machine.new.setting.limits.harts (past_of machine.new) lines.new) }
{
    plain_events_are_told_by_their_facts();
    let Some(event) = plain_event(machine, entry) else {
        tell_kernel(alloc, facts, machine, lines, entry)?;
        return Ok(());
    };
    if let PlainEvent::Instruction(Effect::Next { rd, .. }) = event {
        tell_register(facts, machine, entry, rd)?;
        return Ok(());
    }
    tell(facts, machine, lines, entry, &event)?;
    Ok(())
}

/// The register that the next instruction of a hart sets, where it sets one and the pc, and nothing else.
#[inline(always)]
fn register_alone(machine: &Machine, hart: Hart) -> Option<u8>
    requires { hart.0 < machine.now.setting.limits.harts }
    ensures alone { is_some result
        ≡ option_map_or sets_register (effect_here (here_on machine.now hart.0)) false }
    ensures effect { IfSome result (λ rd. (value : ℕ) × (to : ℕ)
        × (effect_here (here_on machine.now hart.0) ≡ Some (Effect.Next rd value to))) }
{
    match machine.next_effect(hart) {
        Some(Effect::Next { rd, .. }) => Some(rd),
        _ => None,
    }
}

/// Makes the next instruction of a hart that goes freely (`goes_freely`), which sets a register and
/// the pc alone, and appends all that is told of it: its entry. None exactly where the hart doesn't go freely;
/// then nothing is made or told. The run must go on.
///
/// It errs only for want of memory.
#[inline(always)]
pub fn trace_freely(
    facts: &mut Vec<Fact>,
    machine: &mut Machine,
    hart: Hart,
) -> Result<Option<Entry>, AllocError>
    requires run { IsBlockRun machine.old.setting machine.old.log }
    requires goes { has_ended machine.old.setting (past_of machine.old) ≡ false }
    requires hart { hart.0 < machine.old.setting.limits.harts }
    ensures free { IfOk result (λ made. is_some made ≡ goes_freely (here_on machine.old hart.0)) }
    ensures told { IfOk result (λ made. IfSome made
        (IsMadeFreely machine.old machine.new hart.0 facts.old.items facts.new.items)) }
    ensures none { IfOk result (λ made. IfNone made (machine.new ≡ machine.old)) }
    ensures untold { IfOk result (λ made. IfNone made (facts.new.items ≡ facts.old.items)) }
{
    plain_events_are_told_by_their_facts();
    let Some(number) = register_alone(machine, hart) else {
        return Ok(None);
    };
    let before = register_on(machine, hart, number);
    let Some(entry) = machine.step_freely(hart) else {
        return Ok(None);
    };
    let value = register_on(machine, hart, number);
    push_if_other(facts, number, before, value)?;
    Ok(Some(entry))
}
