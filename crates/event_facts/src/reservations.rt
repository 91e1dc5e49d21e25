//! What an event made of reservations.

ghost use Rattle.std.specs.Prelude.{◌≡◌, ◌<◌, ◌++◌, ◌∷◌, [], None, OnOk, option_to_list};
ghost use Rattle.mach_types.specs.Bytes.{all_stored};
ghost use Rattle.mach_types.specs.declared.user_memory.Write.TheVariants.{Stored};
ghost use Rattle.rv_inst.specs.Execution as execution;
ghost use Rattle.event_facts.specs.Reservations.{all_lost, ended_facts, lost_facts, lost_of, lr_facts, replaced_facts, reserving_facts, sc_facts};
ghost use Rattle.event_facts.specs.Telling.{past_of};

use crate::deeds::{is_reserved, reserved_at};
use fact_types::Fact;
use mach_types::{Hart, Store};
use machine_core::Machine;
use rv_inst::Effect;
use std::alloc::AllocError;

/// Appends that a reservation ended, if there was one.
fn push_ended(facts: &mut Vec<Fact>, reserved: Option<u64>) -> Result<(), AllocError>
    ensures { OnOk result (facts.new.items ≡ facts.old.items ++ ended_facts reserved None) }
{
    if let Some(at) = reserved {
        facts.push(Fact::Ended { at })?;
    }
    Ok(())
}

/// Appends that the reservation of an event's hart ended, where it was this before and is that after.
pub(crate) fn push_if_ended(
    facts: &mut Vec<Fact>,
    before: Option<u64>,
    after: Option<u64>,
) -> Result<(), AllocError>
    ensures { OnOk result (facts.new.items ≡ facts.old.items ++ ended_facts before after) }
{
    match (before, after) {
        (Some(at), None) => facts.push(Fact::Ended { at })?,
        (Some(_), Some(_)) | (None, _) => {}
    }
    Ok(())
}

/// Appends that a reservation ended that an LR at an address takes the place of: one of other bytes.
fn push_replaced(facts: &mut Vec<Fact>, reserved: Option<u64>, at: u64) -> Result<(), AllocError>
    ensures { OnOk result (facts.new.items ≡ facts.old.items ++ replaced_facts reserved at) }
{
    if is_reserved(reserved, at) {
        return Ok(());
    }
    push_ended(facts, reserved)
}

/// Appends what an LR makes of the reservation of its hart.
fn push_lr(facts: &mut Vec<Fact>, reserved: Option<u64>, at: u64) -> Result<(), AllocError>
    ensures { OnOk result (facts.new.items ≡ facts.old.items ++ lr_facts reserved at) }
{
    push_replaced(facts, reserved, at)?;
    facts.push(Fact::Reserved {
        at: reserved_at(at),
    })?;
    Ok(())
}

/// Appends what an SC makes of the reservation of its hart.
fn push_sc(facts: &mut Vec<Fact>, reserved: Option<u64>, at: u64) -> Result<(), AllocError>
    ensures { OnOk result (facts.new.items ≡ facts.old.items ++ sc_facts reserved at) }
{
    if is_reserved(reserved, at) {
        facts.push(Fact::Used {
            at: reserved_at(at),
        })?;
        return Ok(());
    }
    facts.push(Fact::Failed {
        at: reserved_at(at),
    })?;
    push_ended(facts, reserved)
}

/// Appends what an instruction with this effect makes of the reservation of its hart.
pub(crate) fn push_reserving(
    facts: &mut Vec<Fact>,
    reserved: Option<u64>,
    effect: &Effect,
) -> Result<(), AllocError>
    ensures { OnOk result (facts.new.items ≡ facts.old.items ++ reserving_facts reserved effect.now) }
{
    match *effect {
        Effect::Lr { at, .. } => push_lr(facts, reserved, at),
        Effect::Sc { at, .. } => push_sc(facts, reserved, at),
        _ => Ok(()),
    }
}

/// Whether one of so many bytes from an address on is one of the 8 that are reserved from `start` on.
pub(crate) fn takes(at: u64, length: u64, start: u64) -> bool
    ensures { result ≡ execution.has_reserved start at length }
{
    let end = u128::from(at) + u128::from(length);
    length > 0 && u128::from(start) < end && u128::from(at) < u128::from(start) + 8
}

/// Appends that a hart, which has this reserved, loses it to a store that enters memory, if it does.
fn push_lost(
    facts: &mut Vec<Fact>,
    hart: Hart,
    reserved: Option<u64>,
    store: Store,
) -> Result<(), AllocError>
    ensures { OnOk result (facts.new.items
        ≡ facts.old.items ++ lost_facts hart.0 reserved (Stored store ∷ [])) }
{
    if let Some(start) = reserved {
        if takes(store.at, u64::from(store.size), start) {
            facts.push(Fact::Lost {
                hart,
                at: start,
                by: store.at,
            })?;
        }
    }
    Ok(())
}

/// Appends what a store of a hart, as it enters memory, makes of the reservation of one hart, its own or
/// another one.
fn push_lost_of(
    facts: &mut Vec<Fact>,
    machine: &Machine,
    hart: Hart,
    other: Hart,
    store: Store,
) -> Result<(), AllocError>
    requires { other.0 < machine.now.setting.limits.harts }
    ensures { OnOk result (facts.new.items ≡ facts.old.items
        ++ lost_of hart.0 (past_of machine.now) (Stored store ∷ []) other.0) }
{
    if hart.0 == other.0 {
        return Ok(());
    }
    push_lost(facts, other, machine.hart(other).reserved, store)
}

/// Appends what a store of a hart, as it enters memory, makes of the reservations of the other harts; nothing
/// where none enters.
pub(crate) fn push_all_lost(
    facts: &mut Vec<Fact>,
    machine: &Machine,
    hart: Hart,
    entered: Option<Store>,
) -> Result<(), AllocError>
    ensures { OnOk result (facts.new.items ≡ facts.old.items
        ++ all_lost hart.0 (past_of machine.now) (all_stored (option_to_list entered))
        machine.now.setting.limits.harts) }
{
    let Some(store) = entered else {
        return Ok(());
    };
    for number in 0..machine.harts() {
        push_lost_of(facts, machine, hart, Hart(number), store)?;
    }
    Ok(())
}
