//! The registers that an event changed.

ghost use Rattle.std.specs.Prelude.{◌≡◌, ◌==◌, ◌++◌, ◌∷◌, [], OnOk, if◌then◌else◌};
ghost use Rattle.event_facts.specs.Facts.{register_fact, register_facts};
ghost use Rattle.event_facts.specs.Telling as spec;

use fact_types::Fact;
use mach_types::Regs;
use rv_inst::Effect;
use std::alloc::AllocError;

/// How many registers there are.
pub(crate) const REGISTERS: u8 = 32;

/// The stack pointer (RISC-V psABI).
pub(crate) const SP: u8 = 2;

/// The register of a call's first argument and of its answer, a0. The other arguments are in the next ones.
pub(crate) const A0: u8 = 10;

/// The register of a call's number, a7.
pub(crate) const A7: u8 = 17;

/// The register that an instruction with this effect sets; x0, which stays 0, where it sets none.
pub(crate) fn register_set(effect: &Effect) -> u8
    ensures { result ≡ spec.register_set effect.now }
{
    match *effect {
        Effect::Next { rd, .. } => rd,
        Effect::Load { rd, .. } => rd,
        Effect::Amo { rd, .. } => rd,
        Effect::Lr { rd, .. } => rd,
        Effect::Sc { rd, .. } => rd,
        Effect::Store { .. } | Effect::Fence { .. } | Effect::FenceI => 0,
        Effect::Call | Effect::Break | Effect::Misaligned => 0,
    }
}

/// Appends a fact. Mostly there is room for it.
#[inline(always)]
fn append(facts: &mut Vec<Fact>, fact: Fact) -> Result<(), AllocError>
    ensures { OnOk result (facts.new.items ≡ facts.old.items ++ fact ∷ []) }
{
    if facts.len() < facts.capacity() {
        facts.push_reserved(fact);
    } else {
        facts.push(fact)?;
    }
    Ok(())
}

/// Appends that register `number` of a thread has this value, where it had another one before.
#[inline(always)]
pub(crate) fn push_if_other(
    facts: &mut Vec<Fact>,
    number: u8,
    before: u64,
    value: u64,
) -> Result<(), AllocError>
    ensures { OnOk result (facts.new.items
        ≡ facts.old.items ++ (if before == value then [] else Fact.Register number value ∷ [])) }
{
    if before != value {
        append(facts, Fact::Register { number, value })?;
    }
    Ok(())
}

/// Appends register `number` of a thread, where its value is another one.
fn push_register(
    facts: &mut Vec<Fact>,
    before: &Regs,
    after: &Regs,
    number: u8,
) -> Result<(), AllocError>
    ensures { OnOk result (facts.new.items
        ≡ facts.old.items ++ register_fact before.now after.now number) }
{
    push_if_other(facts, number, before.get(number), after.get(number))
}

/// Appends each register of a thread that changed from one file to another.
pub(crate) fn push_registers(
    facts: &mut Vec<Fact>,
    before: &Regs,
    after: &Regs,
) -> Result<(), AllocError>
    ensures { OnOk result (facts.new.items
        ≡ facts.old.items ++ register_facts before.now after.now) }
{
    for number in 0..REGISTERS {
        push_register(facts, before, after, number)?;
    }
    Ok(())
}
