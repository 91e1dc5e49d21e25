//! The blocks that put words into the ring of their processor and get them out of it (own).

ghost use Rattle.std.specs.Prelude.{◌≡◌, ◌↔◌, ◌+◌, ◌^◌, ◌<◌, ◌≤◌, ℕ, Ok, Err, OnOk, IfOk, take};
ghost use Rattle.percpu_lib.specs.BlockKinds.{ring_kind_of};
ghost use Rattle.percpu_lib.specs.BlockLines.{IsLabelled};
ghost use Rattle.percpu_lib.specs.Lines.{AreEmitted, HasRoom};
ghost use Rattle.percpu_lib.specs.RingKinds.{ring_lines_of, ring_steps_of};
ghost use Rattle.percpu_lib.specs.Rings.{get_steps, put_steps};
ghost use Rattle.percpu_lib.specs.Words.{AreSlots};

use crate::block_lines::lines_of_block;
use crate::fault::EmitFault;
use crate::lines::{Line, emit_lines};
use crate::room::has_room;
use crate::slots::Slots;
use crate::{branch, inst};
use rv_asm::Asm;
use rv_inst::Inst;
use std::alloc::{AllocError, Global};

/// Which way the words of a block go.
#[derive(Clone, Copy, Drop)]
pub enum RingWay {
    /// Into the ring.
    In,
    /// Out of it.
    Out,
}

/// What a block does inside that puts so many words.
fn steps_of_put(alloc: Global, base: u32, slots: Slots, count: u8) -> Result<Vec<Line>, AllocError>
    requires few { count ≤ 4 }
    requires fits { base + 8 < 2 ^ 32 }
    ensures { IfOk result (λ lines. lines.items ≡ put_steps slots base count) }
{
    let mut lines = Vec::new(alloc);
    lines.extend_from_slice(&[
        inst!(Addi rd = 28, rs1 = slots.value, imm = 0),
        inst!(Ld rd = 6, rs1 = 5, imm = 8),
        inst!(Ld rd = 7, rs1 = 5, imm = 0),
        inst!(Sub rd = 7, rs1 = 6, rs2 = 7),
        inst!(Sltiu rd = 7, rs1 = 7, imm = 513 - count as i64),
        inst!(Addi rd = slots.value, rs1 = 0, imm = 0),
        branch!(Beq rs1 = 7, rs2 = 0 => base + 2),
        inst!(Addi rd = slots.value, rs1 = 28, imm = 0),
    ])?;
    for k in 0..count {
        lines.extend_from_slice(&[
            inst!(Andi rd = 7, rs1 = 6, imm = 511),
            inst!(Slli rd = 7, rs1 = 7, shamt = 3),
            inst!(Add rd = 7, rs1 = 7, rs2 = 5),
            inst!(Ld rd = 29, rs1 = slots.value, imm = 8 * k as i64),
            inst!(Sd rs1 = 7, rs2 = 29, imm = 64),
            inst!(Addi rd = 6, rs1 = 6, imm = 1),
        ])?;
    }
    lines.push(inst!(Sd rs1 = 5, rs2 = 6, imm = 8))?;
    Ok(lines)
}

/// What a block does inside that gets so many words.
fn steps_of_get(alloc: Global, base: u32, slots: Slots, count: u8) -> Result<Vec<Line>, AllocError>
    requires few { count ≤ 4 }
    requires fits { base + 8 < 2 ^ 32 }
    ensures { IfOk result (λ lines. lines.items ≡ get_steps slots base count) }
{
    let mut lines = Vec::new(alloc);
    lines.extend_from_slice(&[
        inst!(Addi rd = 28, rs1 = slots.value, imm = 0),
        inst!(Ld rd = 6, rs1 = 5, imm = 0),
        inst!(Ld rd = 7, rs1 = 5, imm = 8),
        inst!(Sub rd = 7, rs1 = 7, rs2 = 6),
        inst!(Sltiu rd = 7, rs1 = 7, imm = count as i64),
        inst!(Addi rd = slots.value, rs1 = 0, imm = 0),
        branch!(Bne rs1 = 7, rs2 = 0 => base + 2),
        inst!(Addi rd = slots.value, rs1 = 28, imm = 0),
    ])?;
    for k in 0..count {
        lines.extend_from_slice(&[
            inst!(Andi rd = 7, rs1 = 6, imm = 511),
            inst!(Slli rd = 7, rs1 = 7, shamt = 3),
            inst!(Add rd = 7, rs1 = 7, rs2 = 5),
            inst!(Ld rd = 29, rs1 = 7, imm = 64),
            inst!(Sd rs1 = slots.value, rs2 = 29, imm = 8 * k as i64),
            inst!(Addi rd = 6, rs1 = 6, imm = 1),
        ])?;
    }
    lines.push(inst!(Sd rs1 = 5, rs2 = 6, imm = 0))?;
    Ok(lines)
}

/// What a block does inside that moves so many words this way.
fn steps_of_ring(
    alloc: Global,
    base: u32,
    slots: Slots,
    way: RingWay,
    count: u8,
) -> Result<Vec<Line>, AllocError>
    requires few { count ≤ 4 }
    requires fits { base + 8 < 2 ^ 32 }
    ensures { IfOk result (λ lines. lines.items ≡ ring_steps_of (ring_kind_of way) slots base count) }
{
    match way {
        RingWay::In => steps_of_put(alloc, base, slots, count),
        RingWay::Out => steps_of_get(alloc, base, slots, count),
    }
}

/// Appends a block that moves `count` words this way: into the ring of its processor, from the address in the value
/// on, or out of it, into memory from there on. Where there is no room for them, or where the ring holds fewer, the
/// value becomes 0, and nothing else changes.
///
/// Labels, `Room` and `NoMemory` are as those of `emit_block`.
pub fn emit_ring(
    alloc: Global,
    asm: &mut Asm,
    base: u32,
    slots: &Slots,
    way: RingWay,
    count: u8,
) -> Result<(), EmitFault>
    requires slots { AreSlots slots.now }
    requires low { slots.now.table < 0x7FFFF800 }
    requires some { 1 ≤ count }
    requires few { count ≤ 4 }
    ensures room { (result ≡ Err EmitFault.Room) ↔ (HasRoom asm.old.labels base → ⊥) }
    ensures refused { result ≡ Err EmitFault.Room → asm.new ≡ asm.old }
    ensures ok { OnOk result (AreEmitted (ring_lines_of (ring_kind_of way) count slots.now base) asm.old asm.new) }
    ensures labelled { OnOk result (IsLabelled base asm.new) }
    ensures memory { result ≡ Err EmitFault.NoMemory
        → (n : ℕ) × AreEmitted (take n (ring_lines_of (ring_kind_of way) count slots.now base)) asm.old asm.new }
{
    if !has_room(asm, base) {
        return Err(EmitFault::Room);
    }
    let steps = steps_of_ring(alloc, base, *slots, way, count)?;
    let kept = [inst!(Addi rd = 28, rs1 = slots.value, imm = 0)];
    let back = [inst!(Addi rd = slots.value, rs1 = 28, imm = 0)];
    let lines = lines_of_block(alloc, base, *slots, 13, &kept, &steps, &back)?;
    emit_lines(asm, &lines)?;
    Ok(())
}
