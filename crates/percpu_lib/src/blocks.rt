//! The blocks that work on a cell, a list or a pool of their processor: what each is, and how it is appended.
//! The block that adds is after librseq's `rseq_addv`, and those that push and pop are after the list of the
//! kernel's rseq tests; those that take an item out of a pool and put one in are own.

ghost use Rattle.std.specs.Prelude.{◌≡◌, ◌↔◌, ◌+◌, ◌^◌, ◌<◌, ℕ, Ok, Err, OnOk, IfOk, take};
ghost use Rattle.percpu_lib.specs.{BlockKinds.kind_of, BlockLines.IsLabelled};
ghost use Rattle.percpu_lib.specs.{Kinds.lines_of, Kinds.steps_of, Words.AreSlots};
ghost use Rattle.percpu_lib.specs.Lines.{AreEmitted, HasRoom};

use crate::block_lines::lines_of_block;
use crate::fault::EmitFault;
use crate::lines::{Line, emit_lines};
use crate::room::has_room;
use crate::slots::Slots;
use crate::{branch, inst};
use rv_asm::Asm;
use rv_inst::Inst;
use std::alloc::{AllocError, Global};

/// What a block does.
#[derive(Clone, Copy, Drop)]
pub enum BlockKind {
    /// It adds the value to the cell of its processor.
    Adds,
    /// It pushes the node at the value on the list of its processor.
    Pushes,
    /// It pops the first node off the list of its processor into the value, which is 0 where there is none.
    Pops,
    /// It takes the last item out of the pool of its processor into the value, which is 0 where there is none.
    Allocs,
    /// It puts the value behind the items of the pool of its processor and makes it 0, or does nothing where the
    /// pool is full.
    Frees,
}

/// What a block of a kind does inside.
fn steps_of_kind(
    alloc: Global,
    base: u32,
    slots: Slots,
    kind: BlockKind,
) -> Result<Vec<Line>, AllocError>
    requires fits { base + 8 < 2 ^ 32 }
    ensures { IfOk result (λ lines. lines.items ≡ steps_of (kind_of kind) slots base) }
{
    match kind {
        BlockKind::Adds => Vec::from_slice(
            alloc,
            &[
                inst!(Ld rd = 6, rs1 = 5, imm = 0),
                inst!(Add rd = 6, rs1 = 6, rs2 = slots.value),
                inst!(Sd rs1 = 5, rs2 = 6, imm = 0),
            ],
        ),
        BlockKind::Pushes => Vec::from_slice(
            alloc,
            &[
                inst!(Ld rd = 6, rs1 = 5, imm = 0),
                inst!(Sd rs1 = slots.value, rs2 = 6, imm = 0),
                inst!(Sd rs1 = 5, rs2 = slots.value, imm = 0),
            ],
        ),
        BlockKind::Pops => Vec::from_slice(
            alloc,
            &[
                inst!(Ld rd = slots.value, rs1 = 5, imm = 0),
                branch!(Beq rs1 = slots.value, rs2 = 0 => base + 2),
                inst!(Ld rd = 6, rs1 = slots.value, imm = 0),
                inst!(Sd rs1 = 5, rs2 = 6, imm = 0),
            ],
        ),
        BlockKind::Allocs => Vec::from_slice(
            alloc,
            &[
                inst!(Ld rd = 6, rs1 = 5, imm = 0),
                inst!(Addi rd = slots.value, rs1 = 0, imm = 0),
                branch!(Beq rs1 = 6, rs2 = 0 => base + 2),
                inst!(Addi rd = 6, rs1 = 6, imm = -1),
                inst!(Slli rd = 7, rs1 = 6, shamt = 3),
                inst!(Add rd = 7, rs1 = 7, rs2 = 5),
                inst!(Ld rd = slots.value, rs1 = 7, imm = 64),
                inst!(Sd rs1 = 5, rs2 = 6, imm = 0),
            ],
        ),
        BlockKind::Frees => Vec::from_slice(
            alloc,
            &[
                inst!(Ld rd = 6, rs1 = 5, imm = 0),
                inst!(Addi rd = 7, rs1 = 0, imm = 512),
                branch!(Beq rs1 = 6, rs2 = 7 => base + 2),
                inst!(Slli rd = 7, rs1 = 6, shamt = 3),
                inst!(Add rd = 7, rs1 = 7, rs2 = 5),
                inst!(Sd rs1 = 7, rs2 = slots.value, imm = 64),
                inst!(Addi rd = 6, rs1 = 6, imm = 1),
                inst!(Addi rd = slots.value, rs1 = 0, imm = 0),
                inst!(Sd rs1 = 5, rs2 = 6, imm = 0),
            ],
        ),
    }
}

/// The lines of a block of a kind.
fn lines_of_kind(
    alloc: Global,
    base: u32,
    slots: Slots,
    kind: BlockKind,
) -> Result<Vec<Line>, AllocError>
    requires low { slots.table < 0x7FFFF800 }
    requires fits { base + 8 < 2 ^ 32 }
    ensures { IfOk result (λ lines. lines.items ≡ lines_of (kind_of kind) slots base) }
{
    let steps = steps_of_kind(alloc, base, slots, kind)?;
    match kind {
        BlockKind::Adds => lines_of_block(alloc, base, slots, 6, &[], &steps, &[]),
        BlockKind::Pushes => lines_of_block(alloc, base, slots, 6, &[], &steps, &[]),
        BlockKind::Pops => lines_of_block(alloc, base, slots, 6, &[], &steps, &[]),
        BlockKind::Allocs => lines_of_block(alloc, base, slots, 13, &[], &steps, &[]),
        BlockKind::Frees => {
            let kept = [inst!(Addi rd = 28, rs1 = slots.value, imm = 0)];
            let back = [inst!(Addi rd = slots.value, rs1 = 28, imm = 0)];
            lines_of_block(alloc, base, slots, 13, &kept, &steps, &back)
        }
    }
}

/// Appends a block of a kind.
///
/// Labels: `base` is the retry label, `base + 1` the start, `base + 2` the post-commit address, `base + 3`
/// the abort address, and `base + 4` stands behind the block; `base + 5` to `base + 7` stay free. `Room`
/// exactly where one of the eight isn't free, and then nothing changes. `NoMemory` leaves the lines that were
/// appended before.
pub fn emit_block(
    alloc: Global,
    asm: &mut Asm,
    base: u32,
    slots: &Slots,
    kind: BlockKind,
) -> Result<(), EmitFault>
    requires slots { AreSlots slots.now }
    requires low { slots.now.table < 0x7FFFF800 }
    ensures room { (result ≡ Err EmitFault.Room) ↔ (HasRoom asm.old.labels base → ⊥) }
    ensures refused { result ≡ Err EmitFault.Room → asm.new ≡ asm.old }
    ensures ok { OnOk result (AreEmitted (lines_of (kind_of kind) slots.now base) asm.old asm.new) }
    ensures labelled { OnOk result (IsLabelled base asm.new) }
    ensures memory { result ≡ Err EmitFault.NoMemory
        → (n : ℕ) × AreEmitted (take n (lines_of (kind_of kind) slots.now base)) asm.old asm.new }
{
    if !has_room(asm, base) {
        return Err(EmitFault::Room);
    }
    let lines = lines_of_kind(alloc, base, *slots, kind)?;
    emit_lines(asm, &lines)?;
    Ok(())
}
