//! The block that waits for readers (liburcu, `urcu_memb_synchronize_rcu`; membarrier(2)).

ghost use Rattle.std.specs.Prelude.{◌≡◌, ◌↔◌, ◌+◌, ◌≤◌, ◌<◌, ◌^◌, ℕ, Err, IsTrue, OnOk, length};
ghost use Rattle.std.specs.Prelude.{take};
ghost use Rattle.std.specs.Bool.{OnTrue};
ghost use Rattle.percpu_lib.specs.Lines.{AreEmitted};
ghost use Rattle.urcu_lib.specs.Lines.{AreFree, sync_lines};
ghost use Rattle.urcu_lib.specs.Registers.{AreSyncRegs};

use crate::regs::SyncRegs;
use percpu_lib::{EmitFault, Line, branch, emit_lines, inst};
use rv_asm::Asm;
use rv_inst::Inst;
use std::alloc::Global;

/// Whether the two labels from `base` on are free.
fn are_free(asm: &Asm, base: u32) -> bool
    ensures exact { IsTrue result ↔ AreFree asm.now.labels base }
    ensures within { OnTrue result (base + 2 ≤ length asm.now.labels) }
    ensures few { length asm.now.labels < 2 ^ 32 }
{
    asm.labels() >= 2
        && asm.labels() - 2 >= base
        && asm.place(base).is_none()
        && asm.place(base + 1).is_none()
}

/// The lines of a sync block of so many slots.
fn lines_of_sync(base: u32, regs: SyncRegs, readers: u8) -> [Line; 19]
    requires fits { base + 2 < 2 ^ 32 }
    ensures { result ≡ sync_lines regs base readers }
{
    [
        inst!(Addi rd = 10, rs1 = 0, imm = 8),
        inst!(Addi rd = 11, rs1 = 0, imm = 0),
        inst!(Addi rd = 12, rs1 = 0, imm = 0),
        inst!(Addi rd = 17, rs1 = 0, imm = 283),
        Line::Plain(Inst::Ecall),
        inst!(Ld rd = 5, rs1 = regs.gp, imm = 0),
        inst!(Addi rd = 5, rs1 = 5, imm = 1),
        inst!(Sd rs1 = regs.gp, rs2 = 5, imm = 0),
        inst!(Addi rd = 6, rs1 = regs.slots, imm = 0),
        inst!(Addi rd = 7, rs1 = 0, imm = readers as i64),
        Line::Label(base),
        inst!(Ld rd = 10, rs1 = 6, imm = 0),
        branch!(Beq rs1 = 10, rs2 = 0 => base + 1),
        branch!(Bltu rs1 = 10, rs2 = 5 => base),
        Line::Label(base + 1),
        inst!(Addi rd = 6, rs1 = 6, imm = 64),
        inst!(Addi rd = 7, rs1 = 7, imm = -1),
        branch!(Bne rs1 = 7, rs2 = 0 => base),
        inst!(Addi rd = 10, rs1 = 0, imm = 0),
    ]
}

/// Appends the block that waits for the sections of so many slots, from 1 to 63: it calls membarrier(8, 0,
/// 0), adds 1 to the grace counter, and for each slot in turn loads it until it is 0 or not below the new
/// counter, compared without sign.
///
/// Its last instruction stands behind the loop, so that a thread executes it once, when it leaves the block.
/// Labels: `base` is the loop, `base + 1` the way to the next slot. `Room` exactly where one of the two isn't
/// free, and then nothing changes. `NoMemory` leaves the lines that were appended before.
pub fn emit_sync(
    _alloc: Global,
    asm: &mut Asm,
    base: u32,
    regs: &SyncRegs,
    readers: u8,
) -> Result<(), EmitFault>
    requires regs { AreSyncRegs regs.now }
    requires some { 1 ≤ readers }
    requires few { readers ≤ 63 }
    ensures room { (result ≡ Err EmitFault.Room) ↔ (AreFree asm.old.labels base → ⊥) }
    ensures refused { result ≡ Err EmitFault.Room → asm.new ≡ asm.old }
    ensures ok { OnOk result (AreEmitted (sync_lines regs.now base readers) asm.old asm.new) }
    ensures memory { result ≡ Err EmitFault.NoMemory
        → (n : ℕ) × AreEmitted (take n (sync_lines regs.now base readers)) asm.old asm.new }
{
    if !are_free(asm, base) {
        return Err(EmitFault::Room);
    }
    let lines = lines_of_sync(base, *regs, readers);
    emit_lines(asm, &lines)?;
    Ok(())
}
