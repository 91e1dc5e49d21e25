//! The blocks of a reader (liburcu, `urcu_memb_read_lock` and `urcu_memb_read_unlock`, without nesting).

ghost use Rattle.std.specs.Prelude.{◌≡◌, ℕ, OnOk, OnErr, take};
ghost use Rattle.percpu_lib.specs.Lines.{AreEmitted};
ghost use Rattle.urcu_lib.specs.Lines.{lock_lines, unlock_lines};
ghost use Rattle.urcu_lib.specs.Registers.{AreReadRegs};

use crate::regs::ReadRegs;
use percpu_lib::{emit_lines, inst};
use rv_asm::Asm;
use rv_inst::Inst;
use std::alloc::{AllocError, Global};

/// Appends the block before a reader's section: it loads the grace counter into `scratch` and stores it in
/// the slot (`ld scratch, 0(gp)`, `sd scratch, 0(slot)`).
///
/// The error is want of memory alone, and leaves the words that were appended before.
pub fn emit_read_lock(_alloc: Global, asm: &mut Asm, regs: &ReadRegs) -> Result<(), AllocError>
    requires { AreReadRegs regs.now }
    ensures ok { OnOk result (AreEmitted (lock_lines regs.now) asm.old asm.new) }
    ensures memory { OnErr result ((n : ℕ) × AreEmitted (take n (lock_lines regs.now)) asm.old asm.new) }
{
    let lines = [
        inst!(Ld rd = regs.scratch, rs1 = regs.gp, imm = 0),
        inst!(Sd rs1 = regs.slot, rs2 = regs.scratch, imm = 0),
    ];
    emit_lines(asm, &lines)
}

/// Appends the block behind a reader's section: it stores 0 in the slot (`sd x0, 0(slot)`).
///
/// The error is want of memory alone, and leaves the words that were appended before.
pub fn emit_read_unlock(_alloc: Global, asm: &mut Asm, regs: &ReadRegs) -> Result<(), AllocError>
    requires { AreReadRegs regs.now }
    ensures ok { OnOk result (AreEmitted (unlock_lines regs.now) asm.old asm.new) }
    ensures memory { OnErr result
        ((n : ℕ) × AreEmitted (take n (unlock_lines regs.now)) asm.old asm.new) }
{
    let lines = [inst!(Sd rs1 = regs.slot, rs2 = 0, imm = 0)];
    emit_lines(asm, &lines)
}
