//! What each instruction does.

ghost use Rattle.std.specs.Prelude.{◌≡◌};
ghost use Rattle.rv_inst.specs.Meaning.{meaning};

use crate::control::{branch, fence, jump, next};
use crate::memory::{amo, load, load_reserved, store, store_conditional};
use crate::multiply::{
    product_32, product_high, product_high_mixed, product_high_unsigned, quotient, quotient_32,
    quotient_unsigned, quotient_unsigned_32, remainder, remainder_32, remainder_unsigned,
    remainder_unsigned_32,
};
use crate::words::{
    difference_32, is_less_signed, one_if, shift_left, shift_left_32, shift_right, shift_right_32,
    shift_right_signed, shift_right_signed_32, sum_32, word,
};
use mach_types::Regs;
use rv_inst::{AmoOp, Effect, Inst};

/// What an instruction at `pc` does with these registers, one line for each instruction.
///
/// Chapters RV32I, RV64I, "M", "A", "Zifencei" and "Ztso" of the RISC-V Unprivileged ISA. x0, and a register
/// past 31, reads 0. Registers and pc are those before the instruction, and nothing is changed here.
#[inline(always)]
#[tactic(auto, unfolding(rv_inst::specs::Meaning::meaning))]
pub fn effect(inst: &Inst, regs: &Regs, pc: u64) -> Effect
    ensures { result ≡ meaning inst.now regs.now pc }
{
    let x = regs;
    match *inst {
        Inst::Lui { rd, imm } => next(rd, word(imm), pc),
        Inst::Auipc { rd, imm } => next(rd, pc.wrapping_add(word(imm)), pc),
        Inst::Jal { rd, imm } => jump(rd, pc.wrapping_add(word(imm)), pc),
        Inst::Jalr { rd, rs1, imm } => jump(rd, x.get(rs1).wrapping_add(word(imm)) & !1, pc),
        Inst::Beq { rs1, rs2, imm } => branch(x.get(rs1) == x.get(rs2), imm, pc),
        Inst::Bne { rs1, rs2, imm } => branch(x.get(rs1) != x.get(rs2), imm, pc),
        Inst::Blt { rs1, rs2, imm } => branch(is_less_signed(x.get(rs1), x.get(rs2)), imm, pc),
        Inst::Bge { rs1, rs2, imm } => branch(!is_less_signed(x.get(rs1), x.get(rs2)), imm, pc),
        Inst::Bltu { rs1, rs2, imm } => branch(x.get(rs1) < x.get(rs2), imm, pc),
        Inst::Bgeu { rs1, rs2, imm } => branch(x.get(rs1) >= x.get(rs2), imm, pc),
        Inst::Lb { rd, rs1, imm } => load(rd, x.get(rs1), imm, 1, true),
        Inst::Lh { rd, rs1, imm } => load(rd, x.get(rs1), imm, 2, true),
        Inst::Lw { rd, rs1, imm } => load(rd, x.get(rs1), imm, 4, true),
        Inst::Ld { rd, rs1, imm } => load(rd, x.get(rs1), imm, 8, true),
        Inst::Lbu { rd, rs1, imm } => load(rd, x.get(rs1), imm, 1, false),
        Inst::Lhu { rd, rs1, imm } => load(rd, x.get(rs1), imm, 2, false),
        Inst::Lwu { rd, rs1, imm } => load(rd, x.get(rs1), imm, 4, false),
        Inst::Sb { rs1, rs2, imm } => store(x.get(rs1), imm, 1, x.get(rs2)),
        Inst::Sh { rs1, rs2, imm } => store(x.get(rs1), imm, 2, x.get(rs2)),
        Inst::Sw { rs1, rs2, imm } => store(x.get(rs1), imm, 4, x.get(rs2)),
        Inst::Sd { rs1, rs2, imm } => store(x.get(rs1), imm, 8, x.get(rs2)),
        Inst::Addi { rd, rs1, imm } => next(rd, x.get(rs1).wrapping_add(word(imm)), pc),
        Inst::Slti { rd, rs1, imm } => next(rd, one_if(is_less_signed(x.get(rs1), word(imm))), pc),
        Inst::Sltiu { rd, rs1, imm } => next(rd, one_if(x.get(rs1) < word(imm)), pc),
        Inst::Xori { rd, rs1, imm } => next(rd, x.get(rs1) ^ word(imm), pc),
        Inst::Ori { rd, rs1, imm } => next(rd, x.get(rs1) | word(imm), pc),
        Inst::Andi { rd, rs1, imm } => next(rd, x.get(rs1) & word(imm), pc),
        Inst::Slli { rd, rs1, shamt } => next(rd, shift_left(x.get(rs1), shamt as u64), pc),
        Inst::Srli { rd, rs1, shamt } => next(rd, shift_right(x.get(rs1), shamt as u64), pc),
        Inst::Srai { rd, rs1, shamt } => next(rd, shift_right_signed(x.get(rs1), shamt as u64), pc),
        Inst::Addiw { rd, rs1, imm } => next(rd, sum_32(x.get(rs1), word(imm)), pc),
        Inst::Slliw { rd, rs1, shamt } => next(rd, shift_left_32(x.get(rs1), shamt as u64), pc),
        Inst::Srliw { rd, rs1, shamt } => next(rd, shift_right_32(x.get(rs1), shamt as u64), pc),
        Inst::Sraiw { rd, rs1, shamt } => next(
            rd,
            shift_right_signed_32(x.get(rs1), shamt as u64),
            pc,
        ),
        Inst::Add { rd, rs1, rs2 } => next(rd, x.get(rs1).wrapping_add(x.get(rs2)), pc),
        Inst::Sub { rd, rs1, rs2 } => next(rd, x.get(rs1).wrapping_sub(x.get(rs2)), pc),
        Inst::Sll { rd, rs1, rs2 } => next(rd, shift_left(x.get(rs1), x.get(rs2)), pc),
        Inst::Slt { rd, rs1, rs2 } => next(rd, one_if(is_less_signed(x.get(rs1), x.get(rs2))), pc),
        Inst::Sltu { rd, rs1, rs2 } => next(rd, one_if(x.get(rs1) < x.get(rs2)), pc),
        Inst::Xor { rd, rs1, rs2 } => next(rd, x.get(rs1) ^ x.get(rs2), pc),
        Inst::Srl { rd, rs1, rs2 } => next(rd, shift_right(x.get(rs1), x.get(rs2)), pc),
        Inst::Sra { rd, rs1, rs2 } => next(rd, shift_right_signed(x.get(rs1), x.get(rs2)), pc),
        Inst::Or { rd, rs1, rs2 } => next(rd, x.get(rs1) | x.get(rs2), pc),
        Inst::And { rd, rs1, rs2 } => next(rd, x.get(rs1) & x.get(rs2), pc),
        Inst::Mul { rd, rs1, rs2 } => next(rd, x.get(rs1).wrapping_mul(x.get(rs2)), pc),
        Inst::Mulh { rd, rs1, rs2 } => next(rd, product_high(x.get(rs1), x.get(rs2)), pc),
        Inst::Mulhsu { rd, rs1, rs2 } => next(rd, product_high_mixed(x.get(rs1), x.get(rs2)), pc),
        Inst::Mulhu { rd, rs1, rs2 } => next(rd, product_high_unsigned(x.get(rs1), x.get(rs2)), pc),
        Inst::Div { rd, rs1, rs2 } => next(rd, quotient(x.get(rs1), x.get(rs2)), pc),
        Inst::Divu { rd, rs1, rs2 } => next(rd, quotient_unsigned(x.get(rs1), x.get(rs2)), pc),
        Inst::Rem { rd, rs1, rs2 } => next(rd, remainder(x.get(rs1), x.get(rs2)), pc),
        Inst::Remu { rd, rs1, rs2 } => next(rd, remainder_unsigned(x.get(rs1), x.get(rs2)), pc),
        Inst::Addw { rd, rs1, rs2 } => next(rd, sum_32(x.get(rs1), x.get(rs2)), pc),
        Inst::Subw { rd, rs1, rs2 } => next(rd, difference_32(x.get(rs1), x.get(rs2)), pc),
        Inst::Sllw { rd, rs1, rs2 } => next(rd, shift_left_32(x.get(rs1), x.get(rs2)), pc),
        Inst::Srlw { rd, rs1, rs2 } => next(rd, shift_right_32(x.get(rs1), x.get(rs2)), pc),
        Inst::Sraw { rd, rs1, rs2 } => next(rd, shift_right_signed_32(x.get(rs1), x.get(rs2)), pc),
        Inst::Mulw { rd, rs1, rs2 } => next(rd, product_32(x.get(rs1), x.get(rs2)), pc),
        Inst::Divw { rd, rs1, rs2 } => next(rd, quotient_32(x.get(rs1), x.get(rs2)), pc),
        Inst::Divuw { rd, rs1, rs2 } => next(rd, quotient_unsigned_32(x.get(rs1), x.get(rs2)), pc),
        Inst::Remw { rd, rs1, rs2 } => next(rd, remainder_32(x.get(rs1), x.get(rs2)), pc),
        Inst::Remuw { rd, rs1, rs2 } => next(rd, remainder_unsigned_32(x.get(rs1), x.get(rs2)), pc),
        Inst::Fence { fm, pred, succ } => fence(fm, pred, succ),
        Inst::FenceI => Effect::FenceI,
        Inst::LrW { rd, rs1 } => load_reserved(rd, x.get(rs1), 4),
        Inst::ScW { rd, rs1, rs2 } => store_conditional(rd, x.get(rs1), 4, x.get(rs2)),
        Inst::AmoSwapW { rd, rs1, rs2 } => amo(AmoOp::Swap, rd, x.get(rs1), 4, x.get(rs2)),
        Inst::AmoAddW { rd, rs1, rs2 } => amo(AmoOp::Add, rd, x.get(rs1), 4, x.get(rs2)),
        Inst::AmoXorW { rd, rs1, rs2 } => amo(AmoOp::Xor, rd, x.get(rs1), 4, x.get(rs2)),
        Inst::AmoAndW { rd, rs1, rs2 } => amo(AmoOp::And, rd, x.get(rs1), 4, x.get(rs2)),
        Inst::AmoOrW { rd, rs1, rs2 } => amo(AmoOp::Or, rd, x.get(rs1), 4, x.get(rs2)),
        Inst::AmoMinW { rd, rs1, rs2 } => amo(AmoOp::Min, rd, x.get(rs1), 4, x.get(rs2)),
        Inst::AmoMaxW { rd, rs1, rs2 } => amo(AmoOp::Max, rd, x.get(rs1), 4, x.get(rs2)),
        Inst::AmoMinuW { rd, rs1, rs2 } => amo(AmoOp::MinU, rd, x.get(rs1), 4, x.get(rs2)),
        Inst::AmoMaxuW { rd, rs1, rs2 } => amo(AmoOp::MaxU, rd, x.get(rs1), 4, x.get(rs2)),
        Inst::LrD { rd, rs1 } => load_reserved(rd, x.get(rs1), 8),
        Inst::ScD { rd, rs1, rs2 } => store_conditional(rd, x.get(rs1), 8, x.get(rs2)),
        Inst::AmoSwapD { rd, rs1, rs2 } => amo(AmoOp::Swap, rd, x.get(rs1), 8, x.get(rs2)),
        Inst::AmoAddD { rd, rs1, rs2 } => amo(AmoOp::Add, rd, x.get(rs1), 8, x.get(rs2)),
        Inst::AmoXorD { rd, rs1, rs2 } => amo(AmoOp::Xor, rd, x.get(rs1), 8, x.get(rs2)),
        Inst::AmoAndD { rd, rs1, rs2 } => amo(AmoOp::And, rd, x.get(rs1), 8, x.get(rs2)),
        Inst::AmoOrD { rd, rs1, rs2 } => amo(AmoOp::Or, rd, x.get(rs1), 8, x.get(rs2)),
        Inst::AmoMinD { rd, rs1, rs2 } => amo(AmoOp::Min, rd, x.get(rs1), 8, x.get(rs2)),
        Inst::AmoMaxD { rd, rs1, rs2 } => amo(AmoOp::Max, rd, x.get(rs1), 8, x.get(rs2)),
        Inst::AmoMinuD { rd, rs1, rs2 } => amo(AmoOp::MinU, rd, x.get(rs1), 8, x.get(rs2)),
        Inst::AmoMaxuD { rd, rs1, rs2 } => amo(AmoOp::MaxU, rd, x.get(rs1), 8, x.get(rs2)),
        Inst::Ecall => Effect::Call,
        Inst::Ebreak => Effect::Break,
    }
}
