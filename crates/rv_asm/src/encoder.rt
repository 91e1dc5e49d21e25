//! The word of an instruction.

ghost use Rattle.std.specs.Prelude.{◌≡◌, Some, IfSome, is_some};
ghost use Rattle.rv_inst.specs.Table.{row_of};
ghost use Rattle.rv_asm.specs.Fields.{fits_fields, unused_bits};

use crate::formats::{
    format_atomic, format_b, format_fence, format_i, format_j, format_r, format_s, format_shift,
    format_u,
};
use rv_decode::opcodes;
use rv_inst::Inst;

/// The word of an instruction, one line for each instruction; `None` exactly where a register or an immediate
/// doesn't fit its field.
///
/// The word decodes to the instruction. Its unused bits are zero: aq and rl of the A instructions, and those
/// that FENCE and FENCE.I leave open. Takes no memory.
pub fn encode(inst: &Inst) -> Option<u32>
    ensures fits { is_some result ≡ fits_fields inst.now }
    ensures decodes { IfSome result (λ w. row_of w ≡ Some inst.now) }
    ensures unused { IfSome result (λ w. unused_bits inst.now w ≡ 0) }
{
    match *inst {
        Inst::Lui { rd, imm } => format_u(opcodes::LUI, rd, imm),
        Inst::Auipc { rd, imm } => format_u(opcodes::AUIPC, rd, imm),
        Inst::Jal { rd, imm } => format_j(rd, imm),
        Inst::Jalr { rd, rs1, imm } => format_i(opcodes::JALR, 0, rd, rs1, imm),
        Inst::Beq { rs1, rs2, imm } => format_b(0, rs1, rs2, imm),
        Inst::Bne { rs1, rs2, imm } => format_b(1, rs1, rs2, imm),
        Inst::Blt { rs1, rs2, imm } => format_b(4, rs1, rs2, imm),
        Inst::Bge { rs1, rs2, imm } => format_b(5, rs1, rs2, imm),
        Inst::Bltu { rs1, rs2, imm } => format_b(6, rs1, rs2, imm),
        Inst::Bgeu { rs1, rs2, imm } => format_b(7, rs1, rs2, imm),
        Inst::Lb { rd, rs1, imm } => format_i(opcodes::LOAD, 0, rd, rs1, imm),
        Inst::Lh { rd, rs1, imm } => format_i(opcodes::LOAD, 1, rd, rs1, imm),
        Inst::Lw { rd, rs1, imm } => format_i(opcodes::LOAD, 2, rd, rs1, imm),
        Inst::Ld { rd, rs1, imm } => format_i(opcodes::LOAD, 3, rd, rs1, imm),
        Inst::Lbu { rd, rs1, imm } => format_i(opcodes::LOAD, 4, rd, rs1, imm),
        Inst::Lhu { rd, rs1, imm } => format_i(opcodes::LOAD, 5, rd, rs1, imm),
        Inst::Lwu { rd, rs1, imm } => format_i(opcodes::LOAD, 6, rd, rs1, imm),
        Inst::Sb { rs1, rs2, imm } => format_s(0, rs1, rs2, imm),
        Inst::Sh { rs1, rs2, imm } => format_s(1, rs1, rs2, imm),
        Inst::Sw { rs1, rs2, imm } => format_s(2, rs1, rs2, imm),
        Inst::Sd { rs1, rs2, imm } => format_s(3, rs1, rs2, imm),
        Inst::Addi { rd, rs1, imm } => format_i(opcodes::OP_IMM, 0, rd, rs1, imm),
        Inst::Slti { rd, rs1, imm } => format_i(opcodes::OP_IMM, 2, rd, rs1, imm),
        Inst::Sltiu { rd, rs1, imm } => format_i(opcodes::OP_IMM, 3, rd, rs1, imm),
        Inst::Xori { rd, rs1, imm } => format_i(opcodes::OP_IMM, 4, rd, rs1, imm),
        Inst::Ori { rd, rs1, imm } => format_i(opcodes::OP_IMM, 6, rd, rs1, imm),
        Inst::Andi { rd, rs1, imm } => format_i(opcodes::OP_IMM, 7, rd, rs1, imm),
        Inst::Slli { rd, rs1, shamt } => format_shift(1, 0x00, rd, rs1, shamt),
        Inst::Srli { rd, rs1, shamt } => format_shift(5, 0x00, rd, rs1, shamt),
        Inst::Srai { rd, rs1, shamt } => format_shift(5, 0x10, rd, rs1, shamt),
        Inst::Addiw { rd, rs1, imm } => format_i(opcodes::OP_IMM_32, 0, rd, rs1, imm),
        Inst::Slliw { rd, rs1, shamt } => format_r(opcodes::OP_IMM_32, 1, 0x00, rd, rs1, shamt),
        Inst::Srliw { rd, rs1, shamt } => format_r(opcodes::OP_IMM_32, 5, 0x00, rd, rs1, shamt),
        Inst::Sraiw { rd, rs1, shamt } => format_r(opcodes::OP_IMM_32, 5, 0x20, rd, rs1, shamt),
        Inst::Add { rd, rs1, rs2 } => format_r(opcodes::OP, 0, 0x00, rd, rs1, rs2),
        Inst::Sub { rd, rs1, rs2 } => format_r(opcodes::OP, 0, 0x20, rd, rs1, rs2),
        Inst::Sll { rd, rs1, rs2 } => format_r(opcodes::OP, 1, 0x00, rd, rs1, rs2),
        Inst::Slt { rd, rs1, rs2 } => format_r(opcodes::OP, 2, 0x00, rd, rs1, rs2),
        Inst::Sltu { rd, rs1, rs2 } => format_r(opcodes::OP, 3, 0x00, rd, rs1, rs2),
        Inst::Xor { rd, rs1, rs2 } => format_r(opcodes::OP, 4, 0x00, rd, rs1, rs2),
        Inst::Srl { rd, rs1, rs2 } => format_r(opcodes::OP, 5, 0x00, rd, rs1, rs2),
        Inst::Sra { rd, rs1, rs2 } => format_r(opcodes::OP, 5, 0x20, rd, rs1, rs2),
        Inst::Or { rd, rs1, rs2 } => format_r(opcodes::OP, 6, 0x00, rd, rs1, rs2),
        Inst::And { rd, rs1, rs2 } => format_r(opcodes::OP, 7, 0x00, rd, rs1, rs2),
        Inst::Mul { rd, rs1, rs2 } => format_r(opcodes::OP, 0, 0x01, rd, rs1, rs2),
        Inst::Mulh { rd, rs1, rs2 } => format_r(opcodes::OP, 1, 0x01, rd, rs1, rs2),
        Inst::Mulhsu { rd, rs1, rs2 } => format_r(opcodes::OP, 2, 0x01, rd, rs1, rs2),
        Inst::Mulhu { rd, rs1, rs2 } => format_r(opcodes::OP, 3, 0x01, rd, rs1, rs2),
        Inst::Div { rd, rs1, rs2 } => format_r(opcodes::OP, 4, 0x01, rd, rs1, rs2),
        Inst::Divu { rd, rs1, rs2 } => format_r(opcodes::OP, 5, 0x01, rd, rs1, rs2),
        Inst::Rem { rd, rs1, rs2 } => format_r(opcodes::OP, 6, 0x01, rd, rs1, rs2),
        Inst::Remu { rd, rs1, rs2 } => format_r(opcodes::OP, 7, 0x01, rd, rs1, rs2),
        Inst::Addw { rd, rs1, rs2 } => format_r(opcodes::OP_32, 0, 0x00, rd, rs1, rs2),
        Inst::Subw { rd, rs1, rs2 } => format_r(opcodes::OP_32, 0, 0x20, rd, rs1, rs2),
        Inst::Sllw { rd, rs1, rs2 } => format_r(opcodes::OP_32, 1, 0x00, rd, rs1, rs2),
        Inst::Srlw { rd, rs1, rs2 } => format_r(opcodes::OP_32, 5, 0x00, rd, rs1, rs2),
        Inst::Sraw { rd, rs1, rs2 } => format_r(opcodes::OP_32, 5, 0x20, rd, rs1, rs2),
        Inst::Mulw { rd, rs1, rs2 } => format_r(opcodes::OP_32, 0, 0x01, rd, rs1, rs2),
        Inst::Divw { rd, rs1, rs2 } => format_r(opcodes::OP_32, 4, 0x01, rd, rs1, rs2),
        Inst::Divuw { rd, rs1, rs2 } => format_r(opcodes::OP_32, 5, 0x01, rd, rs1, rs2),
        Inst::Remw { rd, rs1, rs2 } => format_r(opcodes::OP_32, 6, 0x01, rd, rs1, rs2),
        Inst::Remuw { rd, rs1, rs2 } => format_r(opcodes::OP_32, 7, 0x01, rd, rs1, rs2),
        Inst::Fence { fm, pred, succ } => format_fence(fm, pred, succ),
        Inst::FenceI => Some(0x0000_100f),
        Inst::LrW { rd, rs1 } => format_atomic(2, 0x02, rd, rs1, 0),
        Inst::ScW { rd, rs1, rs2 } => format_atomic(2, 0x03, rd, rs1, rs2),
        Inst::AmoSwapW { rd, rs1, rs2 } => format_atomic(2, 0x01, rd, rs1, rs2),
        Inst::AmoAddW { rd, rs1, rs2 } => format_atomic(2, 0x00, rd, rs1, rs2),
        Inst::AmoXorW { rd, rs1, rs2 } => format_atomic(2, 0x04, rd, rs1, rs2),
        Inst::AmoAndW { rd, rs1, rs2 } => format_atomic(2, 0x0c, rd, rs1, rs2),
        Inst::AmoOrW { rd, rs1, rs2 } => format_atomic(2, 0x08, rd, rs1, rs2),
        Inst::AmoMinW { rd, rs1, rs2 } => format_atomic(2, 0x10, rd, rs1, rs2),
        Inst::AmoMaxW { rd, rs1, rs2 } => format_atomic(2, 0x14, rd, rs1, rs2),
        Inst::AmoMinuW { rd, rs1, rs2 } => format_atomic(2, 0x18, rd, rs1, rs2),
        Inst::AmoMaxuW { rd, rs1, rs2 } => format_atomic(2, 0x1c, rd, rs1, rs2),
        Inst::LrD { rd, rs1 } => format_atomic(3, 0x02, rd, rs1, 0),
        Inst::ScD { rd, rs1, rs2 } => format_atomic(3, 0x03, rd, rs1, rs2),
        Inst::AmoSwapD { rd, rs1, rs2 } => format_atomic(3, 0x01, rd, rs1, rs2),
        Inst::AmoAddD { rd, rs1, rs2 } => format_atomic(3, 0x00, rd, rs1, rs2),
        Inst::AmoXorD { rd, rs1, rs2 } => format_atomic(3, 0x04, rd, rs1, rs2),
        Inst::AmoAndD { rd, rs1, rs2 } => format_atomic(3, 0x0c, rd, rs1, rs2),
        Inst::AmoOrD { rd, rs1, rs2 } => format_atomic(3, 0x08, rd, rs1, rs2),
        Inst::AmoMinD { rd, rs1, rs2 } => format_atomic(3, 0x10, rd, rs1, rs2),
        Inst::AmoMaxD { rd, rs1, rs2 } => format_atomic(3, 0x14, rd, rs1, rs2),
        Inst::AmoMinuD { rd, rs1, rs2 } => format_atomic(3, 0x18, rd, rs1, rs2),
        Inst::AmoMaxuD { rd, rs1, rs2 } => format_atomic(3, 0x1c, rd, rs1, rs2),
        Inst::Ecall => Some(0x0000_0073),
        Inst::Ebreak => Some(0x0010_0073),
    }
}
