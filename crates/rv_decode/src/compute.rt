//! Computation with registers and immediates.

ghost use Rattle.std.specs.Prelude.{◌≡◌};
ghost use Rattle.rv_inst.specs.Table.{row_of};
ghost use Rattle.rv_decode.specs.Selectors.{opcode, funct3, funct7};

use crate::fields::{
    funct3_of, funct6_of, funct7_of, imm_i_of, rd_of, rs1_of, rs2_of, shamt_32_of, shamt_of,
};
use rv_inst::Inst;

/// Computation with an immediate.
#[tactic(auto, using(crate::proofs::Selected::immediates), unfolding(crate::proofs::Selected::table))]
pub fn decode_op_imm(word: u32) -> Option<Inst>
    requires { opcode word ≡ 0x13 }
    ensures { result ≡ row_of word }
{
    let rd = rd_of(word);
    let rs1 = rs1_of(word);
    let imm = imm_i_of(word);
    match funct3_of(word) {
        0 => Some(Inst::Addi { rd, rs1, imm }),
        1 => decode_shift_left(word),
        2 => Some(Inst::Slti { rd, rs1, imm }),
        3 => Some(Inst::Sltiu { rd, rs1, imm }),
        4 => Some(Inst::Xori { rd, rs1, imm }),
        5 => decode_shift_right(word),
        6 => Some(Inst::Ori { rd, rs1, imm }),
        7 => Some(Inst::Andi { rd, rs1, imm }),
        _ => None,
    }
}

/// SLLI.
#[tactic(auto, using(crate::proofs::Selected::shift_left), unfolding(crate::proofs::Selected::table))]
fn decode_shift_left(word: u32) -> Option<Inst>
    requires is_op_imm { opcode word ≡ 0x13 }
    requires is_left { funct3 word ≡ 1 }
    ensures { result ≡ row_of word }
{
    let rd = rd_of(word);
    let rs1 = rs1_of(word);
    let shamt = shamt_of(word);
    match funct6_of(word) {
        0x00 => Some(Inst::Slli { rd, rs1, shamt }),
        _ => None,
    }
}

/// SRLI and SRAI.
#[tactic(auto, using(crate::proofs::Selected::shift_right), unfolding(crate::proofs::Selected::table))]
fn decode_shift_right(word: u32) -> Option<Inst>
    requires is_op_imm { opcode word ≡ 0x13 }
    requires is_right { funct3 word ≡ 5 }
    ensures { result ≡ row_of word }
{
    let rd = rd_of(word);
    let rs1 = rs1_of(word);
    let shamt = shamt_of(word);
    match funct6_of(word) {
        0x00 => Some(Inst::Srli { rd, rs1, shamt }),
        0x10 => Some(Inst::Srai { rd, rs1, shamt }),
        _ => None,
    }
}

/// Computation with an immediate on the low 32 bits.
#[tactic(auto, using(crate::proofs::Selected::immediates), unfolding(crate::proofs::Selected::table))]
pub fn decode_op_imm_32(word: u32) -> Option<Inst>
    requires { opcode word ≡ 0x1b }
    ensures { result ≡ row_of word }
{
    let rd = rd_of(word);
    let rs1 = rs1_of(word);
    let imm = imm_i_of(word);
    match funct3_of(word) {
        0 => Some(Inst::Addiw { rd, rs1, imm }),
        1 => decode_shift_left_32(word),
        5 => decode_shift_right_32(word),
        _ => None,
    }
}

/// SLLIW.
#[tactic(auto, using(crate::proofs::Selected::shift_left_32), unfolding(crate::proofs::Selected::table))]
fn decode_shift_left_32(word: u32) -> Option<Inst>
    requires is_op_imm_32 { opcode word ≡ 0x1b }
    requires is_left { funct3 word ≡ 1 }
    ensures { result ≡ row_of word }
{
    let rd = rd_of(word);
    let rs1 = rs1_of(word);
    let shamt = shamt_32_of(word);
    match funct7_of(word) {
        0x00 => Some(Inst::Slliw { rd, rs1, shamt }),
        _ => None,
    }
}

/// SRLIW and SRAIW.
#[tactic(auto, using(crate::proofs::Selected::shift_right_32), unfolding(crate::proofs::Selected::table))]
fn decode_shift_right_32(word: u32) -> Option<Inst>
    requires is_op_imm_32 { opcode word ≡ 0x1b }
    requires is_right { funct3 word ≡ 5 }
    ensures { result ≡ row_of word }
{
    let rd = rd_of(word);
    let rs1 = rs1_of(word);
    let shamt = shamt_32_of(word);
    match funct7_of(word) {
        0x00 => Some(Inst::Srliw { rd, rs1, shamt }),
        0x20 => Some(Inst::Sraiw { rd, rs1, shamt }),
        _ => None,
    }
}

/// Computation with two registers.
#[tactic(auto, using(crate::proofs::Selected::op), unfolding(crate::proofs::Selected::table))]
pub fn decode_op(word: u32) -> Option<Inst>
    requires { opcode word ≡ 0x33 }
    ensures { result ≡ row_of word }
{
    match funct7_of(word) {
        0x00 => decode_op_base(word),
        0x01 => decode_op_multiply(word),
        0x20 => decode_op_alternate(word),
        _ => None,
    }
}

/// OP with funct7 0.
fn decode_op_base(word: u32) -> Option<Inst>
    requires is_op { opcode word ≡ 0x33 }
    requires is_base { funct7 word ≡ 0x00 }
    ensures { result ≡ row_of word }
{
    let rd = rd_of(word);
    let rs1 = rs1_of(word);
    let rs2 = rs2_of(word);
    match funct3_of(word) {
        0 => Some(Inst::Add { rd, rs1, rs2 }),
        1 => Some(Inst::Sll { rd, rs1, rs2 }),
        2 => Some(Inst::Slt { rd, rs1, rs2 }),
        3 => Some(Inst::Sltu { rd, rs1, rs2 }),
        4 => Some(Inst::Xor { rd, rs1, rs2 }),
        5 => Some(Inst::Srl { rd, rs1, rs2 }),
        6 => Some(Inst::Or { rd, rs1, rs2 }),
        7 => Some(Inst::And { rd, rs1, rs2 }),
        _ => None,
    }
}

/// SUB and SRA, OP with bit 30 set.
fn decode_op_alternate(word: u32) -> Option<Inst>
    requires is_op { opcode word ≡ 0x33 }
    requires is_alternate { funct7 word ≡ 0x20 }
    ensures { result ≡ row_of word }
{
    let rd = rd_of(word);
    let rs1 = rs1_of(word);
    let rs2 = rs2_of(word);
    match funct3_of(word) {
        0 => Some(Inst::Sub { rd, rs1, rs2 }),
        5 => Some(Inst::Sra { rd, rs1, rs2 }),
        _ => None,
    }
}

/// The M instructions of OP.
#[tactic(auto, using(crate::proofs::Selected::op_multiply), unfolding(crate::proofs::Selected::table))]
fn decode_op_multiply(word: u32) -> Option<Inst>
    requires is_op { opcode word ≡ 0x33 }
    requires is_multiply { funct7 word ≡ 0x01 }
    ensures { result ≡ row_of word }
{
    let rd = rd_of(word);
    let rs1 = rs1_of(word);
    let rs2 = rs2_of(word);
    match funct3_of(word) {
        0 => Some(Inst::Mul { rd, rs1, rs2 }),
        1 => Some(Inst::Mulh { rd, rs1, rs2 }),
        2 => Some(Inst::Mulhsu { rd, rs1, rs2 }),
        3 => Some(Inst::Mulhu { rd, rs1, rs2 }),
        4 => Some(Inst::Div { rd, rs1, rs2 }),
        5 => Some(Inst::Divu { rd, rs1, rs2 }),
        6 => Some(Inst::Rem { rd, rs1, rs2 }),
        7 => Some(Inst::Remu { rd, rs1, rs2 }),
        _ => None,
    }
}

/// Computation with two registers on the low 32 bits.
#[tactic(auto, using(crate::proofs::Selected::op_32), unfolding(crate::proofs::Selected::table))]
pub fn decode_op_32(word: u32) -> Option<Inst>
    requires { opcode word ≡ 0x3b }
    ensures { result ≡ row_of word }
{
    match funct7_of(word) {
        0x00 => decode_op_32_base(word),
        0x01 => decode_op_32_multiply(word),
        0x20 => decode_op_32_alternate(word),
        _ => None,
    }
}

/// OP-32 with funct7 0.
#[tactic(auto, using(crate::proofs::Selected::op_32_base), unfolding(crate::proofs::Selected::table))]
fn decode_op_32_base(word: u32) -> Option<Inst>
    requires is_op_32 { opcode word ≡ 0x3b }
    requires is_base { funct7 word ≡ 0x00 }
    ensures { result ≡ row_of word }
{
    let rd = rd_of(word);
    let rs1 = rs1_of(word);
    let rs2 = rs2_of(word);
    match funct3_of(word) {
        0 => Some(Inst::Addw { rd, rs1, rs2 }),
        1 => Some(Inst::Sllw { rd, rs1, rs2 }),
        5 => Some(Inst::Srlw { rd, rs1, rs2 }),
        _ => None,
    }
}

/// SUBW and SRAW, OP-32 with bit 30 set.
#[tactic(auto, using(crate::proofs::Selected::op_32_alternate), unfolding(crate::proofs::Selected::table))]
fn decode_op_32_alternate(word: u32) -> Option<Inst>
    requires is_op_32 { opcode word ≡ 0x3b }
    requires is_alternate { funct7 word ≡ 0x20 }
    ensures { result ≡ row_of word }
{
    let rd = rd_of(word);
    let rs1 = rs1_of(word);
    let rs2 = rs2_of(word);
    match funct3_of(word) {
        0 => Some(Inst::Subw { rd, rs1, rs2 }),
        5 => Some(Inst::Sraw { rd, rs1, rs2 }),
        _ => None,
    }
}

/// The M instructions of OP-32.
#[tactic(auto, using(crate::proofs::Selected::op_32_multiply), unfolding(crate::proofs::Selected::table))]
fn decode_op_32_multiply(word: u32) -> Option<Inst>
    requires is_op_32 { opcode word ≡ 0x3b }
    requires is_multiply { funct7 word ≡ 0x01 }
    ensures { result ≡ row_of word }
{
    let rd = rd_of(word);
    let rs1 = rs1_of(word);
    let rs2 = rs2_of(word);
    match funct3_of(word) {
        0 => Some(Inst::Mulw { rd, rs1, rs2 }),
        4 => Some(Inst::Divw { rd, rs1, rs2 }),
        5 => Some(Inst::Divuw { rd, rs1, rs2 }),
        6 => Some(Inst::Remw { rd, rs1, rs2 }),
        7 => Some(Inst::Remuw { rd, rs1, rs2 }),
        _ => None,
    }
}
