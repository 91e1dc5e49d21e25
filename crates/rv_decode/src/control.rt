//! Jumps and branches.
#![tactic(auto, using(crate::proofs::Selected::selections), unfolding(crate::proofs::Selected::table))]

ghost use Rattle.std.specs.Prelude.{◌≡◌};
ghost use Rattle.rv_inst.specs.Table.{row_of};
ghost use Rattle.rv_decode.specs.Selectors.{opcode};

use crate::fields::{funct3_of, imm_b_of, imm_i_of, rd_of, rs1_of, rs2_of};
use rv_inst::Inst;

/// JALR.
pub fn decode_jalr(word: u32) -> Option<Inst>
    requires { opcode word ≡ 0x67 }
    ensures { result ≡ row_of word }
{
    match funct3_of(word) {
        0 => Some(Inst::Jalr {
            rd: rd_of(word),
            rs1: rs1_of(word),
            imm: imm_i_of(word),
        }),
        _ => None,
    }
}

/// Branches.
pub fn decode_branch(word: u32) -> Option<Inst>
    requires { opcode word ≡ 0x63 }
    ensures { result ≡ row_of word }
{
    let rs1 = rs1_of(word);
    let rs2 = rs2_of(word);
    let imm = imm_b_of(word);
    match funct3_of(word) {
        0 => Some(Inst::Beq { rs1, rs2, imm }),
        1 => Some(Inst::Bne { rs1, rs2, imm }),
        4 => Some(Inst::Blt { rs1, rs2, imm }),
        5 => Some(Inst::Bge { rs1, rs2, imm }),
        6 => Some(Inst::Bltu { rs1, rs2, imm }),
        7 => Some(Inst::Bgeu { rs1, rs2, imm }),
        _ => None,
    }
}
