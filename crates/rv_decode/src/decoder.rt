//! The switch on the major opcode.

ghost use Rattle.std.specs.Prelude.{◌≡◌};
ghost use Rattle.rv_inst.specs.Table.{row_of};
ghost use Rattle.rv_decode.specs.Selectors.{opcode};

use crate::compute::{decode_op, decode_op_32, decode_op_imm, decode_op_imm_32};
use crate::control::{decode_branch, decode_jalr};
use crate::fields::{imm_j_of, imm_u_of, opcode_of, rd_of};
use crate::memory::{decode_amo, decode_load, decode_misc_mem, decode_store};
use crate::opcodes;
use rv_inst::Inst;

/// The instruction that a word stands for; `None` exactly where the word is of no row of the table.
///
/// The table is that of RV64I, M, A and Zifencei (RISC-V Unprivileged ISA, chapter "RV32/64G Instruction Set
/// Listings"). Takes no memory.
pub fn decode(word: u32) -> Option<Inst>
    ensures { result ≡ row_of word }
{
    match opcode_of(word) {
        opcodes::LOAD => decode_load(word),
        opcodes::MISC_MEM => decode_misc_mem(word),
        opcodes::OP_IMM => decode_op_imm(word),
        opcodes::AUIPC => Some(Inst::Auipc {
            rd: rd_of(word),
            imm: imm_u_of(word),
        }),
        opcodes::OP_IMM_32 => decode_op_imm_32(word),
        opcodes::STORE => decode_store(word),
        opcodes::AMO => decode_amo(word),
        opcodes::OP => decode_op(word),
        opcodes::LUI => Some(Inst::Lui {
            rd: rd_of(word),
            imm: imm_u_of(word),
        }),
        opcodes::OP_32 => decode_op_32(word),
        opcodes::BRANCH => decode_branch(word),
        opcodes::JALR => decode_jalr(word),
        opcodes::JAL => Some(Inst::Jal {
            rd: rd_of(word),
            imm: imm_j_of(word),
        }),
        opcodes::SYSTEM => decode_system(word),
        _ => None,
    }
}

/// ECALL and EBREAK, no other word.
fn decode_system(word: u32) -> Option<Inst>
    requires { opcode word ≡ 0x73 }
    ensures { result ≡ row_of word }
{
    match word {
        0x0000_0073 => Some(Inst::Ecall),
        0x0010_0073 => Some(Inst::Ebreak),
        _ => None,
    }
}
