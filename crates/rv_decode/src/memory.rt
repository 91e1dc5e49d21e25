//! Loads, stores, fences and the A instructions.
#![tactic(auto, using(crate::proofs::Selected::selections), unfolding(crate::proofs::Selected::table))]

ghost use Rattle.std.specs.Prelude.{◌≡◌};
ghost use Rattle.rv_inst.specs.Table.{row_of};
ghost use Rattle.rv_decode.specs.Selectors.{opcode, funct3, funct5};

use crate::fields::{bits, funct3_of, funct5_of, imm_i_of, imm_s_of, rd_of, rs1_of, rs2_of};
use rv_inst::Inst;

/// Loads.
pub fn decode_load(word: u32) -> Option<Inst>
    requires { opcode word ≡ 0x03 }
    ensures { result ≡ row_of word }
{
    let rd = rd_of(word);
    let rs1 = rs1_of(word);
    let imm = imm_i_of(word);
    match funct3_of(word) {
        0 => Some(Inst::Lb { rd, rs1, imm }),
        1 => Some(Inst::Lh { rd, rs1, imm }),
        2 => Some(Inst::Lw { rd, rs1, imm }),
        3 => Some(Inst::Ld { rd, rs1, imm }),
        4 => Some(Inst::Lbu { rd, rs1, imm }),
        5 => Some(Inst::Lhu { rd, rs1, imm }),
        6 => Some(Inst::Lwu { rd, rs1, imm }),
        _ => None,
    }
}

/// Stores.
pub fn decode_store(word: u32) -> Option<Inst>
    requires { opcode word ≡ 0x23 }
    ensures { result ≡ row_of word }
{
    let rs1 = rs1_of(word);
    let rs2 = rs2_of(word);
    let imm = imm_s_of(word);
    match funct3_of(word) {
        0 => Some(Inst::Sb { rs1, rs2, imm }),
        1 => Some(Inst::Sh { rs1, rs2, imm }),
        2 => Some(Inst::Sw { rs1, rs2, imm }),
        3 => Some(Inst::Sd { rs1, rs2, imm }),
        _ => None,
    }
}

/// FENCE and FENCE.I, whose unused fields are ignored.
pub fn decode_misc_mem(word: u32) -> Option<Inst>
    requires { opcode word ≡ 0x0f }
    ensures { result ≡ row_of word }
{
    let fm = bits(word, 28, 4) as u8;
    let pred = bits(word, 24, 4) as u8;
    let succ = bits(word, 20, 4) as u8;
    match funct3_of(word) {
        0 => Some(Inst::Fence { fm, pred, succ }),
        1 => Some(Inst::FenceI),
        _ => None,
    }
}

/// The A instructions, whose bits aq and rl are ignored.
pub fn decode_amo(word: u32) -> Option<Inst>
    requires { opcode word ≡ 0x2f }
    ensures { result ≡ row_of word }
{
    match funct3_of(word) {
        2 => decode_amo_word(word),
        3 => decode_amo_double(word),
        _ => None,
    }
}

/// The A instructions on words.
fn decode_amo_word(word: u32) -> Option<Inst>
    requires is_amo { opcode word ≡ 0x2f }
    requires is_word { funct3 word ≡ 2 }
    ensures { result ≡ row_of word }
{
    let rd = rd_of(word);
    let rs1 = rs1_of(word);
    let rs2 = rs2_of(word);
    match funct5_of(word) {
        0x00 => Some(Inst::AmoAddW { rd, rs1, rs2 }),
        0x01 => Some(Inst::AmoSwapW { rd, rs1, rs2 }),
        0x02 => decode_load_reserved_word(word),
        0x03 => Some(Inst::ScW { rd, rs1, rs2 }),
        0x04 => Some(Inst::AmoXorW { rd, rs1, rs2 }),
        0x08 => Some(Inst::AmoOrW { rd, rs1, rs2 }),
        0x0c => Some(Inst::AmoAndW { rd, rs1, rs2 }),
        0x10 => Some(Inst::AmoMinW { rd, rs1, rs2 }),
        0x14 => Some(Inst::AmoMaxW { rd, rs1, rs2 }),
        0x18 => Some(Inst::AmoMinuW { rd, rs1, rs2 }),
        0x1c => Some(Inst::AmoMaxuW { rd, rs1, rs2 }),
        _ => None,
    }
}

/// The A instructions on doublewords.
fn decode_amo_double(word: u32) -> Option<Inst>
    requires is_amo { opcode word ≡ 0x2f }
    requires is_double { funct3 word ≡ 3 }
    ensures { result ≡ row_of word }
{
    let rd = rd_of(word);
    let rs1 = rs1_of(word);
    let rs2 = rs2_of(word);
    match funct5_of(word) {
        0x00 => Some(Inst::AmoAddD { rd, rs1, rs2 }),
        0x01 => Some(Inst::AmoSwapD { rd, rs1, rs2 }),
        0x02 => decode_load_reserved_double(word),
        0x03 => Some(Inst::ScD { rd, rs1, rs2 }),
        0x04 => Some(Inst::AmoXorD { rd, rs1, rs2 }),
        0x08 => Some(Inst::AmoOrD { rd, rs1, rs2 }),
        0x0c => Some(Inst::AmoAndD { rd, rs1, rs2 }),
        0x10 => Some(Inst::AmoMinD { rd, rs1, rs2 }),
        0x14 => Some(Inst::AmoMaxD { rd, rs1, rs2 }),
        0x18 => Some(Inst::AmoMinuD { rd, rs1, rs2 }),
        0x1c => Some(Inst::AmoMaxuD { rd, rs1, rs2 }),
        _ => None,
    }
}

/// LR.W, whose rs2 is 0.
fn decode_load_reserved_word(word: u32) -> Option<Inst>
    requires is_amo { opcode word ≡ 0x2f }
    requires is_word { funct3 word ≡ 2 }
    requires is_load_reserved { funct5 word ≡ 0x02 }
    ensures { result ≡ row_of word }
{
    let rd = rd_of(word);
    let rs1 = rs1_of(word);
    match rs2_of(word) {
        0 => Some(Inst::LrW { rd, rs1 }),
        _ => None,
    }
}

/// LR.D, whose rs2 is 0.
fn decode_load_reserved_double(word: u32) -> Option<Inst>
    requires is_amo { opcode word ≡ 0x2f }
    requires is_double { funct3 word ≡ 3 }
    requires is_load_reserved { funct5 word ≡ 0x02 }
    ensures { result ≡ row_of word }
{
    let rd = rd_of(word);
    let rs1 = rs1_of(word);
    match rs2_of(word) {
        0 => Some(Inst::LrD { rd, rs1 }),
        _ => None,
    }
}
