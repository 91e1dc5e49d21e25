//! Words of each format; none where a register or an immediate doesn't fit its field.

ghost use Rattle.std.specs.Prelude.{◌≡◌, ◌^◌, ◌<◌, IfSome, is_some};
ghost use Rattle.rv_asm.specs.Fields.{are_two, are_three, fits_12, fits_branch, fits_upper};
ghost use Rattle.rv_asm.specs.Fields.{fits_jump, fits_shift, fits_fence};
ghost use Rattle.rv_asm.specs.Formats.{IsLaidOut, IsFormatI, IsFormatS, IsFormatB, IsFormatU};
ghost use Rattle.rv_asm.specs.Formats.{IsFormatJ, IsShift, IsFence, IsAtomic};

use crate::fields::{has_signed_bits, is_even, is_register, is_upper, lay_out, low_bits};
use rv_decode::{bits, opcodes};

/// Format R: three registers.
pub fn format_r(opcode: u32, funct3: u32, funct7: u32, rd: u8, rs1: u8, rs2: u8) -> Option<u32>
    requires opcode_fits { opcode < 2 ^ 7 }
    requires funct3_fits { funct3 < 2 ^ 3 }
    requires funct7_fits { funct7 < 2 ^ 7 }
    ensures fits { is_some result ≡ are_three rd rs1 rs2 }
    ensures word { IfSome result (λ w. IsLaidOut w opcode rd funct3 rs1 rs2 funct7) }
{
    if !(is_register(rd) && is_register(rs1) && is_register(rs2)) {
        return None;
    }
    Some(lay_out(opcode, rd as u32, funct3, rs1 as u32, rs2 as u32, funct7))
}

/// Format I: two registers and an immediate.
pub fn format_i(opcode: u32, funct3: u32, rd: u8, rs1: u8, imm: i64) -> Option<u32>
    requires opcode_fits { opcode < 2 ^ 7 }
    requires funct3_fits { funct3 < 2 ^ 3 }
    ensures fits { is_some result ≡ fits_12 rd rs1 imm }
    ensures word { IfSome result (λ w. IsFormatI w opcode funct3 rd rs1 imm) }
{
    if !(is_register(rd) && is_register(rs1) && has_signed_bits(12, imm)) {
        return None;
    }
    let field = low_bits(12, imm);
    Some(lay_out(
        opcode,
        rd as u32,
        funct3,
        rs1 as u32,
        field % 32,
        field / 32,
    ))
}

/// Format S: two registers and an immediate.
pub fn format_s(funct3: u32, rs1: u8, rs2: u8, imm: i64) -> Option<u32>
    requires funct3_fits { funct3 < 2 ^ 3 }
    ensures fits { is_some result ≡ fits_12 rs1 rs2 imm }
    ensures word { IfSome result (λ w. IsFormatS w 0x23 funct3 rs1 rs2 imm) }
{
    if !(is_register(rs1) && is_register(rs2) && has_signed_bits(12, imm)) {
        return None;
    }
    let field = low_bits(12, imm);
    Some(lay_out(
        opcodes::STORE,
        field % 32,
        funct3,
        rs1 as u32,
        rs2 as u32,
        field / 32,
    ))
}

/// Format B: two registers and an even distance.
pub fn format_b(funct3: u32, rs1: u8, rs2: u8, imm: i64) -> Option<u32>
    requires funct3_fits { funct3 < 2 ^ 3 }
    ensures fits { is_some result ≡ fits_branch rs1 rs2 imm }
    ensures word { IfSome result (λ w. IsFormatB w 0x63 funct3 rs1 rs2 imm) }
{
    if !(is_register(rs1) && is_register(rs2) && has_signed_bits(13, imm) && is_even(imm)) {
        return None;
    }
    let field = low_bits(13, imm);
    let low = bits(field, 1, 4) * 2 + bits(field, 11, 1);
    let high = bits(field, 12, 1) * 64 + bits(field, 5, 6);
    Some(lay_out(opcodes::BRANCH, low, funct3, rs1 as u32, rs2 as u32, high))
}

/// Format U: a register and an immediate whose low twelve bits are zero.
pub fn format_u(opcode: u32, rd: u8, imm: i64) -> Option<u32>
    requires opcode_fits { opcode < 2 ^ 7 }
    ensures fits { is_some result ≡ fits_upper rd imm }
    ensures word { IfSome result (λ w. IsFormatU w opcode rd imm) }
{
    if !(is_register(rd) && has_signed_bits(32, imm) && is_upper(imm)) {
        return None;
    }
    Some(low_bits(32, imm) + ((rd as u32) << 7) + opcode)
}

/// Format J: a register and an even distance.
pub fn format_j(rd: u8, imm: i64) -> Option<u32>
    ensures fits { is_some result ≡ fits_jump rd imm }
    ensures word { IfSome result (λ w. IsFormatJ w 0x6f rd imm) }
{
    if !(is_register(rd) && has_signed_bits(21, imm) && is_even(imm)) {
        return None;
    }
    let field = low_bits(21, imm);
    let second = bits(field, 1, 4) * 2 + bits(field, 11, 1);
    let high = bits(field, 20, 1) * 64 + bits(field, 5, 6);
    Some(lay_out(
        opcodes::JAL,
        rd as u32,
        bits(field, 12, 3),
        bits(field, 15, 5),
        second,
        high,
    ))
}

/// A shift of 64 bits: two registers, a distance of 6 bits and the 6 bits above it.
pub fn format_shift(funct3: u32, funct6: u32, rd: u8, rs1: u8, shamt: u8) -> Option<u32>
    requires funct3_fits { funct3 < 2 ^ 3 }
    requires funct6_fits { funct6 < 2 ^ 6 }
    ensures fits { is_some result ≡ fits_shift rd rs1 shamt }
    ensures word { IfSome result (λ w. IsShift w 0x13 funct3 funct6 rd rs1 shamt) }
{
    if !(is_register(rd) && is_register(rs1) && shamt < 64) {
        return None;
    }
    let distance = shamt as u32;
    let high = funct6 * 2 + distance / 32;
    Some(lay_out(
        opcodes::OP_IMM,
        rd as u32,
        funct3,
        rs1 as u32,
        distance % 32,
        high,
    ))
}

/// FENCE: a mode and two sets of accesses.
pub fn format_fence(fm: u8, pred: u8, succ: u8) -> Option<u32>
    ensures fits { is_some result ≡ fits_fence fm pred succ }
    ensures word { IfSome result (λ w. IsFence w fm pred succ) }
{
    if !(fm < 16 && pred < 16 && succ < 16) {
        return None;
    }
    let sets = (fm as u32) * 256 + (pred as u32) * 16 + succ as u32;
    Some(lay_out(opcodes::MISC_MEM, 0, 0, 0, sets % 32, sets / 32))
}

/// An A instruction: three registers, with aq and rl zero.
pub fn format_atomic(funct3: u32, funct5: u32, rd: u8, rs1: u8, rs2: u8) -> Option<u32>
    requires funct3_fits { funct3 < 2 ^ 3 }
    requires funct5_fits { funct5 < 2 ^ 5 }
    ensures fits { is_some result ≡ are_three rd rs1 rs2 }
    ensures word { IfSome result (λ w. IsAtomic w funct3 funct5 rd rs1 rs2) }
{
    if !(is_register(rd) && is_register(rs1) && is_register(rs2)) {
        return None;
    }
    Some(lay_out(
        opcodes::AMO,
        rd as u32,
        funct3,
        rs1 as u32,
        rs2 as u32,
        funct5 << 2,
    ))
}
