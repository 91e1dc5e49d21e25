//! The fields of a word.

ghost use Rattle.std.specs.Prelude.{◌≡◌, ℕ, ◌+◌, ◌≤◌, ◌<◌};
ghost use Rattle.rv_inst.specs.Fields.{field, rd, rs1, rs2, shamt, shamt_32, sign_extended};
ghost use Rattle.rv_inst.specs.Fields.{imm_i, imm_s, imm_b, imm_u, imm_j};
ghost use Rattle.rv_decode.specs.Selectors.{opcode, funct3, funct5, funct6, funct7};

/// The `count` bits of a word from bit `low` on.
#[inline]
pub fn bits(word: u32, low: u32, count: u32) -> u32
    requires within { low + count ≤ 32 }
    requires some { 1 ≤ count }
    requires narrow { count < 32 }
    ensures { result ≡ field low count word }
{
    (word >> low) & ((1 << count) - 1)
}

/// The signed number that `count` bits stand for.
#[inline]
pub fn signed(count: u32, number: u32) -> i64
    requires some { 1 ≤ count }
    requires within { count ≤ 32 }
    ensures { result ≡ sign_extended count number }
{
    if number < 1 << (count - 1) {
        number as i64
    } else {
        number as i64 - (1i64 << count)
    }
}

/// The major opcode.
#[inline]
pub fn opcode_of(word: u32) -> u32
    ensures { result ≡ opcode word }
{
    bits(word, 0, 7)
}

/// Bits 14..12.
#[inline]
pub fn funct3_of(word: u32) -> u32
    ensures { result ≡ funct3 word }
{
    bits(word, 12, 3)
}

/// Bits 31..25.
#[inline]
pub fn funct7_of(word: u32) -> u32
    ensures { result ≡ funct7 word }
{
    bits(word, 25, 7)
}

/// Bits 31..26.
#[inline]
pub fn funct6_of(word: u32) -> u32
    ensures { result ≡ funct6 word }
{
    bits(word, 26, 6)
}

/// Bits 31..27.
#[inline]
pub fn funct5_of(word: u32) -> u32
    ensures { result ≡ funct5 word }
{
    bits(word, 27, 5)
}

/// The register that is written.
#[inline]
pub fn rd_of(word: u32) -> u8
    ensures { result ≡ rd word }
{
    bits(word, 7, 5) as u8
}

/// The first register that is read.
#[inline]
pub fn rs1_of(word: u32) -> u8
    ensures { result ≡ rs1 word }
{
    bits(word, 15, 5) as u8
}

/// The second register that is read.
#[inline]
pub fn rs2_of(word: u32) -> u8
    ensures { result ≡ rs2 word }
{
    bits(word, 20, 5) as u8
}

/// The distance of a shift of 64 bits.
#[inline]
pub fn shamt_of(word: u32) -> u8
    ensures { result ≡ shamt word }
{
    bits(word, 20, 6) as u8
}

/// The distance of a shift of 32 bits.
#[inline]
pub fn shamt_32_of(word: u32) -> u8
    ensures { result ≡ shamt_32 word }
{
    bits(word, 20, 5) as u8
}

/// The immediate of format I.
#[inline]
pub fn imm_i_of(word: u32) -> i64
    ensures { result ≡ imm_i word }
{
    signed(12, bits(word, 20, 12))
}

/// The immediate of format S.
#[inline]
pub fn imm_s_of(word: u32) -> i64
    ensures { result ≡ imm_s word }
{
    signed(12, (bits(word, 25, 7) << 5) + bits(word, 7, 5))
}

/// The immediate of format B.
#[inline]
pub fn imm_b_of(word: u32) -> i64
    ensures { result ≡ imm_b word }
{
    let high = (bits(word, 31, 1) << 12) + (bits(word, 7, 1) << 11);
    signed(
        13,
        high + (bits(word, 25, 6) << 5) + (bits(word, 8, 4) << 1),
    )
}

/// The immediate of format U.
#[inline]
pub fn imm_u_of(word: u32) -> i64
    ensures { result ≡ imm_u word }
{
    signed(32, bits(word, 12, 20) << 12)
}

/// The immediate of format J.
#[inline]
pub fn imm_j_of(word: u32) -> i64
    ensures { result ≡ imm_j word }
{
    let high = (bits(word, 31, 1) << 20) + (bits(word, 12, 8) << 12);
    signed(
        21,
        high + (bits(word, 20, 1) << 11) + (bits(word, 21, 10) << 1),
    )
}
