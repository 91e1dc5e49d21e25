//! Multiplication and division (RISC-V Unprivileged ISA, chapter "M" Extension).

ghost use Rattle.std.specs.Prelude.{◌≡◌};
ghost use Rattle.rv_inst.specs.Multiply as multiply;
ghost use Rattle.rv_inst.specs.Words.{sign_extended_32};

use crate::words::{low_32, sign_extended_32, signed_32, word};

/// MULW: the low 32 bits of the product, sign-extended.
pub fn product_32(a: u64, b: u64) -> u64
    ensures { result ≡ sign_extended_32 (multiply.product_low a b) }
{
    sign_extended_32(a.wrapping_mul(b))
}

/// MULH: the high 64 bits of the product of two signed numbers.
pub fn product_high(a: u64, b: u64) -> u64
    ensures { result ≡ multiply.product_high a b }
{
    let product = a.cast_signed() as i128 * b.cast_signed() as i128;
    word((product >> 64) as i64)
}

/// MULHSU: the high 64 bits of the product of a signed and an unsigned number.
pub fn product_high_mixed(a: u64, b: u64) -> u64
    ensures { result ≡ multiply.product_high_mixed a b }
{
    let product = a.cast_signed() as i128 * b as i128;
    word((product >> 64) as i64)
}

/// MULHU: the high 64 bits of the product of two unsigned numbers.
pub fn product_high_unsigned(a: u64, b: u64) -> u64
    ensures { result ≡ multiply.product_high_unsigned a b }
{
    ((a as u128 * b as u128) >> 64) as u64
}

/// DIV: the signed quotient; all bits set where `b` is 0.
pub fn quotient(a: u64, b: u64) -> u64
    ensures { result ≡ multiply.quotient a b }
{
    if b == 0 {
        u64::MAX
    } else {
        word(a.cast_signed().wrapping_div(b.cast_signed()))
    }
}

/// REM: the signed remainder; `a` where `b` is 0.
pub fn remainder(a: u64, b: u64) -> u64
    ensures { result ≡ multiply.remainder a b }
{
    if b == 0 {
        a
    } else {
        word(a.cast_signed().wrapping_rem(b.cast_signed()))
    }
}

/// DIVU: the unsigned quotient; all bits set where `b` is 0.
pub fn quotient_unsigned(a: u64, b: u64) -> u64
    ensures { result ≡ multiply.quotient_unsigned a b }
{
    if b == 0 { u64::MAX } else { a / b }
}

/// REMU: the unsigned remainder; `a` where `b` is 0.
pub fn remainder_unsigned(a: u64, b: u64) -> u64
    ensures { result ≡ multiply.remainder_unsigned a b }
{
    if b == 0 { a } else { a % b }
}

/// DIVW: DIV on the low 32 bits.
pub fn quotient_32(a: u64, b: u64) -> u64
    ensures { result ≡ multiply.quotient_32 a b }
{
    if low_32(b) == 0 {
        u64::MAX
    } else {
        word(signed_32(a).wrapping_div(signed_32(b)) as i64)
    }
}

/// REMW: REM on the low 32 bits.
pub fn remainder_32(a: u64, b: u64) -> u64
    ensures { result ≡ multiply.remainder_32 a b }
{
    if low_32(b) == 0 {
        sign_extended_32(a)
    } else {
        word(signed_32(a).wrapping_rem(signed_32(b)) as i64)
    }
}

/// DIVUW: DIVU on the low 32 bits.
pub fn quotient_unsigned_32(a: u64, b: u64) -> u64
    ensures { result ≡ multiply.quotient_unsigned_32 a b }
{
    let divisor = low_32(b);
    if divisor == 0 {
        u64::MAX
    } else {
        sign_extended_32((low_32(a) / divisor) as u64)
    }
}

/// REMUW: REMU on the low 32 bits.
pub fn remainder_unsigned_32(a: u64, b: u64) -> u64
    ensures { result ≡ multiply.remainder_unsigned_32 a b }
{
    let divisor = low_32(b);
    if divisor == 0 {
        sign_extended_32(a)
    } else {
        sign_extended_32((low_32(a) % divisor) as u64)
    }
}
