//! Words of 64 bits and their low halves (RISC-V Unprivileged ISA, RV64I: integer computation).

ghost use Rattle.std.specs.Prelude.{◌≡◌};
ghost use Rattle.rv_inst.specs.Words as words;

/// The word that an immediate stands for.
pub fn word(imm: i64) -> u64
    ensures { result ≡ words.word imm }
{
    imm.cast_unsigned()
}

/// The low 32 bits.
pub fn low_32(n: u64) -> u32
    ensures { result ≡ words.low_32 n }
{
    (n & 0xffff_ffff) as u32
}

/// The low 32 bits as a signed number.
pub fn signed_32(n: u64) -> i32
    ensures { result ≡ words.signed_32 n }
{
    low_32(n).cast_signed()
}

/// The low 32 bits, sign-extended.
pub fn sign_extended_32(n: u64) -> u64
    ensures { result ≡ words.sign_extended_32 n }
{
    word(signed_32(n) as i64)
}

/// The low 32 bits of a sum, sign-extended.
pub fn sum_32(a: u64, b: u64) -> u64
    ensures { result ≡ words.sign_extended_32 (words.sum_64 a b) }
{
    sign_extended_32(a.wrapping_add(b))
}

/// The low 32 bits of a difference, sign-extended.
pub fn difference_32(a: u64, b: u64) -> u64
    ensures { result ≡ words.sign_extended_32 (words.difference_64 a b) }
{
    sign_extended_32(a.wrapping_sub(b))
}

/// Whether `a` is less than `b`, as signed numbers.
pub fn is_less_signed(a: u64, b: u64) -> bool
    ensures { result ≡ words.is_less_signed a b }
{
    a.cast_signed() < b.cast_signed()
}

/// 1 where a comparison holds, else 0.
pub fn one_if(holds: bool) -> u64
    ensures { result ≡ words.one_if holds }
{
    if holds { 1 } else { 0 }
}

/// Shifts left by the low 6 bits of `b`.
pub fn shift_left(a: u64, b: u64) -> u64
    ensures { result ≡ words.shift_left a b }
{
    a << (b % 64)
}

/// Shifts right by the low 6 bits of `b`; zeros come in.
pub fn shift_right(a: u64, b: u64) -> u64
    ensures { result ≡ words.shift_right a b }
{
    a >> (b % 64)
}

/// Shifts right by the low 6 bits of `b`; the sign comes in.
pub fn shift_right_signed(a: u64, b: u64) -> u64
    ensures { result ≡ words.shift_right_signed a b }
{
    word(a.cast_signed() >> (b % 64))
}

/// Shifts the low 32 bits left by the low 5 bits of `b`.
pub fn shift_left_32(a: u64, b: u64) -> u64
    ensures { result ≡ words.shift_left_32 a b }
{
    sign_extended_32(a << (b % 32))
}

/// Shifts the low 32 bits right by the low 5 bits of `b`; zeros come in.
pub fn shift_right_32(a: u64, b: u64) -> u64
    ensures { result ≡ words.shift_right_32 a b }
{
    sign_extended_32((low_32(a) >> (b % 32)) as u64)
}

/// Shifts the low 32 bits right by the low 5 bits of `b`; the sign comes in.
pub fn shift_right_signed_32(a: u64, b: u64) -> u64
    ensures { result ≡ words.shift_right_signed_32 a b }
{
    word((signed_32(a) >> (b % 32)) as i64)
}
