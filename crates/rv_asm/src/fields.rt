//! Numbers in fields of so many bits.

ghost use Rattle.std.specs.Prelude.{◌≡◌, ℕ, ◌+◌, ◌*◌, ◌%◌, ◌^◌, ◌<◌, ◌≤◌};
ghost use Rattle.std.specs.Int.{w64, cast_unsigned};
ghost use Rattle.rv_asm.specs.Fields as spec;
ghost use Rattle.rv_asm.specs.Formats.{IsLaidOut};

/// Whether a number is that of a register.
pub fn is_register(number: u8) -> bool
    ensures { result ≡ spec.is_register number }
{
    number < 32
}

/// Whether an immediate has `count` bits in two's complement.
pub fn has_signed_bits(count: u32, imm: i64) -> bool
    requires some { 1 ≤ count }
    requires within { count ≤ 32 }
    ensures { result ≡ spec.has_signed_bits count imm }
{
    let limit = 1i64 << (count - 1);
    -limit <= imm && imm < limit
}

/// Whether an immediate is even.
pub fn is_even(imm: i64) -> bool
    ensures { result ≡ spec.is_multiple 2 imm }
{
    imm.cast_unsigned() % 2 == 0
}

/// Whether the low twelve bits of an immediate are zero.
pub fn is_upper(imm: i64) -> bool
    ensures { result ≡ spec.is_multiple (2 ^ 12) imm }
{
    imm.cast_unsigned() % 4096 == 0
}

/// The low `count` bits of an immediate in two's complement.
pub fn low_bits(count: u32, imm: i64) -> u32
    requires { count ≤ 32 }
    ensures { result ≡ cast_unsigned w64 imm % 2 ^ count }
{
    (imm.cast_unsigned() % (1 << count)) as u32
}

/// The word of six fields, from the lowest to the highest.
pub fn lay_out(opcode: u32, low: u32, funct3: u32, first: u32, second: u32, high: u32) -> u32
    requires opcode_fits { opcode < 2 ^ 7 }
    requires low_fits { low < 2 ^ 5 }
    requires funct3_fits { funct3 < 2 ^ 3 }
    requires first_fits { first < 2 ^ 5 }
    requires second_fits { second < 2 ^ 5 }
    requires high_fits { high < 2 ^ 7 }
    ensures { IsLaidOut result opcode low funct3 first second high }
{
    opcode + (low << 7) + (funct3 << 12) + (first << 15) + (second << 20) + (high << 25)
}
