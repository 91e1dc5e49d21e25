//! A flat memory: for examples and tests of what stands on [`UserMem`].

ghost use Rattle.std.specs.Prelude.{◌≡◌, ℕ, ◌+◌, ◌<◌, ◌≤◌, ◌^◌, true, IfSome};
ghost use Rattle.std.proofs.Common.{arith, refl};
ghost use Rattle.std.proofs.lemmas.Bool.Decides.{nat_tests};
ghost use Rattle.mach_types.specs.Bytes.{word_at, each_byte, stored};
ghost use Rattle.mach_types.specs.Flat.{flat_byte, flat_can_write, zero_memory};

use crate::user_memory::UserMem;

/// The address of the first byte.
pub const FLAT_START: u64 = 0x1000;

/// The address past the last byte.
pub const FLAT_END: u64 = 0x1400;

/// 1,024 bytes from 0x1000 on.
#[derive(Clone, Copy, Drop)]
pub struct FlatMemory {
    /// The bytes.
    pub bytes: [u8; 1024],
    /// How many of them can be written, from the first one on; all where it is 1,024 or more.
    pub writable: u16,
}

impl FlatMemory {
    /// All bytes 0, so many of which can be written.
    pub fn new(writable: u16) -> FlatMemory
        ensures { result ≡ zero_memory writable }
    {
        FlatMemory {
            bytes: [0; 1024],
            writable,
        }
    }

    /// The byte at an address.
    fn byte_at(&self, at: u64) -> Option<u8>
        ensures byte { result ≡ flat_byte self.now at }
        ensures small { IfSome result (λ b. b < 256) }
        ensures inside { IfSome result (λ b. at < 0x1400) }
    {
        if at < FLAT_START || at >= FLAT_END {
            return None;
        }
        Some(self.bytes[(at - FLAT_START) as usize])
    }

    /// The number of so many bytes.
    fn word(&self, at: u64, count: u8) -> Option<u64>
        requires { count ≤ 8 }
        ensures word { result ≡ word_at (flat_byte self.now) at count }
        ensures small { IfSome result (λ n. n < 256 ^ count) }
    {
        if count == 0 {
            return Some(0);
        }
        let low = self.byte_at(at)?;
        let high = self.word(at + 1, count - 1)?;
        Some(u64::from(low) + 256 * high)
    }

    /// Whether so many bytes can be written.
    fn can_write(&self, at: u64, count: u8) -> bool
        ensures { result ≡ each_byte (flat_can_write self.now) at count }
    {
        if count == 0 {
            return true;
        }
        let end = FLAT_START + u64::from(self.writable);
        at >= FLAT_START && at < FLAT_END && at < end && self.can_write(at + 1, count - 1)
    }

    /// Writes one byte.
    fn put(&mut self, at: u64, byte: u8)
        requires { flat_can_write self.old at ≡ true }
        ensures bytes { (a : ℕ) → flat_byte self.new a
            ≡ stored (record { at = at; size = 1; value = byte }) (flat_byte self.old) a }
        ensures permissions { self.new.writable ≡ self.old.writable }
    {
        self.bytes[(at - FLAT_START) as usize] = byte;
    }

    /// Writes the low bytes of a number, so many.
    fn write(&mut self, at: u64, count: u8, value: u64)
        requires { each_byte (flat_can_write self.old) at count ≡ true }
        ensures bytes { (a : ℕ) → flat_byte self.new a
            ≡ stored (record { at = at; size = count; value = value }) (flat_byte self.old) a }
        ensures permissions { self.new.writable ≡ self.old.writable }
    {
        if count > 0 {
            self.put(at, (value % 256) as u8);
            self.write(at + 1, count - 1, value / 256);
        }
    }
}

impl UserMem for FlatMemory {
    ghost byte = { flat_byte };

    ghost can_write = { flat_can_write };

    ghost IsAlike = { λ m m'. m'.writable ≡ m.writable };

    fn get(&self, at: u64, size: u8) -> Option<u64> {
        self.word(at, size)
    }

    fn set(&mut self, at: u64, size: u8, value: u64) -> bool {
        if !self.can_write(at, size) {
            return false;
        }
        self.write(at, size, value);
        true
    }

    fn writable(&self, at: u64, size: u8) -> bool {
        self.can_write(at, size)
    }

    ghost alike_itself = { λ m. refl };

    ghost alike_next = { λ a b c first second. Prim.cc };

    ghost writable_is_readable = { λ m a writable. Prim.grind (arith, nat_tests) };

    ghost ends = { λ m a past. Prim.grind (arith, nat_tests) };

    ghost bytes_are_small = { λ m a b e. Prim.grind (arith, nat_tests) };
}
