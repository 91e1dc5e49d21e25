//! A program's memory, and stores to it.

ghost use Rattle.std.specs.Prelude.{◌≡◌, ℕ, Bool, true, Option, Some, None, ◌<◌, ◌≤◌, ◌^◌, IsSome};
ghost use Rattle.mach_types.specs.Bytes.{IsAccessSize, word_at, each_byte, after_write};

/// A store of the low `size` bytes of `value`, the lowest first, from the address `at` on.
#[derive(Clone, Copy, PartialEq, Eq, Drop)]
pub struct Store {
    /// The address of the first byte.
    pub at: u64,
    /// How many bytes: 1, 2, 4 or 8.
    pub size: u8,
    /// The number whose low bytes are stored.
    pub value: u64,
}

/// How many stores of a hart can wait (own).
pub const STORE_BUFFER_CAPACITY: u8 = 8;

/// One write that enters memory.
#[derive(Clone, Copy, PartialEq, Eq, Drop)]
pub enum Write {
    /// The bytes of a store.
    Stored(Store),
    /// Zeros from the address `at` on, `length` of them: pages that are mapped.
    Zeroed { at: u64, length: u64 },
}

impl Default for Write {
    /// No bytes.
    fn default() -> Write {
        Write::Zeroed { at: 0, length: 0 }
    }
}

/// Memory as a program sees it: bytes that can be read, some of which can be written.
///
/// A size is 1, 2, 4 or 8. An access whose last byte would pass 2^64 - 1 is neither readable nor writable.
pub trait UserMem {
    /// The byte at an address, where it is readable.
    ghost byte: { Self → ℕ → Option ℕ };

    /// Whether the byte at an address can be written.
    ghost can_write: { Self → ℕ → Bool };

    /// That two memories differ in bytes alone, those that can be written: what `set` keeps.
    ghost IsAlike: { Self → Self → Type 0 };

    /// The little-endian number of `size` bytes; None exactly where one of them isn't readable.
    fn get(&self, at: u64, size: u8) -> Option<u64>
        requires { IsAccessSize size }
        ensures { result ≡ word_at (byte self.now) at size };

    /// Writes the low `size` bytes of `value`; false exactly where one of them can't be written, and then
    /// nothing changes. Else exactly those bytes change.
    fn set(&mut self, at: u64, size: u8, value: u64) -> bool
        requires { IsAccessSize size }
        ensures answer { result ≡ each_byte (can_write self.old) at size }
        ensures bytes { (a : ℕ) → byte self.new a
            ≡ after_write result (record { at = at; size = size; value = value }) (byte self.old) a }
        ensures permissions { (a : ℕ) → can_write self.new a ≡ can_write self.old a }
        ensures alike { IsAlike self.old self.new };

    /// Whether `set` would answer true.
    fn writable(&self, at: u64, size: u8) -> bool
        requires { IsAccessSize size }
        ensures { result ≡ each_byte (can_write self.now) at size };

    /// A memory is like itself.
    ghost alike_itself: { (m : Self) → IsAlike m m };

    /// What is like a like one is like it.
    ghost alike_next: { (a b c : Self) → IsAlike a b → IsAlike b c → IsAlike a c };

    /// Each byte that can be written can be read.
    ghost writable_is_readable: { (m : Self) (a : ℕ) → can_write m a ≡ true → IsSome (byte m a) };

    /// No address is 2^64 or more.
    ghost ends: { (m : Self) (a : ℕ) → 2 ^ 64 ≤ a → byte m a ≡ None };

    /// A byte is a number below 256.
    ghost bytes_are_small: { (m : Self) (a b : ℕ) → byte m a ≡ Some b → b < 256 };
}
