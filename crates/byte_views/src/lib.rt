//! Numbers of 1, 2, 4 or 8 bytes in bytes, the lowest byte first.
#![tactic(auto)]

ghost use Rattle.std.specs.Prelude.{◌+◌, ◌^◌, ◌<◌, ◌≤◌, ◌≡◌, ◌↔◌, length, IsTrue, IfSome};
ghost use Rattle.std.specs.Bool.{OnFalse, OnTrue};
ghost use Rattle.std.specs.Option.{SomeIff};
ghost use Rattle.byte_views.specs.Words.{IsWordSize, word_at, with_word};

use byteorder::{ByteOrder, LittleEndian};

/// The number in `size` bytes from place `at`, the lowest byte first. `None` where these bytes do not
/// all lie in `bytes`.
pub fn read_word(bytes: &[u8], at: usize, size: usize) -> Option<u64>
    requires { IsWordSize size }
    ensures word { SomeIff result (at + size ≤ length bytes.now) (word_at bytes.now at size) }
    ensures small { IfSome result (λ word. word < 256 ^ size) }
{
    if !is_within(at, size, bytes.len()) {
        return None;
    }
    Some(number_of(&bytes[at..at + size]))
}

/// Writes the low `size` bytes of `value` from place `at` on, the lowest byte first. False where they
/// do not all lie in `bytes`, which then stay as they are.
pub fn write_word(bytes: &mut [u8], at: usize, size: usize, value: u64) -> bool
    requires { IsWordSize size }
    ensures fits { IsTrue result ↔ (at + size ≤ length bytes.old) }
    ensures written { OnTrue result (bytes.new ≡ with_word bytes.old at size value) }
    ensures kept { OnFalse result (bytes.new ≡ bytes.old) }
{
    if !is_within(at, size, bytes.len()) {
        return false;
    }
    put_number(&mut bytes[at..], size, value);
    true
}

/// Whether `size` bytes from place `at` lie below `length`.
fn is_within(at: usize, size: usize, length: usize) -> bool
    ensures { IsTrue result ↔ (at + size ≤ length) }
{
    size <= length && at <= length - size
}

/// The number that 1, 2, 4 or 8 bytes are.
fn number_of(word: &[u8]) -> u64
    requires { IsWordSize (length word.now) }
    ensures { result ≡ word_at word.now 0 (length word.now) }
{
    match word.len() {
        1 => u64::from(word[0]),
        2 => u64::from(LittleEndian::read_u16(word)),
        4 => u64::from(LittleEndian::read_u32(word)),
        8 => LittleEndian::read_u64(word),
        _ => unreachable!(),
    }
}

/// Writes the low `size` bytes of `value` at the front.
fn put_number(word: &mut [u8], size: usize, value: u64)
    requires size { IsWordSize size }
    requires room { size ≤ length word.old }
    ensures { word.new ≡ with_word word.old 0 size value }
{
    match size {
        1 => word[0] = (value % 0x100) as u8,
        2 => LittleEndian::write_u16(word, (value % 0x1_0000) as u16),
        4 => LittleEndian::write_u32(word, (value % 0x1_0000_0000) as u32),
        8 => LittleEndian::write_u64(word, value),
        _ => unreachable!(),
    }
}
