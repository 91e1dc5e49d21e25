//! Numbers in the fields of a file.

ghost use Rattle.std.specs.Prelude.{◌≡◌, ◌+◌, ◌^◌, ◌<◌, ◌≤◌, length};
ghost use Rattle.byte_views.specs.Words.{IsWordSize, word_at};

use byte_views::read_word;

/// The number in `size` bytes.
fn number(file: &[u8], at: usize, size: usize) -> u64
    requires size { IsWordSize size }
    requires within { at + size ≤ length file.now }
    ensures number { result ≡ word_at file.now at size }
    ensures small { result < 256 ^ size }
{
    match read_word(file, at, size) {
        Some(number) => number,
        None => unreachable!(),
    }
}

/// A number of one byte.
pub(crate) fn byte(file: &[u8], at: usize) -> u8
    requires { at + 1 ≤ length file.now }
    ensures { result ≡ word_at file.now at 1 }
{
    number(file, at, 1) as u8
}

/// A number of two bytes, `Elf64_Half`.
pub(crate) fn half(file: &[u8], at: usize) -> u16
    requires { at + 2 ≤ length file.now }
    ensures { result ≡ word_at file.now at 2 }
{
    number(file, at, 2) as u16
}

/// A number of four bytes, `Elf64_Word`.
pub(crate) fn word(file: &[u8], at: usize) -> u32
    requires { at + 4 ≤ length file.now }
    ensures { result ≡ word_at file.now at 4 }
{
    number(file, at, 4) as u32
}

/// A number of eight bytes, `Elf64_Xword`.
pub(crate) fn xword(file: &[u8], at: usize) -> u64
    requires { at + 8 ≤ length file.now }
    ensures { result ≡ word_at file.now at 8 }
{
    number(file, at, 8)
}

/// A sum that doesn't wrap.
pub(crate) fn sum(a: u64, b: u64) -> u128
    ensures { result ≡ a + b }
{
    u128::from(a) + u128::from(b)
}
