//! An entry of the log as a line of text.

ghost use Rattle.std.specs.Prelude.{◌≡◌, ◌+◌, ◌-◌, ◌*◌, ◌/◌, ◌%◌, ◌^◌, ◌<◌, ◌≤◌, [], ◌∷◌, ◌++◌, length};
ghost use Rattle.std.specs.Fmt.{decimal};
ghost use Rattle.arrayvec.specs.ArrayVec.{array_vec_len};
ghost use Rattle.step_log.specs.Text.{entry_text, kind_word, hex_text};
ghost use Rattle.mach_types.specs.declared.events.Kind.TheVariants.{Exec};

use arrayvec::ArrayVec;
use mach_types::{Entry, Hart, Kind, Tid};

/// How many bytes the line of an `exec` has where the thread's number is one digit.
pub const EXEC_LINE: usize = 26;

/// The two hexadecimal digits of each byte, from `00` on.
static PAIRS: [u8; 512] = *b"\
    000102030405060708090a0b0c0d0e0f101112131415161718191a1b1c1d1e1f\
    202122232425262728292a2b2c2d2e2f303132333435363738393a3b3c3d3e3f\
    404142434445464748494a4b4c4d4e4f505152535455565758595a5b5c5d5e5f\
    606162636465666768696a6b6c6d6e6f707172737475767778797a7b7c7d7e7f\
    808182838485868788898a8b8c8d8e8f909192939495969798999a9b9c9d9e9f\
    a0a1a2a3a4a5a6a7a8a9aaabacadaeafb0b1b2b3b4b5b6b7b8b9babbbcbdbebf\
    c0c1c2c3c4c5c6c7c8c9cacbcccdcecfd0d1d2d3d4d5d6d7d8d9dadbdcdddedf\
    e0e1e2e3e4e5e6e7e8e9eaebecedeeeff0f1f2f3f4f5f6f7f8f9fafbfcfdfeff";

/// The word of a kind of event.
pub fn kind_word(kind: Kind) -> &'static [u8]
    ensures { result.now ≡ kind_word kind }
{
    match kind {
        Kind::Exec => b"exec",
        Kind::Drain => b"drain",
        Kind::Take => b"take",
        Kind::Done => b"done",
        Kind::Preempt => b"preempt",
        Kind::Run => b"run",
        Kind::Signal => b"signal",
    }
}

/// Appends a piece of text.
fn push_text(line: &mut ArrayVec<u8, 48>, text: &[u8])
    requires { array_vec_len line.old + length text.now ≤ 48 }
    ensures { line.new.items ≡ line.old.items ++ text.now }
{
    for byte in text {
        line.push(*byte);
    }
}

/// Appends a number in decimal, without leading zeros.
fn push_decimal(line: &mut ArrayVec<u8, 48>, number: u32)
    requires { array_vec_len line.old + length (decimal number) ≤ 48 }
    ensures { line.new.items ≡ line.old.items ++ decimal number }
{
    if number >= 10 {
        push_decimal(line, number / 10);
    }
    line.push(b'0' + (number % 10) as u8);
}

/// The two hexadecimal digits of a byte, in lower case.
fn hex_pair(byte: u8) -> [u8; 2]
    ensures { result ≡ hex_text 2 byte }
{
    let at = 2 * byte as usize;
    [PAIRS[at], PAIRS[at + 1]]
}

/// A number as 16 hexadecimal digits, in lower case.
pub fn hex_digits(number: u64) -> [u8; 16]
    ensures { result ≡ hex_text 16 number }
{
    let [b0, b1, b2, b3, b4, b5, b6, b7] = number.to_be_bytes();
    let [d0, d1] = hex_pair(b0);
    let [d2, d3] = hex_pair(b1);
    let [d4, d5] = hex_pair(b2);
    let [d6, d7] = hex_pair(b3);
    let [d8, d9] = hex_pair(b4);
    let [da, db] = hex_pair(b5);
    let [dc, dd] = hex_pair(b6);
    let [de, df] = hex_pair(b7);
    [
        d0, d1, d2, d3, d4, d5, d6, d7, d8, d9, da, db, dc, dd, de, df,
    ]
}

/// Prints an entry as one line of the log, with its newline: hart, kind, thread and pc, one space apart.
///
/// The hart is one digit, the thread a decimal number, the pc 16 lower-case hexadecimal digits.
pub fn print_entry(entry: &Entry, line: &mut ArrayVec<u8, 48>)
    requires empty { line.old.items ≡ [] }
    requires hart { entry.now.hart.0 < 8 }
    ensures text { line.new.items ≡ entry_text entry.now }
    ensures length { array_vec_len line.new ≤ 38 }
{
    line.push(b'0' + entry.hart.0);
    line.push(b' ');
    push_text(line, kind_word(entry.kind));
    line.push(b' ');
    push_decimal(line, entry.tid.0);
    line.push(b' ');
    push_text(line, &hex_digits(entry.pc));
    line.push(b'\n');
}

/// The line of an `exec` by a thread whose number is one digit, with its newline, as [`print_entry`] prints it.
pub fn exec_line(hart: Hart, tid: Tid, pc: u64) -> [u8; EXEC_LINE]
    requires hart { hart.0 < 8 }
    requires digit { tid.0 < 10 }
    ensures { result ≡ entry_text (record { hart = hart; kind = Exec; tid = tid; pc = pc }) }
{
    let hart = b'0' + hart.0;
    let thread = b'0' + tid.0 as u8;
    let digits = hex_digits(pc);
    [
        hart, b' ', b'e', b'x', b'e', b'c', b' ', thread, b' ', digits[0], digits[1], digits[2],
        digits[3], digits[4], digits[5], digits[6], digits[7], digits[8], digits[9], digits[10],
        digits[11], digits[12], digits[13], digits[14], digits[15], b'\n',
    ]
}
