//! The end of a line, which grows towards its front: so a line is put together in one place, and appended at once.

ghost use Rattle.std.specs.Prelude.{◌≡◌, ◌+◌, ◌-◌, ◌≤◌, [], ◌∷◌, ◌++◌, OnOk, drop, length};
ghost use Rattle.std.specs.Fmt.{decimal};
ghost use Rattle.step_log.specs.Text.{newline, space};
ghost use Rattle.place_text.specs.Fields.{value_text};

use std::alloc::AllocError;
use std::marker::Model;
use step_log::hex_digits;

/// Room for a line, in bytes.
const ROOM: usize = 128;

/// The last bytes of a line, in order; at most 128.
#[derive(Drop)]
pub struct LineEnd {
    /// The bytes stand at the end.
    bytes: [u8; ROOM],
    /// Where the first of them stands.
    start: usize,
}

impl Model for LineEnd {
    ghost use Rattle.std.specs.Prelude.{List, ℕ, ◌≤◌, drop};

    ghost Value = { List ℕ };

    ghost view = { λ l. drop l.start l.bytes };

    ghost invariant = { λ l. l.start ≤ 128 };
}

impl LineEnd {
    /// A newline.
    #[inline(always)]
    pub fn newline() -> LineEnd
        ensures { result ≡ newline ∷ [] }
    {
        LineEnd {
            bytes: [b'\n'; ROOM],
            start: ROOM - 1,
        }
    }

    /// Puts bytes before it.
    #[inline(always)]
    pub fn put(&mut self, bytes: &[u8])
        requires { length bytes.now + length self.old ≤ 128 }
        ensures text { self.new ≡ bytes.now ++ self.old }
        ensures length { length self.new ≡ length bytes.now + length self.old }
    {
        let end = self.start;
        let start = end - bytes.len();
        self.bytes[start..end].copy_from_slice(bytes);
        self.start = start;
    }

    /// Puts the last of these bytes before it, so many. All of them are copied, which is quick where their
    /// number is known.
    #[inline(always)]
    pub fn put_last(&mut self, bytes: &[u8], count: usize)
        requires count { count ≤ length bytes.now }
        requires room { length bytes.now + length self.old ≤ 128 }
        ensures text { self.new ≡ drop (length bytes.now - count) bytes.now ++ self.old }
        ensures length { length self.new ≡ count + length self.old }
    {
        self.put(bytes);
        self.start += bytes.len() - count;
    }

    /// Puts a number in decimal before it, with no space.
    #[inline(always)]
    pub(crate) fn put_decimal(&mut self, number: u64)
        requires { length self.old ≤ 100 }
        ensures text { self.new ≡ decimal number ++ self.old }
        ensures length { length self.new ≤ length self.old + 20 }
    {
        let first = itoa::write_digits(number, &mut self.bytes, self.start);
        self.start = first;
    }

    /// Puts a space and a number in decimal before it.
    #[inline(always)]
    pub fn put_number(&mut self, number: u64)
        requires { length self.old ≤ 100 }
        ensures text { self.new ≡ space ∷ decimal number ++ self.old }
        ensures length { length self.new ≤ length self.old + 21 }
    {
        self.put_decimal(number);
        self.put(b" ");
    }

    /// Puts a space, and an address or a value before it.
    #[inline(always)]
    pub fn put_value(&mut self, value: u64)
        requires { length self.old ≤ 100 }
        ensures text { self.new ≡ space ∷ value_text value ++ self.old }
        ensures length { length self.new ≡ length self.old + 17 }
    {
        self.put(&hex_digits(value));
        self.put(b" ");
    }

    /// Appends the line to a text.
    #[inline(always)]
    pub fn append_to(&self, text: &mut Vec<u8>) -> Result<(), AllocError>
        ensures { OnOk result (text.new.items ≡ text.old.items ++ self.now) }
    {
        text.extend_from_slice(&self.bytes[self.start..])
    }
}
