//! The numbers of lines that are told one after the other.

ghost use Rattle.std.specs.Prelude.{◌≡◌, ◌+◌, ◌≤◌, ◌/◌, ◌∷◌, ◌++◌, drop, length};
ghost use Rattle.std.specs.Fmt.{decimal};
ghost use Rattle.step_log.specs.Text.{space};

use place_text::LineEnd;

/// The most digits of a number.
const DIGITS: usize = 20;

/// The digits of a number but for the last two: they stay the same for a hundred lines.
#[derive(Drop)]
pub(crate) struct Hundreds {
    /// The number without its last two digits.
    number: u64,
    /// Its digits stand at the end.
    digits: [u8; DIGITS],
    /// Where the first of them stands.
    start: usize,
    ghost within: { start ≤ 20 },
    ghost kept: { drop start digits ≡ decimal number },
}

impl Hundreds {
    /// Those of a number of hundreds.
    pub(crate) fn of(number: u64) -> Hundreds
        ensures { result.number ≡ number }
    {
        let mut digits = [b'0'; DIGITS];
        let start = itoa::write_digits(number, &mut digits, DIGITS);
        Hundreds {
            number,
            digits,
            start,
        }
    }

    /// Keeps those of a number of hundreds from now on.
    #[inline(always)]
    fn turn_to(&mut self, number: u64)
        ensures { self.new.number ≡ number }
    {
        if self.number != number {
            *self = Hundreds::of(number);
        }
    }

    /// Puts a space and a number before the end of a line.
    #[inline(always)]
    pub(crate) fn put(&mut self, line: &mut LineEnd, number: u64)
        requires { length line.old ≤ 100 }
        ensures text { line.new ≡ space ∷ decimal number ++ line.old }
        ensures length { length line.new ≤ length line.old + 21 }
    {
        if number < 100 {
            line.put_number(number);
            return;
        }
        self.turn_to(number / 100);
        let two = (number % 100) as u8;
        line.put(&[b'0' + two / 10, b'0' + two % 10]);
        line.put_last(&self.digits, DIGITS - self.start);
        line.put(b" ");
    }
}
