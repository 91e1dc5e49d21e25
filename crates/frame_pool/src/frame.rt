//! A frame that its holder has taken from a pool.

ghost use Rattle.std.specs.Prelude.{◌≡◌};

use std::marker::Model;

/// The right to use one frame of a pool, seen as the frame's number. It isn't copied, and it can't be
/// dropped: its holder keeps it or gives it back.
pub struct Frame {
    number: u32,
}

impl Model for Frame {
    ghost use Rattle.std.specs.Prelude.{ℕ};

    ghost Value = { ℕ };

    ghost view = { λ f. f.number };
}

impl Frame {
    /// The frame with this number.
    pub(crate) fn new(number: u32) -> Frame
        ensures { result ≡ number }
    {
        Frame { number }
    }

    /// Where the frame stands in the region, in frames.
    pub(crate) fn place(&self) -> usize
        ensures { result ≡ self.now }
    {
        self.number as usize
    }

    /// The frame's number, which its holder no longer has.
    pub(crate) fn into_number(self) -> u32
        ensures { result ≡ self }
    {
        let Frame { number } = self;
        number
    }
}
