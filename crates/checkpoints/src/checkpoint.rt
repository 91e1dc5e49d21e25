//! One checkpoint.

ghost use Rattle.std.specs.Prelude.{◌≡◌};
ghost use Rattle.std.specs.Bool.{OnTrue};

use process::Parts;

/// Parts that stand after so many entries of a log.
#[derive(Drop)]
pub(crate) struct Checkpoint {
    /// The parts.
    pub(crate) parts: Parts,
    /// After how many entries they stand.
    pub(crate) length: usize,
}
