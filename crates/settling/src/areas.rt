//! What an area looks at.

ghost use Rattle.std.specs.Prelude.{◌≡◌, ◌+◌};
ghost use Rattle.mach_types.specs.Bytes.{IsAccessSize, word_at};
ghost use Rattle.mach_types.specs.Kernel.Areas as areas;
ghost use Rattle.settling.specs.Glances.{descriptor_of, glance_in, has_descriptor, is_past};

use mach_types::sequences::RSEQ_CS;
use mach_types::{Area, Seq, UserMem};

/// The words that an area looks at: its pointer, and those of the descriptor there, each None where it can't
/// be read. Where the pointer can't be read, it counts as 0, and no descriptor is meant.
#[derive(Clone, Copy, PartialEq, Eq, Drop)]
pub struct Glance {
    /// The address of the descriptor, or 0.
    pub pointer: u64,
    /// The version of the descriptor.
    pub version: Option<u64>,
    /// Its flags.
    pub flags: Option<u64>,
    /// Where its sequence starts.
    pub start: Option<u64>,
    /// How many bytes its sequence has.
    pub length: Option<u64>,
    /// Where its abort handler is.
    pub abort: Option<u64>,
}

/// The word so many bytes past an address; None exactly where it can't be read.
fn word<M: UserMem>(mem: &M, at: u64, offset: u64, size: u8) -> Option<u64>
    requires { IsAccessSize size }
    ensures { result ≡ word_at (M.byte mem.now) (at + offset) size }
{
    mem.get(at.checked_add(offset)?, size)
}

/// The words that an area looks at.
pub(crate) fn glance_of<M: UserMem>(mem: &M, area: &Area) -> Glance
    ensures { result ≡ glance_in (M.byte mem.now) area.now }
{
    let pointer = word(mem, area.at, RSEQ_CS, 8).unwrap_or(0);
    Glance {
        pointer,
        version: word(mem, pointer, 0, 4),
        flags: word(mem, pointer, 4, 4),
        start: word(mem, pointer, 8, 8),
        length: word(mem, pointer, 16, 8),
        abort: word(mem, pointer, 24, 8),
    }
}

impl Glance {
    /// Whether each word of the descriptor could be read.
    fn has_descriptor(&self) -> bool
        ensures { result ≡ has_descriptor self.now }
    {
        self.version.is_some()
            && self.flags.is_some()
            && self.start.is_some()
            && self.length.is_some()
            && self.abort.is_some()
    }

    /// The sequence of the descriptor; a word that couldn't be read counts as 0.
    fn sequence(&self) -> Seq
        ensures { result ≡ areas.sequence_of (descriptor_of self.now) }
    {
        Seq {
            start: self.start.unwrap_or(0),
            length: self.length.unwrap_or(0),
            abort: self.abort.unwrap_or(0),
        }
    }

    /// Whether a pc is outside what the area looks at: there is no descriptor, or it can't be read, or the pc
    /// isn't in its sequence.
    pub fn is_past(&self, pc: u64) -> bool
        ensures { result ≡ is_past self.now pc }
    {
        self.pointer == 0 || !self.has_descriptor() || !self.sequence().is_inside(pc)
    }
}
