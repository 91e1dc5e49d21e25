//! Writes of more than 8 bytes, each with the line of the log in which it was made.

ghost use Rattle.std.specs.Prelude.{◌≡◌, if◌then◌else◌};
ghost use Rattle.rv_inst.specs.Accesses.{bytes};
ghost use Rattle.block_model.specs.Footprints.{has_byte};
ghost use Rattle.event_facts.specs.Written.{last_line};

/// A write of many bytes at once, as those are that become 0 where pages are mapped.
#[derive(Clone, Copy, Drop)]
pub(crate) struct LongWrite {
    /// The address of the first byte.
    pub(crate) at: u64,
    /// How many bytes.
    pub(crate) length: u64,
    /// The number of the line.
    pub(crate) line: u32,
}

impl LongWrite {
    /// Whether it has the byte at an address.
    fn has(&self, at: u64) -> bool
        ensures { result ≡ has_byte (bytes self.now.at self.now.length) at }
    {
        let end = u128::from(self.at) + u128::from(self.length);
        self.at <= at && u128::from(at) < end
    }

    /// The line in which the byte at an address was written last, this write too, where it was that one before it.
    fn over(&self, at: u64, earlier: u32) -> u32
        ensures { result ≡ (if has_byte (bytes self.now.at self.now.length) at then self.now.line else earlier) }
    {
        if self.has(at) { self.line } else { earlier }
    }
}

/// The line of the last of these that has the byte at an address; 0 where none has.
pub(crate) fn last_line(writes: &[LongWrite], at: u64) -> u32
    ensures { result ≡ last_line writes.now at 0 }
{
    let mut line = 0;
    for write in writes {
        line = write.over(at, line);
    }
    line
}
