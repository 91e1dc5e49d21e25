//! The segment that two processes share.

ghost use Rattle.std.specs.Prelude.{◌≡◌, ℕ, ◌+◌, ◌<◌, ◌≤◌, List, Some, IfOk, length, slice_index};
ghost use Rattle.std.specs.Option.{SomeIff};
ghost use Rattle.byte_views.specs.Words.{word_at as number_at};
ghost use Rattle.mach_types.specs.Bytes.{IsAccessSize, byte_over, word_at};
ghost use Rattle.block_model.specs.Beside.{SEGMENT_AT, SEGMENT_SIZE, is_in_segment};
ghost use Rattle.shared_procs.specs.Segments.{lies_within, shared_in};

use byte_views::{read_word, write_word};
use std::alloc::{AllocError, Global};
use std::marker::Model;

/// The address of the first byte (own).
const START: u64 = 0x3F_FFF8_0000;

/// How many bytes there are (own).
const SIZE: usize = 65_536;

/// 65,536 bytes from 0x3F_FFF8_0000 on, which the instructions of both processes read and write.
#[derive(Drop)]
pub struct Segment {
    /// The bytes, by how far they are past the first address.
    pub bytes: Vec<u8>,
}

impl Model for Segment {
    ghost Value = { List ℕ };

    ghost view = { λ s. s.bytes.items };

    ghost invariant = { λ s. length s.bytes.items ≡ SEGMENT_SIZE };
}

impl Segment {
    /// A segment of zeros.
    pub fn new(alloc: Global) -> Result<Segment, AllocError>
        ensures { IfOk result (λ s. (a : ℕ) → shared_in s a ≡ 0) }
    {
        let bytes = zeros(alloc, SIZE)?;
        Ok(Segment { bytes })
    }

    /// The number of `size` bytes from an address on, which all lie in the segment.
    pub(crate) fn word(&self, at: u64, size: u8) -> Option<u64>
        requires size { IsAccessSize size }
        requires from { SEGMENT_AT ≤ at }
        requires to { at + size ≤ SEGMENT_AT + SEGMENT_SIZE }
        ensures { result ≡ word_at (λ a. Some (shared_in self.now a)) at size }
    {
        number_in(&self.bytes, (at - START) as usize, size)
    }

    /// Writes the low `size` bytes of `value` from an address on, which all lie in the segment.
    pub(crate) fn put(&mut self, at: u64, size: u8, value: u64)
        requires size { IsAccessSize size }
        requires from { SEGMENT_AT ≤ at }
        requires to { at + size ≤ SEGMENT_AT + SEGMENT_SIZE }
        ensures { (a : ℕ) → SEGMENT_AT ≤ a → shared_in self.new a
            ≡ byte_over (record { at = at; size = size; value = value }) a (shared_in self.old a) }
    {
        let _ = write_word(&mut self.bytes, (at - START) as usize, size as usize, value);
    }
}

/// So many zeros.
fn zeros(alloc: Global, count: usize) -> Result<Vec<u8>, AllocError>
    ensures length { IfOk result (λ bytes. length bytes.items ≡ count) }
    ensures zero { IfOk result (λ bytes. (k : ℕ) → slice_index bytes.items k ≡ 0) }
{
    vec![in alloc; 0u8; count]
}

/// The number of `size` bytes from a place on.
fn number_in(bytes: &[u8], at: usize, size: u8) -> Option<u64>
    requires { IsAccessSize size }
    ensures number { SomeIff result (at + size ≤ length bytes.now) (number_at bytes.now at size) }
    ensures small { (k : ℕ) → slice_index bytes.now k < 256 }
{
    read_word(bytes, at, size as usize)
}

/// Whether an address lies in the segment.
pub(crate) fn is_in_segment(at: u64) -> bool
    ensures { result ≡ is_in_segment at }
{
    at >= START && at < START + SIZE as u64
}

/// Whether all of the `size` bytes from an address on lie in the segment.
pub(crate) fn is_within(at: u64, size: u8) -> bool
    requires { IsAccessSize size }
    ensures { result ≡ lies_within at size }
{
    at >= START && at <= START + SIZE as u64 - u64::from(size)
}
