//! The fields of an area and of a descriptor in memory.

ghost use Rattle.std.specs.Prelude.{◌≡◌, ◌<◌, ◌+◌, if◌then◌else◌, Option, Some, None};
ghost use Rattle.mach_types.specs.Bytes.{IsAccessSize, word_at};
ghost use Rattle.mach_types.specs.Kernel.Areas.{can_read_area, can_read_descriptor, descriptor_at, flags_of, pointer_of};
ghost use Rattle.mach_types.specs.declared.address_space.TheConstants.{USER_END};

use mach_types::sequences::{FLAGS, RSEQ_CS};
use mach_types::{Area, Descriptor, UserMem};

/// What an area says to the kernel.
#[derive(Clone, Copy)]
pub struct Request {
    /// `rseq_cs`: the address of a descriptor, or 0.
    pub pointer: u64,
    /// `flags`.
    pub flags: u64,
}

/// Reads what an area says; None exactly where one of the two fields can't be read.
pub fn read_area<M: UserMem>(mem: &M, area: &Area) -> Option<Request>
    ensures { let byte = M.byte mem.now in
        result ≡ (if can_read_area byte area.now
        then Some (record { pointer = pointer_of byte area.now; flags = flags_of byte area.now })
        else None) }
{
    let pointer = read_field(mem, area.at, RSEQ_CS, 8)?;
    let flags = read_field(mem, area.at, FLAGS, 4)?;
    Some(Request { pointer, flags })
}

/// Reads a field, so many bytes past an address; None exactly where it can't be read.
fn read_field<M: UserMem>(mem: &M, at: u64, offset: u64, size: u8) -> Option<u64>
    requires { IsAccessSize size }
    ensures { result ≡ word_at (M.byte mem.now) (at + offset) size }
{
    mem.get(at.checked_add(offset)?, size)
}

/// Reads a word of 4 bytes; None exactly where it can't be read.
pub fn read_word<M: UserMem>(mem: &M, at: u64) -> Option<u32>
    ensures { result ≡ word_at (M.byte mem.now) at 4 }
{
    let word = mem.get(at, 4)?;
    Some(word as u32)
}

/// Reads a descriptor; None exactly where one of its bytes can't be read.
pub fn read_descriptor<M: UserMem>(mem: &M, at: u64) -> Option<Descriptor>
    requires { at < USER_END }
    ensures { let byte = M.byte mem.now in
        result ≡ (if can_read_descriptor byte at then Some (descriptor_at byte at) else None) }
{
    let version = read_word(mem, at)?;
    let flags = read_word(mem, at + 4)?;
    let start_ip = mem.get(at + 8, 8)?;
    let post_commit_offset = mem.get(at + 16, 8)?;
    let abort_ip = mem.get(at + 24, 8)?;
    Some(Descriptor {
        version,
        flags,
        start_ip,
        post_commit_offset,
        abort_ip,
    })
}
