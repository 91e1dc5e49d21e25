//! What an area names.

ghost use Rattle.std.specs.Prelude.{◌≡◌, ◌==◌, ◌&&◌};
ghost use Rattle.mach_types.specs.Kernel.Areas as areas;

use crate::fields::{read_area, read_descriptor, read_word};
use mach_types::address_space::USER_END;
use mach_types::{Area, BadWhy, Descriptor, Named, Seq, UserMem};

/// What an area names for its thread at a pc (rseq(2); uapi linux/rseq.h).
///
/// Nothing where the pointer is 0; else the sequence of the descriptor, or the first of these that is wrong:
/// the area can't be read, the pointer is past the end of addresses, the descriptor can't be read, its
/// version isn't 0, the sequence or its abort handler is past the end of addresses, the abort handler is
/// inside, the signature isn't before it, a flag is set while the pc is inside.
pub fn named<M: UserMem>(mem: &M, area: &Area, pc: u64) -> Named
    ensures { result ≡ areas.named (M.byte mem.now) area.now pc }
{
    let Some(request) = read_area(mem, area) else {
        return Named::Bad(BadWhy::AreaBytes);
    };
    if request.pointer == 0 {
        return Named::Nothing;
    }
    if request.pointer >= USER_END {
        return Named::Bad(BadWhy::Pointer);
    }
    match read_descriptor(mem, request.pointer) {
        Some(descriptor) => named_by(mem, area, request.flags, pc, &descriptor),
        None => Named::Bad(BadWhy::Descriptor),
    }
}

/// What a descriptor names, for a thread at a pc whose area has these flags.
fn named_by<M: UserMem>(
    mem: &M,
    area: &Area,
    area_flags: u64,
    pc: u64,
    descriptor: &Descriptor,
) -> Named
    requires { area_flags ≡ areas.flags_of (M.byte mem.now) area.now }
    ensures { result ≡ areas.named_by (M.byte mem.now) area.now pc descriptor.now }
{
    let sequence = sequence_of(descriptor);
    if descriptor.version != 0 {
        return Named::Bad(BadWhy::Version);
    }
    if is_out_of_range(&sequence) {
        return Named::Bad(BadWhy::Range);
    }
    if sequence.is_inside(sequence.abort) {
        return Named::Bad(BadWhy::AbortInside);
    }
    if !is_signed(mem, area, &sequence) {
        return Named::Bad(BadWhy::Signature);
    }
    if sequence.is_inside(pc) && (area_flags != 0 || descriptor.flags != 0) {
        return Named::Bad(BadWhy::SeqFlags);
    }
    Named::Good(sequence)
}

/// The sequence of a descriptor.
pub(crate) fn sequence_of(descriptor: &Descriptor) -> Seq
    ensures { result ≡ areas.sequence_of descriptor.now }
{
    Seq {
        start: descriptor.start_ip,
        length: descriptor.post_commit_offset,
        abort: descriptor.abort_ip,
    }
}

/// Whether the start, the abort handler or the end of a sequence isn't below the end of addresses.
pub(crate) fn is_out_of_range(sequence: &Seq) -> bool
    ensures { result ≡ areas.is_out_of_range sequence.now }
{
    sequence.start >= USER_END
        || sequence.abort >= USER_END
        || sequence.length >= USER_END - sequence.start
}

/// Whether the word before the abort handler is the area's signature.
fn is_signed<M: UserMem>(mem: &M, area: &Area, sequence: &Seq) -> bool
    ensures { result ≡ areas.is_signed (M.byte mem.now) area.now sequence.now }
{
    match sequence.abort.checked_sub(4) {
        Some(before) => is_word(mem, before, area.sig),
        None => false,
    }
}

/// Whether a word of 4 bytes can be read, and is this one.
fn is_word<M: UserMem>(mem: &M, at: u64, word: u32) -> bool
    ensures { result
        ≡ (areas.are_readable (M.byte mem.now) at 4 && (areas.number_at (M.byte mem.now) at 4 == word)) }
{
    match read_word(mem, at) {
        Some(read) => read == word,
        None => false,
    }
}
