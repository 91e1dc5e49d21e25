//! At which bytes the check of an area looks.

ghost use Rattle.std.specs.Prelude.{◌≡◌, ◌<◌};
ghost use Rattle.mach_types.specs.declared.address_space.TheConstants.{USER_END};
ghost use Rattle.rseq_area.specs.Lookups as looks;

use crate::fields::{read_area, read_descriptor};
use crate::naming::{is_out_of_range, sequence_of};
use mach_types::address_space::USER_END;
use mach_types::{Area, Descriptor, UserMem};

/// The bytes at which the check of an area looks: of the area the pointer and the flags, always.
#[derive(Clone, Copy, PartialEq, Eq, Drop)]
pub struct Lookups {
    /// The address of the area.
    pub area: u64,
    /// The address of the descriptor, where the check comes to it.
    pub descriptor: Option<u64>,
    /// The address of the word before the abort handler, where the check comes to it.
    pub signature: Option<u64>,
}

/// At which bytes the check of an area looks that says what the area names (rseq(2); uapi linux/rseq.h).
///
/// At the descriptor where the pointer and the flags can be read and the pointer is neither 0 nor past the end of addresses; and at
/// the signature where the descriptor can be read, its version is 0, the sequence and its abort handler are below the end of
/// addresses, the abort handler isn't inside, and 4 bytes are before it.
pub fn looked_at<M: UserMem>(mem: &M, area: &Area) -> Lookups
    ensures { result ≡ looks.looked_at (M.byte mem.now) area.now }
{
    let fields = Lookups {
        area: area.at,
        descriptor: None,
        signature: None,
    };
    let Some(request) = read_area(mem, area) else {
        return fields;
    };
    if request.pointer == 0 || request.pointer >= USER_END {
        return fields;
    }
    Lookups {
        area: area.at,
        descriptor: Some(request.pointer),
        signature: signature_at(mem, request.pointer),
    }
}

/// Where the signature stands of the descriptor at an address, where the check comes to it.
fn signature_at<M: UserMem>(mem: &M, at: u64) -> Option<u64>
    requires { at < USER_END }
    ensures { result ≡ looks.signature_at (M.byte mem.now) at }
{
    signature_of(&read_descriptor(mem, at)?)
}

/// Where the signature stands of a descriptor that was read, where the check comes to it.
fn signature_of(descriptor: &Descriptor) -> Option<u64>
    ensures { result ≡ looks.signature_of descriptor.now }
{
    let sequence = sequence_of(descriptor);
    if descriptor.version != 0 || is_out_of_range(&sequence) || sequence.is_inside(sequence.abort) {
        return None;
    }
    sequence.abort.checked_sub(4)
}
