//! Which bytes of memory an event reads and writes.

ghost use Rattle.std.specs.Prelude.{◌≡◌, [], None};
ghost use Rattle.rv_inst.specs.Execution as execution;
ghost use Rattle.rv_inst.specs.Accesses.{read_by, reserved_by, written_by};
ghost use Rattle.log_gather.specs.Accesses.{bytes_in, bytes_of_store, entered_by};

use mach_types::Store;
use rv_inst::Effect;

/// Bytes of memory: so many from an address on.
#[derive(Clone, Copy, PartialEq, Eq, Drop)]
pub(crate) struct Range {
    pub(crate) at: u64,
    pub(crate) count: u8,
}

impl Range {
    /// Whether one of them is one of 8 bytes that are reserved.
    pub(crate) fn is_of_eight_from(&self, start: u64) -> bool
        ensures { result ≡ execution.has_reserved start self.now.at self.now.count }
    {
        let end = u128::from(self.at) + u128::from(self.count);
        self.count > 0 && u128::from(start) < end && u128::from(self.at) < u128::from(start) + 8
    }
}

/// What the access of a plain event touches.
#[derive(Clone, Copy, PartialEq, Eq, Drop)]
pub(crate) struct Access {
    /// What it reads.
    pub(crate) reads: Option<Range>,
    /// What it writes, now or when its store enters memory.
    pub(crate) writes: Option<Range>,
    /// What it writes in memory now.
    pub(crate) entered: Option<Range>,
    /// What its hart has reserved after it, where that changes: the address of 8 aligned bytes, or nothing.
    pub(crate) reserves: Option<Option<u64>>,
}

/// An event that touches no memory.
pub(crate) const NO_ACCESS: Access = Access {
    reads: None,
    writes: None,
    entered: None,
    reserves: None,
};

/// Where the aligned 8 bytes round an address begin.
fn eight_round(at: u64) -> u64
    ensures { result ≡ execution.reserved_at at }
{
    at - at % 8
}

/// Whether a reservation is that of an address.
fn is_reserved(reserved: Option<u64>, at: u64) -> bool
    ensures { result ≡ execution.is_reserved reserved at }
{
    match reserved {
        Some(start) => start == eight_round(at),
        None => false,
    }
}

/// What an instruction with this effect reads. LR reads the aligned 8 bytes that it reserves.
fn reads_of(effect: &Effect) -> Option<Range>
    ensures { bytes_in result ≡ read_by effect.now }
{
    match *effect {
        Effect::Load { at, size, .. } => Some(Range { at, count: size }),
        Effect::Amo { at, size, .. } => Some(Range { at, count: size }),
        Effect::Lr { at, .. } => Some(Range {
            at: eight_round(at),
            count: 8,
        }),
        _ => None,
    }
}

/// What an instruction with this effect writes, now or when its store enters memory. SC writes the aligned 8
/// bytes that it must have reserved, whether it succeeds or not.
fn writes_of(effect: &Effect) -> Option<Range>
    ensures { bytes_in result ≡ written_by effect.now }
{
    match *effect {
        Effect::Store { at, size, .. } => Some(Range { at, count: size }),
        Effect::Amo { at, size, .. } => Some(Range { at, count: size }),
        Effect::Sc { at, .. } => Some(Range {
            at: eight_round(at),
            count: 8,
        }),
        _ => None,
    }
}

/// What an instruction with this effect writes in memory at once, on a hart that has this reserved.
fn entered_of(effect: &Effect, reserved: Option<u64>) -> Option<Range>
    ensures { bytes_in result ≡ entered_by reserved effect.now }
{
    match *effect {
        Effect::Amo { at, size, .. } => Some(Range { at, count: size }),
        Effect::Sc { at, size, .. } => {
            if is_reserved(reserved, at) {
                Some(Range { at, count: size })
            } else {
                None
            }
        }
        _ => None,
    }
}

/// What a hart has reserved after an instruction with this effect, where that changes.
fn reserves_of(effect: &Effect) -> Option<Option<u64>>
    ensures { result ≡ reserved_by effect.now }
{
    match *effect {
        Effect::Lr { at, .. } => Some(Some(eight_round(at))),
        Effect::Sc { .. } => Some(None),
        _ => None,
    }
}

/// What an instruction with this effect touches, on a hart that has this reserved.
pub(crate) fn access_of(effect: &Effect, reserved: Option<u64>) -> Access
    ensures reads { bytes_in result.reads ≡ read_by effect.now }
    ensures writes { bytes_in result.writes ≡ written_by effect.now }
    ensures entered { bytes_in result.entered ≡ entered_by reserved effect.now }
    ensures reserves { result.reserves ≡ reserved_by effect.now }
{
    Access {
        reads: reads_of(effect),
        writes: writes_of(effect),
        entered: entered_of(effect, reserved),
        reserves: reserves_of(effect),
    }
}

/// What is touched as a store enters memory, or as none does.
pub(crate) fn access_of_drain(store: Option<Store>) -> Access
    ensures reads { bytes_in result.reads ≡ [] }
    ensures writes { bytes_in result.writes ≡ bytes_of_store store }
    ensures entered { bytes_in result.entered ≡ bytes_of_store store }
    ensures reserves { result.reserves ≡ None }
{
    let bytes = match store {
        Some(store) => Some(Range {
            at: store.at,
            count: store.size,
        }),
        None => None,
    };
    Access {
        reads: None,
        writes: bytes,
        entered: bytes,
        reserves: None,
    }
}
