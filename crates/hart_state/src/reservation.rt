//! Reservations of LR: each is the address of 8 aligned bytes.

ghost use Rattle.std.specs.Prelude.{◌≡◌};
ghost use Rattle.rv_inst.specs.Execution as execution;

/// Where the aligned 8 bytes round an address begin.
pub fn reserved_at(at: u64) -> u64
    ensures { result ≡ execution.reserved_at at }
{
    at - at % 8
}

/// Whether the aligned 8 bytes round an address are reserved.
pub fn holds(reserved: Option<u64>, at: u64) -> bool
    ensures { result ≡ execution.is_reserved reserved at }
{
    reserved.is_some_and(|start| start == reserved_at(at))
}

/// What a write of these bytes leaves of a reservation.
pub fn left_by(reserved: Option<u64>, at: u64, length: u64) -> Option<u64>
    ensures { result ≡ execution.lost_by at length reserved }
{
    match reserved {
        Some(start) if !overlaps(start, at, length) => Some(start),
        _ => None,
    }
}

/// Whether one of these bytes is among the 8 from `start` on.
fn overlaps(start: u64, at: u64, length: u64) -> bool
    ensures { result ≡ execution.has_reserved start at length }
{
    if at <= start {
        start - at < length
    } else {
        length > 0 && at - start < 8
    }
}
