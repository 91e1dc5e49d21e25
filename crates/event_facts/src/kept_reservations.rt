//! The reservations that the kernel's writes end, by those that were kept before the event.

ghost use Rattle.std.specs.Prelude.{◌≡◌, ◌++◌, None, Some, IfOk, OnOk, option_to_list};
ghost use Rattle.std.specs.List.{flat_map, range_with_len};
ghost use Rattle.event_facts.specs.KernelEvents as spec;
ghost use Rattle.event_facts.specs.{KernelEvents.lost_from, Reservations.lost_facts, Telling.past_of};

use crate::facts::push_if;
use crate::reservations::takes;
use fact_types::Fact;
use mach_types::{Hart, Write};
use machine_core::Machine;
use std::alloc::{AllocError, Global};

/// The reservations of a machine's harts, in the order of the harts.
pub(crate) fn all_reservations(
    alloc: Global,
    machine: &Machine,
) -> Result<Vec<Option<u64>>, AllocError>
    ensures { IfOk result (λ kept. kept.items
        ≡ spec.all_reservations (past_of machine.now) machine.now.setting.limits.harts) }
{
    let mut kept = Vec::new(alloc);
    for number in 0..machine.harts() {
        kept.push(machine.hart(Hart(number)).reserved)?;
    }
    Ok(kept)
}

/// That of a hart among these; None past the end.
pub(crate) fn reservation_in(kept: &[Option<u64>], hart: Hart) -> Option<u64>
    ensures { result ≡ spec.reservation_in kept.now hart.0 }
{
    kept.get(usize::from(hart.0)).copied().unwrap_or(None)
}

/// The address, where one of so many bytes from there on is one of the 8 that are reserved from `start` on.
fn at_if_taken(at: u64, length: u64, start: u64) -> Option<u64>
    ensures { result ≡ spec.at_if_taken start at length }
{
    if takes(at, length, start) {
        Some(at)
    } else {
        None
    }
}

/// Where a write begins that has one of the 8 bytes from `start` on, which are reserved.
fn taken_by(write: Write, start: u64) -> Option<u64>
    ensures { result ≡ spec.taken_by start write }
{
    match write {
        Write::Stored(store) => at_if_taken(store.at, u64::from(store.size), start),
        Write::Zeroed { at, length } => at_if_taken(at, length, start),
    }
}

/// That a hart, which has the 8 bytes from `start` on reserved, loses them to the first of these writes that has
/// one of them; None where none does.
fn first_lost(hart: Hart, start: u64, writes: &[Write]) -> Option<Fact>
    ensures { option_to_list result ≡ lost_facts hart.0 (Some start) writes.now }
{
    for write in writes {
        if let Some(by) = taken_by(*write, start) {
            return Some(Fact::Lost {
                hart,
                at: start,
                by,
            });
        }
    }
    None
}

/// What these writes in an event of a hart make of the reservation of one hart, its own or another one, where
/// these were the reservations before.
fn lost_of(own: Hart, kept: &[Option<u64>], writes: &[Write], hart: Hart) -> Option<Fact>
    ensures { option_to_list result ≡ lost_from own.0 kept.now writes.now hart.0 }
{
    if own.0 == hart.0 {
        return None;
    }
    let start = reservation_in(kept, hart)?;
    first_lost(hart, start, writes)
}

/// Appends what these writes in an event of a hart make of the reservations of the others, of so many in all, where
/// these were the reservations before.
pub(crate) fn push_all_lost_from(
    facts: &mut Vec<Fact>,
    own: Hart,
    kept: &[Option<u64>],
    writes: &[Write],
    harts: u8,
) -> Result<(), AllocError>
    ensures { OnOk result (facts.new.items ≡ facts.old.items
        ++ flat_map (lost_from own.0 kept.now writes.now) (range_with_len 0 harts)) }
{
    for number in 0..harts {
        push_if(facts, lost_of(own, kept, writes, Hart(number)))?;
    }
    Ok(())
}
