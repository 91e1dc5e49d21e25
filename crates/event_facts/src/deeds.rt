//! What a plain event does to the stores of its hart and to memory.

ghost use Rattle.std.specs.Prelude.{◌≡◌, ◌∷◌, [], Some, IfSome, option_to_list};
ghost use Rattle.mach_types.specs.Bytes.{IsAccessSize, all_stored};
ghost use Rattle.mach_types.specs.declared.user_memory.Write.TheVariants.{Stored};
ghost use Rattle.rv_inst.specs.Execution.{reserved_at as start_of, is_reserved as has_reserved};
ghost use Rattle.rv_inst.specs.Sizes.{HasAccessSizes};
ghost use Rattle.event_facts.specs.Deeds as spec;
ghost use Rattle.event_facts.specs.Deeds.{bytes_of_read, drained_in, entered_in, executed_in};
ghost use Rattle.event_facts.specs.Facts.{loaded_by};

use mach_types::Store;
use rv_exec::amo_value;
use rv_inst::Effect;

/// Bytes of memory: so many from an address on.
#[derive(Clone, Copy, Drop)]
pub(crate) struct Range {
    /// The address of the first.
    pub(crate) at: u64,
    /// How many.
    pub(crate) size: u8,
}

/// What a plain event does to stores and to memory.
#[derive(Clone, Copy, Drop)]
pub(crate) struct Deed {
    /// The store that it executed, and that waits.
    pub(crate) executed: Option<Store>,
    /// Whether a waiting store entered memory.
    pub(crate) drained: bool,
    /// The store that entered memory.
    pub(crate) entered: Option<Store>,
}

/// Where the aligned 8 bytes round an address begin.
pub(crate) fn reserved_at(at: u64) -> u64
    ensures { result ≡ start_of at }
{
    at - at % 8
}

/// Whether a reservation is that of an address.
pub(crate) fn is_reserved(reserved: Option<u64>, at: u64) -> bool
    ensures { result ≡ has_reserved reserved at }
{
    match reserved {
        Some(start) => start == reserved_at(at),
        None => false,
    }
}

/// The bytes whose number an instruction with this effect reads.
pub(crate) fn read_by(effect: &Effect) -> Option<Range>
    requires { HasAccessSizes effect.now }
    ensures bytes { bytes_of_read result ≡ loaded_by effect.now }
    ensures size { IfSome result (λ range. IsAccessSize range.size) }
{
    match *effect {
        Effect::Load { at, size, .. } => Some(Range { at, size }),
        Effect::Amo { at, size, .. } => Some(Range { at, size }),
        Effect::Lr { at, size, .. } => Some(Range { at, size }),
        _ => None,
    }
}

/// The store that an instruction with this effect executes, and that waits.
fn store_executed(effect: &Effect) -> Option<Store>
    ensures { option_to_list result ≡ spec.store_executed effect.now }
{
    match *effect {
        Effect::Store { at, size, value } => Some(Store { at, size, value }),
        _ => None,
    }
}

/// The store that an instruction with this effect makes at once, where this is the number that it reads, on a
/// hart that has this reserved.
fn store_made(effect: &Effect, seen: u64, reserved: Option<u64>) -> Option<Store>
    requires { HasAccessSizes effect.now }
    ensures store { option_to_list result ≡ spec.store_made seen reserved effect.now }
    ensures size { IfSome result (λ w. IsAccessSize w.size) }
{
    match *effect {
        Effect::Amo {
            op,
            at,
            size,
            value,
            ..
        } => Some(Store {
            at,
            size,
            value: amo_value(op, size, seen, value),
        }),
        Effect::Sc {
            at,
            size,
            value,
            ..
        } => {
            if is_reserved(reserved, at) {
                Some(Store { at, size, value })
            } else {
                None
            }
        }
        _ => None,
    }
}

impl Deed {
    /// That of an instruction with this effect, where this is the number that it reads, on a hart that has
    /// this reserved.
    pub(crate) fn of_effect(effect: &Effect, seen: u64, reserved: Option<u64>) -> Deed
        requires { HasAccessSizes effect.now }
        ensures executed { executed_in result ≡ spec.store_executed effect.now }
        ensures drained { drained_in result ≡ 0 }
        ensures entered { entered_in result ≡ all_stored (spec.store_made seen reserved effect.now) }
        ensures size { IfSome result.entered (λ w. IsAccessSize w.size) }
    {
        Deed {
            executed: store_executed(effect),
            drained: false,
            entered: store_made(effect, seen, reserved),
        }
    }

    /// That of the oldest store that waits, as it enters memory.
    pub(crate) fn of_drain(oldest: Store) -> Deed
        ensures executed { executed_in result ≡ [] }
        ensures drained { drained_in result ≡ 1 }
        ensures entered { entered_in result ≡ Stored oldest ∷ [] }
        ensures same { result.entered ≡ Some oldest }
    {
        Deed {
            executed: None,
            drained: true,
            entered: Some(oldest),
        }
    }
}
