//! Sets of harts: bit h stands for hart h.

ghost use Rattle.std.specs.Prelude.{◌≡◌, ◌≤◌, ◌<◌, ◌%◌, ◌^◌, ◌==◌};
ghost use Rattle.mach_types.specs.Kernel.Scheduling as scheduling;

/// The set of the first so many harts.
pub fn all_harts(harts: u8) -> u8
    requires { harts ≤ 8 }
    ensures { result ≡ scheduling.all_harts harts }
{
    ((1u16 << harts) - 1) as u8
}

/// Whether a hart is in a set.
pub fn has_hart(set: u8, hart: u8) -> bool
    ensures { result ≡ scheduling.has_hart set hart }
{
    hart < 8 && (set >> hart) % 2 == 1
}

/// Whether none of the first so many harts is in a set.
pub fn has_none_of(set: u8, harts: u8) -> bool
    requires { harts ≤ 8 }
    ensures { result ≡ (set % 2 ^ harts == 0) }
{
    u16::from(set) % (1u16 << harts) == 0
}

/// Those of the first so many harts that are in a set.
pub fn harts_in(set: u8, harts: u8) -> u8
    requires { harts ≤ 8 }
    ensures { result ≡ scheduling.harts_in set harts }
{
    set & all_harts(harts)
}
