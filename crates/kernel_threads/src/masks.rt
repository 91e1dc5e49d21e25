//! The mask of a wait, which a thread that waits has in its registers until it is woken (futex(2)).

ghost use Rattle.std.specs.Prelude.{◌≡◌, ◌≤◌, ◌%◌, ◌^◌, Some};
ghost use Rattle.mach_types.specs.Kernel.Futexes as spec;
ghost use Rattle.mach_types.specs.Registers.{register};

use mach_types::Saved;

/// The registers of the operation and of the mask, a1 and a5 (RISC-V psABI).
const A1: u8 = 11;

const A5: u8 = 15;

/// The wait that has a mask.
const WAIT_BITSET: u32 = 9;

/// The bit of a private futex; the next one is that of CLOCK_REALTIME.
const PRIVATE: u32 = 128;

/// Which operation of futex(2) is asked, without its bits by which a futex is private to the process and a time is one of
/// CLOCK_REALTIME.
pub fn futex_operation(op: u32) -> u32
    ensures { result ≡ spec.operation op }
{
    op - PRIVATE * (op / PRIVATE % 4)
}

/// The low 32 bits of a register.
fn low_bits(saved: &Saved, number: u8) -> u32
    requires { number ≤ 31 }
    ensures { result ≡ register saved.now.file number % 2 ^ 32 }
{
    (saved.file.get(number) % 0x1_0000_0000) as u32
}

/// The mask of the wait of a thread that waits with this file.
fn wait_mask(saved: &Saved) -> u32
    ensures { result ≡ spec.wait_mask saved.now }
{
    if futex_operation(low_bits(saved, A1)) == WAIT_BITSET {
        low_bits(saved, A5)
    } else {
        u32::MAX
    }
}

/// Whether a thread that waits with this file hears a wake with this mask.
pub fn hears(saved: &Saved, mask: u32) -> bool
    ensures { result ≡ spec.hears (Some mask) saved.now }
{
    wait_mask(saved) & mask != 0
}
