//! What an instruction asks, by its effect.

ghost use Rattle.std.specs.Prelude.{◌≡◌, Some, true};
ghost use Rattle.rv_inst.specs.Class as class;

use crate::class::{Access, Asks};
use crate::effects::Effect;
use mach_types::signals::{SIGBUS, SIGTRAP};

/// An instruction that asks for nothing.
const NOTHING: Asks = Asks {
    access: None,
    wants_empty: false,
    is_plain_store: false,
    is_call: false,
    sets_register: false,
    fault: None,
};

/// The access of a plain load.
fn plain_read(at: u64, size: u8) -> Access
    ensures { result ≡ class.plain_read at size }
{
    Access {
        at,
        size,
        is_write: false,
        must_align: false,
        needs_reservation: false,
    }
}

/// The access of a plain store.
fn plain_write(at: u64, size: u8) -> Access
    ensures { result ≡ class.plain_write at size }
{
    Access {
        is_write: true,
        ..plain_read(at, size)
    }
}

/// The access of an LR.
fn reserving_read(at: u64, size: u8) -> Access
    ensures { result ≡ class.reserving_read at size }
{
    Access {
        must_align: true,
        ..plain_read(at, size)
    }
}

/// The access of an AMO.
fn atomic_write(at: u64, size: u8) -> Access
    ensures { result ≡ class.atomic_write at size }
{
    Access {
        must_align: true,
        ..plain_write(at, size)
    }
}

/// The access of an SC.
fn conditional_write(at: u64, size: u8) -> Access
    ensures { result ≡ class.conditional_write at size }
{
    Access {
        needs_reservation: true,
        ..atomic_write(at, size)
    }
}

/// An instruction that waits until no store of its hart waits, and asks for nothing else.
const EMPTY_BUFFER: Asks = Asks {
    access: None,
    wants_empty: true,
    is_plain_store: false,
    is_call: false,
    sets_register: false,
    fault: None,
};

/// An instruction whose access goes to memory at once, past no waiting store.
fn at_once(access: Access) -> Asks
    ensures { result ≡ record class.nothing { access = Some access; wants_empty = true } }
{
    Asks {
        access: Some(access),
        ..EMPTY_BUFFER
    }
}

/// What an instruction with this effect asks of its hart and of memory, before it is executed.
///
/// Accesses, fences and traps are those of the RISC-V Unprivileged ISA (chapters RV32I, RV64I, "A",
/// "Zifencei" and "Ztso"); the signals are Linux's (signal(7)).
pub fn asks(effect: &Effect) -> Asks
    ensures { result ≡ class.asks effect.now }
{
    match *effect {
        Effect::Next { .. } => Asks {
            sets_register: true,
            ..NOTHING
        },
        Effect::Load { at, size, .. } => Asks {
            access: Some(plain_read(at, size)),
            ..NOTHING
        },
        Effect::Store { at, size, .. } => Asks {
            access: Some(plain_write(at, size)),
            is_plain_store: true,
            ..NOTHING
        },
        Effect::Amo { at, size, .. } => at_once(atomic_write(at, size)),
        Effect::Lr { at, size, .. } => at_once(reserving_read(at, size)),
        Effect::Sc { at, size, .. } => at_once(conditional_write(at, size)),
        Effect::Fence { full } => Asks {
            wants_empty: full,
            ..NOTHING
        },
        Effect::FenceI => EMPTY_BUFFER,
        Effect::Call => Asks {
            is_call: true,
            ..EMPTY_BUFFER
        },
        Effect::Break => Asks {
            fault: Some(SIGTRAP),
            ..EMPTY_BUFFER
        },
        Effect::Misaligned => Asks {
            fault: Some(SIGBUS),
            ..NOTHING
        },
    }
}
