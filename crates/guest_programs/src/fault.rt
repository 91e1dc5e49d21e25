//! Why a guest isn't made.

ghost use Rattle.std.specs.Prelude.{◌≡◌};
ghost use Rattle.guest_programs.specs.declared.fault.GuestFault.TheVariants.{NoMemory as GuestNoMemory};

use std::alloc::AllocError;
use thiserror::Error;

/// Why a guest isn't made.
#[derive(Clone, Copy, Debug, Drop, Error)]
pub enum GuestFault {
    /// The guest doesn't take this size.
    #[error("the guest doesn't take the size {0}")]
    BadSize(u64),
    #[error("out of memory")]
    NoMemory,
}

impl From<AllocError> for GuestFault {
    ghost from_gives = { λ _ fault. fault ≡ GuestNoMemory };

    fn from(_error: AllocError) -> GuestFault {
        GuestFault::NoMemory
    }
}
