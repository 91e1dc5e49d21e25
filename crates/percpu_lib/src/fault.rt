//! Why a block isn't emitted.

ghost use Rattle.std.specs.Prelude.{◌≡◌};
ghost use Rattle.percpu_lib.specs.declared.fault.EmitFault.TheVariants.{NoMemory as EmitNoMemory};

use std::alloc::AllocError;
use thiserror::Error;

/// Why a block isn't emitted, or not wholly.
#[derive(Clone, Copy, Debug, Drop, Error)]
pub enum EmitFault {
    /// One of the block's labels isn't there or is bound.
    #[error("a label of the block isn't free")]
    Room,
    #[error("out of memory")]
    NoMemory,
}

impl From<AllocError> for EmitFault {
    ghost from_gives = { λ _ fault. fault ≡ EmitNoMemory };

    fn from(_error: AllocError) -> EmitFault {
        EmitFault::NoMemory
    }
}
