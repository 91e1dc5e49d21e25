//! Why code can't be assembled.

ghost use Rattle.std.specs.Prelude.{◌≡◌};
ghost use Rattle.rv_asm.specs.declared.fault.AsmFault.TheVariants.{NoMemory as AsmNoMemory};

use std::alloc::AllocError;
use thiserror::Error;

/// Why a branch isn't taken in, or the code isn't finished.
#[derive(Clone, Copy, Debug, Drop, Error)]
pub enum AsmFault {
    /// There is no label of this number, or it is used and was never bound.
    #[error("label {0} is unbound")]
    UnboundLabel(u32),
    /// A branch to this label doesn't reach it.
    #[error("label {0} is too far from a branch to it")]
    TooFar(u32),
    #[error("out of memory")]
    NoMemory,
}

impl From<AllocError> for AsmFault {
    ghost from_gives = { λ _ fault. fault ≡ AsmNoMemory };

    fn from(_error: AllocError) -> AsmFault {
        AsmFault::NoMemory
    }
}
