//! The refusals of the outside.

ghost use Rattle.std.specs.Prelude.{◌≡◌};
ghost use Rattle.outside.specs.declared.faults.FetchError.TheVariants.{Failed as FetchFailed, NoMemory as FetchNoMemory};
ghost use Rattle.outside.specs.Refusals.{fetch_error_of};

use std::alloc::AllocError;
use thiserror::Error;

/// The device failed, and its count of faults rose.
#[derive(Clone, Copy, Debug, PartialEq, Eq, Error)]
#[error("the device failed")]
pub struct Failed;

/// Why a file wasn't started.
#[derive(Clone, Copy, Debug, Error)]
pub enum StartFault {
    /// The device failed, and the count of faults of the name rose.
    #[error("the device failed")]
    Failed,
    #[error("out of memory")]
    NoMemory,
}

/// Why a file wasn't fetched.
#[derive(Clone, Copy, Debug, PartialEq, Eq, Error)]
pub enum FetchError {
    /// The device failed, and the count of faults of the name rose.
    #[error("the file couldn't be read")]
    Failed,
    /// The file has more bytes than the limit.
    #[error("the file is too big")]
    TooBig,
    #[error("out of memory")]
    NoMemory,
}

impl From<StartFault> for FetchError {
    ghost from_gives = { λ fault error. error ≡ fetch_error_of fault };

    fn from(fault: StartFault) -> FetchError {
        match fault {
            StartFault::Failed => FetchError::Failed,
            StartFault::NoMemory => FetchError::NoMemory,
        }
    }
}

impl From<Failed> for FetchError {
    ghost from_gives = { λ _ error. error ≡ FetchFailed };

    fn from(_fault: Failed) -> FetchError {
        FetchError::Failed
    }
}

impl From<AllocError> for FetchError {
    ghost from_gives = { λ _ error. error ≡ FetchNoMemory };

    fn from(_error: AllocError) -> FetchError {
        FetchError::NoMemory
    }
}
