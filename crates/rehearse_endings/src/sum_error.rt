//! Why the endings of a script are not counted.
ghost use Rattle.std.specs.Prelude.{◌≡◌};
ghost use Rattle.rehearse_endings.specs.declared.sum_error.SumError.TheVariants.{Memory};

use bootstore_state::StoreError;
use std::alloc::{AllocError, AllocFailed};
use thiserror::Error;

/// Why the endings of a script are not counted.
#[derive(Clone, Copy, Debug, PartialEq, Eq, Error)]
pub enum SumError {
    /// Memory ran out.
    #[error("out of memory")]
    Memory,
    /// There are more states than allowed.
    #[error("more states than allowed")]
    States,
    /// More steps are begun than allowed, when so many states were entered.
    #[error("more steps than allowed (states: {0})")]
    Steps(u32),
    /// The states that are kept count more bytes than allowed, when so many were entered.
    #[error("more memory than allowed (states: {0})")]
    Bytes(u32),
}

impl From<StoreError> for SumError {
    ghost from_gives = { λ _ e. e ≡ Memory };

    fn from(_: StoreError) -> SumError {
        SumError::Memory
    }
}

impl From<AllocError> for SumError {
    ghost from_gives = { λ _ e. e ≡ Memory };

    fn from(_: AllocError) -> SumError {
        SumError::Memory
    }
}

impl<T: Drop> From<AllocFailed<T>> for SumError {
    ghost from_gives = { λ _ e. e ≡ Memory };

    fn from(_: AllocFailed<T>) -> SumError {
        SumError::Memory
    }
}
