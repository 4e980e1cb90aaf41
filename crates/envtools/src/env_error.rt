//! Why reading or changing an environment is refused.
use envimage::DataError;
use std::alloc::{AllocError, AllocFailed};
use thiserror::Error;

/// Why an environment could not be read or changed.
#[derive(Clone, Copy, Debug, Drop, PartialEq, Eq, Error)]
pub enum EnvError {
    /// The data has this fault.
    #[error("{0}")]
    Content(DataError),
    /// The name is empty, or holds `=` or a NUL.
    #[error("bad name")]
    BadName,
    /// The value holds a NUL.
    #[error("bad value")]
    BadValue,
    /// Memory ran out.
    #[error("out of memory")]
    Memory,
}

impl From<DataError> for EnvError {
    ghost use Rattle.std.specs.Prelude.{◌≡◌};
    ghost use Rattle.envtools.specs.declared.env_error.EnvError.TheVariants.{Content};

    ghost from_gives = { λ fault e. e ≡ Content fault };

    fn from(fault: DataError) -> EnvError {
        EnvError::Content(fault)
    }
}

impl From<AllocError> for EnvError {
    ghost use Rattle.std.specs.Prelude.{◌≡◌};
    ghost use Rattle.envtools.specs.declared.env_error.EnvError.TheVariants.{Memory};

    ghost from_gives = { λ _ e. e ≡ Memory };

    fn from(_error: AllocError) -> EnvError {
        EnvError::Memory
    }
}

impl<T: Drop> From<AllocFailed<T>> for EnvError {
    ghost use Rattle.std.specs.Prelude.{◌≡◌};
    ghost use Rattle.envtools.specs.declared.env_error.EnvError.TheVariants.{Memory};

    ghost from_gives = { λ _ e. e ≡ Memory };

    fn from(_error: AllocFailed<T>) -> EnvError {
        EnvError::Memory
    }
}
