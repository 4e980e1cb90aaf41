//! Why a check does not end.

use output::OutFault;
use std::alloc::AllocError;
use thiserror::Error;

/// Why a check does not end.
#[derive(Clone, Copy, Debug, Drop, PartialEq, Eq, Error)]
pub enum CheckError {
    /// The output failed.
    #[error("output failed")]
    Write,
    /// Memory ran out.
    #[error("out of memory")]
    Memory,
}

impl From<AllocError> for CheckError {
    ghost use Rattle.std.specs.Prelude.{◌≡◌};
    ghost use Rattle.hushcheck.specs.declared.check_error.CheckError.TheVariants.{Memory};

    ghost from_gives = { λ _ e. e ≡ Memory };

    fn from(_error: AllocError) -> CheckError {
        CheckError::Memory
    }
}

impl From<OutFault> for CheckError {
    ghost use Rattle.std.specs.Prelude.{◌≡◌};
    ghost use Rattle.hushcheck.specs.declared.check_error.CheckError.TheVariants.{Write};

    ghost from_gives = { λ _ e. e ≡ Write };

    fn from(_error: OutFault) -> CheckError {
        CheckError::Write
    }
}
