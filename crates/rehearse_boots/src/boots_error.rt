//! Why the boots of a board are not reported.
ghost use Rattle.std.specs.Prelude.{◌≡◌};
ghost use Rattle.rehearse_boots.specs.declared.boots_error.BootsError.TheVariants.{Memory};

use board_start::BoardError;
use bootstore_state::StoreError;
use envtools::ScriptError;
use std::alloc::{AllocError, AllocFailed};
use thiserror::Error;

/// Why the boots of a board are not reported, or why their lines break off.
#[derive(Clone, Copy, Debug, Drop, PartialEq, Eq, Error)]
pub enum BootsError {
    /// A line of the script of changes is refused, for a reason other than memory.
    #[error("{0}")]
    Changes(ScriptError),
    /// A boot does not start, for a reason other than memory.
    #[error("{0}")]
    Board(BoardError),
    /// A boot has no text to run.
    #[error("the variable is not set")]
    NoSuchVariable,
    /// There are more boots than allowed.
    #[error("more boots than allowed")]
    Boots,
    /// The runs of a boot reach more states than allowed.
    #[error("more states than allowed")]
    States,
    /// More steps are begun in a boot than allowed, when so many states were entered.
    #[error("more steps than allowed (states: {0})")]
    Steps(u32),
    /// The states that are kept of a boot count more bytes than allowed, when so many were entered.
    #[error("more memory than allowed (states: {0})")]
    Bytes(u32),
    /// The output failed.
    #[error("the output failed")]
    Write,
    /// Memory ran out.
    #[error("out of memory")]
    Memory,
}

impl From<StoreError> for BootsError {
    ghost from_gives = { λ _ e. e ≡ Memory };

    fn from(_: StoreError) -> BootsError {
        BootsError::Memory
    }
}

impl From<AllocError> for BootsError {
    ghost from_gives = { λ _ e. e ≡ Memory };

    fn from(_: AllocError) -> BootsError {
        BootsError::Memory
    }
}

impl<T: Drop> From<AllocFailed<T>> for BootsError {
    ghost from_gives = { λ _ e. e ≡ Memory };

    fn from(_: AllocFailed<T>) -> BootsError {
        BootsError::Memory
    }
}
