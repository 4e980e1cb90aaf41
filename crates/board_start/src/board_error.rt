//! Why the list of a board is refused.

use crate::start_error::StartError;
use device_list::DevicesError;
use std::alloc::AllocError;
use thiserror::Error;

/// Why the list of a board is refused, or why a rehearsal cannot start as it says.
#[derive(Clone, Copy, Debug, Drop, PartialEq, Eq, Error)]
pub enum BoardError {
    /// What it says of the start.
    #[error("{0}")]
    Start(StartError),
    /// What it says of commands, for a reason other than memory.
    #[error("{0}")]
    Devices(DevicesError),
    /// Memory ran out.
    #[error("out of memory")]
    Memory,
}

impl From<AllocError> for BoardError {
    ghost use Rattle.std.specs.Prelude.{◌≡◌};
    ghost use Rattle.board_start.specs.declared.board_error.BoardError.TheVariants.{Memory};

    ghost from_gives = { λ _ e. e ≡ Memory };

    fn from(_error: AllocError) -> BoardError {
        BoardError::Memory
    }
}

impl From<StartError> for BoardError {
    ghost use Rattle.std.specs.Prelude.{◌≡◌};
    ghost use Rattle.board_start.specs.declared.board_error.BoardError.TheVariants.{Start};

    ghost from_gives = { λ fault e. e ≡ Start fault };

    fn from(fault: StartError) -> BoardError {
        BoardError::Start(fault)
    }
}
