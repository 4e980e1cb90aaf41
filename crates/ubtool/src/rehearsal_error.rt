//! Why a rehearsal from bytes to bytes is refused.

use board_start::{BoardError, StartError};
use envimage::ImageError;
use envtools::ScriptError;
use rehearse_boots::BootsError;
use rehearse_rules::RehearseError;
use thiserror::Error;

/// Why a rehearsal from bytes to bytes was refused, or broke off.
#[derive(Clone, Copy, Debug, Drop, PartialEq, Eq, Error)]
pub enum RehearsalError {
    /// The image, for a reason other than memory.
    #[error("{0}")]
    Image(ImageError),
    /// The rehearsal, for a reason other than memory and the output.
    #[error("{0}")]
    Rehearsal(RehearseError),
    /// It cannot start as the device list says.
    #[error("{0}")]
    Start(StartError),
    /// A line of the script of changes is refused.
    #[error("{0}")]
    Changes(ScriptError),
    /// A board has more boots than may be rehearsed.
    #[error("more boots than allowed")]
    Boots,
    /// Which variables are kept from boot to boot is not known.
    #[error("which variables the scripts change is not known: name those that are kept")]
    Unnamed,
    /// The output failed.
    #[error("output failed")]
    Write,
    /// Memory ran out.
    #[error("out of memory")]
    Memory,
}

impl From<ImageError> for RehearsalError {
    ghost use Rattle.std.specs.Prelude.{◌≡◌};
    ghost use Rattle.ubtool.specs.Faults.{image_error};

    ghost from_gives = { λ error e. e ≡ image_error error };

    fn from(error: ImageError) -> RehearsalError {
        match error {
            ImageError::Memory => RehearsalError::Memory,
            error => RehearsalError::Image(error),
        }
    }
}

impl From<RehearseError> for RehearsalError {
    ghost use Rattle.std.specs.Prelude.{◌≡◌};
    ghost use Rattle.ubtool.specs.Faults.{rehearse_error};

    ghost from_gives = { λ error e. e ≡ rehearse_error error };

    fn from(error: RehearseError) -> RehearsalError {
        match error {
            RehearseError::Write => RehearsalError::Write,
            RehearseError::Memory => RehearsalError::Memory,
            error => RehearsalError::Rehearsal(error),
        }
    }
}

impl From<BoardError> for RehearsalError {
    ghost use Rattle.std.specs.Prelude.{◌≡◌};
    ghost use Rattle.ubtool.specs.Faults.{board_error};

    ghost from_gives = { λ error e. e ≡ board_error error };

    fn from(error: BoardError) -> RehearsalError {
        match error {
            BoardError::Start(fault) => RehearsalError::Start(fault),
            BoardError::Devices(fault) => {
                RehearsalError::Rehearsal(RehearseError::DeviceList(fault))
            }
            BoardError::Memory => RehearsalError::Memory,
        }
    }
}

impl From<BootsError> for RehearsalError {
    ghost use Rattle.std.specs.Prelude.{◌≡◌};
    ghost use Rattle.ubtool.specs.Faults.{boots_error};

    ghost from_gives = { λ error e. e ≡ boots_error error };

    fn from(error: BootsError) -> RehearsalError {
        match error {
            BootsError::Board(fault) => fault.into(),
            BootsError::Changes(fault) => RehearsalError::Changes(fault),
            BootsError::NoSuchVariable => RehearsalError::Rehearsal(RehearseError::NoSuchVariable),
            BootsError::Boots => RehearsalError::Boots,
            BootsError::States => RehearsalError::Rehearsal(RehearseError::States),
            BootsError::Steps(entered) => RehearsalError::Rehearsal(RehearseError::Steps(entered)),
            BootsError::Bytes(entered) => RehearsalError::Rehearsal(RehearseError::Bytes(entered)),
            BootsError::Write => RehearsalError::Write,
            BootsError::Memory => RehearsalError::Memory,
        }
    }
}
