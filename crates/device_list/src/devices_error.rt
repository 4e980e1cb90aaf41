//! Why a device list is refused.

use std::alloc::AllocError;
use thiserror::Error;

/// Why a device list was refused. Lines count from 1, and skipped lines count too.
#[derive(Clone, Copy, Debug, Drop, PartialEq, Eq, Error)]
pub enum DevicesError {
    /// A word after the command's name is not a setting, or the line holds a NUL.
    #[error("device list line {0}: bad line")]
    BadLine(usize),
    /// The line names a built-in command.
    #[error("device list line {0}: built-in command")]
    BuiltIn(usize),
    /// The first line starts with UTF-8's byte order mark.
    #[error("device list line 1: byte order mark")]
    ByteOrderMark,
    /// Memory ran out.
    #[error("out of memory")]
    Memory,
}

impl From<AllocError> for DevicesError {
    ghost use Rattle.std.specs.Prelude.{◌≡◌};
    ghost use Rattle.device_list.specs.declared.devices_error.DevicesError.TheVariants.{Memory};

    ghost from_gives = { λ _ e. e ≡ Memory };

    fn from(_error: AllocError) -> DevicesError {
        DevicesError::Memory
    }
}
