//! The faults that the program reports, each in one line.

use board_start::BoardError;
use envimage::ImageError;
use thiserror::Error;
use tool_images::{Fault, ToolError};

/// Why the program gave up. The text is what it reports.
#[derive(Debug, Drop, Error)]
pub enum CheckFault {
    /// A fault of the images, of files, of the output or of memory, which other programs report too.
    #[error("{0}")]
    Shared(Fault),
    /// The device list, for a reason other than memory.
    #[error("{0}")]
    DeviceList(BoardError),
}

impl From<Fault> for CheckFault {
    ghost use Rattle.std.specs.Prelude.{◌≡◌};
    ghost use Rattle.hushcheck_program.specs.declared.fault.CheckFault.TheVariants.{Shared};

    ghost from_gives = { λ fault told. told ≡ Shared fault };

    fn from(fault: Fault) -> CheckFault {
        CheckFault::Shared(fault)
    }
}

impl From<ImageError> for CheckFault {
    ghost use Rattle.std.specs.Prelude.{◌≡◌};
    ghost use Rattle.hushcheck_program.specs.Faults.{of_image};

    ghost from_gives = { λ error told. told ≡ of_image error };

    fn from(error: ImageError) -> CheckFault {
        CheckFault::Shared(Fault::from(ToolError::from(error)))
    }
}
