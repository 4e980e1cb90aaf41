//! The faults that the program reports, each in one line.

use crate::rehearsal_error::RehearsalError;
use board_start::StartError;
use rehearse_rules::RehearseError;
use thiserror::Error;
use tool_files::LockFault;
use tool_images::{Fault, ToolError, WordForm};

/// Why the program gave up. The text is what it reports.
#[derive(Debug, Drop, Error)]
pub enum ProgramFault {
    /// A fault of images, files, an output or memory, which other programs report too.
    #[error("{0}")]
    Shared(Fault),
    /// The variable to be rehearsed is not set.
    #[error("no variable {0}")]
    NoSuchVariable(WordForm),
    /// The rehearsal has no run of this word, which is printed as it was given.
    #[error("no run has the word {0}")]
    NotARun(WordForm),
    /// The rehearsal is refused for another reason.
    #[error("{0}")]
    Rehearsal(RehearseError),
    /// The rehearsal cannot start as the device list says.
    #[error("{0}")]
    Start(StartError),
    /// A board has more boots than may be rehearsed.
    #[error("more boots than allowed")]
    Boots,
    /// Which variables are kept from boot to boot is not known.
    #[error("which variables the scripts change is not known: name those that are kept")]
    Unnamed,
}

impl From<Fault> for ProgramFault {
    ghost use Rattle.std.specs.Prelude.{◌≡◌};
    ghost use Rattle.ubtool.specs.declared.fault.ProgramFault.TheVariants.{Shared};

    ghost from_gives = { λ fault told. told ≡ Shared fault };

    fn from(fault: Fault) -> ProgramFault {
        ProgramFault::Shared(fault)
    }
}

impl From<LockFault> for ProgramFault {
    ghost use Rattle.std.specs.Prelude.{◌≡◌};
    ghost use Rattle.tool_images.specs.declared.fault.Fault.TheVariants.{Lock};
    ghost use Rattle.ubtool.specs.declared.fault.ProgramFault.TheVariants.{Shared};

    ghost from_gives = { λ fault told. told ≡ Shared (Lock fault) };

    fn from(fault: LockFault) -> ProgramFault {
        ProgramFault::Shared(Fault::Lock(fault))
    }
}

impl From<RehearsalError> for ProgramFault {
    ghost use Rattle.std.specs.Prelude.{◌≡◌};
    ghost use Rattle.ubtool.specs.Faults.{reported};

    ghost from_gives = { λ error told. told ≡ reported error };

    fn from(error: RehearsalError) -> ProgramFault {
        match error {
            RehearsalError::Image(error) => {
                ProgramFault::Shared(Fault::Tool(ToolError::Image(error)))
            }
            RehearsalError::Rehearsal(error) => ProgramFault::Rehearsal(error),
            RehearsalError::Start(error) => ProgramFault::Start(error),
            RehearsalError::Changes(error) => {
                ProgramFault::Shared(Fault::Tool(ToolError::Script(error)))
            }
            RehearsalError::Boots => ProgramFault::Boots,
            RehearsalError::Unnamed => ProgramFault::Unnamed,
            RehearsalError::Write => ProgramFault::Shared(Fault::Tool(ToolError::Write)),
            RehearsalError::Memory => ProgramFault::Shared(Fault::Memory),
        }
    }
}
