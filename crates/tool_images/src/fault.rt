//! The faults that the programs share, each reported in one line.

use crate::error::ToolError;
use crate::word_form::WordForm;
use envimage::ConfigError;
use envtools::TextError;
use script_file::ScriptFault;
use thiserror::Error;
use tool_files::{FileFault, LockFault};

/// Why a program gave up. The text is what it reports.
#[derive(Debug, Drop, Error)]
pub enum Fault {
    /// The configuration was refused.
    #[error("{0}")]
    Config(ConfigError),
    /// A call from bytes to bytes was refused, for a reason other than memory.
    #[error("{0}")]
    Tool(ToolError),
    /// The text of variables was refused, for a reason other than memory.
    #[error("{0}")]
    Text(TextError),
    /// The variables of the text do not fit an image.
    #[error("environment is too large")]
    TextTooLarge,
    /// The lock is refused.
    #[error("{0}")]
    Lock(LockFault),
    /// The device failed while the file was read.
    #[error("cannot read {0}")]
    CannotRead(WordForm),
    /// The device failed while the file was written.
    #[error("cannot write {0}")]
    CannotWrite(WordForm),
    /// A file was to be made, and there is something at its path.
    #[error("{0} exists already")]
    Exists(WordForm),
    /// The file ends before the bytes that were asked for.
    #[error("{0} is too short")]
    FileShort(WordForm),
    /// The file has more bytes than are read.
    #[error("{0} is too long")]
    FileTooLong(WordForm),
    /// The file has no script.
    #[error("{0}: {1}")]
    NoScript(WordForm, ScriptFault),
    /// The two files of a pair, of which each is one whole copy, are not of one size.
    #[error("image sizes differ")]
    UnequalSizes,
    /// Standard input failed.
    #[error("cannot read standard input")]
    CannotReadInput,
    /// Standard input has more bytes than are read.
    #[error("standard input is too long")]
    InputTooLong,
    /// The script on standard input ends inside this line, counted from 1: it lacks the newline.
    #[error("Line {0} not correctly terminated")]
    InputCutOff(usize),
    /// Memory ran out.
    #[error("out of memory")]
    Memory,
}

impl From<ToolError> for Fault {
    ghost use Rattle.std.specs.Prelude.{◌≡◌};
    ghost use Rattle.tool_images.specs.Errors.{tool_fault};

    ghost from_gives = { λ error fault. fault ≡ tool_fault error };

    fn from(error: ToolError) -> Fault {
        match error {
            ToolError::Memory => Fault::Memory,
            error => Fault::Tool(error),
        }
    }
}

impl From<LockFault> for Fault {
    ghost use Rattle.std.specs.Prelude.{◌≡◌};
    ghost use Rattle.tool_images.specs.declared.fault.Fault.TheVariants.{Lock};

    ghost from_gives = { λ error fault. fault ≡ Lock error };

    fn from(error: LockFault) -> Fault {
        Fault::Lock(error)
    }
}

impl Fault {
    ghost use Rattle.std.specs.Prelude.{◌≡◌};
    ghost use Rattle.tool_images.specs.FileFaults.{path_form, read_fault, written_fault};
    ghost use Rattle.tool_images.specs.declared.fault.Fault.TheVariants.{NoScript};

    /// What is reported if the file at the path could not be read.
    pub fn of_read(path: String, fault: FileFault) -> Fault
        ensures { result ≡ read_fault (path_form path) fault }
    {
        match fault {
            FileFault::Failed => Fault::CannotRead(WordForm(path)),
            FileFault::Short => Fault::FileShort(WordForm(path)),
            FileFault::TooLong => Fault::FileTooLong(WordForm(path)),
            FileFault::Memory => Fault::Memory,
        }
    }

    /// What is reported if the file at the path could not be written.
    pub fn of_write(path: String, fault: FileFault) -> Fault
        ensures { result ≡ written_fault (path_form path) fault }
    {
        match fault {
            FileFault::Failed => Fault::CannotWrite(WordForm(path)),
            FileFault::Short => Fault::FileShort(WordForm(path)),
            FileFault::TooLong => Fault::FileTooLong(WordForm(path)),
            FileFault::Memory => Fault::Memory,
        }
    }

    /// What is reported if the file at the path has no script.
    pub fn of_script(path: String, fault: ScriptFault) -> Fault
        ensures { result ≡ NoScript (path_form path) fault }
    {
        Fault::NoScript(WordForm(path), fault)
    }
}
