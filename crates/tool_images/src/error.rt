//! Why a call from bytes to bytes is refused.

use envimage::ImageError;
use envtools::{EnvError, PrintDataError, PrintError, ScriptError};
use std::alloc::AllocError;
use thiserror::Error;

/// Why a call from bytes to bytes was refused.
#[derive(Clone, Copy, Debug, Drop, PartialEq, Eq, Error)]
pub enum ToolError {
    /// The image, for a reason other than memory.
    #[error("{0}")]
    Image(ImageError),
    /// The change, for a reason other than memory.
    #[error("{0}")]
    Env(EnvError),
    /// The script, for a reason other than memory.
    #[error("{0}")]
    Script(ScriptError),
    /// An output failed.
    #[error("output failed")]
    Write,
    /// Memory ran out.
    #[error("out of memory")]
    Memory,
}

impl From<ImageError> for ToolError {
    ghost use Rattle.std.specs.Prelude.{◌≡◌};
    ghost use Rattle.tool_images.specs.Errors.{image_fault};

    ghost from_gives = { λ error e. e ≡ image_fault error };

    fn from(error: ImageError) -> ToolError {
        match error {
            ImageError::Memory => ToolError::Memory,
            error => ToolError::Image(error),
        }
    }
}

impl From<EnvError> for ToolError {
    ghost use Rattle.std.specs.Prelude.{◌≡◌};
    ghost use Rattle.tool_images.specs.Errors.{env_fault};

    ghost from_gives = { λ error e. e ≡ env_fault error };

    fn from(error: EnvError) -> ToolError {
        match error {
            EnvError::Memory => ToolError::Memory,
            EnvError::Content(fault) => ToolError::Image(ImageError::Content(fault)),
            error => ToolError::Env(error),
        }
    }
}

impl From<AllocError> for ToolError {
    ghost use Rattle.std.specs.Prelude.{◌≡◌};
    ghost use Rattle.tool_images.specs.declared.error.ToolError.TheVariants.{Memory};

    ghost from_gives = { λ _ e. e ≡ Memory };

    fn from(_error: AllocError) -> ToolError {
        ToolError::Memory
    }
}

impl From<PrintError> for ToolError {
    ghost use Rattle.std.specs.Prelude.{◌≡◌};
    ghost use Rattle.tool_images.specs.declared.error.ToolError.TheVariants.{Write};

    ghost from_gives = { λ _ e. e ≡ Write };

    fn from(_error: PrintError) -> ToolError {
        ToolError::Write
    }
}

impl From<PrintDataError> for ToolError {
    ghost use Rattle.std.specs.Prelude.{◌≡◌};
    ghost use Rattle.tool_images.specs.Errors.{print_fault};

    ghost from_gives = { λ error e. e ≡ print_fault error };

    fn from(error: PrintDataError) -> ToolError {
        match error {
            PrintDataError::Write => ToolError::Write,
            PrintDataError::Memory => ToolError::Memory,
        }
    }
}

impl From<ScriptError> for ToolError {
    ghost use Rattle.std.specs.Prelude.{◌≡◌};
    ghost use Rattle.tool_images.specs.Errors.{script_fault};

    ghost from_gives = { λ error e. e ≡ script_fault error };

    fn from(error: ScriptError) -> ToolError {
        match error {
            ScriptError::Memory => ToolError::Memory,
            error => ToolError::Script(error),
        }
    }
}
