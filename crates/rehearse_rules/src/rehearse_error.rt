//! Why a rehearsal is refused.
ghost use Rattle.std.specs.Prelude.{◌≡◌};
ghost use Rattle.rehearse_rules.specs.declared.rehearse_error.RehearseError.TheVariants.{Write};

use device_list::DevicesError;
use output::OutFault;
use thiserror::Error;

/// Why a rehearsal is refused, or breaks off. Each call names those of these errors that it gives.
#[derive(Clone, Copy, Debug, Drop, PartialEq, Eq, Error)]
pub enum RehearseError {
    /// The device list, for a reason other than memory.
    #[error("{0}")]
    DeviceList(DevicesError),
    /// The variable is not set.
    #[error("the variable is not set")]
    NoSuchVariable,
    /// The word that was given spells no run.
    #[error("the word is no run")]
    NotARun,
    /// Device commands ask in more states than the endings may go through.
    #[error("more states than allowed")]
    States,
    /// More steps are begun than the endings may take, when so many states were entered.
    #[error("more steps than allowed (states: {0})")]
    Steps(u32),
    /// More bytes are kept than the endings may hold, when so many states were entered.
    #[error("more memory than allowed (states: {0})")]
    Bytes(u32),
    /// The output failed.
    #[error("output failed")]
    Write,
    /// Memory ran out.
    #[error("out of memory")]
    Memory,
    /// An earlier call ran out of memory.
    #[error("the rehearsal has failed")]
    Failed,
}

impl From<OutFault> for RehearseError {
    ghost from_gives = { λ _ e. e ≡ Write };

    fn from(_fault: OutFault) -> RehearseError {
        RehearseError::Write
    }
}
