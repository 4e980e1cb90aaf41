//! The lock in a folder that the words name.
ghost use Rattle.std.specs.Prelude.{◌≡◌};
ghost use Rattle.ubtool_main.specs.declared.folder_lock.LockError.TheVariants.{Memory};

use std::alloc::{AllocError, AllocGlobal};
use std::fs::File;
use std::io::Write;
use std::rt::{self, Clock};
use thiserror::Error;
use tool_files::{NotLocked, Program, lock_at};
use tool_images::WordForm;

/// Why the lock in a folder is not taken. The texts are those of U-Boot's tools.
#[derive(Debug, Drop, Error)]
pub enum LockError {
    /// The lock file can neither be made nor opened, or is not a plain file.
    #[error("Error opening lock file {0}")]
    NoFile(WordForm),
    /// The lock file cannot be locked.
    #[error("Error locking file {0}")]
    NoLock(WordForm),
    /// Memory ran out.
    #[error("out of memory")]
    Memory,
}

impl From<AllocError> for LockError {
    ghost from_gives = { λ _ e. e ≡ Memory };

    fn from(_error: AllocError) -> LockError {
        LockError::Memory
    }
}

/// Takes the lock in a folder, once no other call holds it. If this takes more than five seconds, the
/// program says that it waits. Errors: `NoFile`, `NoLock`, `Memory`.
pub fn lock_in<R: rt::Files<File = File> + Clock + AllocGlobal, W: Write>(
    rt: &R,
    program: &mut Program<'_, W>,
    folder: &str,
) -> Result<File, LockError> {
    let path = format!(in rt.alloc(); "{folder}/fw_printenv.lock")?;
    match lock_at(rt, program, &path) {
        Ok(file) => Ok(file),
        Err(NotLocked::NoFolder | NotLocked::NoFile) => Err(LockError::NoFile(WordForm(path))),
        Err(NotLocked::NoLock) => Err(LockError::NoLock(WordForm(path))),
    }
}
