//! Files by their paths.
ghost use Rattle.std.specs.Prelude.{◌≡◌, ◌≢◌, ◌≤◌, ℕ, Bool, Option, IfOk, IsTrue, OnErr, OnOk, vec_len};
ghost use Rattle.tool_files.specs.declared.files.FileFault.TheVariants.{Memory};

use std::alloc::{AllocError, AllocFailed, Global};
use thiserror::Error;

/// The most bytes of an image, or of a text, that is read.
pub const LIMIT: usize = 1_048_576;

/// Why a call on files gave up.
#[derive(Clone, Copy, Debug, PartialEq, Eq, Error)]
pub enum FileFault {
    /// The device failed: there is no such file, or it could not be read or written.
    #[error("the device failed")]
    Failed,
    /// The file ends before the bytes that were asked for.
    #[error("too short")]
    Short,
    /// The file has more than `LIMIT` bytes.
    #[error("too long")]
    TooLong,
    /// Memory ran out.
    #[error("out of memory")]
    Memory,
}

impl From<AllocError> for FileFault {
    ghost from_gives = { λ _ e. e ≡ Memory };

    fn from(_error: AllocError) -> FileFault {
        FileFault::Memory
    }
}

impl<T: Drop> From<AllocFailed<T>> for FileFault {
    ghost from_gives = { λ _ e. e ≡ Memory };

    fn from(_error: AllocFailed<T>) -> FileFault {
        FileFault::Memory
    }
}

/// Why the lock is not taken. The texts are those of U-Boot's tools.
#[derive(Clone, Copy, Debug, Drop, PartialEq, Eq, Error)]
pub enum LockFault {
    /// The lock's file can neither be made nor opened, or is not a plain file.
    #[error("Error opening lock file /var/lock/fw_printenv.lock")]
    NoFile,
    /// The lock's file cannot be locked.
    #[error("Error locking file /var/lock/fw_printenv.lock")]
    NoLock,
}

/// What a call does with the file at a path.
#[derive(Clone, Copy, Debug, PartialEq, Eq)]
pub enum Action {
    /// Reads the whole file.
    ReadAll,
    /// Reads `size` bytes from byte `offset` on.
    ReadAt { offset: u64, size: usize },
    /// Writes `size` bytes from byte `offset` on.
    WriteAt { offset: u64, size: usize },
    /// Makes a file of `size` bytes.
    Create { size: usize },
}

/// Files by their paths: the machine's files, or files in memory. No failed call is repeated. A file
/// is written only after the lock was taken.
pub trait Files {
    ghost use Rattle.tool_files.specs.FailureCounts.{CountsFault};
    ghost use Rattle.tool_files.specs.Told.{Creates, IfTold, ReadsAll, ReadsAt, Told, WritesAt, read_limit};
    ghost use Rattle.tool_files.specs.declared.files.FileFault.TheVariants.{Short, TooLong};

    /// How often the device has failed.
    ghost faults: { Self → ℕ };

    /// The files and the calls so far, if they are known.
    ghost told: { Self → Option Told };

    /// Whether the lock was taken.
    ghost locked: { Self → Bool };

    /// Takes the lock, unless it was taken already. Waits while another call holds it.
    ///
    /// Refusals: `NoFile`, `NoLock`.
    fn lock(&mut self) -> Result<(), LockFault>
        ensures taken { OnOk result (IsTrue (locked self.new)) }
        ensures refused { OnErr result (locked self.new ≡ locked self.old) }
        ensures count { faults self.new ≡ faults self.old }
        ensures told { told self.new ≡ told self.old };

    /// Reads the whole file, of at most `LIMIT` bytes.
    ///
    /// Refusals: `Failed`, `TooLong`, `Memory`.
    fn read_all(&mut self, alloc: Global, path: &str) -> Result<Vec<u8>, FileFault>
        ensures count { CountsFault (faults self.old) (faults self.new) result }
        ensures bound { IfOk result (λ bytes. vec_len bytes ≤ read_limit) }
        ensures never_short { result ≢ Err Short }
        ensures lock { locked self.new ≡ locked self.old }
        ensures told { IfTold (told self.old) (told self.new)
            (λ old new. ReadsAll path.now old new result) };

    /// The same, where a folder may be at the path: then its files are read as one text, in the order of their names.
    ///
    /// Refusals: `Failed`, `TooLong`, `Memory`.
    fn read_list(&mut self, alloc: Global, path: &str) -> Result<Vec<u8>, FileFault>
        ensures count { CountsFault (faults self.old) (faults self.new) result }
        ensures bound { IfOk result (λ bytes. vec_len bytes ≤ read_limit) }
        ensures never_short { result ≢ Err Short }
        ensures lock { locked self.new ≡ locked self.old }
        ensures told { IfTold (told self.old) (told self.new)
            (λ old new. ReadsAll path.now old new result) };

    /// The same of a plain file below a folder, whose path is the first `folder` bytes of the path. What is no plain file,
    /// and what is reached by a link or by `..`, is not read.
    ///
    /// Refusals: `Failed`, `TooLong`, `Memory`.
    fn read_below(&mut self, alloc: Global, path: &str, folder: usize) -> Result<Vec<u8>, FileFault>
        ensures count { CountsFault (faults self.old) (faults self.new) result }
        ensures bound { IfOk result (λ bytes. vec_len bytes ≤ read_limit) }
        ensures never_short { result ≢ Err Short }
        ensures lock { locked self.new ≡ locked self.old }
        ensures told { IfTold (told self.old) (told self.new)
            (λ old new. ReadsAll path.now old new result) };

    /// Reads the `size` bytes from byte `offset` on, and no fewer.
    ///
    /// Refusals: `Failed`, `Short`, `Memory`.
    fn read_at(
        &mut self,
        alloc: Global,
        path: &str,
        offset: u64,
        size: usize,
    ) -> Result<Vec<u8>, FileFault>
        ensures count { CountsFault (faults self.old) (faults self.new) result }
        ensures size { IfOk result (λ bytes. vec_len bytes ≡ size) }
        ensures never_long { result ≢ Err TooLong }
        ensures lock { locked self.new ≡ locked self.old }
        ensures told { IfTold (told self.old) (told self.new)
            (λ old new. ReadsAt path.now offset size old new result) };

    /// Writes the bytes over those from byte `offset` on, under the lock. The file keeps its path and
    /// its size, and there must be one. If the device fails, a prefix of the bytes may be written.
    ///
    /// Refusals: `Failed`, `Memory`.
    fn write_at(&mut self, path: &str, offset: u64, bytes: &[u8]) -> Result<(), FileFault>
        requires { IsTrue (locked self.old) }
        ensures count { CountsFault (faults self.old) (faults self.new) result }
        ensures never_short { result ≢ Err Short }
        ensures never_long { result ≢ Err TooLong }
        ensures lock { locked self.new ≡ locked self.old }
        ensures told { IfTold (told self.old) (told self.new)
            (λ old new. WritesAt path.now offset bytes.now old new result) };

    /// Makes a file of these bytes. Returns whether it was made: if there is anything at the path, also a
    /// link, nothing is changed. If the device fails, a file with a prefix of the bytes may be left.
    ///
    /// Refusals: `Failed`, `Memory`.
    fn create(&mut self, path: &str, bytes: &[u8]) -> Result<bool, FileFault>
        ensures count { CountsFault (faults self.old) (faults self.new) result }
        ensures never_short { result ≢ Err Short }
        ensures never_long { result ≢ Err TooLong }
        ensures lock { locked self.new ≡ locked self.old }
        ensures told { IfTold (told self.old) (told self.new)
            (λ old new. Creates path.now bytes.now old new result) };
}
