//! The lock of U-Boot's tools.
ghost use Rattle.std.specs.Prelude.{◌≡◌, true, IfOk};
ghost use Rattle.tool_files.specs.MachineShown.{is_taken};

use crate::files::LockFault;
use crate::program::{Note, Program};
use crate::same_file::is_same_file;
use std::alloc::AllocGlobal;
use std::fs::{self, File, Metadata, OpenOptions, TryLockError};
use std::io::{ErrorKind, Write};
use std::os::fd::AsRawFd;
use std::rt::{self, Clock};
use std::thread;
use std::time::Duration;

/// The file that `fw_printenv` and `fw_setenv` lock, both U-Boot's and libubootenv's.
const LOCK_FILE: &str = "/var/lock/fw_printenv.lock";

/// How often the lock's file is looked for, if other calls make or remove it meanwhile.
const LOOKS: usize = 8;

/// How often a lock that another call holds is tried before the program says that it waits.
const TRIES: usize = 100;

/// The milliseconds between two of these tries. All of them take five seconds.
const PAUSE: u64 = 50;

/// What a call did about the lock.
#[derive(Drop)]
pub enum Lock {
    /// It did not ask for it.
    NotTaken,
    /// It holds it.
    Held(File),
    /// There is no folder for the lock's file, so nothing is held.
    Missing,
}

/// Why the lock whose file is at a path is not held.
#[derive(Clone, Copy, Debug, PartialEq, Eq)]
pub enum NotLocked {
    /// The folder of the file is missing.
    NoFolder,
    /// The file can neither be made nor opened, or is not a plain file.
    NoFile,
    /// The file cannot be locked.
    NoLock,
}

/// The file under a number above those of the three standard streams. If one of them is closed, a
/// file that is opened gets its number. Without this, a script on standard input would be read from
/// that file, or a fault would be written to it.
fn above_streams(file: File) -> Option<File> {
    if file.as_raw_fd() > 2 {
        return Some(file);
    }
    file.try_clone().ok()
}

/// Makes the lock file. Gives `None` if there is something at the path by now. Errors: `NoFolder`,
/// `NoFile`.
fn made<R: rt::Files<File = File>>(rt: &R, path: &str) -> Result<Option<File>, NotLocked> {
    let mut how = OpenOptions::new();
    how.read(true);
    how.write(true);
    how.create_new(true);
    match how.open(rt, path) {
        Ok(file) => Ok(Some(file)),
        Err(error) => match error.kind() {
            ErrorKind::AlreadyExists => Ok(None),
            ErrorKind::NotFound => Err(NotLocked::NoFolder),
            _ => Err(NotLocked::NoFile),
        },
    }
}

/// Opens the plain file that was seen at the path. If it cannot be written, it is opened to be read.
/// Gives `None` if something else is at the path by now. Errors: `NoFile`.
fn opened_as<R: rt::Files<File = File>>(
    rt: &R,
    path: &str,
    seen: &Metadata,
) -> Result<Option<File>, NotLocked> {
    let mut how = OpenOptions::new();
    how.read(true);
    how.write(true);
    let file = match how.open(rt, path) {
        Ok(file) => file,
        Err(_) => match File::open(rt, path) {
            Ok(file) => file,
            Err(error) if error.kind() == ErrorKind::NotFound => return Ok(None),
            Err(_) => return Err(NotLocked::NoFile),
        },
    };
    match file.metadata() {
        Ok(opened) if is_same_file(seen, &opened) => Ok(Some(file)),
        Ok(_) => Ok(None),
        Err(_) => Err(NotLocked::NoFile),
    }
}

/// Looks for the lock file, and opens or makes it. Only a plain file is one: a link is not followed,
/// and nothing else is opened, since opening a pipe could wait without end. Gives `None` if what is
/// at the path changes meanwhile. Errors: `NoFolder`, `NoFile`.
fn looked_for<R: rt::Files<File = File>>(rt: &R, path: &str) -> Result<Option<File>, NotLocked> {
    match fs::symlink_metadata(rt, path) {
        Ok(seen) if seen.is_file() => opened_as(rt, path, &seen),
        Err(error) if error.kind() == ErrorKind::NotFound => made(rt, path),
        _ => Err(NotLocked::NoFile),
    }
}

/// The lock file, made if it does not exist. Errors: `NoFolder`, `NoFile`.
fn lock_file<R: rt::Files<File = File>>(rt: &R, path: &str) -> Result<File, NotLocked> {
    for _ in 0..LOOKS {
        if let Some(file) = looked_for(rt, path)? {
            return above_streams(file).ok_or(NotLocked::NoFile);
        }
    }
    Err(NotLocked::NoFile)
}

/// Locks the file, if no other call holds it at the end of five seconds.
fn tried<R: Clock>(rt: &R, file: &File) -> Result<(), TryLockError> {
    for _ in 0..TRIES {
        match file.try_lock() {
            Err(TryLockError::WouldBlock) => thread::sleep(rt, Duration::from_millis(PAUSE)),
            answer => return answer,
        }
    }
    Err(TryLockError::WouldBlock)
}

/// Takes the lock whose file is at the path, once no other call holds it. The file is made if it
/// does not exist. If this takes more than five seconds, the program says that it waits. Errors:
/// `NoFolder`, `NoFile`, `NoLock`.
pub fn lock_at<R: rt::Files<File = File> + Clock + AllocGlobal, W: Write>(
    rt: &R,
    program: &mut Program<'_, W>,
    path: &str,
) -> Result<File, NotLocked> {
    let file = lock_file(rt, path)?;
    match tried(rt, &file) {
        Ok(()) => return Ok(file),
        Err(TryLockError::Error(_)) => return Err(NotLocked::NoLock),
        Err(TryLockError::WouldBlock) => {}
    }
    program.note(rt.alloc(), Note::Waiting, path);
    match file.lock() {
        Ok(()) => Ok(file),
        Err(_) => Err(NotLocked::NoLock),
    }
}

/// The usual lock, once no other call holds it, or `Missing` if there is no folder for its file.
/// Errors: `NoFile`, `NoLock`.
pub fn usual_lock<R: rt::Files<File = File> + Clock + AllocGlobal, W: Write>(
    rt: &R,
    program: &mut Program<'_, W>,
) -> Result<Lock, LockFault>
    ensures { IfOk result (λ lock. is_taken lock ≡ true) }
{
    match lock_at(rt, program, LOCK_FILE) {
        Ok(file) => Ok(Lock::Held(file)),
        Err(NotLocked::NoFolder) => Ok(Lock::Missing),
        Err(NotLocked::NoFile) => Err(LockFault::NoFile),
        Err(NotLocked::NoLock) => Err(LockFault::NoLock),
    }
}
