//! Replacing a whole file, so that the old bytes or the new ones are at its path whatever happens.
ghost use Rattle.std.specs.Prelude.{◌≡◌, ◌⊎◌, IfErr, IfOk, string_bytes};
ghost use Rattle.std.specs.Path.{path_buf_bytes, path_bytes};
ghost use Rattle.tool_files.specs.Replacing.{name_beside, own_part, path_beside};
ghost use Rattle.tool_files.specs.declared.files.FileFault.TheVariants.{Failed, Memory};
ghost use Rattle.tool_files.specs.declared.replace.NotReplaced.TheVariants as not_replaced;

use crate::files::FileFault;
use crate::program::{Note, Program};
use crate::same_file::is_same_file;
use crate::writing::{is_synced, is_written};
use std::alloc::{AllocError, AllocGlobal, Global};
use std::fs::{self, File, Metadata, OpenFile, OpenOptions, Permissions};
use std::io::{self, ErrorKind, Write};
use std::os::unix::fs::{MetadataExt, OpenOptionsExt, PermissionsExt, fchown};
use std::path::{Path, PathBuf};
use std::rt;

/// How many names are tried for a new file, if files of these names are there.
const NAMES: usize = 8;

/// The most bytes of a file's name that are in the name of a new file beside it, which may have 255.
const OWN_MAX: usize = 200;

/// The bits of a mode that are permissions.
const PERMISSIONS: u32 = 0o7777;

/// Why a file was not replaced. Unless the device failed at the last step, the file is as it was.
#[derive(Clone, Copy, Debug, PartialEq, Eq)]
enum NotReplaced {
    /// No new file can take its place.
    InPlace,
    /// The device failed.
    Failed,
    /// Memory ran out.
    Memory,
}

impl From<AllocError> for NotReplaced {
    ghost from_gives = { λ _ e. e ≡ not_replaced.Memory };

    fn from(_error: AllocError) -> NotReplaced {
        NotReplaced::Memory
    }
}

/// A new file beside the one that it is to replace.
#[derive(Drop)]
struct Beside {
    path: PathBuf,
    file: File,
}

/// Whether this describes a regular file of `size` bytes that has no other name.
fn is_whole(known: &Metadata, size: usize) -> bool {
    known.is_file() && known.len() == size as u64 && known.nlink() == 1
}

/// The file at the path, if all of it is to be written: a regular file of `size` bytes that has no
/// other name. Nothing else is opened. Errors: `Failed`, if it cannot be opened to be written.
fn whole_file<R: rt::Files>(rt: &R, path: &str, size: usize) -> Result<Option<Metadata>, FileFault>
    ensures { IfErr result (λ fault. fault ≡ Failed) }
{
    match fs::metadata(rt, path) {
        Ok(known) if is_whole(&known, size) => {}
        _ => return Ok(None),
    }
    let mut how = OpenOptions::new();
    how.write(true);
    let Ok(file) = how.open(rt, path) else {
        return Err(FileFault::Failed);
    };
    match file.metadata() {
        Ok(known) if is_whole(&known, size) => Ok(Some(known)),
        _ => Ok(None),
    }
}

/// The path of a file by which it can be replaced: its links are followed, and its end is the name
/// of the file that is known. Errors: `InPlace`, `Memory`.
fn real_path<R: rt::Files + AllocGlobal>(
    rt: &R,
    path: &str,
    known: &Metadata,
) -> Result<PathBuf, NotReplaced> {
    let real = match fs::canonicalize(rt, path) {
        Ok(real) => real,
        Err(error) if error.kind() == ErrorKind::OutOfMemory => return Err(NotReplaced::Memory),
        Err(_) => return Err(NotReplaced::InPlace),
    };
    match fs::symlink_metadata(rt, &real) {
        Ok(found) if is_same_file(known, &found) => Ok(real),
        _ => Err(NotReplaced::InPlace),
    }
}

/// Opens the folder of a file. Errors: `InPlace`.
fn folder_of<R: rt::Files>(rt: &R, path: Path<'_>) -> Result<R::File, NotReplaced> {
    let Some(folder) = path.parent() else {
        return Err(NotReplaced::InPlace);
    };
    match File::open(rt, folder) {
        Ok(folder) => Ok(folder),
        Err(_) => Err(NotReplaced::InPlace),
    }
}

/// A file's own name as it is in the name of a new file.
fn own_part(own: &str) -> &str
    ensures { result.now ≡ own_part own.now }
{
    if own.len() > OWN_MAX { "" } else { own }
}

/// The name of a new file beside a file.
fn name_beside(alloc: Global, own: &str, process: u32, number: usize) -> Result<String, AllocError>
    ensures { IfOk result (λ name. string_bytes name ≡ name_beside own.now process number) }
{
    format!(in alloc; ".{own}.{process}.{number}")
}

/// The path of a new file in the folder of a file.
fn path_beside(
    alloc: Global,
    path: Path<'_>,
    process: u32,
    number: usize,
) -> Result<PathBuf, AllocError>
    ensures { IfOk result (λ beside. path_buf_bytes beside
        ≡ path_beside (path_bytes path.entry) process number) }
{
    let own = own_part(path.file_name().unwrap_or(""));
    let name = name_beside(alloc, own, process, number)?;
    path.with_file_name(alloc, &name)
}

/// Makes a new file beside a file, which only its owner can read. Errors: `InPlace`, `Memory`.
fn made_beside<R: rt::Files<File = File> + AllocGlobal>(
    rt: &R,
    path: Path<'_>,
    process: u32,
) -> Result<Beside, NotReplaced> {
    let mut how = OpenOptions::new();
    how.write(true);
    how.create_new(true);
    how.mode(0o600);
    for number in 0..NAMES {
        let path = path_beside(rt.alloc(), path, process, number)?;
        match how.open(rt, &path) {
            Ok(file) => return Ok(Beside { path, file }),
            Err(error) if error.kind() == ErrorKind::AlreadyExists => {}
            Err(_) => return Err(NotReplaced::InPlace),
        }
    }
    Err(NotReplaced::InPlace)
}

/// Gives the new file the owner, the group and the mode of the known one. What it has already is
/// not set, since some file systems refuse each change of them.
fn keep_owner(file: &File, known: &Metadata) -> io::Result<()> {
    let new = file.metadata()?;
    if (new.uid(), new.gid()) != (known.uid(), known.gid()) {
        fchown(file, Some(known.uid()), Some(known.gid()))?;
    }
    let mode = known.mode() & PERMISSIONS;
    if new.mode() & PERMISSIONS != mode {
        file.set_permissions(Permissions::from_mode(mode))?;
    }
    Ok(())
}

/// Writes the new file, and puts it in the place of the known one. Errors: `InPlace`, `Failed`.
fn put_in_place<R: rt::Files>(
    rt: &R,
    new: &mut Beside,
    path: Path<'_>,
    known: &Metadata,
    bytes: &[u8],
) -> Result<(), NotReplaced> {
    if keep_owner(&new.file, known).is_err() {
        return Err(NotReplaced::InPlace);
    }
    if !is_written(&mut new.file, bytes) || !is_synced(&new.file) {
        return Err(NotReplaced::Failed);
    }
    match fs::rename(rt, &new.path, path) {
        Ok(()) => Ok(()),
        Err(error) => match error.kind() {
            // A file may be a mount, and a folder may refuse this one change.
            ErrorKind::ResourceBusy | ErrorKind::PermissionDenied => Err(NotReplaced::InPlace),
            _ => Err(NotReplaced::Failed),
        },
    }
}

/// Replaces the known file at the path by one of these bytes. If that fails before the new file is
/// in its place, the new file is removed. Errors: `InPlace`, `Failed`, `Memory`.
fn replace<R: rt::Files<File = File> + AllocGlobal>(
    rt: &R,
    path: &str,
    process: u32,
    known: &Metadata,
    bytes: &[u8],
) -> Result<(), NotReplaced> {
    let real = real_path(rt, path, known)?;
    let folder = folder_of(rt, real.as_path())?;
    let mut new = made_beside(rt, real.as_path(), process)?;
    if let Err(why) = put_in_place(rt, &mut new, real.as_path(), known, bytes) {
        let _ = fs::remove_file(rt, &new.path);
        return Err(why);
    }
    if is_synced(&folder) {
        Ok(())
    } else {
        Err(NotReplaced::Failed)
    }
}

/// Replaces the file at the path, whose links are followed, by one of these bytes, and has the device
/// keep it. Returns false if the file is to be written in place: it is no regular file of as many
/// bytes, it has another name, or no new file can take its place. The program says so in the last
/// case.
///
/// Errors: `Failed`, `Memory`. The file has then the old bytes, or the new ones if the folder could
/// not be synced.
pub fn is_replaced<R: rt::Files<File = File> + AllocGlobal, W: Write>(
    rt: &R,
    program: &mut Program<'_, W>,
    path: &str,
    bytes: &[u8],
) -> Result<bool, FileFault>
    ensures { IfErr result (λ fault. (fault ≡ Failed) ⊎ (fault ≡ Memory)) }
{
    let Some(known) = whole_file(rt, path, bytes.len())? else {
        return Ok(false);
    };
    match replace(rt, path, program.process(), &known, bytes) {
        Ok(()) => Ok(true),
        Err(NotReplaced::Failed) => Err(FileFault::Failed),
        Err(NotReplaced::Memory) => Err(FileFault::Memory),
        Err(NotReplaced::InPlace) => {
            program.note(rt.alloc(), Note::InPlace, path);
            Ok(false)
        }
    }
}
