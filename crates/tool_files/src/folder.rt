//! Reading the files of a folder as one text.
ghost use Rattle.std.specs.Prelude.{◌≡◌, ◌≢◌, IfErr};
ghost use Rattle.tool_files.specs.declared.files.FileFault.TheVariants.{Short};

use crate::files::{FileFault, LIMIT};
use crate::machine::read_from;
use std::alloc::{AllocGlobal, Global};
use std::io::{Error, ErrorKind};
use std::{fs, rt};

/// Whether there is a folder at the path.
pub fn is_folder<R: rt::Files>(rt: &R, path: &str) -> bool {
    match fs::metadata(rt, path) {
        Ok(known) => known.is_dir(),
        Err(_) => false,
    }
}

/// What a failed call on a folder answers, which may have lacked memory.
fn fault_of(error: &Error) -> FileFault
    ensures { result ≢ Short }
{
    match error.kind() {
        ErrorKind::OutOfMemory => FileFault::Memory,
        _ => FileFault::Failed,
    }
}

/// Whether a file of a folder counts: a plain file, or a link to one, whose name does not start with a dot. A link that
/// leads nowhere does not. Errors: `Failed`, `Memory`.
fn is_counted<R: rt::Files>(rt: &R, name: &str, path: &str) -> Result<bool, FileFault>
    ensures { IfErr result (λ fault. fault ≢ Short) }
{
    match fs::metadata(rt, path) {
        Ok(known) => Ok(known.is_file() && !name.starts_with('.')),
        Err(error) if error.kind() == ErrorKind::NotFound => Ok(false),
        Err(error) => Err(fault_of(&error)),
    }
}

/// The paths of the files in a folder that count, in the order of their names. Errors: `Failed`, `Memory`.
fn paths_in<R: rt::Files + AllocGlobal + Clone + Drop>(
    rt: &R,
    alloc: Global,
    folder: &str,
) -> Result<Vec<String>, FileFault>
    ensures { IfErr result (λ fault. fault ≢ Short) }
{
    let entries = match fs::read_dir(rt, folder) {
        Ok(entries) => entries,
        Err(error) => return Err(fault_of(&error)),
    };
    let mut paths = Vec::new(alloc);
    for entry in entries {
        let entry = match entry {
            Ok(entry) => entry,
            Err(error) => return Err(fault_of(&error)),
        };
        let path = entry.path();
        if is_counted(rt, entry.file_name(), path.as_str())? {
            paths.push(String::from_str(alloc, path.as_str())?)?;
        }
    }
    paths.sort()?;
    Ok(paths)
}

/// Adds a file to a text, and the newline that its last line may lack. Errors: `Failed`, `Memory`.
fn add_file<R: rt::Files>(
    rt: &R,
    alloc: Global,
    text: &mut Vec<u8>,
    path: &str,
) -> Result<(), FileFault>
    ensures { IfErr result (λ fault. fault ≢ Short) }
{
    let bytes = read_from(rt, alloc, path, 0, LIMIT + 1)?;
    text.extend_from_slice(&bytes)?;
    match bytes.last() {
        None | Some(b'\n') => {}
        Some(_) => text.push(b'\n')?,
    }
    Ok(())
}

/// Reads the files of a folder as one text, in the order of their names. Files whose names start with a dot, and
/// what is no plain file, do not count. Errors: `Failed`, `TooLong`, `Memory`.
pub fn read_folder<R: rt::Files + AllocGlobal + Clone + Drop>(
    rt: &R,
    alloc: Global,
    folder: &str,
) -> Result<Vec<u8>, FileFault>
    ensures { IfErr result (λ fault. fault ≢ Short) }
{
    let mut text = Vec::new(alloc);
    for path in &paths_in(rt, alloc, folder)? {
        add_file(rt, alloc, &mut text, path)?;
        if text.len() > LIMIT {
            return Err(FileFault::TooLong);
        }
    }
    Ok(text)
}
