//! Making a new file.
ghost use Rattle.std.specs.Prelude.{◌≡◌, IfErr};
ghost use Rattle.tool_files.specs.declared.files.FileFault.TheVariants.{Failed};

use crate::files::FileFault;
use crate::writing::{is_synced, is_written};
use std::fs::{self, OpenOptions};
use std::io::ErrorKind;
use std::rt;

/// Makes a file of these bytes, and has the device keep them. Returns false if there is anything at the
/// path: no file is written over, and no link is followed. If the new file cannot be written whole, it is
/// removed, if that can be done. Errors: `Failed`.
pub fn is_created<R: rt::Files>(rt: &R, path: &str, bytes: &[u8]) -> Result<bool, FileFault>
    ensures { IfErr result (λ fault. fault ≡ Failed) }
{
    let mut how = OpenOptions::new();
    how.write(true);
    how.create_new(true);
    let mut file = match how.open(rt, path) {
        Ok(file) => file,
        Err(error) if error.kind() == ErrorKind::AlreadyExists => return Ok(false),
        Err(_) => return Err(FileFault::Failed),
    };
    if is_written(&mut file, bytes) && is_synced(&file) {
        return Ok(true);
    }
    let _ = fs::remove_file(rt, path);
    Err(FileFault::Failed)
}
