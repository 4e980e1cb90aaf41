//! The script of a file.
ghost use Rattle.std.specs.Prelude.{◌≡◌, IfErr, option_map, string_bytes};
ghost use Rattle.tool_files.specs.Told.{IfTold};
ghost use Rattle.tool_steps.specs.Faults.{CountsTold, IsScriptReadFault};
ghost use Rattle.tool_steps.specs.Scripts.{MakesScript, ReadsNamed, ReadsScript, ReadsSized, sized_of};

use crate::read::{read_text, read_text_below};
use script_file::script_in;
use std::alloc::Global;
use tool_files::Files;
use tool_images::Fault;

/// The script of a file, with the size of the file.
#[derive(Debug, Drop)]
pub struct SizedScript {
    /// The script.
    pub text: Vec<u8>,
    /// How many bytes the whole file has.
    pub size: usize,
}

/// The script of the bytes of the file at the path. Errors: `NoScript`, `Memory`.
fn script_of(alloc: Global, path: String, bytes: &[u8]) -> Result<Vec<u8>, Fault>
    ensures { MakesScript (string_bytes path) bytes.now result }
{
    let script = match script_in(bytes) {
        Ok(script) => script,
        Err(fault) => return Err(Fault::of_script(path, fault)),
    };
    match Vec::from_slice(alloc, script) {
        Ok(script) => Ok(script),
        Err(_) => Err(Fault::Memory),
    }
}

/// Reads the file at the path, and gives its script: the first text of an image for U-Boot's `source`, or the
/// whole text of another file, up to the first NUL.
///
/// Errors: those of `read_text`; `NoScript` for an image that has none.
pub fn read_script<F: Files>(alloc: Global, files: &mut F, path: String) -> Result<Vec<u8>, Fault>
    ensures count { CountsTold (F.faults files.old) (F.faults files.new) result }
    ensures lock { F.locked files.new ≡ F.locked files.old }
    ensures fault { IfErr result IsScriptReadFault }
    ensures told { IfTold (F.told files.old) (F.told files.new)
        (λ old new. ReadsScript (string_bytes path) old new result) }
{
    let Ok(name) = path.clone() else {
        return Err(Fault::Memory);
    };
    let bytes = read_text(alloc, files, path)?;
    script_of(alloc, name, &bytes)
}

/// The script that was read from a file of this size, with the size. Errors: the one that is given.
fn sized(read: Result<Vec<u8>, Fault>, size: usize) -> Result<SizedScript, Fault>
    ensures { result ≡ sized_of read size }
{
    match read {
        Ok(text) => Ok(SizedScript { text, size }),
        Err(fault) => Err(fault),
    }
}

/// Reads the script of a plain file below a folder, whose path is the first `folder` bytes of the path, and the size
/// of the file. Errors: those of `read_script`.
pub fn read_script_below<F: Files>(
    alloc: Global,
    files: &mut F,
    path: String,
    folder: usize,
) -> Result<SizedScript, Fault>
    ensures count { CountsTold (F.faults files.old) (F.faults files.new) result }
    ensures lock { F.locked files.new ≡ F.locked files.old }
    ensures fault { IfErr result IsScriptReadFault }
    ensures told { IfTold (F.told files.old) (F.told files.new)
        (λ old new. ReadsSized (string_bytes path) old new result) }
{
    let Ok(name) = path.clone() else {
        return Err(Fault::Memory);
    };
    let bytes = read_text_below(alloc, files, path, folder)?;
    let size = bytes.len();
    sized(script_of(alloc, name, &bytes), size)
}

/// Reads the script of the file at the path, if there is one. Errors: those of `read_script`.
pub fn read_named_script<F: Files>(
    alloc: Global,
    files: &mut F,
    path: Option<String>,
) -> Result<Option<Vec<u8>>, Fault>
    ensures count { CountsTold (F.faults files.old) (F.faults files.new) result }
    ensures lock { F.locked files.new ≡ F.locked files.old }
    ensures fault { IfErr result IsScriptReadFault }
    ensures told { IfTold (F.told files.old) (F.told files.new)
        (λ old new. ReadsNamed (option_map string_bytes path) old new result) }
{
    match path {
        Some(path) => Ok(Some(read_script(alloc, files, path)?)),
        None => Ok(None),
    }
}
