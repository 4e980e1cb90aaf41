//! A new image of a text, from the file of the text to a file that is made.
ghost use Rattle.std.specs.Prelude.{◌≡◌, IfErr, string_bytes};
ghost use Rattle.tool_files.specs.Told.{IfTold};
ghost use Rattle.tool_steps.specs.Faults.{CountsTold};
ghost use Rattle.tool_steps.specs.NewImageFiles.{CreatesFile, IsCreateFault, IsMakeFault, Makes};

use crate::read::read_text;
use std::alloc::Global;
use tool_files::Files;
use tool_images::{Fault, Layout, WordForm, new_image_of_text};

/// Makes a file of these bytes. Errors: `Exists`, if there is anything at the path; `CannotWrite`; `Memory`.
fn create_file<F: Files>(files: &mut F, path: String, bytes: &[u8]) -> Result<(), Fault>
    ensures count { CountsTold (F.faults files.old) (F.faults files.new) result }
    ensures lock { F.locked files.new ≡ F.locked files.old }
    ensures fault { IfErr result IsCreateFault }
    ensures told { IfTold (F.told files.old) (F.told files.new)
        (λ old new. CreatesFile (string_bytes path) bytes.now old new result) }
{
    match files.create(&path, bytes) {
        Ok(true) => Ok(()),
        Ok(false) => Err(Fault::Exists(WordForm(path))),
        Err(fault) => Err(Fault::of_write(path, fault)),
    }
}

/// Reads the text at a path, and makes a file of the image of its environment at another path, where nothing may be.
///
/// Errors in order: `CannotRead` or `FileTooLong` for the text; `Tool` with `WrongSize`, if no image has this size;
/// `Text` for the first line that is no variable; `TextTooLarge`, if the environment does not fit; `Exists`;
/// `CannotWrite`. `Memory` at any time.
pub fn make_image<F: Files>(
    alloc: Global,
    files: &mut F,
    text: String,
    output: String,
    layout: Layout,
) -> Result<(), Fault>
    ensures count { CountsTold (F.faults files.old) (F.faults files.new) result }
    ensures lock { F.locked files.new ≡ F.locked files.old }
    ensures fault { IfErr result IsMakeFault }
    ensures told { IfTold (F.told files.old) (F.told files.new)
        (λ old new. Makes (string_bytes text) (string_bytes output) layout old new result) }
{
    let lines = read_text(alloc, files, text)?;
    let image = new_image_of_text(alloc, &lines, layout)?;
    create_file(files, output, &image)
}
