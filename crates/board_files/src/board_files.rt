//! What a rehearsal of a board is read from.
ghost use Rattle.std.specs.Prelude.{◌≡◌, IfErr, IfOk, option_map, string_bytes};
ghost use Rattle.board_files.specs.BoardFiles.{ReadsBoard};
ghost use Rattle.tool_files.specs.Told.{IfTold};
ghost use Rattle.tool_steps.specs.Faults.{CountsTold, IsScriptReadFault};
ghost use Rattle.tool_words.specs.CommandAnswers.{inputs_shown};

use crate::named_files::read_named_files;
use device_list::FileTexts;
use std::alloc::{AllocError, Global};
use tool_files::Files;
use tool_images::Fault;
use tool_steps::{Images, Sources, read_sources};
use tool_words::Inputs;

/// The images, the text of a device list, the texts and sizes of the files that it names, and the script that runs in
/// place of a variable.
#[derive(Drop)]
pub struct BoardFiles {
    /// The images.
    pub images: Images,
    /// The text of the device list.
    pub device_list: Vec<u8>,
    /// The texts and sizes of the files that it names, if a folder is named.
    pub files: FileTexts,
    /// The script, if one is named.
    pub script: Option<Vec<u8>>,
}

/// A copy of a path, if there is one. Errors: memory ran out.
pub fn copied_path(path: &Option<String>) -> Result<Option<String>, AllocError>
    ensures { IfOk result
        (λ copy. option_map string_bytes copy ≡ option_map string_bytes path.now) }
{
    match path {
        Some(path) => Ok(Some(path.clone()?)),
        None => Ok(None),
    }
}

/// Reads the images, then the device list, then the script, if one is named, and then the files that the list names,
/// if a folder is named.
pub fn read_board<F: Files>(
    alloc: Global,
    files: &mut F,
    inputs: Inputs,
) -> Result<BoardFiles, Fault>
    ensures count { CountsTold (F.faults files.old) (F.faults files.new) result }
    ensures lock { F.locked files.new ≡ F.locked files.old }
    ensures fault { IfErr result IsScriptReadFault }
    ensures told { IfTold (F.told files.old) (F.told files.new)
        (λ old new. ReadsBoard (inputs_shown inputs) old new result) }
{
    let Ok(folder) = copied_path(&inputs.files) else {
        return Err(Fault::Memory);
    };
    let sources = read_sources(alloc, files, inputs)?;
    let named = read_named_files(alloc, files, folder, &sources.device_list)?;
    let Sources {
        images,
        device_list,
        script,
    } = sources;
    Ok(BoardFiles {
        images,
        device_list,
        files: named,
        script,
    })
}
