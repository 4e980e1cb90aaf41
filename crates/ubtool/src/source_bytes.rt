//! The bytes of the files that were read, as a rehearsal, the endings and the causes take them.
ghost use Rattle.std.specs.Prelude.{◌≡◌};
ghost use Rattle.std.specs.Option.{option_copied};
ghost use Rattle.text.specs.TextsShown.{option_bytes};
ghost use Rattle.tool_steps.specs.Images.{copies};
ghost use Rattle.tool_steps.specs.PrintingFiles.{first_bytes, second_bytes};
ghost use Rattle.board_files.specs.BoardFiles.{list_of, list_read};
ghost use Rattle.device_list.specs.CommandsShown.{files_shown};
ghost use Rattle.ubtool.specs.GivenByFiles.{script_of};

use board_files::BoardFiles;
use device_list::FileTexts;

/// The bytes of a single image, or of the copies of a pair, the device list with the files that it names, and the script.
#[derive(Clone, Copy)]
pub(crate) struct SourceBytes<'a> {
    pub(crate) first: &'a [u8],
    pub(crate) second: Option<&'a [u8]>,
    pub(crate) device_list: &'a [u8],
    pub(crate) files: &'a FileTexts,
    pub(crate) script: Option<&'a [u8]>,
}

/// The bytes of what was read.
pub(crate) fn bytes_of(board: &BoardFiles) -> SourceBytes<'_>
    ensures first { result.first.now ≡ first_bytes (copies board.now.images) }
    ensures second { option_copied result.second ≡ second_bytes (copies board.now.images) }
    ensures device_list { list_read result.device_list.now (files_shown result.files.now.entries) ≡ list_of board.now }
    ensures script { option_bytes result.script ≡ script_of board.now }
{
    SourceBytes {
        first: &board.images.first.bytes,
        second: board.images.second_bytes(),
        device_list: &board.device_list,
        files: &board.files,
        script: board.script.as_deref(),
    }
}
