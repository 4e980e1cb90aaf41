//! `causes`, from files to the lines.
ghost use Rattle.std.specs.Prelude.{◌≡◌};
ghost use Rattle.tool_files.specs.Told.{IfTold};
ghost use Rattle.board_files.specs.BoardFiles.{list_of};
ghost use Rattle.ubtool.specs.CausesOfFiles.{TellsCausesFrom, TellsCausesOfCopies, causes_refusal, runs_asked};
ghost use Rattle.ubtool.specs.GivenByFiles.{given_by, script_of};
ghost use Rattle.ubtool.specs.Faults.{CountsShared};
ghost use Rattle.tool_steps.specs.Images.{copies};
ghost use Rattle.ubtool.specs.RehearsingFiles.{LeavesOutput};
ghost use Rattle.tool_words.specs.CommandAnswers.{inputs_shown};

use crate::beginning::DeviceText;
use crate::fault::ProgramFault;
use crate::image_causes::causes_bytes;
use crate::rehearsal_error::RehearsalError;
use crate::source_bytes::bytes_of;
use board_files::{BoardFiles, read_board};
use envimage::ByteOrder;
use output::Out;
use rehearse_rules::RehearseError;
use std::alloc::Global;
use tool_files::Files;
use tool_images::WordForm;
use tool_words::{CausesAsk, Inputs, Taking};

/// How a refusal of the causes is reported.
fn refusal_of(error: RehearsalError, what: CausesAsk) -> ProgramFault
    ensures { result ≡ causes_refusal what error }
{
    match error {
        RehearsalError::Rehearsal(RehearseError::NoSuchVariable) => {
            ProgramFault::NoSuchVariable(WordForm(what.name))
        }
        error => error.into(),
    }
}

/// Reports what has to fail for each ending of what was read.
fn causes_of_sources<O: Out>(
    alloc: Global,
    board: &BoardFiles,
    taking: Taking,
    order: ByteOrder,
    what: &CausesAsk,
    out: &mut O,
) -> Result<bool, RehearsalError>
    ensures { TellsCausesOfCopies (given_by order (copies board.now.images)
        (list_of board.now) taking (script_of board.now) (runs_asked what.now)) what.now.check
        (O.sink out.old) (O.sink out.new) result }
{
    let bytes = bytes_of(board);
    let list = DeviceText {
        text: bytes.device_list,
        files: bytes.files,
        taking,
    };
    let ask = rehearse_causes::CausesAsk {
        name: what.name.as_bytes(),
        text: bytes.script,
        bounds: what.bounds,
        check: what.check,
    };
    causes_bytes(alloc, bytes.first, bytes.second, order, list, &ask, out)
}

/// Reports what has to fail for each ending of a variable of images, or of a script. Reads the images, then the
/// device list, then the script if one is named, and then writes the lines. Returns true, or in a check whether nothing was written.
pub fn causes<F: Files, O: Out>(
    alloc: Global,
    files: &mut F,
    inputs: Inputs,
    what: CausesAsk,
    order: ByteOrder,
    out: &mut O,
) -> Result<bool, ProgramFault>
    ensures count { CountsShared (F.faults files.old) (F.faults files.new) result }
    ensures lock { F.locked files.new ≡ F.locked files.old }
    ensures told { IfTold (F.told files.old) (F.told files.new) (λ old new.
        TellsCausesFrom order (inputs_shown inputs) what
        (O.sink out.old) (O.sink out.new) old new result) }
    ensures output { LeavesOutput result (O.sink out.old) (O.sink out.new) }
{
    let taking = inputs.taking;
    let board = read_board(alloc, files, inputs)?;
    match causes_of_sources(alloc, &board, taking, order, &what, out) {
        Ok(fine) => Ok(fine),
        Err(error) => Err(refusal_of(error, what)),
    }
}
