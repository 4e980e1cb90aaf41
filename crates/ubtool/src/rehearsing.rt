//! `rehearse`, from files to the listing.
ghost use Rattle.std.specs.Prelude.{◌≡◌};
ghost use Rattle.tool_files.specs.Told.{IfTold};
ghost use Rattle.board_files.specs.BoardFiles.{list_of};
ghost use Rattle.ubtool.specs.Faults.{CountsShared};
ghost use Rattle.tool_steps.specs.Images.{copies};
ghost use Rattle.ubtool.specs.RehearsingFiles.{LeavesOutput, RehearsesCopies, RehearsesFrom, refusal_of};
ghost use Rattle.ubtool.specs.GivenByFiles.{given_by, script_of};
ghost use Rattle.tool_words.specs.CommandAnswers.{asking_of, inputs_shown};

use crate::beginning::DeviceText;
use crate::fault::ProgramFault;
use crate::image_rehearsal::rehearse_bytes;
use crate::rehearsal_error::RehearsalError;
use crate::source_bytes::bytes_of;
use board_files::{BoardFiles, read_board};
use envimage::ByteOrder;
use output::Out;
use rehearse_rules::RehearseError;
use rehearse_runs::Finish;
use std::alloc::Global;
use tool_files::Files;
use tool_images::WordForm;
use tool_steps::slices_of;
use tool_words::{Inputs, RehearseAsk, Taking};

/// How a refusal of a rehearsal is reported.
fn refusal_of(error: RehearsalError, what: RehearseAsk) -> ProgramFault
    ensures { result ≡ refusal_of what error }
{
    match (error, what.wanted.into_word()) {
        (RehearsalError::Rehearsal(RehearseError::NoSuchVariable), _) => {
            ProgramFault::NoSuchVariable(WordForm(what.name))
        }
        (RehearsalError::Rehearsal(RehearseError::NotARun), Some(word)) => {
            ProgramFault::NotARun(WordForm(word))
        }
        (error, _) => error.into(),
    }
}

/// Rehearses what was read.
fn rehearse_sources<O: Out>(
    alloc: Global,
    board: &BoardFiles,
    taking: Taking,
    order: ByteOrder,
    what: &RehearseAsk,
    out: &mut O,
) -> Result<Finish, RehearsalError>
    ensures { RehearsesCopies (given_by order (copies board.now.images)
        (list_of board.now) taking (script_of board.now) (asking_of what.now)) (O.sink out.old) (O.sink out.new)
        result }
{
    let Ok(names) = slices_of(alloc, &what.names) else {
        return Err(RehearsalError::Memory);
    };
    let bytes = bytes_of(board);
    let list = DeviceText {
        text: bytes.device_list,
        files: bytes.files,
        taking,
    };
    let ask = rehearse_runs::Ask {
        name: what.name.as_bytes(),
        text: bytes.script,
        wanted: what.wanted.as_bytes(),
        names: &names,
    };
    rehearse_bytes(alloc, bytes.first, bytes.second, order, list, &ask, out)
}

/// Rehearses a variable of images, or a script. Reads the images, then the device list, then the script if one is
/// named, and then writes the listing.
pub fn rehearse<F: Files, O: Out>(
    alloc: Global,
    files: &mut F,
    inputs: Inputs,
    what: RehearseAsk,
    order: ByteOrder,
    out: &mut O,
) -> Result<bool, ProgramFault>
    ensures count { CountsShared (F.faults files.old) (F.faults files.new) result }
    ensures lock { F.locked files.new ≡ F.locked files.old }
    ensures told { IfTold (F.told files.old) (F.told files.new) (λ old new.
        RehearsesFrom order (inputs_shown inputs) what (O.sink out.old)
        (O.sink out.new) old new result) }
    ensures output { LeavesOutput result (O.sink out.old) (O.sink out.new) }
{
    let taking = inputs.taking;
    let board = read_board(alloc, files, inputs)?;
    match rehearse_sources(alloc, &board, taking, order, &what, out) {
        Ok(_) => Ok(true),
        Err(error) => Err(refusal_of(error, what)),
    }
}
