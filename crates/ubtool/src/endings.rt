//! `endings`, from files to the lines.
ghost use Rattle.std.specs.Prelude.{◌≡◌};
ghost use Rattle.tool_files.specs.Told.{IfTold};
ghost use Rattle.board_files.specs.BoardFiles.{list_of};
ghost use Rattle.ubtool.specs.EndingsOfFiles.{TellsCopies, TellsFrom, all_asked, bytes_allowed, endings_refusal};
ghost use Rattle.ubtool.specs.GivenByFiles.{given_by, script_of};
ghost use Rattle.ubtool.specs.Faults.{CountsShared};
ghost use Rattle.tool_steps.specs.Images.{copies};
ghost use Rattle.ubtool.specs.RehearsingFiles.{LeavesOutput};
ghost use Rattle.tool_words.specs.CommandAnswers.{inputs_shown};

use crate::beginning::DeviceText;
use crate::fault::ProgramFault;
use crate::image_endings::endings_bytes;
use crate::rehearsal_error::RehearsalError;
use crate::source_bytes::bytes_of;
use board_files::{BoardFiles, read_board};
use envimage::ByteOrder;
use output::Out;
use rehearse_rules::RehearseError;
use std::alloc::Global;
use tool_files::Files;
use tool_images::WordForm;
use tool_steps::slices_of;
use tool_words::{EndingsAsk, Inputs, Taking};

/// How many bytes the states may count together.
fn allowed_bytes(what: &EndingsAsk) -> u64
    ensures { result ≡ bytes_allowed what.now }
{
    u64::from(what.memory) * 1_048_576
}

/// How a refusal of the endings is reported.
fn refusal_of(error: RehearsalError, what: EndingsAsk) -> ProgramFault
    ensures { result ≡ endings_refusal what error }
{
    match error {
        RehearsalError::Rehearsal(RehearseError::NoSuchVariable) => {
            ProgramFault::NoSuchVariable(WordForm(what.name))
        }
        error => error.into(),
    }
}

/// Reports how the runs of what was read end.
fn endings_of_sources<O: Out>(
    alloc: Global,
    board: &BoardFiles,
    taking: Taking,
    order: ByteOrder,
    what: &EndingsAsk,
    out: &mut O,
) -> Result<(), RehearsalError>
    ensures { TellsCopies (given_by order (copies board.now.images)
        (list_of board.now) taking (script_of board.now) (all_asked what.now)) what.now.flow what.now.states what.now.work (bytes_allowed what.now)
        (O.sink out.old) (O.sink out.new) result }
{
    let Ok(names) = slices_of(alloc, &what.names) else {
        return Err(RehearsalError::Memory);
    };
    let bytes = bytes_of(board);
    let list = DeviceText {
        text: bytes.device_list,
        files: bytes.files,
        taking,
    };
    let ask = rehearse_endings::EndingsAsk {
        name: what.name.as_bytes(),
        text: bytes.script,
        bounds: what.bounds,
        states: what.states,
        work: what.work,
        memory: allowed_bytes(what),
        names: &names,
        flow: what.flow,
    };
    endings_bytes(alloc, bytes.first, bytes.second, order, list, &ask, out)
}

/// Reports how all runs of a variable of images end, or of a script. Reads the images, then the device list, then
/// the script if one is named, and then writes the lines.
pub fn endings<F: Files, O: Out>(
    alloc: Global,
    files: &mut F,
    inputs: Inputs,
    what: EndingsAsk,
    order: ByteOrder,
    out: &mut O,
) -> Result<bool, ProgramFault>
    ensures count { CountsShared (F.faults files.old) (F.faults files.new) result }
    ensures lock { F.locked files.new ≡ F.locked files.old }
    ensures told { IfTold (F.told files.old) (F.told files.new) (λ old new.
        TellsFrom order (inputs_shown inputs) what (O.sink out.old)
        (O.sink out.new) old new result) }
    ensures output { LeavesOutput result (O.sink out.old) (O.sink out.new) }
{
    let taking = inputs.taking;
    let board = read_board(alloc, files, inputs)?;
    match endings_of_sources(alloc, &board, taking, order, &what, out) {
        Ok(()) => Ok(true),
        Err(error) => Err(refusal_of(error, what)),
    }
}
