//! `boots`, from files to the lines.
ghost use Rattle.std.specs.Prelude.{◌≡◌, map, option_map, string_bytes, IfErr, IfOk};
ghost use Rattle.tool_files.specs.Told.{IfTold};
ghost use Rattle.board_files.specs.BoardFiles.{list_of};
ghost use Rattle.ubtool.specs.BootsOfFiles.{ReadsChanges, TellsBootsFrom, TellsBootsOfCopies, boots_refusal, bytes_allowed, expected_in, expected_values, limits_by, limits_with, runs_asked, values_asked};
ghost use Rattle.ubtool.specs.BootsOfImages.{limits_of, runs_by};
ghost use Rattle.ubtool.specs.Given.{all_runs};
ghost use Rattle.ubtool.specs.GivenByFiles.{given_by, script_of};
ghost use Rattle.ubtool.specs.Faults.{CountsShared};
ghost use Rattle.tool_steps.specs.Images.{copies};
ghost use Rattle.ubtool.specs.RehearsingFiles.{LeavesOutput};
ghost use Rattle.envimage.specs.Entries.{pair_at};
ghost use Rattle.rehearse_boots.specs.BootsShown.{expected_shown};
ghost use Rattle.text.specs.TextsShown.{option_bytes};
ghost use Rattle.tool_steps.specs.Faults.{CountsTold, IsScriptReadFault};
ghost use Rattle.tool_words.specs.CommandAnswers.{inputs_shown};

use crate::beginning::DeviceText;
use crate::fault::ProgramFault;
use crate::image_boots::boots_bytes;
use crate::rehearsal_error::RehearsalError;
use crate::room::{are_images, room_if};
use crate::source_bytes::bytes_of;
use board_files::{BoardFiles, copied_path, read_board};
use envimage::ByteOrder;
use output::Out;
use rehearse_rules::RehearseError;
use std::alloc::{AllocError, Global};
use tool_files::Files;
use tool_images::{Fault, WordForm};
use tool_steps::{read_text, slices_of};
use tool_words::{BootsAsk, ExpectedAsk, Inputs, Taking, ValueAsk};

/// How many bytes the states of a boot may count together.
fn allowed_bytes(what: &BootsAsk) -> u64
    ensures { result ≡ bytes_allowed what.now }
{
    u64::from(what.memory) * 1_048_576
}

/// How a refusal of the boots is reported.
fn refusal_of(error: RehearsalError, what: BootsAsk) -> ProgramFault
    ensures { result ≡ boots_refusal what error }
{
    match error {
        RehearsalError::Rehearsal(RehearseError::NoSuchVariable) => {
            ProgramFault::NoSuchVariable(WordForm(what.name))
        }
        error => error.into(),
    }
}

/// The values that an ending is expected to leave, as bytes. Errors: memory ran out.
fn values_of<'a>(
    alloc: Global,
    values: &'a [ValueAsk],
) -> Result<Vec<(&'a [u8], &'a [u8])>, AllocError>
    ensures { IfOk result (λ pairs. map pair_at pairs.items ≡ values_asked values.now) }
{
    let mut pairs = Vec::new(alloc);
    for value in values {
        pairs.push((value.name.as_bytes(), value.value.as_bytes()))?;
    }
    Ok(pairs)
}

/// The values that the expected ending is to leave, if one is expected. Errors: memory ran out.
fn expected_values<'a>(
    alloc: Global,
    what: &'a BootsAsk,
) -> Result<Vec<(&'a [u8], &'a [u8])>, AllocError>
    ensures { IfOk result (λ pairs. map pair_at pairs.items ≡ expected_values what.now.expected) }
{
    match &what.expected {
        None => Ok(Vec::new(alloc)),
        Some(expected) => values_of(alloc, &expected.values),
    }
}

/// How many boots may lead to the ending that is expected.
fn within_of(expected: &ExpectedAsk) -> Option<usize>
    ensures { result ≡ expected.now.within }
{
    match expected.within {
        None => None,
        Some(within) => Some(within as usize),
    }
}

/// The ending that is expected, with these values, if one is.
fn expected_of<'a>(
    what: &'a BootsAsk,
    values: &'a [(&'a [u8], &'a [u8])],
) -> Option<rehearse_boots::Expected<'a>>
    requires { map pair_at values.now ≡ expected_values what.now.expected }
    ensures { option_map expected_shown result ≡ expected_in what.now.expected }
{
    match &what.expected {
        None => None,
        Some(expected) => Some(rehearse_boots::Expected {
            ending: expected.ending.as_bytes(),
            values,
            within: within_of(expected),
        }),
    }
}

/// What is asked of the boots, with these names of what distinguishes runs, these values that are expected, this room for what
/// is saved, and this script of changes.
fn asked<'a>(
    what: &'a BootsAsk,
    names: &'a [&'a [u8]],
    values: &'a [(&'a [u8], &'a [u8])],
    room: Option<usize>,
    changes: Option<&'a [u8]>,
) -> rehearse_boots::BootsAsk<'a>
    requires { map pair_at values.now ≡ expected_values what.now.expected }
    ensures limits { limits_of result ≡ limits_with what.now room (option_bytes changes.entry) }
    ensures runs { runs_by result ≡ all_runs (string_bytes what.now.name) what.now.bounds (map (λ n. n.now) names.now) }
{
    rehearse_boots::BootsAsk {
        name: what.name.as_bytes(),
        bounds: what.bounds,
        states: what.states,
        work: what.work,
        memory: allowed_bytes(what),
        boots: what.boots,
        failures: what.failures,
        names,
        kept: &[],
        room,
        changes,
        expected: expected_of(what, values),
    }
}

/// Reports how the boots of what was read follow one another. Whether that is images is known.
fn boots_of_sources<O: Out>(
    alloc: Global,
    board: &BoardFiles,
    images: bool,
    taking: Taking,
    order: ByteOrder,
    what: &BootsAsk,
    changes: Option<&[u8]>,
    out: &mut O,
) -> Result<bool, RehearsalError>
    ensures { let g = given_by order (copies board.now.images)
        (list_of board.now) taking (script_of board.now) (runs_asked what.now) in
        TellsBootsOfCopies g (limits_by images what.now (option_bytes changes.entry) g) (O.sink out.old) (O.sink out.new) result }
{
    let (Ok(names), Ok(values)) = (slices_of(alloc, &what.names), expected_values(alloc, what))
    else {
        return Err(RehearsalError::Memory);
    };
    let bytes = bytes_of(board);
    let list = DeviceText {
        text: bytes.device_list,
        files: bytes.files,
        taking,
    };
    let room = room_if(images, bytes.first, bytes.second);
    let ask = asked(what, &names, &values, room, changes);
    boots_bytes(
        alloc,
        bytes.first,
        bytes.second,
        order,
        list,
        bytes.script,
        &ask,
        out,
    )
}

/// Reads the script of changes, if one is named. Errors: those of `read_text`.
fn read_changes<F: Files>(
    alloc: Global,
    files: &mut F,
    path: Option<String>,
) -> Result<Option<Vec<u8>>, Fault>
    ensures count { CountsTold (F.faults files.old) (F.faults files.new) result }
    ensures lock { F.locked files.new ≡ F.locked files.old }
    ensures fault { IfErr result IsScriptReadFault }
    ensures told { IfTold (F.told files.old) (F.told files.new)
        (λ old new. ReadsChanges (option_map string_bytes path) old new result) }
{
    match path {
        None => Ok(None),
        Some(path) => Ok(Some(read_text(alloc, files, path)?)),
    }
}

/// Reports how the boots follow one another that run a variable of images, or a script, or whether each leads to an ending
/// that is expected; the answer is then whether this holds. Reads the images, then the device list, then the script if one is
/// named, then the files that the list names, and then the script of changes if one is named; and then writes the lines.
pub fn boots<F: Files, O: Out>(
    alloc: Global,
    files: &mut F,
    inputs: Inputs,
    what: BootsAsk,
    order: ByteOrder,
    out: &mut O,
) -> Result<bool, ProgramFault>
    ensures count { CountsShared (F.faults files.old) (F.faults files.new) result }
    ensures lock { F.locked files.new ≡ F.locked files.old }
    ensures told { IfTold (F.told files.old) (F.told files.new) (λ old new.
        TellsBootsFrom order (inputs_shown inputs) what (O.sink out.old)
        (O.sink out.new) old new result) }
    ensures output { LeavesOutput result (O.sink out.old) (O.sink out.new) }
{
    let images = are_images(&inputs.origin);
    let taking = inputs.taking;
    let Ok(path) = copied_path(&what.changes) else {
        return Err(ProgramFault::Shared(Fault::Memory));
    };
    let board = read_board(alloc, files, inputs)?;
    let changes = read_changes(alloc, files, path)?;
    match boots_of_sources(
        alloc,
        &board,
        images,
        taking,
        order,
        &what,
        changes.as_deref(),
        out,
    ) {
        Ok(holds) => Ok(holds),
        Err(error) => Err(refusal_of(error, what)),
    }
}
