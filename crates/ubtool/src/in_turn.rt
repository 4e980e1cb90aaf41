//! The alternatives of a device list, in turn.
ghost use Rattle.std.specs.Prelude.{◌≡◌, ◌++◌, IfErr, OnOk};
ghost use Rattle.ubtool.specs.declared.rehearsal_error.RehearsalError.TheVariants.{Memory};
ghost use Rattle.ubtool.specs.ListsShown.{list_shown};
ghost use Rattle.ubtool.specs.Turns.{IsStart, headed, taken_by, turns_told};

use crate::beginning::DeviceText;
use crate::rehearsal_error::RehearsalError;
use board_start::{Board, Start, StartError};
use std::alloc::{AllocError, Global};
use tool_words::Taking;

/// What a list says of the start, if it is right. Errors: `Memory`.
pub(crate) fn start_of(alloc: Global, list: DeviceText<'_>) -> Result<Start, RehearsalError>
    ensures { IsStart list.entry.text.now result }
{
    match Board::start(alloc, list.text) {
        Ok(start) => Ok(start),
        Err(_) => Err(RehearsalError::Memory),
    }
}

/// The list, with the alternative of this number named.
pub(crate) fn named(list: DeviceText<'_>, number: u32) -> DeviceText<'_>
    ensures list { list_shown result ≡ list_shown list.entry }
    ensures taking { result.taking ≡ taken_by list.entry.taking number }
{
    DeviceText {
        text: list.text,
        files: list.files,
        taking: Taking {
            steady: list.taking.steady,
            alternative: Some(number),
        },
    }
}

/// Adds the lines of an alternative, if there are any, after the line that names it. Errors: memory ran
/// out.
fn put_headed(text: &mut Vec<u8>, start: &Start, place: u32, lines: &[u8]) -> Result<(), AllocError>
    ensures { OnOk result (text.new.items ≡ text.old.items ++ headed start.now place lines.now) }
{
    if let [_, ..] = lines {
        let line = start.line(place)?;
        text.extend_from_slice(&line)?;
        text.extend_from_slice(lines)?;
    }
    Ok(())
}

/// The same. Errors: `Memory`.
pub(crate) fn add_headed(
    text: &mut Vec<u8>,
    start: &Start,
    place: u32,
    lines: &[u8],
) -> Result<(), RehearsalError>
    ensures ok { OnOk result (text.new.items ≡ text.old.items ++ headed start.now place lines.now) }
    ensures err { IfErr result (λ e. e ≡ Memory) }
{
    match put_headed(text, start, place, lines) {
        Ok(()) => Ok(()),
        Err(_) => Err(RehearsalError::Memory),
    }
}

/// How many alternatives a refusal names.
pub(crate) fn turns_told(error: RehearsalError) -> Option<u32>
    ensures { result ≡ turns_told error }
{
    match error {
        RehearsalError::Start(StartError::Alternatives(count)) => Some(count),
        _ => None,
    }
}
