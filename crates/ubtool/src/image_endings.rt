//! How all runs of an image's variable or of a given text end, from the bytes of the image to the lines.
ghost use Rattle.std.specs.Prelude.{◌≡◌, IfOk, IfErr, Ok};
ghost use Rattle.std.specs.Option.{option_copied};
ghost use Rattle.ubtool.specs.ListsShown.{list_shown};
ghost use Rattle.ubtool.specs.EndingsOfImages.{AreAllLines, AreLinesOf, LacksLines, RefusesEndings, RefusesOne, RefusesTurn, TellsEndings, TellsOne, endings_given, runs_by};
ghost use Rattle.board_start.specs.Start.{start_of};
ghost use Rattle.ubtool.specs.Beginning.{StartsWith};
ghost use Rattle.ubtool.specs.Given.{Given};
ghost use Rattle.rehearse_endings.specs.TellingEndings as below;
ghost use Rattle.rehearse_runs.specs.RehearsedEnvironment.{task_asked};
ghost use Rattle.text.specs.TextsShown.{option_items};

use crate::beginning::{Beginning, DeviceText, begin, slices_of};
use crate::in_turn::{add_headed, named, start_of, turns_told};
use crate::rehearsal_error::RehearsalError;
use board_start::Start;
use bootstore_trail::Trail;
use envimage::ByteOrder;
use output::{Out, Over, write_all};
use rehearse_endings::{EndingsAsk, endings_env};
use rehearse_rules::RehearseError;
use std::alloc::Global;

/// Writes the lines of what a rehearsal starts with. Errors: `NoSuchVariable`; `States`, `Steps`, `Bytes`; `Write`, `Memory`.
fn endings_begun<'x, O: Out>(
    alloc: Global,
    beginning: &'x Beginning,
    ask: &EndingsAsk<'x>,
    out: &mut O,
) -> Result<(), RehearseError>
    ensures ok { IfOk result (λ _. below.TellsEndings (task_asked beginning.now.env beginning.now.devices
        (option_items beginning.now.text) (runs_by ask.now)) ask.now (O.sink out.old) (O.sink out.new)) }
    ensures err { IfErr result (λ e. below.RefusesEndings (task_asked beginning.now.env beginning.now.devices
        (option_items beginning.now.text) (runs_by ask.now)) ask.now (O.sink out.old) (O.sink out.new) e) }
{
    let ask = EndingsAsk {
        name: ask.name,
        text: beginning.text.as_deref(),
        bounds: ask.bounds,
        states: ask.states,
        work: ask.work,
        memory: ask.memory,
        names: ask.names,
        flow: ask.flow,
    };
    endings_env::<Trail, O>(alloc, &beginning.env, &beginning.devices, &ask, out)
}

/// The same, of all that begins so, and with the names that it starts with. Errors: `Rehearsal` with `NoSuchVariable`,
/// `States`, `Steps` and `Bytes`; `Write`, `Memory`.
fn endings_told<O: Out>(
    alloc: Global,
    beginning: &Beginning,
    ask: &EndingsAsk<'_>,
    out: &mut O,
) -> Result<(), RehearsalError>
    ensures ok { (g : Given) → StartsWith g beginning.now (runs_by ask.now)
        → IfOk result (λ _. TellsOne g ask.now.flow ask.now.states ask.now.memory (O.sink out.old) (O.sink out.new)) }
    ensures err { (g : Given) → StartsWith g beginning.now (runs_by ask.now)
        → IfErr result
        (λ e. RefusesOne g ask.now.flow ask.now.states ask.now.work ask.now.memory (O.sink out.old) (O.sink out.new) e) }
{
    let Ok(names) = slices_of(alloc, &beginning.names) else {
        return Err(RehearsalError::Memory);
    };
    let ask = EndingsAsk {
        names: &names,
        ..*ask
    };
    match endings_begun(alloc, beginning, &ask, out) {
        Ok(()) => Ok(()),
        Err(error) => Err(error.into()),
    }
}

/// Writes the lines of one alternative: that which is named, or that of a list which has no other.
/// Errors: those of `endings_bytes`, and `Start` with `Alternatives`.
fn endings_of_one<O: Out>(
    alloc: Global,
    first: &[u8],
    second: Option<&[u8]>,
    order: ByteOrder,
    list: DeviceText<'_>,
    ask: &EndingsAsk<'_>,
    out: &mut O,
) -> Result<(), RehearsalError>
    ensures ok { IfOk result (λ _. TellsOne
        (endings_given order first.now (option_copied second.entry) (list_shown list.entry) list.entry.taking ask.now)
        ask.now.flow ask.now.states ask.now.memory (O.sink out.old) (O.sink out.new)) }
    ensures err { IfErr result
        (λ e. RefusesOne (endings_given order first.now (option_copied second.entry)
        (list_shown list.entry) list.entry.taking ask.now) ask.now.flow ask.now.states ask.now.work ask.now.memory (O.sink out.old) (O.sink out.new) e) }
{
    let shell = ask.bounds.shell();
    match begin(
        alloc, first, second, order, shell, list, ask.name, ask.text, ask.names,
    ) {
        Ok(beginning) => {
            let told = endings_told(alloc, &beginning, ask, out);
            drop(beginning);
            told
        }
        Err(error) => Err(error),
    }
}

/// The lines of one alternative. Errors: those of `endings_of_one`, without `Write`.
fn lines_of_one(
    alloc: Global,
    first: &[u8],
    second: Option<&[u8]>,
    order: ByteOrder,
    list: DeviceText<'_>,
    ask: &EndingsAsk<'_>,
) -> Result<Vec<u8>, RehearsalError>
    ensures ok { IfOk result (λ v. AreLinesOf ask.now.flow ask.now.states ask.now.memory
        (endings_given order first.now (option_copied second.entry) (list_shown list.entry) list.entry.taking ask.now) v.items) }
    ensures err { IfErr result (λ e. LacksLines ask.now.states ask.now.work ask.now.memory
        (endings_given order first.now (option_copied second.entry) (list_shown list.entry) list.entry.taking ask.now) e) }
{
    let mut lines = Over::new(Vec::new(alloc));
    match endings_of_one(alloc, first, second, order, list, ask, &mut lines) {
        Ok(()) => Ok(lines.into_writer()),
        Err(RehearsalError::Write) => Err(RehearsalError::Memory),
        Err(error) => Err(error),
    }
}

/// The lines of so many alternatives of a list that says this of the start. Errors: those of the first that is
/// refused; `Memory`.
fn lines_by_start(
    alloc: Global,
    first: &[u8],
    second: Option<&[u8]>,
    order: ByteOrder,
    list: DeviceText<'_>,
    ask: &EndingsAsk<'_>,
    start: &Start,
    count: u32,
) -> Result<Vec<u8>, RehearsalError>
    requires { start_of list.text.now ≡ Ok start.now }
    ensures ok { IfOk result (λ v. AreAllLines
        (endings_given order first.now (option_copied second.entry) (list_shown list.entry) list.entry.taking ask.now)
        ask.now.flow ask.now.states ask.now.memory count v.items) }
    ensures err { IfErr result (λ e. RefusesTurn
        (endings_given order first.now (option_copied second.entry) (list_shown list.entry) list.entry.taking ask.now)
        ask.now.flow ask.now.states ask.now.work ask.now.memory count e) }
{
    let mut text = Vec::new(alloc);
    for place in 0..count {
        let list = named(list, place + 1);
        let lines = match lines_of_one(alloc, first, second, order, list, ask) {
            Ok(lines) => lines,
            Err(error) => return Err(error),
        };
        add_headed(&mut text, start, place, &lines)?;
    }
    Ok(text)
}

/// The lines of so many alternatives. Errors: those of the first that is refused; `Memory`.
fn lines_in_turn(
    alloc: Global,
    first: &[u8],
    second: Option<&[u8]>,
    order: ByteOrder,
    list: DeviceText<'_>,
    ask: &EndingsAsk<'_>,
    count: u32,
) -> Result<Vec<u8>, RehearsalError>
    ensures ok { IfOk result (λ v. AreAllLines
        (endings_given order first.now (option_copied second.entry) (list_shown list.entry) list.entry.taking ask.now)
        ask.now.flow ask.now.states ask.now.memory count v.items) }
    ensures err { IfErr result (λ e. RefusesTurn
        (endings_given order first.now (option_copied second.entry) (list_shown list.entry) list.entry.taking ask.now)
        ask.now.flow ask.now.states ask.now.work ask.now.memory count e) }
{
    let start = start_of(alloc, list)?;
    let told = lines_by_start(alloc, first, second, order, list, ask, &start, count);
    drop(start);
    told
}

/// Writes how all runs of a variable of an image, or of the current copy of a pair, end, or those of
/// a given text in its environment: for each ending a line, the values that are left of the named
/// variables, and the device commands that fail in the run with the fewest failures; then a line for
/// all runs. For the flow, writes a line for
/// each state in which a device command asks and for each way to end. In a shell of U-Boot, the
/// variables are those that U-Boot reads from the image. If the device list has several alternatives
/// and none is named, writes the lines of each, in order, each after a line that names it.
///
/// Refusals in order: the image; `Start` with `TooMany`; the first fault of the device list; `Start` for
/// another reason; `NoSuchVariable`; `States`, `Steps`, `Bytes` and `Memory`, with nothing written; then `Write` if the
/// output fails, with a prefix of the lines written. What refuses one alternative refuses all. `Memory`
/// comes wherever a growth is made.
pub fn endings_bytes<O: Out>(
    alloc: Global,
    first: &[u8],
    second: Option<&[u8]>,
    order: ByteOrder,
    list: DeviceText<'_>,
    ask: &EndingsAsk<'_>,
    out: &mut O,
) -> Result<(), RehearsalError>
    ensures ok { IfOk result (λ _. TellsEndings
        (endings_given order first.now (option_copied second.entry) (list_shown list.entry) list.entry.taking ask.now)
        ask.now.flow ask.now.states ask.now.memory (O.sink out.old) (O.sink out.new)) }
    ensures err { IfErr result
        (λ e. RefusesEndings (endings_given order first.now (option_copied second.entry)
        (list_shown list.entry) list.entry.taking ask.now) ask.now.flow ask.now.states ask.now.work ask.now.memory (O.sink out.old) (O.sink out.new) e) }
{
    let error = match endings_of_one(alloc, first, second, order, list, ask, out) {
        Ok(()) => return Ok(()),
        Err(error) => error,
    };
    let Some(count) = turns_told(error) else {
        return Err(error);
    };
    let text = lines_in_turn(alloc, first, second, order, list, ask, count)?;
    match write_all(out, &text) {
        Ok(()) => Ok(()),
        Err(_) => Err(RehearsalError::Write),
    }
}
