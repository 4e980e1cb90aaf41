//! What has to fail for each ending of an image's variable or of a given text, from the bytes of the image to the lines.
ghost use Rattle.std.specs.Prelude.{◌≡◌, ◌&&◌, IfOk, IfErr, Ok};
ghost use Rattle.std.specs.Option.{option_copied};
ghost use Rattle.board_start.specs.Start.{start_of};
ghost use Rattle.ubtool.specs.ListsShown.{list_shown};
ghost use Rattle.ubtool.specs.Beginning.{StartsWith};
ghost use Rattle.ubtool.specs.Given.{Given};
ghost use Rattle.ubtool.specs.CausesOfImages.{AreAllCauses, AreCausesOf, LacksCauses, RefusesCauses, RefusesOne, RefusesTurn, TellsCauses, TellsOne, causes_given, runs_by};
ghost use Rattle.rehearse_causes.specs.TellingCauses as below;
ghost use Rattle.rehearse_runs.specs.RehearsedEnvironment.{task_asked};
ghost use Rattle.text.specs.TextsShown.{option_items};

use crate::beginning::{Beginning, DeviceText, begin};
use crate::in_turn::{add_headed, named, start_of, turns_told};
use crate::rehearsal_error::RehearsalError;
use board_start::Start;
use bootstore_trail::Trail;
use envimage::ByteOrder;
use output::{Out, Over, write_all};
use rehearse_causes::{CausesAsk, causes_env};
use rehearse_rules::RehearseError;
use std::alloc::Global;

/// Writes the lines of what a rehearsal starts with.
fn causes_begun<'x, O: Out>(
    alloc: Global,
    beginning: &'x Beginning,
    ask: &CausesAsk<'x>,
    out: &mut O,
) -> Result<bool, RehearseError>
    ensures ok { IfOk result (λ fine. below.TellsCauses (task_asked beginning.now.env beginning.now.devices
        (option_items beginning.now.text) (runs_by ask.now)) ask.now.check (O.sink out.old) (O.sink out.new) fine) }
    ensures err { IfErr result (λ e. below.RefusesCauses (task_asked beginning.now.env beginning.now.devices
        (option_items beginning.now.text) (runs_by ask.now)) ask.now.check (O.sink out.old) (O.sink out.new) e) }
{
    let ask = CausesAsk {
        name: ask.name,
        text: beginning.text.as_deref(),
        bounds: ask.bounds,
        check: ask.check,
    };
    causes_env::<Trail, O>(alloc, &beginning.env, &beginning.devices, &ask, out)
}

/// The same, of all that begins so. Errors: `Rehearsal` with `NoSuchVariable`, `Write`, `Memory`.
fn causes_told<O: Out>(
    alloc: Global,
    beginning: &Beginning,
    ask: &CausesAsk<'_>,
    out: &mut O,
) -> Result<bool, RehearsalError>
    ensures ok { (g : Given) → StartsWith g beginning.now (runs_by ask.now)
        → IfOk result (λ fine. TellsOne g ask.now.check (O.sink out.old) (O.sink out.new) fine) }
    ensures err { (g : Given) → StartsWith g beginning.now (runs_by ask.now)
        → IfErr result (λ e. RefusesOne g ask.now.check (O.sink out.old) (O.sink out.new) e) }
{
    match causes_begun(alloc, beginning, ask, out) {
        Ok(fine) => Ok(fine),
        Err(error) => Err(error.into()),
    }
}

/// Writes the lines of one alternative: that which is named, or that of a list which has no other.
/// Errors: those of `causes_bytes`, and `Start` with `Alternatives`.
fn causes_of_one<O: Out>(
    alloc: Global,
    first: &[u8],
    second: Option<&[u8]>,
    order: ByteOrder,
    list: DeviceText<'_>,
    ask: &CausesAsk<'_>,
    out: &mut O,
) -> Result<bool, RehearsalError>
    ensures ok { IfOk result (λ fine. TellsOne
        (causes_given order first.now (option_copied second.entry) (list_shown list.entry) list.entry.taking ask.now)
        ask.now.check (O.sink out.old) (O.sink out.new) fine) }
    ensures err { IfErr result
        (λ e. RefusesOne (causes_given order first.now (option_copied second.entry)
        (list_shown list.entry) list.entry.taking ask.now) ask.now.check (O.sink out.old) (O.sink out.new) e) }
{
    let shell = ask.bounds.shell();
    match begin(
        alloc,
        first,
        second,
        order,
        shell,
        list,
        ask.name,
        ask.text,
        &[],
    ) {
        Ok(beginning) => {
            let told = causes_told(alloc, &beginning, ask, out);
            drop(beginning);
            told
        }
        Err(error) => Err(error),
    }
}

/// The lines of one alternative, and whether all is well. Errors: those of `causes_of_one`, without
/// `Write`.
fn lines_of_one(
    alloc: Global,
    first: &[u8],
    second: Option<&[u8]>,
    order: ByteOrder,
    list: DeviceText<'_>,
    ask: &CausesAsk<'_>,
) -> Result<(Vec<u8>, bool), RehearsalError>
    ensures ok { IfOk result (λ part. AreCausesOf ask.now.check
        (causes_given order first.now (option_copied second.entry) (list_shown list.entry) list.entry.taking ask.now)
        (part.0.items, part.1)) }
    ensures err { IfErr result (λ e. LacksCauses
        (causes_given order first.now (option_copied second.entry) (list_shown list.entry) list.entry.taking ask.now) e) }
{
    let mut lines = Over::new(Vec::new(alloc));
    match causes_of_one(alloc, first, second, order, list, ask, &mut lines) {
        Ok(fine) => Ok((lines.into_writer(), fine)),
        Err(RehearsalError::Write) => Err(RehearsalError::Memory),
        Err(error) => Err(error),
    }
}

/// Whether both are well.
fn both(first: bool, second: bool) -> bool
    ensures { result ≡ (first && second) }
{
    first && second
}

/// The lines of so many alternatives of a list that says this of the start, and whether all is well. Errors:
/// those of the first that is refused; `Memory`.
fn lines_by_start(
    alloc: Global,
    first: &[u8],
    second: Option<&[u8]>,
    order: ByteOrder,
    list: DeviceText<'_>,
    ask: &CausesAsk<'_>,
    start: &Start,
    count: u32,
) -> Result<(Vec<u8>, bool), RehearsalError>
    requires { start_of list.text.now ≡ Ok start.now }
    ensures ok { IfOk result (λ all. AreAllCauses
        (causes_given order first.now (option_copied second.entry) (list_shown list.entry) list.entry.taking ask.now)
        ask.now.check count (all.0.items, all.1)) }
    ensures err { IfErr result (λ e. RefusesTurn
        (causes_given order first.now (option_copied second.entry) (list_shown list.entry) list.entry.taking ask.now)
        ask.now.check count e) }
{
    let mut text = Vec::new(alloc);
    let mut fine = true;
    for place in 0..count {
        let list = named(list, place + 1);
        let (lines, well) = match lines_of_one(alloc, first, second, order, list, ask) {
            Ok(part) => part,
            Err(error) => return Err(error),
        };
        add_headed(&mut text, start, place, &lines)?;
        fine = both(fine, well);
    }
    Ok((text, fine))
}

/// The lines of so many alternatives, and whether all is well. Errors: those of the first that is
/// refused; `Memory`.
fn lines_in_turn(
    alloc: Global,
    first: &[u8],
    second: Option<&[u8]>,
    order: ByteOrder,
    list: DeviceText<'_>,
    ask: &CausesAsk<'_>,
    count: u32,
) -> Result<(Vec<u8>, bool), RehearsalError>
    ensures ok { IfOk result (λ all. AreAllCauses
        (causes_given order first.now (option_copied second.entry) (list_shown list.entry) list.entry.taking ask.now)
        ask.now.check count (all.0.items, all.1)) }
    ensures err { IfErr result (λ e. RefusesTurn
        (causes_given order first.now (option_copied second.entry) (list_shown list.entry) list.entry.taking ask.now)
        ask.now.check count e) }
{
    let start = start_of(alloc, list)?;
    let told = lines_by_start(alloc, first, second, order, list, ask, &start, count);
    drop(start);
    told
}

/// Writes what has to fail for each ending of a variable of an image, or of the current copy of a
/// pair, or of a given text in its environment: for each cause a line, and then a line for each device command that fails; or only what does
/// not boot. Returns true, or in a check whether nothing was written. In a shell of U-Boot, the
/// variables are those that U-Boot reads from the image. If the device list has several alternatives
/// and none is named, writes the lines of each, in order, each after a line that names it, and all is
/// well if it is with each.
///
/// Refusals in order: the image; `Start` with `TooMany`; the first fault of the device list; `Start` for
/// another reason; `NoSuchVariable` and `Memory`, with nothing written; then `Write` if the output fails,
/// with a prefix of the lines written. What refuses one alternative refuses all. `Memory` comes wherever a
/// growth is made.
pub fn causes_bytes<O: Out>(
    alloc: Global,
    first: &[u8],
    second: Option<&[u8]>,
    order: ByteOrder,
    list: DeviceText<'_>,
    ask: &CausesAsk<'_>,
    out: &mut O,
) -> Result<bool, RehearsalError>
    ensures ok { IfOk result (λ fine. TellsCauses
        (causes_given order first.now (option_copied second.entry) (list_shown list.entry) list.entry.taking ask.now)
        ask.now.check (O.sink out.old) (O.sink out.new) fine) }
    ensures err { IfErr result
        (λ e. RefusesCauses (causes_given order first.now (option_copied second.entry)
        (list_shown list.entry) list.entry.taking ask.now) ask.now.check (O.sink out.old) (O.sink out.new) e) }
{
    let error = match causes_of_one(alloc, first, second, order, list, ask, out) {
        Ok(fine) => return Ok(fine),
        Err(error) => error,
    };
    let Some(count) = turns_told(error) else {
        return Err(error);
    };
    let (text, fine) = lines_in_turn(alloc, first, second, order, list, ask, count)?;
    match write_all(out, &text) {
        Ok(()) => Ok(fine),
        Err(_) => Err(RehearsalError::Write),
    }
}
