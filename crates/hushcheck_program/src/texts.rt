//! The texts of images, checked.
ghost use Rattle.std.specs.Prelude.{◌≡◌, ◌++◌, IfOk, None, Ok, OnOk, Some, map, option_map, string_bytes};
ghost use Rattle.board_files.specs.BoardFiles.{list_of};
ghost use Rattle.board_start.specs.BoardShown.{board_shown};
ghost use Rattle.hushcheck.specs.Report.{asked_names};
ghost use Rattle.hushcheck.specs.Rules.{held_to};
ghost use Rattle.std.specs.Option.{option_copied};
ghost use Rattle.hushcheck_program.specs.Asked.{asked_by};
ghost use Rattle.hushcheck_program.specs.Checking.{ChecksBy, ChecksFrom, ChecksText, LeavesOutput, Lists, WritesAll, alternative_of, behind_first, env_on, given, given_by, inputs_of, list_in, under};
ghost use Rattle.hushcheck_program.specs.Shown.{list_shown, script_shown};
ghost use Rattle.tool_steps.specs.Scripts.{ReadsNamed};
ghost use Rattle.tool_files.specs.Told.{IfTold};
ghost use Rattle.tool_steps.specs.Faults.{CountsTold};
ghost use Rattle.hushcheck_program.specs.Faults.{CountsShared};
ghost use Rattle.tool_steps.specs.Images.{copies};
ghost use Rattle.tool_words.specs.CommandAnswers.{inputs_shown};

use crate::ask::CheckAsk;
use crate::fault::CheckFault;
use board_files::{BoardFiles, copied_path, read_board};
use board_start::{Board, BoardError, Start};
use device_list::{Devices, FileTexts};
use envimage::ByteOrder;
use envtools::Env;
use hushcheck::{CheckError, Rules, asked_names, check, check_script};
use output::Out;
use rehearse_terms::Shell;
use std::alloc::{AllocError, Global};
use tool_files::Files;
use tool_images::{Fault, ToolError, env_of_image};
use tool_steps::{Images, read_named_script, read_origin, slices_of};
use tool_words::{Inputs, Origin, Taking};

/// A script that is checked in place of a variable.
#[derive(Clone, Copy)]
struct Script<'a> {
    /// The name under which it is checked: the path of its file.
    name: &'a [u8],
    /// Its text.
    text: &'a [u8],
}

/// A device list that was read.
#[derive(Drop)]
struct DeviceList<'a> {
    /// Its text.
    text: &'a [u8],
    /// The texts of the files that it names.
    files: FileTexts,
}

/// The bytes of a path, if there is one.
fn bytes_of(path: &Option<String>) -> Option<&[u8]>
    ensures { option_copied result ≡ option_map string_bytes path.now }
{
    match path {
        Some(path) => Some(path.as_bytes()),
        None => None,
    }
}

/// A script under the name that is given, if there are both.
fn under<'a>(name: Option<&'a [u8]>, text: Option<&'a [u8]>) -> Option<Script<'a>>
    ensures { script_shown result ≡ under (option_copied name.entry) (option_copied text.entry) }
{
    match (name, text) {
        (Some(name), Some(text)) => Some(Script { name, text }),
        _ => None,
    }
}

/// The board of a device list, if there is one.
fn list_of(alloc: Global, list: Option<DeviceList<'_>>) -> Result<Option<Board>, CheckFault>
    ensures { Lists (list_in (list_shown list.entry)) result }
{
    let Some(DeviceList { text, files }) = list else {
        return Ok(None);
    };
    match Board::parse(alloc, text, files) {
        Ok(board) => Ok(Some(board)),
        Err(BoardError::Memory) => Err(CheckFault::Shared(Fault::Memory)),
        Err(fault) => Err(CheckFault::DeviceList(fault)),
    }
}

/// The environment with what the list gives, of its alternatives the first, and with the raised boot counter, if
/// there is one. Errors: memory ran out.
fn env_on(board: &Option<Board>, env: Env) -> Result<Env, AllocError>
    ensures { IfOk result (λ new. new ≡ env_on (option_map board_shown board.now) env) }
{
    match board {
        Some(board) => board.start.raise(board.start.give(env, 0)?),
        None => Ok(env),
    }
}

/// Adds the variable whose text is run once the boot counter has passed its limit, if it is set. Errors: memory
/// ran out.
fn add_alternative<'x>(
    names: &mut Vec<&'x [u8]>,
    start: &'x Start,
    env: &Env,
) -> Result<(), AllocError>
    ensures { OnOk result (map (λ n. n.now) names.new.items
        ≡ map (λ n. n.now) names.old.items ++ alternative_of start.now.counter env.now) }
{
    let Some(name) = start.alternative() else {
        return Ok(());
    };
    if env.get(name).is_some() {
        names.push(name)?;
    }
    Ok(())
}

/// The variables whose texts run first on the board, of those that are set, and then these, and then the
/// alternative of its boot counter. Errors: memory ran out.
fn behind_first<'x>(
    alloc: Global,
    board: &'x Option<Board>,
    env: &Env,
    names: &[&'x [u8]],
) -> Result<Vec<&'x [u8]>, AllocError>
    ensures { IfOk result (λ all. map (λ n. n.now) all.items
        ≡ behind_first (option_map board_shown board.now) env.now (map (λ n. n.now) names.now)) }
{
    let Some(board) = board else {
        return Vec::from_slice(alloc, names);
    };
    let mut all = board.start.first_texts(env)?;
    all.extend_from_slice(names)?;
    add_alternative(&mut all, &board.start, env)?;
    Ok(all)
}

/// The device commands of a board, if there is one.
fn devices_of(board: &Option<Board>) -> Option<&Devices>
    ensures { option_map (λ d. d.now) result ≡ option_map (λ b. b.devices) (option_map board_shown board.now) }
{
    match board {
        Some(board) => Some(&board.devices),
        None => None,
    }
}

/// Checks the script, if there is one, and the variables of these names.
fn check_names<O: Out>(
    alloc: Global,
    rules: &Rules<'_>,
    env: &Env,
    script: Option<Script<'_>>,
    names: &[&[u8]],
    out: &mut O,
) -> Result<bool, CheckError>
    ensures { WritesAll rules.now env.now (script_shown script.entry)
        (map (λ n. n.now) names.now) result (O.sink out.old) (O.sink out.new) }
{
    match script {
        Some(Script { name, text }) => check_script(alloc, rules, env, name, text, names, out),
        None => check(alloc, rules, env, names, out),
    }
}

/// Checks the texts of an environment and the script, if there is one, by these rules, and writes what is
/// reported of them. Returns false if a text is not well-formed, a name is not set, the device list lacks a
/// command, or there is a warning and that is a fault.
fn check_by<O: Out>(
    alloc: Global,
    rules: &Rules<'_>,
    env: &Env,
    script: Option<Script<'_>>,
    names: &[&[u8]],
    all: bool,
    out: &mut O,
) -> Result<bool, CheckFault>
    ensures { ChecksBy rules.now env.now (script_shown script.entry)
        (asked_names all env.now (map (λ n. n.now) names.now)) (O.sink out.old) (O.sink out.new) result }
{
    let Ok(names) = asked_names(alloc, env, names, all) else {
        return Err(CheckFault::Shared(Fault::Memory));
    };
    match check_names(alloc, rules, env, script, &names, out) {
        Ok(sound) => Ok(sound),
        Err(CheckError::Write) => Err(CheckFault::Shared(Fault::Tool(ToolError::Write))),
        Err(CheckError::Memory) => Err(CheckFault::Shared(Fault::Memory)),
    }
}

/// The same on a board, if there is one, in the environment that it gives: the texts that run first by its
/// list are checked before the others.
fn check_on<O: Out>(
    alloc: Global,
    board: &Option<Board>,
    env: &Env,
    script: Option<Script<'_>>,
    names: &[&[u8]],
    all: bool,
    shell: Option<Shell>,
    strict: bool,
    out: &mut O,
) -> Result<bool, CheckFault>
    ensures { let on = option_map board_shown board.now in
        ChecksBy (held_to (option_map (λ b. b.devices) on) shell strict) env.now (script_shown script.entry)
        (asked_names all env.now (behind_first on env.now (map (λ n. n.now) names.now)))
        (O.sink out.old) (O.sink out.new) result }
{
    let rules = Rules {
        devices: devices_of(board),
        shell,
        strict,
    };
    let Ok(names) = behind_first(alloc, board, env, names) else {
        return Err(CheckFault::Shared(Fault::Memory));
    };
    check_by(alloc, &rules, env, script, &names, all, out)
}

/// The same with a device list, if there is one, and with what it gives.
fn check_env<O: Out>(
    alloc: Global,
    env: Env,
    list: Option<DeviceList<'_>>,
    script: Option<Script<'_>>,
    names: &[&[u8]],
    all: bool,
    shell: Option<Shell>,
    strict: bool,
    out: &mut O,
) -> Result<bool, CheckFault>
    ensures { ChecksText (given (Ok env) (list_in (list_shown list.entry))
        (script_shown script.entry) (map (λ n. n.now) names.now) all shell strict)
        (O.sink out.old) (O.sink out.new) result }
{
    let board = list_of(alloc, list)?;
    let Ok(env) = env_on(&board, env) else {
        return Err(CheckFault::Shared(Fault::Memory));
    };
    check_on(alloc, &board, &env, script, names, all, shell, strict, out)
}

/// The same for images that were read, a single one or a pair.
fn check_images<O: Out>(
    alloc: Global,
    images: &Images,
    list: Option<DeviceList<'_>>,
    script: Option<Script<'_>>,
    what: &CheckAsk,
    order: ByteOrder,
    out: &mut O,
) -> Result<bool, CheckFault>
    ensures { ChecksText (given_by order (copies images.now) (list_shown list.entry)
        (script_shown script.entry) (map string_bytes what.now.names.items) what.now.all what.now.shell
        what.now.strict)
        (O.sink out.old) (O.sink out.new) result }
{
    let Ok(names) = slices_of(alloc, &what.names) else {
        return Err(CheckFault::Shared(Fault::Memory));
    };
    let second = images.second_bytes();
    let env = env_of_image(alloc, &images.first.bytes, second, order)?;
    check_env(
        alloc,
        env,
        list,
        script,
        &names,
        what.all,
        what.shell,
        what.strict,
        out,
    )
}

/// Reads the script of the file at the path, if there is one.
fn read_script_at<F: Files>(
    alloc: Global,
    files: &mut F,
    path: &Option<String>,
) -> Result<Option<Vec<u8>>, Fault>
    ensures count { CountsTold (F.faults files.old) (F.faults files.new) result }
    ensures told { IfTold (F.told files.old) (F.told files.new)
        (λ old new. ReadsNamed (option_map string_bytes path.now) old new result) }
{
    let Some(path) = path else {
        return read_named_script(alloc, files, None);
    };
    let Ok(path) = path.clone() else {
        return Err(Fault::Memory);
    };
    read_named_script(alloc, files, Some(path))
}

/// What a rehearsal reads, too, for this device list. Errors: memory ran out.
fn inputs_of(origin: Origin, list: String, what: &CheckAsk) -> Result<Inputs, AllocError>
    ensures { (order : ByteOrder) → IfOk result (λ inputs. inputs_shown inputs
        ≡ inputs_of (asked_by origin (Some list) what.now order) (string_bytes list)) }
{
    Ok(Inputs {
        origin,
        device_list: list,
        taking: Taking {
            steady: false,
            alternative: None,
        },
        script: copied_path(&what.script)?,
        files: copied_path(&what.files)?,
    })
}

/// Checks the texts of what was read for a device list.
fn check_board<O: Out>(
    alloc: Global,
    board: BoardFiles,
    what: &CheckAsk,
    order: ByteOrder,
    out: &mut O,
) -> Result<bool, CheckFault>
    ensures { ChecksText (given_by order (copies board.images) (Some (list_of board))
        (under (option_map string_bytes what.now.script) (option_map (λ v. v.items) board.script))
        (map string_bytes what.now.names.items) what.now.all what.now.shell what.now.strict)
        (O.sink out.old) (O.sink out.new) result }
{
    let BoardFiles {
        images,
        device_list,
        files,
        script,
    } = board;
    let script = under(bytes_of(&what.script), script.as_deref());
    let list = DeviceList {
        text: &device_list,
        files,
    };
    check_images(alloc, &images, Some(list), script, what, order, out)
}

/// The same with a device list. Reads the images, then the device list, then the script, if one is named, and then the
/// files that the list names, if a folder is named.
fn check_listed<F: Files, O: Out>(
    alloc: Global,
    files: &mut F,
    origin: Origin,
    list: String,
    what: &CheckAsk,
    order: ByteOrder,
    out: &mut O,
) -> Result<bool, CheckFault>
    ensures count { CountsShared (F.faults files.old) (F.faults files.new) result }
    ensures told { IfTold (F.told files.old) (F.told files.new) (λ old new.
        ChecksFrom (asked_by origin (Some list) what.now order) (O.sink out.old) (O.sink out.new) old new
        result) }
    ensures output { LeavesOutput result (O.sink out.old) (O.sink out.new) }
{
    let Ok(inputs) = inputs_of(origin, list, what) else {
        return Err(CheckFault::Shared(Fault::Memory));
    };
    let board = read_board(alloc, files, inputs)?;
    check_board(alloc, board, what, order, out)
}

/// The same without a device list. Reads the images, and then the script, if one is named.
fn check_alone<F: Files, O: Out>(
    alloc: Global,
    files: &mut F,
    origin: Origin,
    what: &CheckAsk,
    order: ByteOrder,
    out: &mut O,
) -> Result<bool, CheckFault>
    ensures count { CountsShared (F.faults files.old) (F.faults files.new) result }
    ensures told { IfTold (F.told files.old) (F.told files.new) (λ old new.
        ChecksFrom (asked_by origin None what.now order) (O.sink out.old) (O.sink out.new) old new
        result) }
    ensures output { LeavesOutput result (O.sink out.old) (O.sink out.new) }
{
    let images = read_origin(alloc, files, origin)?;
    let text = read_script_at(alloc, files, &what.script)?;
    let script = under(bytes_of(&what.script), text.as_deref());
    check_images(alloc, &images, None, script, what, order, out)
}

/// Checks the scripts of the images that this names, and the script of a file, if one is given. Reads the
/// images, then the device list if one is named, then the script, and then the files that the list names, if
/// there is one and a folder is named; and then writes the lines. Errors: those of `read_origin`, of `read_board`
/// and of `read_named_script`; the image, and after it the device list, is refused; the output failed; or memory
/// ran out.
pub fn check_files<F: Files, O: Out>(
    alloc: Global,
    files: &mut F,
    origin: Origin,
    list: Option<String>,
    what: &CheckAsk,
    order: ByteOrder,
    out: &mut O,
) -> Result<bool, CheckFault>
    ensures count { CountsShared (F.faults files.old) (F.faults files.new) result }
    ensures told { IfTold (F.told files.old) (F.told files.new) (λ old new.
        ChecksFrom (asked_by origin list what.now order) (O.sink out.old) (O.sink out.new) old new
        result) }
    ensures output { LeavesOutput result (O.sink out.old) (O.sink out.new) }
{
    match list {
        Some(list) => check_listed(alloc, files, origin, list, what, order, out),
        None => check_alone(alloc, files, origin, what, order, out),
    }
}
