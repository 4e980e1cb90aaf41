//! Texts of files, to which device commands hand over.
ghost use Rattle.std.specs.Prelude.{◌≡◌, ◌+◌, ◌<◌, ◌^◌, OnOk, IfOk, Some, drop, length};
ghost use Rattle.hushlang_shells.specs.TreesByShell.{started_in};
ghost use Rattle.text.specs.TextsShown.{bytes_of_words};
ghost use Rattle.rehearse_rules.specs.Execution.{choice_text};
ghost use Rattle.bootstore_state.specs.Record.{changed};
ghost use Rattle.rehearse_machine.specs.Places.{at_file, file_asked, file_begins, file_frame, file_move, place, place_one, place_question, place_sourced};
ghost use Rattle.rehearse_machine.specs.MovesShown.{Moves, file_above, limits_of};

use crate::ask::Step;
use crate::by_shell::{status_of_text, unread};
use crate::frame_moves::push_text;
use crate::frames::{finish, leave, leave_with, place};
use bootstore_state::{At, Frame, FrameKind, Store, StoreError, TextFound};
use device_list::Devices;
use hushlang::Script;
use hushlang_shells::{TextRead, read_started};
use rehearse_rules::Halt;
use rehearse_terms::{RunBounds, Shell};
use std::alloc::{AllocError, Global};
use std::rc::Rc;
use text::copied_words;

/// A frame for files of which the text of one may run, with the status from before the command that names
/// them. It is in no script. Errors: memory ran out.
#[tactic(auto, using(hushlang::proofs::ViewLemmas::what_it_says))]
fn file_frame(alloc: Global, before: u8, names: &[Vec<u8>]) -> Result<Frame, AllocError>
    ensures { IfOk result (λ frame. frame ≡ file_frame before (bytes_of_words names.now)) }
{
    let lists = Vec::new(alloc);
    let script = Rc::new(alloc, Script { lists })?;
    let names = Rc::new(alloc, copied_words(alloc, names)?)?;
    let at = At {
        last: before,
        ..place(0, 0)
    };
    Ok(Frame::with_words(FrameKind::File, script, names, at))
}

/// Pushes a frame for the files to which a device command hands over, if it names some. Errors: `Memory`.
pub(crate) fn hand_over<S: Store>(
    alloc: Global,
    store: &mut S,
    runs: &[Vec<u8>],
) -> Result<(), StoreError>
    ensures { OnOk result (S.record_of store.new
        ≡ changed (file_above (bytes_of_words runs.now)) (S.record_of store.old)) }
{
    if runs.is_empty() {
        return Ok(());
    }
    let frame = file_frame(alloc, store.get_status(), runs)?;
    store.push(frame)
}

/// Advances the frame of files: begins the text of one if the command that handed over has succeeded, or
/// asks which one it is. After the text the command has ended, with the status that such a text gives it.
/// Errors: `Memory`.
pub(crate) fn move_file<'d, S: Store>(
    alloc: Global,
    store: &mut S,
    frame: &Frame,
    devices: &Devices,
    bounds: RunBounds,
) -> Result<Step<'d>, StoreError>
    ensures { Moves frame.now result (S.record_of store.old) (S.record_of store.new)
        (file_move (limits_of devices.now bounds) frame.now) }
{
    let at = frame.at();
    let names = names_left(frame);
    if at.turn == 0 {
        return begin_file(alloc, store, frame, names, devices, bounds);
    }
    if at.turn != 1 {
        return go_on_asked(alloc, store, frame, names, devices, bounds);
    }
    let status = store.get_status();
    if status == 0 {
        return leave(store);
    }
    leave_with(store, status_of_text(bounds.shell(), status))
}

/// The files that are left of those of a frame.
fn names_left(frame: &Frame) -> &[Vec<u8>]
    ensures names { bytes_of_words result.now ≡ drop frame.now.place.command frame.now.words }
    ensures room { frame.now.place.command + length result.now < 2 ^ 64 }
{
    let names = frame.words();
    let at = frame.at().command;
    if names.len() <= at {
        return &[];
    }
    &names[at..]
}

/// Begins the text of one of these files if the status is 0. Errors: `Memory`.
fn begin_file<'d, S: Store>(
    alloc: Global,
    store: &mut S,
    frame: &Frame,
    names: &[Vec<u8>],
    devices: &Devices,
    bounds: RunBounds,
) -> Result<Step<'d>, StoreError>
    ensures { Moves frame.now result (S.record_of store.old) (S.record_of store.new)
        (file_begins (limits_of devices.now bounds) (bytes_of_words names.now) frame.now) }
{
    if store.get_status() != 0 {
        return leave(store);
    }
    let at = frame.at().command;
    begin_one(alloc, store, frame, at, names, devices, bounds)
}

/// Goes on by the answer whether it is the first of these files. Errors: `Memory`.
fn go_on_asked<'d, S: Store>(
    alloc: Global,
    store: &mut S,
    frame: &Frame,
    names: &[Vec<u8>],
    devices: &Devices,
    bounds: RunBounds,
) -> Result<Step<'d>, StoreError>
    requires { frame.now.place.command + length names.now < 2 ^ 64 }
    ensures { Moves frame.now result (S.record_of store.old) (S.record_of store.new)
        (file_asked (limits_of devices.now bounds) (bytes_of_words names.now) frame.now) }
{
    let [_, others @ ..] = names else {
        return leave(store);
    };
    if others.is_empty() {
        return leave(store);
    }
    let at = frame.at().command;
    if store.get_status() == 0 {
        return begin_one(alloc, store, frame, at, &names[..1], devices, bounds);
    }
    begin_one(alloc, store, frame, at + 1, others, devices, bounds)
}

/// Begins the text of the only one of these files, with the status that the frame has; or asks whether it is
/// the first. Errors: `Memory`.
fn begin_one<'d, S: Store>(
    alloc: Global,
    store: &mut S,
    frame: &Frame,
    file: usize,
    names: &[Vec<u8>],
    devices: &Devices,
    bounds: RunBounds,
) -> Result<Step<'d>, StoreError>
    ensures { Moves frame.now result (S.record_of store.old) (S.record_of store.new)
        (place_one (limits_of devices.now bounds) file (bytes_of_words names.now) frame.now) }
{
    let [name, others @ ..] = names else {
        return leave(store);
    };
    if !others.is_empty() {
        return ask_which(alloc, store, frame, file, bounds.shell(), name);
    }
    let Some(text) = devices.file(name) else {
        return leave_with(store, 1);
    };
    store.set_status(frame.at().last)?;
    begin_read(alloc, store, frame, file, bounds.shell(), name, text)
}

/// The question whether it is this file, as a text. Errors: memory ran out.
fn choice_text(alloc: Global, name: &[u8]) -> Result<Vec<u8>, AllocError>
    ensures { IfOk result (λ text. text.items ≡ choice_text name.now) }
{
    let mut text = Vec::from_slice(alloc, b"runs ")?;
    text.extend_from_slice(name)?;
    Ok(text)
}

/// The place of a frame of files at one of them, in a turn.
fn at_file(frame: &Frame, file: usize, turn: usize, last: u8) -> At
    ensures { result ≡ place frame.now.place.list file turn last }
{
    At {
        list: frame.at().list,
        command: file,
        turn,
        last,
    }
}

/// Asks whether it is this file. Errors: `Memory`.
fn ask_which<'d, S: Store>(
    alloc: Global,
    store: &mut S,
    frame: &Frame,
    file: usize,
    shell: Shell,
    name: &[u8],
) -> Result<Step<'d>, StoreError>
    ensures { Moves frame.now result (S.record_of store.old) (S.record_of store.new)
        (place_question shell (started_in shell (choice_text name.now)) name.now
        (at_file file 2 frame.now)) }
{
    let text = choice_text(alloc, name)?;
    let at = at_file(frame, file, 2, frame.at().last);
    match read_started(alloc, shell, &text)? {
        TextRead::Runs(script) => push_text(store, at, Rc::new(alloc, script)?),
        TextRead::Fails => finish(store, at, 1),
        TextRead::Panics => Ok(Step::Ends(Halt::Panic(Vec::from_slice(alloc, name)?))),
        TextRead::Unread => Ok(Step::Ends(unread(shell, Vec::from_slice(alloc, name)?))),
    }
}

/// Begins the text of a file, by what the shell reads in it: a text with a fault that the shell reports
/// has the status 1, and another one that is not run ends the run. Errors: `Memory`.
fn begin_read<'d, S: Store>(
    alloc: Global,
    store: &mut S,
    frame: &Frame,
    file: usize,
    shell: Shell,
    name: &[u8],
    text: &[u8],
) -> Result<Step<'d>, StoreError>
    ensures { Moves frame.now result (S.record_of store.old) (S.record_of store.new)
        (place_sourced shell (Some text.now) name.now (at_file file 0 frame.now)) }
{
    let at = at_file(frame, file, 1, 0);
    match store.file_text(shell, text)? {
        TextFound::Script(script) => push_text(store, at, script),
        TextFound::Fails => leave_with(store, 1),
        TextFound::Panics => Ok(Step::Ends(Halt::Panic(Vec::from_slice(alloc, name)?))),
        _ => Ok(Step::Ends(unread(shell, Vec::from_slice(alloc, name)?))),
    }
}
