//! What a frame of each kind does next, and the moves of a `for` and of a `run`.
ghost use Rattle.std.specs.Prelude.{◌∷◌, ◌+◌, ◌<◌, ◌^◌, suc, slice_get};
ghost use Rattle.hushlang.specs.TreesShown as view;
ghost use Rattle.bootstore_state.specs.Moment.{RunningFrame};
ghost use Rattle.rehearse_machine.specs.Frames.{begun_text};
ghost use Rattle.rehearse_machine.specs.Places as places;
ghost use Rattle.rehearse_machine.specs.MovesShown.{Moves};
ghost use Rattle.rehearse_machine.specs.NextMoves.{ContinuesAt, HasRoom};

use crate::ask::Step;
use crate::by_shell::{status_of_text, unread};
use crate::for_turn::next_turn;
use crate::frames::{enter, in_turn, leave, leave_with, place, text};
use crate::list_commands::command_of;
use crate::lists::begin_in_list;
use crate::next_move::Next;
use crate::scripts::end_block;
use bootstore_state::{At, Frame, FrameKind, Store, StoreError, TextFound};
use hushlang::{Command, Script};
use rehearse_rules::Halt;
use rehearse_terms::Shell;
use std::rc::Rc;

/// What a frame that runs a script does next: its list goes on, or the script has ended.
fn next_in_script(frame: &Frame, shell: Shell, status: u8) -> Next<'_>
    ensures next { ContinuesAt shell status result frame.now (λ limits. places.place_list limits
        (places.list_at frame.now.script frame.now.place.list) frame.now) }
    ensures room { HasRoom result frame.now }
{
    let at = frame.at();
    let script = frame.script();
    let Some(list) = script.lists.get(at.list) else {
        return Next::Leaves;
    };
    if at.turn == 0 {
        return begin_in_list(frame, shell, status, list);
    }
    match command_of(list, at.command) {
        Some(command) => end_block(frame, shell, status, command, at.turn - 1),
        None => Next::Goes(place(at.list, at.command)),
    }
}

/// What a frame does next in this shell, at this status.
pub(crate) fn next_of(frame: &Frame, shell: Shell, status: u8) -> Next<'_>
    ensures next { ContinuesAt shell status result frame.now
        (λ limits. places.place_by limits frame.now.kind frame.now) }
    ensures room { HasRoom result frame.now }
{
    match frame.kind() {
        FrameKind::Text => next_in_script(frame, shell, status),
        FrameKind::Block => next_in_script(frame, shell, status),
        FrameKind::For => Next::Turns,
        FrameKind::Run => Next::Names,
        FrameKind::File => Next::Hands,
    }
}

/// Advances a `for` frame: its next turn.
pub(crate) fn move_for<'d, S: Store>(
    store: &mut S,
    frame: &Frame,
    shell: Shell,
) -> Result<Step<'d>, StoreError>
    ensures { Moves frame.now result (S.record_of store.old) (S.record_of store.new)
        (places.for_move shell (places.command_at (places.list_at frame.now.script frame.now.place.list)
        frame.now.place.command) frame.now) }
{
    let at = frame.at();
    let script = frame.script();
    let Some(list) = script.lists.get(at.list) else {
        return leave(store);
    };
    let Some(command) = command_of(list, at.command) else {
        return leave(store);
    };
    let Command::For {
        name,
        words: _,
        body,
    } = command
    else {
        return leave(store);
    };
    next_turn(store, frame, shell, name, body)
}

/// Advances a `run` frame: starts the next name if it is the first, or if the previous text ended
/// with status 0. Else the `run` has ended, with the status that such a text gives it.
pub(crate) fn move_run<'d, S: Store>(
    store: &mut S,
    frame: &Frame,
    shell: Shell,
) -> Result<Step<'d>, StoreError>
    ensures { Moves frame.now result (S.record_of store.old) (S.record_of store.new)
        (places.run_move shell frame.now) }
{
    if frame.at().turn == 0 {
        return next_name(store, frame, shell);
    }
    let status = store.get_status();
    if status == 0 {
        return next_name(store, frame, shell);
    }
    leave_with(store, status_of_text(shell, status))
}

/// Starts the text of the next name of a `run`, or ends the `run` if no name is left. A name that
/// is not set, or a text with a fault that the shell reports, ends it with status 1. Another text that
/// is not run ends the whole run.
fn next_name<'d, S: Store>(
    store: &mut S,
    frame: &Frame,
    shell: Shell,
) -> Result<Step<'d>, StoreError>
    ensures { Moves frame.now result (S.record_of store.old) (S.record_of store.new)
        (places.place_name shell (slice_get frame.now.words frame.now.place.turn) frame.now) }
{
    let at = frame.at();
    let Some(name) = frame.words().get(at.turn) else {
        return leave(store);
    };
    match store.text_of(shell, name)? {
        TextFound::Unset => {
            store.pop()?;
            store.set_status(1)?;
            Ok(Step::Going)
        }
        TextFound::Script(script) => begin_text(store, frame, script),
        TextFound::Fails => {
            store.pop()?;
            store.set_status(1)?;
            Ok(Step::Going)
        }
        TextFound::Panics => Ok(Step::Ends(Halt::Panic(name.clone()?))),
        TextFound::Unread => Ok(Step::Ends(unread(shell, name.clone()?))),
    }
}

/// Starts the text of a name. A text without a command gives the status 0. Errors: `Memory`.
pub(crate) fn begin_text<'d, S: Store>(
    store: &mut S,
    frame: &Frame,
    script: Rc<Script>,
) -> Result<Step<'d>, StoreError>
    requires { frame.now.place.turn + 1 < 2 ^ 64 }
    ensures { Moves frame.now result (S.record_of store.old) (S.record_of store.new)
        (λ fs s. places.GoOn (places.text_frame (view.script script.value)
        ∷ places.in_turn (suc frame.now.place.turn) 0 frame.now ∷ fs)
        (begun_text (view.script script.value) s)) }
{
    let at = frame.at();
    push_text(store, in_turn(at, at.turn, 0), script)
}

/// Pushes the frame of a text on the innermost frame, which moves to a place. A text without a command gives
/// the status 0. Errors: `Memory`.
pub(crate) fn push_text<'d, S: Store>(
    store: &mut S,
    at: At,
    script: Rc<Script>,
) -> Result<Step<'d>, StoreError>
    ensures { (f : RunningFrame) → Moves f result (S.record_of store.old) (S.record_of store.new)
        (λ fs s. places.GoOn (places.text_frame (view.script script.value) ∷ places.moved_to at f ∷ fs)
        (begun_text (view.script script.value) s)) }
{
    let is_empty = script.lists.as_slice().is_empty();
    let child = text(script);
    if is_empty {
        store.set_status(0)?;
        return enter(store, at, child);
    }
    enter(store, at, child)
}
