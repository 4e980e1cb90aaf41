//! Places in scripts.
ghost use Rattle.std.specs.Prelude.{OnOk, ◌≡◌, suc, ◌∷◌, ◌+◌, ◌<◌, ◌^◌};
ghost use Rattle.hushlang.specs.TreesShown as view;
ghost use Rattle.bootstore_state.specs.Moment.{RunningFrame};
ghost use Rattle.bootstore_state.specs.Record.{changed, with_status};
ghost use Rattle.rehearse_rules.specs.Execution.{set_status};
ghost use Rattle.rehearse_machine.specs.Places.{place, over, block_frame, text_frame, moved_to, GoOn};
ghost use Rattle.rehearse_machine.specs.MovesShown.{Comes, Moves, under};

use crate::ask::Step;
use bootstore_state::{At, Frame, FrameKind, Store, StoreError};
use hushlang::Script;
use std::rc::Rc;

/// A place in a script, at a command that has not begun.
#[inline(always)]
pub(crate) fn place(list: usize, command: usize) -> At
    ensures { result ≡ place list command 0 0 }
{
    At {
        list,
        command,
        turn: 0,
        last: 0,
    }
}

/// The place after the command of a place.
#[inline(always)]
pub(crate) fn behind(at: At) -> At
    requires { at.command + 1 < 2 ^ 64 }
    ensures { result ≡ place at.list (suc at.command) 0 0 }
{
    place(at.list, at.command + 1)
}

/// The same command, in the turn after this one.
#[inline(always)]
pub(crate) fn in_turn(at: At, turn: usize, last: u8) -> At
    requires { turn + 1 < 2 ^ 64 }
    ensures { result ≡ place at.list at.command (suc turn) last }
{
    At {
        list: at.list,
        command: at.command,
        turn: turn + 1,
        last,
    }
}

/// The same command, which is over: what follows is after it.
#[inline(always)]
pub(crate) fn over(at: At) -> At
    ensures { result ≡ over at }
{
    At {
        list: at.list,
        command: at.command,
        turn: 2,
        last: 1,
    }
}

/// A block from its start.
#[inline(always)]
pub(crate) fn block(script: Rc<Script>) -> Frame
    ensures { result ≡ block_frame (view.script script.value) }
{
    Frame::new(FrameKind::Block, script, place(0, 0))
}

/// The text of a variable from its start.
pub(crate) fn text(script: Rc<Script>) -> Frame
    ensures { result ≡ text_frame (view.script script.value) }
{
    Frame::new(FrameKind::Text, script, place(0, 0))
}

/// Sets the status, if it is another one.
pub(crate) fn change_status<S: Store>(store: &mut S, status: u8) -> Result<(), StoreError>
    ensures { OnOk result (S.record_of store.new
        ≡ changed (with_status status) (S.record_of store.old)) }
{
    if status == store.get_status() {
        return Ok(());
    }
    store.set_status(status)
}

/// Moves the innermost frame to a place, and pushes a frame on it.
pub(crate) fn enter<'d, S: Store>(
    store: &mut S,
    at: At,
    child: Frame,
) -> Result<Step<'d>, StoreError>
    ensures { (f : RunningFrame) → Moves f result (S.record_of store.old) (S.record_of store.new)
        (λ fs. GoOn (child ∷ moved_to at f ∷ fs)) }
{
    store.advance(at)?;
    store.push(child)?;
    Ok(Step::Going)
}

/// Moves the innermost frame to a place, sets the status, and pushes a frame on it.
pub(crate) fn skip<'d, S: Store>(
    store: &mut S,
    at: At,
    status: u8,
    child: Frame,
) -> Result<Step<'d>, StoreError>
    ensures { (f : RunningFrame) → Moves f result (S.record_of store.old) (S.record_of store.new)
        (λ fs s. GoOn (child ∷ moved_to at f ∷ fs) (set_status status s)) }
{
    change_status(store, status)?;
    enter(store, at, child)
}

/// Moves the innermost frame to a place, and sets the status.
pub(crate) fn finish<'d, S: Store>(
    store: &mut S,
    at: At,
    status: u8,
) -> Result<Step<'d>, StoreError>
    ensures { (f : RunningFrame) → Moves f result (S.record_of store.old) (S.record_of store.new)
        (λ fs s. GoOn (moved_to at f ∷ fs) (set_status status s)) }
{
    store.advance(at)?;
    store.set_status(status)?;
    Ok(Step::Going)
}

/// Moves the innermost frame to a place.
pub(crate) fn go_on<'d, S: Store>(store: &mut S, at: At) -> Result<Step<'d>, StoreError>
    ensures { (f : RunningFrame) → Moves f result (S.record_of store.old) (S.record_of store.new)
        (λ fs. GoOn (moved_to at f ∷ fs)) }
{
    store.advance(at)?;
    Ok(Step::Going)
}

/// Removes the innermost frame, which is done, and sets the status.
pub(crate) fn leave_with<'d, S: Store>(store: &mut S, status: u8) -> Result<Step<'d>, StoreError>
    ensures { Comes result (S.record_of store.old) (S.record_of store.new)
        (λ s. GoOn (under (S.record_of store.old).present) (set_status status s)) }
{
    store.pop()?;
    store.set_status(status)?;
    Ok(Step::Going)
}

/// Removes the innermost frame, which is done.
pub(crate) fn leave<'d, S: Store>(store: &mut S) -> Result<Step<'d>, StoreError>
    ensures { Comes result (S.record_of store.old) (S.record_of store.new)
        (GoOn (under (S.record_of store.old).present)) }
{
    store.pop()?;
    Ok(Step::Going)
}
