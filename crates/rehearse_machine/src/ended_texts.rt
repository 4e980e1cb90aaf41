//! Texts of `run` that have nothing left to do. Of three of them in a row one is dropped, with the
//! blocks at its end, so that texts which run each other as their last command, also in an `if`, keep
//! few frames.
ghost use Rattle.std.specs.Prelude.{◌≡◌, OnOk, option_map, reverse};
ghost use Rattle.hushlang.specs.TreesShown as view;
ghost use Rattle.bootstore_state.specs.Record.{changed};
ghost use Rattle.rehearse_machine.specs.EndedTexts.{is_text, is_block, is_run, is_over, is_between, next_command, has_command, is_at_end, has_ended, is_done, has_run_all, begins, below_blocks, below_text, below_ended, below_three, may_drop, without_blocks, DropsEnded};

use crate::list_commands::{command_behind, command_of};
use bootstore_state::{At, Frame, FrameKind, Store, StoreError};
use hushlang::{AndOr, Command};

/// Whether it is the text of a variable.
fn is_text(kind: FrameKind) -> bool
    ensures { result ≡ is_text kind }
{
    match kind {
        FrameKind::Text => true,
        FrameKind::Block | FrameKind::For | FrameKind::Run | FrameKind::File => false,
    }
}

/// Whether it is a block of a compound command.
fn is_block(kind: FrameKind) -> bool
    ensures { result ≡ is_block kind }
{
    match kind {
        FrameKind::Block => true,
        FrameKind::Text | FrameKind::For | FrameKind::Run | FrameKind::File => false,
    }
}

/// Whether it is a `run`.
fn is_run(kind: FrameKind) -> bool
    ensures { result ≡ is_run kind }
{
    match kind {
        FrameKind::Run => true,
        FrameKind::Text | FrameKind::Block | FrameKind::For | FrameKind::File => false,
    }
}

/// Whether the command of a place is over.
fn is_over(at: At) -> bool
    ensures { result ≡ is_over at }
{
    at.turn == 2 && at.last == 1
}

/// Whether a place is in no command, or in one that is over.
fn is_between(at: At) -> bool
    ensures { result ≡ is_between at }
{
    at.turn == 0 || is_over(at)
}

/// The next command of a list: that of the place, or the one after it if that is over.
fn next_command(list: &AndOr, at: At) -> Option<&Command>
    ensures { option_map (λ found. view.command found.now) result
        ≡ next_command (view.list list.now) at }
{
    if is_over(at) {
        command_behind(list, at.command)
    } else {
        command_of(list, at.command)
    }
}

/// Whether a frame has a command of its script left.
fn has_command(frame: &Frame) -> bool
    ensures { result ≡ has_command frame.now }
{
    let at = frame.at();
    let script = frame.script();
    let Some(list) = script.lists.get(at.list) else {
        return false;
    };
    if next_command(list, at).is_some() {
        return true;
    }
    script.lists.get(at.list + 1).is_some()
}

/// Whether a frame is a script at its end.
fn is_at_end(frame: &Frame) -> bool
    ensures { result ≡ is_at_end frame.now }
{
    is_between(frame.at()) && !has_command(frame)
}

/// Whether a frame is a text at its end.
fn has_ended(frame: &Frame) -> bool
    ensures { result ≡ has_ended frame.now }
{
    is_text(frame.kind()) && is_at_end(frame)
}

/// Whether a frame is a block at its end.
fn is_done(frame: &Frame) -> bool
    ensures { result ≡ is_done frame.now }
{
    is_block(frame.kind()) && is_at_end(frame)
}

/// Whether a frame is a `run` that has begun and has no name left.
fn has_run_all(frame: &Frame) -> bool
    ensures { result ≡ has_run_all frame.now }
{
    let turn = frame.at().turn;
    if frame.words().get(turn).is_some() {
        return false;
    }
    is_run(frame.kind()) && turn != 0
}

/// Whether a frame is a `run` that has begun no text.
fn begins(frame: &Frame) -> bool
    ensures { result ≡ begins frame.now }
{
    is_run(frame.kind()) && frame.at().turn == 0
}

/// The frames below the blocks at their end that are innermost.
fn below_blocks(frames: &[Frame]) -> &[Frame]
    ensures { reverse result.now ≡ below_blocks (reverse frames.now) }
{
    let mut left = frames;
    while let Some((frame, below)) = left.split_last() {
        if !is_done(frame) {
            return left;
        }
        left = below;
    }
    left
}

/// The frames below an ended text and its `run`, if these two are the innermost.
fn below_text(frames: &[Frame]) -> Option<&[Frame]>
    ensures { option_map (λ below. reverse below.now) result ≡ below_text (reverse frames.now) }
{
    let Some((text, others)) = frames.split_last() else {
        return None;
    };
    let Some((run, below)) = others.split_last() else {
        return None;
    };
    if !has_ended(text) {
        return None;
    }
    if !has_run_all(run) {
        return None;
    }
    Some(below)
}

/// The frames below an ended text and its `run`, if these two are the innermost but for blocks at
/// their end.
fn below_ended(frames: &[Frame]) -> Option<&[Frame]>
    ensures { option_map (λ below. reverse below.now) result ≡ below_ended (reverse frames.now) }
{
    below_text(below_blocks(frames))
}

/// The frames below three of them.
fn below_three(frames: &[Frame]) -> Option<&[Frame]>
    ensures { option_map (λ below. reverse below.now) result ≡ below_three (reverse frames.now) }
{
    let Some(second) = below_ended(frames) else {
        return None;
    };
    let Some(third) = below_ended(second) else {
        return None;
    };
    below_ended(third)
}

/// Whether a `run` begins above three ended texts, each with its `run` and blocks at their end.
pub fn may_drop(frames: &[Frame]) -> bool
    ensures { result ≡ may_drop (reverse frames.now) }
{
    let Some((run, below)) = frames.split_last() else {
        return false;
    };
    begins(run) && below_three(below).is_some()
}

/// Removes the innermost blocks that are at their end. Errors: `Memory`.
fn drop_blocks<S: Store>(store: &mut S) -> Result<(), StoreError>
    ensures { OnOk result (S.record_of store.new
        ≡ changed without_blocks (S.record_of store.old)) }
{
    while let Some(frame) = store.top() {
        if !is_done(frame) {
            return Ok(());
        }
        store.pop()?;
    }
    Ok(())
}

/// Removes the innermost ended text, its blocks and its `run`, if a `run` begins above three of them:
/// the third makes of each answer what the second has made of it. Else nothing changes. Errors:
/// `Memory`.
pub fn drop_ended<S: Store>(store: &mut S) -> Result<(), StoreError>
    ensures { OnOk result (DropsEnded (S.record_of store.old) (S.record_of store.new)) }
{
    let Some(top) = store.top() else {
        return Ok(());
    };
    if !may_drop(store.frames()) {
        return Ok(());
    }
    let frame = top.copy()?;
    store.pop()?;
    drop_blocks(store)?;
    store.pop()?;
    store.pop()?;
    store.push(frame)?;
    Ok(())
}
