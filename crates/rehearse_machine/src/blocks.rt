//! The commands that hold blocks: which of these is next.
ghost use Rattle.std.specs.Prelude.{◌≡◌, ◌∷◌, ◌+◌, ◌<◌, ◌^◌, map};
ghost use Rattle.hushlang.specs.TreesShown as view;
ghost use Rattle.rehearse_machine.specs.Places.{place_arms, drop_arms, condition_ends, loop_ends, block_frame, under_block, GoOn, in_turn};
ghost use Rattle.rehearse_machine.specs.NextMoves.{Continues, ContinuesAt, SkipsTo};

use crate::by_shell::{status_of_loop, status_of_no_block, status_of_skipped};
use crate::frames::{behind, in_turn, over};
use crate::next_move::Next;
use bootstore_state::{At, Frame};
use hushlang::Script;
use rehearse_terms::Shell;
use std::rc::Rc;

/// The place of an `if` while one of its blocks runs.
fn under_block(shell: Shell, at: At) -> At
    requires { at.command + 1 < 2 ^ 64 }
    ensures { result ≡ under_block shell at }
{
    match shell {
        Shell::Profile | Shell::Old2023 | Shell::Old2025 => behind(at),
        Shell::Modern2025 => over(at),
    }
}

/// The arms of an `if` from this one on begin: its condition, or the `else` block if there is no
/// such arm. If there is no `else`, the shell says the status.
pub(crate) fn begin_arms<'a>(
    frame: &Frame,
    shell: Shell,
    status: u8,
    arms: &'a [(Rc<Script>, Rc<Script>)],
    other: &'a Option<Rc<Script>>,
    arm: usize,
) -> Next<'a>
    requires { frame.now.place.command + 1 < 2 ^ 64 }
    ensures { ContinuesAt shell status result frame.now (λ limits. place_arms limits.shell
        (drop_arms arm (view.arms (map view.arm arms.now) (view.script_in other.now))) arm
        frame.now) }
{
    let at = frame.at();
    if let Some((cond, _)) = arms.get(arm) {
        return Next::Enters(in_turn(at, arm, 0), cond);
    }
    match other {
        Some(body) => Next::Enters(under_block(shell, at), body),
        None => Next::Finishes(behind(at), status_of_no_block(shell, status)),
    }
}

/// The arms of an `if` from this one on follow a block that is not run, which leaves this status.
fn skip_to_arm<'a>(
    frame: &Frame,
    shell: Shell,
    skipped: u8,
    arms: &'a [(Rc<Script>, Rc<Script>)],
    other: &'a Option<Rc<Script>>,
    arm: usize,
) -> Next<'a>
    requires { frame.now.place.command + 1 < 2 ^ 64 }
    ensures { SkipsTo shell skipped result frame.now (λ limits. place_arms limits.shell
        (drop_arms arm (view.arms (map view.arm arms.now) (view.script_in other.now))) arm
        frame.now) }
{
    let at = frame.at();
    if let Some((cond, _)) = arms.get(arm) {
        return Next::Skips(in_turn(at, arm, 0), skipped, cond);
    }
    match other {
        Some(body) => Next::Skips(under_block(shell, at), skipped, body),
        None => Next::Finishes(behind(at), status_of_no_block(shell, skipped)),
    }
}

/// Goes on after the condition of an arm: with its block if the status is 0, else with the arms
/// after it.
pub(crate) fn end_condition<'a>(
    frame: &Frame,
    shell: Shell,
    status: u8,
    arms: &'a [(Rc<Script>, Rc<Script>)],
    other: &'a Option<Rc<Script>>,
    arm: usize,
) -> Next<'a>
    requires { frame.now.place.command + 1 < 2 ^ 64 }
    ensures { ContinuesAt shell status result frame.now (λ limits. condition_ends limits.shell
        (drop_arms arm (view.arms (map view.arm arms.now) (view.script_in other.now))) arm
        frame.now) }
{
    match arms.get(arm) {
        Some((_, body)) if status == 0 => Next::Enters(under_block(shell, frame.at()), body),
        Some((_, body)) => {
            let skipped = status_of_skipped(shell, body, status);
            skip_to_arm(frame, shell, skipped, arms, other, arm + 1)
        }
        None => Next::Goes(behind(frame.at())),
    }
}

/// The condition of a loop begins, whose last body ended with the status `last`.
pub(crate) fn begin_loop<'a>(frame: &Frame, cond: &'a Rc<Script>, last: u8) -> Next<'a>
    ensures { Continues result frame.now (λ limits fs.
        GoOn (block_frame (view.script cond.now.value) ∷ in_turn 1 last frame.now ∷ fs)) }
{
    Next::Enters(in_turn(frame.at(), 0, last), cond)
}

/// Goes on after the condition of a loop: with its body if the loop goes on, else after the loop,
/// with the status that the shell says.
pub(crate) fn end_loop_condition<'a>(
    frame: &Frame,
    shell: Shell,
    status: u8,
    until: bool,
    body: &'a Rc<Script>,
) -> Next<'a>
    requires { frame.now.place.command + 1 < 2 ^ 64 }
    ensures { ContinuesAt shell status result frame.now
        (λ limits. loop_ends limits.shell until (view.script body.now.value) frame.now) }
{
    let at = frame.at();
    if (status == 0) == until {
        return Next::Finishes(behind(at), status_of_loop(shell, at.last, status));
    }
    Next::Enters(in_turn(at, 1, 0), body)
}
