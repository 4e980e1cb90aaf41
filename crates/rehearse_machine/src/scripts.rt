//! What a command of a script does next: how it begins, and how it goes on after one of its blocks.
ghost use Rattle.std.specs.Prelude.{◌+◌, ◌<◌, ◌^◌, Some};
ghost use Rattle.hushlang.specs.TreesShown as view;
ghost use Rattle.rehearse_machine.specs.Places.{phase_move, place_command};
ghost use Rattle.rehearse_machine.specs.NextMoves.{ContinuesAt, HasRoom};

use crate::blocks::{begin_arms, begin_loop, end_condition, end_loop_condition};
use crate::frames::behind;
use crate::next_move::Next;
use bootstore_state::Frame;
use hushlang::Command;
use rehearse_terms::Shell;

/// Goes on after a block of a command, which was in this turn of the command.
pub(crate) fn end_block<'c>(
    frame: &Frame,
    shell: Shell,
    status: u8,
    command: &'c Command,
    turn: usize,
) -> Next<'c>
    requires { frame.now.place.command + 1 < 2 ^ 64 }
    ensures next { ContinuesAt shell status result frame.now
        (λ limits. phase_move limits.shell (Some (view.command command.now)) turn frame.now) }
    ensures room { HasRoom result frame.now }
{
    let is_over = frame.at().last != 0;
    match command {
        Command::If { arms, other } => {
            if is_over {
                Next::Goes(behind(frame.at()))
            } else {
                end_condition(frame, shell, status, arms, other, turn)
            }
        }
        Command::Loop { until, cond, body } => {
            if turn == 0 {
                end_loop_condition(frame, shell, status, *until, body)
            } else if is_over {
                Next::Goes(behind(frame.at()))
            } else {
                begin_loop(frame, cond, status)
            }
        }
        Command::Simple(_) => Next::Goes(behind(frame.at())),
        Command::Assign(_) => Next::Goes(behind(frame.at())),
        Command::For { .. } => Next::Goes(behind(frame.at())),
    }
}

/// A command begins.
pub(crate) fn begin_command<'c>(
    frame: &Frame,
    shell: Shell,
    status: u8,
    command: &'c Command,
) -> Next<'c>
    requires { frame.now.place.command + 1 < 2 ^ 64 }
    ensures next { ContinuesAt shell status result frame.now
        (λ limits. place_command limits (view.command command.now) frame.now) }
    ensures room { HasRoom result frame.now }
{
    match command {
        Command::Simple(call) => Next::Calls(call),
        Command::Assign(values) => Next::Assigns(values),
        Command::If { arms, other } => begin_arms(frame, shell, status, arms, other, 0),
        Command::Loop {
            until: _,
            cond,
            body: _,
        } => begin_loop(frame, cond, 0),
        Command::For {
            name,
            words,
            body: _,
        } => Next::Loops(name, words),
    }
}
