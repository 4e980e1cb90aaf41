//! What the innermost frame starts with its next move.
ghost use Rattle.std.specs.Prelude.{◌≡◌, ℕ};
ghost use Rattle.rehearse_rules.specs.Execution.{goes};
ghost use Rattle.rehearse_reports.specs.Begins.{BeginsBy, BeginsWith, NamesText};
ghost use Rattle.bootstore_state.specs.declared.frame.FrameKind.TheVariants as kinds;

use bootstore_state::{Frame, FrameKind};
use hushlang::{Command, Op};
use rehearse_machine::command_of;

/// What a frame starts with its next move.
#[derive(Clone, Copy)]
pub(crate) enum Begins<'a> {
    /// Nothing that reads or writes more than the status.
    Nothing,
    /// A command.
    Command(&'a Command),
    /// A turn of a `for` whose variable has this name.
    Turn(&'a [u8]),
    /// The text of the variable of this name.
    Text(&'a [u8]),
}

/// Whether the command after an operator runs with this status.
fn goes(op: Op, status: u8) -> bool
    ensures { result ≡ goes op status }
{
    match op {
        Op::And => status == 0,
        Op::Or => status != 0,
    }
}

/// What a frame that runs a script begins: the command at its place, if one begins there.
fn begins_in_script(frame: &Frame, status: u8) -> Begins<'_>
    ensures { BeginsBy kinds.Text result frame.now status }
{
    let at = frame.at();
    let script = frame.script();
    let Some(list) = script.lists.get(at.list) else {
        return Begins::Nothing;
    };
    if at.turn != 0 {
        return Begins::Nothing;
    }
    if at.command == 0 {
        return Begins::Command(&list.first);
    }
    match list.rest.get(at.command - 1) {
        Some((op, command)) => {
            if goes(*op, status) {
                Begins::Command(command)
            } else {
                Begins::Nothing
            }
        }
        None => Begins::Nothing,
    }
}

/// What a `for` begins: its next turn, if a field is left.
fn begins_in_for(frame: &Frame) -> Begins<'_>
    ensures { (status : ℕ) → BeginsBy kinds.For result frame.now status }
{
    let at = frame.at();
    let script = frame.script();
    let Some(list) = script.lists.get(at.list) else {
        return Begins::Nothing;
    };
    let Some(command) = command_of(list, at.command) else {
        return Begins::Nothing;
    };
    let Command::For {
        name,
        words: _,
        body: _,
    } = command
    else {
        return Begins::Nothing;
    };
    match frame.words().get(at.turn) {
        Some(_) => Begins::Turn(name),
        None => Begins::Nothing,
    }
}

/// The text of the next name of a `run`, if one is left.
fn next_text(frame: &Frame) -> Begins<'_>
    ensures { NamesText result frame.now }
{
    let at = frame.at();
    match frame.words().get(at.turn) {
        Some(name) => Begins::Text(name),
        None => Begins::Nothing,
    }
}

/// What a `run` begins: the text of its next name, if it is the first or the text before it ended with
/// status 0.
fn begins_in_run(frame: &Frame, status: u8) -> Begins<'_>
    ensures { BeginsBy kinds.Run result frame.now status }
{
    if frame.at().turn == 0 {
        return next_text(frame);
    }
    if status == 0 {
        return next_text(frame);
    }
    Begins::Nothing
}

/// What a frame starts with its next move, at this status.
pub(crate) fn begins_in(frame: &Frame, status: u8) -> Begins<'_>
    ensures { BeginsWith result frame.now status }
{
    match frame.kind() {
        FrameKind::Text => begins_in_script(frame, status),
        FrameKind::Block => begins_in_script(frame, status),
        FrameKind::For => begins_in_for(frame),
        FrameKind::Run => begins_in_run(frame, status),
        FrameKind::File => Begins::Nothing,
    }
}
