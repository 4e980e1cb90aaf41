//! What a list of a script does next.
ghost use Rattle.std.specs.Prelude.{◌≡◌, ◌+◌, ◌<◌, ◌^◌};
ghost use Rattle.hushlang.specs.TreesShown as view;
ghost use Rattle.rehearse_rules.specs.Execution.{goes};
ghost use Rattle.rehearse_machine.specs.Places.{place_begins};
ghost use Rattle.rehearse_machine.specs.NextMoves.{ContinuesAt, HasRoom};

use crate::by_shell::skips_rest;
use crate::frames::{behind, place};
use crate::next_move::Next;
use crate::scripts::begin_command;
use bootstore_state::Frame;
use hushlang::{AndOr, Op};
use rehearse_terms::Shell;

/// Whether the command after an operator runs with this status.
#[inline(always)]
fn goes(op: Op, status: u8) -> bool
    ensures { result ≡ goes op status }
{
    match op {
        Op::And => status == 0,
        Op::Or => status != 0,
    }
}

/// The command that the place names in a list begins, or the frame goes on after the list if it has
/// ended.
pub(crate) fn begin_in_list<'l>(
    frame: &Frame,
    shell: Shell,
    status: u8,
    list: &'l AndOr,
) -> Next<'l>
    requires { frame.now.place.list + 1 < 2 ^ 64 }
    ensures next { ContinuesAt shell status result frame.now (λ limits.
        place_begins limits (view.list list.now) frame.now.place.command frame.now) }
    ensures room { HasRoom result frame.now }
{
    let at = frame.at();
    if at.command == 0 {
        return begin_command(frame, shell, status, &list.first);
    }
    let Some((op, command)) = list.rest.get(at.command - 1) else {
        return Next::Goes(place(at.list + 1, 0));
    };
    if goes(*op, status) {
        return begin_command(frame, shell, status, command);
    }
    if skips_rest(shell) {
        Next::Goes(place(at.list + 1, 0))
    } else {
        Next::Goes(behind(at))
    }
}
