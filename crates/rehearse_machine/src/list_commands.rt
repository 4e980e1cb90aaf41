//! The commands of a list by their numbers.
ghost use Rattle.std.specs.Prelude.{◌≡◌, suc, ◌+◌, ◌<◌, ◌^◌, IsSome, option_map};
ghost use Rattle.hushlang.specs.TreesShown as view;
ghost use Rattle.rehearse_machine.specs.Places.{command_in};

use hushlang::{AndOr, Command};

/// The command of a list with this number.
#[inline(always)]
pub fn command_of(list: &AndOr, command: usize) -> Option<&Command>
    ensures value { option_map (λ found. view.command found.now) result
        ≡ command_in (view.list list.now) command }
    ensures within { IsSome result → command + 1 < 2 ^ 64 }
{
    if command == 0 {
        return Some(&list.first);
    }
    match list.rest.get(command - 1) {
        Some((_, command)) => Some(command),
        None => None,
    }
}

/// The command of a list after the one with this number.
pub(crate) fn command_behind(list: &AndOr, command: usize) -> Option<&Command>
    ensures { option_map (λ found. view.command found.now) result
        ≡ command_in (view.list list.now) (suc command) }
{
    match list.rest.get(command) {
        Some((_, command)) => Some(command),
        None => None,
    }
}
