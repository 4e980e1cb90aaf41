//! What the fields of a simple command name, and whether it is read again. It is looked up before the
//! command is called, while the tree is at hand, since the tree keeps what was found.
ghost use Rattle.std.specs.Prelude.{◌≡◌, option_map};
ghost use Rattle.builtins.specs.Builtins.{builtin_named};
ghost use Rattle.builtins.specs.BuiltinsShown.{builtin_shown};
ghost use Rattle.hushlang.specs.Expansion as expansion;
ghost use Rattle.hushlang.specs.TreesShown as view;
ghost use Rattle.rehearse_rules.specs.ByShell.{fields_in, reads_again};
ghost use Rattle.text.specs.TextsShown.{bytes_of_words};

use builtins::{Builtin, builtin_named};
use device_list::Devices;
use hushlang::Call;
use rehearse_terms::Shell;

/// What fields name, and how they were found.
#[derive(Clone, Copy)]
pub(crate) struct Named {
    /// The built-in command, if they name one.
    pub(crate) builtin: Option<Builtin>,
    /// Where a device list is looked at first for another name.
    pub(crate) place: usize,
    /// Whether the command is read again: it has a variable or `$?` in its words.
    pub(crate) again: bool,
}

/// What the fields of a command name. In U-Boot's shells its name is looked up in the fields alone.
pub(crate) fn look_up(command: &Call, devices: &Devices, shell: Shell, fields: &[Vec<u8>]) -> Named
    ensures builtin { (p : expansion.Parameters)
        → bytes_of_words fields.now ≡ fields_in shell p (view.call command.now)
        → option_map builtin_shown result.builtin ≡ builtin_named (bytes_of_words fields.now) }
    ensures again { result.again ≡ reads_again (view.call command.now) }
{
    let builtin = match shell {
        Shell::Profile => command.builtin_in(fields),
        Shell::Old2023 | Shell::Old2025 | Shell::Modern2025 => builtin_named(fields),
    };
    let place = match (builtin, fields.first()) {
        (None, Some(name)) => near(command, devices, name),
        _ => usize::MAX,
    };
    let again = command.fields().is_none();
    Named {
        builtin,
        place,
        again,
    }
}

/// Where a device list is looked at first for the name of a command: a place that was found from
/// the one that was found last, and that the command keeps.
fn near(command: &Call, devices: &Devices, name: &[u8]) -> usize {
    let place = devices.place_near(name, command.place());
    command.note_place(place);
    place
}
