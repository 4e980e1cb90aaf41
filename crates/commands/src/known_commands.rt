//! The commands that a device list may have computed: the one list of their names.
ghost use Rattle.std.specs.Prelude.{◌≡◌, option_map};
ghost use Rattle.commands.specs.KnownCommands as says;
ghost use Rattle.commands.specs.KnownCommandsShown.{known_shown};

/// A command that a device list may have computed.
#[derive(Clone, Copy)]
pub enum Known {
    Env,
    Itest,
    SetExpr,
}

/// The command of a name, if a device list may have it computed.
pub fn known_of(name: &[u8]) -> Option<Known>
    ensures { option_map known_shown result ≡ says.known_of name.now }
{
    if name == b"env".as_slice() {
        Some(Known::Env)
    } else if name == b"itest".as_slice() {
        Some(Known::Itest)
    } else if name == b"setexpr".as_slice() {
        Some(Known::SetExpr)
    } else {
        None
    }
}
