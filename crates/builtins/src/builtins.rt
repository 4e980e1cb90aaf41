//! The built-in commands: the one list of their names.
ghost use Rattle.std.specs.Prelude.{◌≡◌, option_map};
ghost use Rattle.text.specs.TextsShown.{bytes_of_words};
ghost use Rattle.builtins.specs.Builtins as says;
ghost use Rattle.builtins.specs.BuiltinsShown.{builtin_shown};

/// A built-in command.
#[derive(Clone, Copy, Debug)]
pub enum Builtin {
    SetEnv,
    Run,
    Test,
    Echo,
    True,
    False,
    /// `exit`.
    Leave,
}

/// The built-in command of a name, if there is one.
pub fn builtin_of(name: &[u8]) -> Option<Builtin>
    ensures { option_map builtin_shown result ≡ says.builtin_of name.now }
{
    if name == b"setenv".as_slice() {
        Some(Builtin::SetEnv)
    } else if name == b"run".as_slice() {
        Some(Builtin::Run)
    } else if name == b"test".as_slice() {
        Some(Builtin::Test)
    } else if name == b"echo".as_slice() {
        Some(Builtin::Echo)
    } else if name == b"true".as_slice() {
        Some(Builtin::True)
    } else if name == b"false".as_slice() {
        Some(Builtin::False)
    } else if name == b"exit".as_slice() {
        Some(Builtin::Leave)
    } else {
        None
    }
}

/// Whether a name is a built-in command's.
pub fn is_built_in(name: &[u8]) -> bool
    ensures { result ≡ says.is_built_in name.now }
{
    builtin_of(name).is_some()
}

/// The built-in command that the first of fields names, if one does.
pub fn builtin_named(fields: &[Vec<u8>]) -> Option<Builtin>
    ensures { option_map builtin_shown result ≡ says.builtin_named (bytes_of_words fields.now) }
{
    match fields {
        [] => None,
        [name, ..] => builtin_of(name),
    }
}
