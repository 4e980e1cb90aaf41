//! Which names no variable of a script has.
ghost use Rattle.std.specs.Prelude.{◌≡◌};
ghost use Rattle.commands.specs.VariableNames as says;

/// Whether no variable has this name: it is empty, contains `=`, or starts with `-`.
pub fn is_bad_name(name: &[u8]) -> bool
    ensures { result ≡ says.is_bad_name name.now }
{
    match name {
        [] => true,
        [first, behind @ ..] => *first == b'-' || *first == b'=' || behind.contains(&b'='),
    }
}
