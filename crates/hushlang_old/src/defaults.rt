//! What is in the braces of a variable: its name, and what it expands to by its value.
ghost use Rattle.std.specs.Prelude.{◌≡◌, ◌≤◌, length};
ghost use Rattle.std.specs.List.{prefix_len};
ghost use Rattle.hushlang_old.specs.Defaults as says;

/// How many bytes are in front of the first colon.
fn name_len(inside: &[u8]) -> usize
    ensures value { result ≡ prefix_len says.is_no_colon inside.now }
    ensures within { result ≤ length inside.now }
{
    inside.iter().take_while(|byte| **byte != b':').count()
}

/// The variable.
#[tactic(auto, unfolding(crate::specs::Defaults::variable_of))]
pub fn variable_of(inside: &[u8]) -> &[u8]
    ensures { result.now ≡ says.variable_of inside.now }
{
    &inside[..name_len(inside)]
}

/// What is after the name of the variable.
#[tactic(auto, unfolding(crate::specs::Defaults::behind_variable))]
pub fn behind_variable(inside: &[u8]) -> &[u8]
    ensures { result.now ≡ says.behind_variable inside.now }
{
    &inside[name_len(inside)..]
}

/// What is in the place of a value, by what is after the name.
pub(crate) fn with_default<'a>(value: &'a [u8], rest: &'a [u8]) -> &'a [u8]
    ensures { result.now ≡ says.with_default value.now rest.now }
{
    match rest {
        [_, b'-', default @ ..] => { if value.is_empty() { default } else { value } }
        [_, b'+', default @ ..] => {
            if value.is_empty() {
                default
            } else {
                b"".as_slice()
            }
        }
        _ => value,
    }
}

/// Whether the variable is set too.
pub(crate) fn sets_variable(inside: &[u8]) -> bool
    ensures { result ≡ says.sets_variable inside.now }
{
    match behind_variable(inside) {
        [_, b'=', ..] => true,
        _ => false,
    }
}
