//! The commands that a device list may have computed: how their words are evaluated.
ghost use Rattle.std.specs.Prelude.{◌≡◌, ◌==◌, option_map};
ghost use Rattle.std.specs.List.{list_all};
ghost use Rattle.text.specs.Bytes as ascii;
ghost use Rattle.commands.specs.KnownCommandsShown.{known_shown};
ghost use Rattle.commands.specs.Computed as says;
ghost use Rattle.commands.specs.ComputedShown.{computed_shown, call_shown};
ghost use Rattle.commands.specs.TextsShown.{texts};

use crate::hexadecimal::hexadecimal;
use crate::itest::itest;
use crate::known_commands::Known;
use crate::setexpr::setexpr;

/// The result of a computed call.
#[derive(Clone, Copy, Debug)]
pub enum Computed<'a> {
    /// A status.
    Gives(u8),
    /// Status 0 if this environment variable is set, else 1.
    Exists(&'a [u8]),
    /// What `setenv` does with these words.
    Sets(&'a [Vec<u8>]),
    /// These environment variables are deleted. Status 1 if one of them is not set.
    Deletes(&'a [Vec<u8>]),
    /// This environment variable is set to this number, in hexadecimal.
    SetsNumber(&'a [u8], u64),
}

/// Whether a word is an option.
fn is_option(word: &[u8]) -> bool
    ensures { result ≡ says.is_option word.now }
{
    match word {
        [first, ..] => *first == b'-',
        [] => false,
    }
}

/// Whether all letters are `f`.
fn are_f(letters: &[u8]) -> bool
    ensures { result ≡ list_all (λ letter. letter == ascii.small_f) letters.now }
{
    letters.iter().all(|letter| *letter == b'f')
}

/// Whether an option is `-f`, or has no other letters.
fn forces(option: &[u8]) -> bool
    ensures { result ≡ says.forces option.now }
{
    match option {
        [_, letters @ ..] => are_f(letters),
        [] => true,
    }
}

/// The words after the options, if each option is `-f`.
fn behind_options(words: &[Vec<u8>]) -> Option<&[Vec<u8>]>
    ensures { option_map (λ rest. texts rest.now) result ≡ says.behind_options (texts words.now) }
{
    let mut rest = words;
    while let Some((first, more)) = rest.split_first() {
        if !is_option(first) {
            return Some(rest);
        }
        if !forces(first) {
            return None;
        }
        rest = more;
    }
    Some(rest)
}

/// `env exists`.
fn env_exists(words: &[Vec<u8>]) -> Computed<'_>
    ensures { computed_shown result ≡ says.env_exists (texts words.now) }
{
    match words {
        [] => Computed::Gives(1),
        [name, ..] => Computed::Exists(name),
    }
}

/// `env set`.
fn env_set(words: &[Vec<u8>]) -> Computed<'_>
    ensures { computed_shown result ≡ says.with_options says.Sets (texts words.now) }
{
    match behind_options(words) {
        Some(rest) => Computed::Sets(rest),
        None => Computed::Gives(1),
    }
}

/// `env delete`.
fn env_delete(words: &[Vec<u8>]) -> Computed<'_>
    ensures { computed_shown result ≡ says.with_options says.Deletes (texts words.now) }
{
    match behind_options(words) {
        Some(rest) => Computed::Deletes(rest),
        None => Computed::Gives(1),
    }
}

/// `env`: its subcommands `exists`, `set` and `delete`.
fn env(words: &[Vec<u8>]) -> Option<Computed<'_>>
    ensures { call_shown result ≡ says.env (texts words.now) }
{
    let [subcommand, rest @ ..] = words else {
        return Some(Computed::Gives(1));
    };
    if subcommand.as_slice() == b"exists".as_slice() {
        Some(env_exists(rest))
    } else if subcommand.as_slice() == b"set".as_slice() {
        Some(env_set(rest))
    } else if subcommand.as_slice() == b"delete".as_slice() {
        Some(env_delete(rest))
    } else {
        None
    }
}

/// The number that an operand is, unless it is read from memory.
pub(crate) fn operand(word: &[u8]) -> Option<u64>
    ensures { result ≡ says.operand word.now }
{
    match word {
        [] => Some(0),
        [b'*', ..] => None,
        _ => Some(hexadecimal(word)),
    }
}

/// The result of the words of a command, if they can be computed.
pub fn computes(known: Known, words: &[Vec<u8>]) -> Option<Computed<'_>>
    ensures { call_shown result ≡ says.computes (known_shown known) (texts words.now) }
{
    match known {
        Known::Env => env(words),
        Known::Itest => itest(words),
        Known::SetExpr => setexpr(words),
    }
}
