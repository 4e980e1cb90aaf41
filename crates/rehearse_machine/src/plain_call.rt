//! Calls as the shells make them: of U-Boot's `setenv`, without its options, and with as many words as a
//! call may have.
ghost use Rattle.std.specs.Prelude.{◌≡◌, ◌∷◌, ◌==◌, option_map};
ghost use Rattle.std.specs.List.{list_all};
ghost use Rattle.builtins.specs.Builtins.{builtin_of};
ghost use Rattle.builtins.specs.BuiltinsShown.{builtin_shown};
ghost use Rattle.rehearse_rules.specs.ByShell as says;
ghost use Rattle.text.specs.Bytes as bytes;
ghost use Rattle.text.specs.TextsShown.{bytes_of_words};

use crate::by_shell::{MOST_OLD_WORDS, MOST_WORDS};
use builtins::Builtin;
use rehearse_terms::Shell;

/// Whether a word is an option of `setenv`.
fn is_option(word: &[u8]) -> bool
    ensures { result ≡ says.is_option word.now }
{
    match word {
        [byte, ..] => *byte == b'-',
        [] => false,
    }
}

/// Whether these bytes are each an `f`.
fn are_force(letters: &[u8]) -> bool
    ensures { result ≡ list_all (λ letter. letter == bytes.small_f) letters.now }
{
    letters.iter().all(|letter| *letter == b'f')
}

/// Whether an option is one that `setenv` takes.
fn is_force(word: &[u8]) -> bool
    ensures { result ≡ says.is_force word.now }
{
    match word.split_first() {
        Some((_, letters)) => are_force(letters),
        None => false,
    }
}

/// The words of `setenv` after its options: none, if it does not take one of them.
fn behind_options(words: &[Vec<u8>]) -> &[Vec<u8>]
    ensures { bytes_of_words result.now ≡ says.behind_options (bytes_of_words words.now) }
{
    let [word, rest @ ..] = words else {
        return words;
    };
    if rest.is_empty() || !is_option(word) {
        return words;
    }
    if is_force(word) {
        behind_options(rest)
    } else {
        &[]
    }
}

/// The words of a call of `setenv` in U-Boot, which may have so many.
fn plain_words<'w>(most: usize, name: &[u8], words: &'w [Vec<u8>]) -> &'w [Vec<u8>]
    ensures { name.now ∷ bytes_of_words result.now
        ≡ says.plain_call most (name.now ∷ bytes_of_words words.now) }
{
    if name == b"setenv".as_slice() && words.len() <= most {
        behind_options(words)
    } else {
        words
    }
}

/// A call as a shell makes it.
#[derive(Clone, Copy)]
pub struct ShellCall<'c> {
    /// The name of the command.
    pub name: &'c [u8],
    /// The words after it.
    pub words: &'c [Vec<u8>],
    /// The built-in command that the name names, if it names one.
    pub builtin: Option<Builtin>,
}

/// A call in U-Boot 2025.01, which prints its usage if it has too many words, as `false` does.
fn bounded_call<'c>(name: &'c [u8], words: &'c [Vec<u8>], builtin: Option<Builtin>) -> ShellCall<'c>
    requires { option_map builtin_shown builtin ≡ builtin_of name.now }
    ensures call { result.name.now ∷ bytes_of_words result.words.now
        ≡ says.bounded_call (name.now ∷ bytes_of_words words.now) }
    ensures builtin { option_map builtin_shown result.builtin ≡ builtin_of result.name.now }
{
    if words.len() > MOST_WORDS {
        return ShellCall {
            name: b"false".as_slice(),
            words: &[],
            builtin: Some(Builtin::False),
        };
    }
    let words = plain_words(MOST_WORDS, name, words);
    ShellCall {
        name,
        words,
        builtin,
    }
}

/// A call as the shell makes it. `builtin` is the built-in command that the name names.
pub fn call_in<'c>(
    shell: Shell,
    name: &'c [u8],
    words: &'c [Vec<u8>],
    builtin: Option<Builtin>,
) -> ShellCall<'c>
    requires { option_map builtin_shown builtin ≡ builtin_of name.now }
    ensures call { result.name.now ∷ bytes_of_words result.words.now
        ≡ says.call_in shell (name.now ∷ bytes_of_words words.now) }
    ensures builtin { option_map builtin_shown result.builtin ≡ builtin_of result.name.now }
{
    match shell {
        Shell::Profile => ShellCall {
            name,
            words,
            builtin,
        },
        Shell::Old2023 => ShellCall {
            name,
            words: plain_words(MOST_OLD_WORDS, name, words),
            builtin,
        },
        Shell::Old2025 | Shell::Modern2025 => bounded_call(name, words, builtin),
    }
}
