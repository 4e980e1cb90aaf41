//! What a call of `env import` asks for.
ghost use Rattle.std.specs.Prelude.{◌≡◌, ◌==◌};
ghost use Rattle.std.specs.List.{list_any};
ghost use Rattle.commands.specs.TextsShown.{texts};
ghost use Rattle.device_list.specs.Imports as spec;

use crate::device_tables::is_among;
use crate::setting::Reading;

/// Whether a word is a flag.
fn is_flag(word: &[u8]) -> bool
    ensures { result ≡ spec.is_flag word.now }
{
    match word {
        [first, ..] => *first == b'-',
        [] => false,
    }
}

/// The words after `import`.
fn behind_import(words: &[Vec<u8>]) -> &[Vec<u8>]
    ensures { texts result.now ≡ spec.behind_import (texts words.now) }
{
    match words {
        [first, rest @ ..] if first.as_slice() == b"import".as_slice() => rest,
        _ => &[],
    }
}

/// Whether a word has a letter.
fn holds(word: &[u8], letter: u8) -> bool
    ensures { result ≡ list_any (λ b. b == letter) word.now }
{
    word.iter().any(|byte| *byte == letter)
}

/// Whether one of the flags in front has a letter.
fn has_letter(words: &[Vec<u8>], letter: u8) -> bool
    ensures { result ≡ spec.has_letter letter (texts words.now) }
{
    for word in words {
        if !is_flag(word) {
            return false;
        }
        if holds(word, letter) {
            return true;
        }
    }
    false
}

/// The words after the flags.
fn behind_flags(words: &[Vec<u8>]) -> &[Vec<u8>]
    ensures { texts result.now ≡ spec.behind_flags (texts words.now) }
{
    let mut left = words;
    while let Some((word, rest)) = left.split_first() {
        if !is_flag(word) {
            return left;
        }
        left = rest;
    }
    left
}

/// The names after the address and the size.
fn names_asked(words: &[Vec<u8>]) -> &[Vec<u8>]
    ensures { texts result.now ≡ spec.names_asked (texts words.now) }
{
    match behind_flags(words) {
        [_, _, names @ ..] => names,
        _ => &[],
    }
}

/// Whether a text is read, and nothing is deleted that it does not name.
fn reads_text(words: &[Vec<u8>]) -> bool
    ensures { result ≡ spec.reads_text (texts words.now) }
{
    !(has_letter(words, b'b') || has_letter(words, b'c') || has_letter(words, b'd'))
}

/// Whether an entry is one of the reading with or without `-r`, of a call that names a size or not.
fn is_of(reading: Reading, option: bool, named: bool) -> bool
    ensures { result ≡ spec.is_of reading option named }
{
    match reading {
        Reading::Both => true,
        Reading::WithReturns => !option,
        Reading::WithoutReturns => option && named,
        Reading::Unsized => option && !named,
    }
}

/// Whether the word after the address is a size, and not a `-` in its place.
fn names_size(behind: &[Vec<u8>]) -> bool
    ensures { result ≡ spec.names_size (texts behind.now) }
{
    match behind {
        [_, size, ..] => size.as_slice() != b"-".as_slice(),
        _ => false,
    }
}

/// Whether an entry is one that is asked for.
#[tactic(auto, using(commands::proofs::ComputedLemmas::any_text))]
fn is_asked(names: &[Vec<u8>], name: &[u8], first: bool) -> bool
    ensures { result ≡ spec.is_asked (texts names.now) name.now first }
{
    if names.is_empty() {
        return true;
    }
    first && is_among(names, name)
}

/// Whether a call with these words takes an entry of a text that `env import` reads. Takes no memory.
pub fn takes(words: &[Vec<u8>], name: &[u8], reading: Reading, first: bool) -> bool
    ensures { result ≡ spec.takes (texts words.now) name.now reading first }
{
    let words = behind_import(words);
    reads_text(words)
        && is_of(
            reading,
            has_letter(words, b'r'),
            names_size(behind_flags(words)),
        )
        && is_asked(names_asked(words), name, first)
}
