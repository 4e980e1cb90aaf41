//! What a word says: a reserved word, a name, an assignment, or a word of a command.
ghost use Rattle.std.specs.Prelude.{◌≡◌, ◌≤◌, map, length, IfOk};
ghost use Rattle.std.specs.List.{list_all, prefix_len};
ghost use Rattle.text.specs.TextsShown.{option_bytes};
ghost use Rattle.hushlang.specs.TreesShown as view;
ghost use Rattle.hushlang_old.specs.OldTokens as classes;
ghost use Rattle.hushlang_old.specs.OldTokensShown as shown;
ghost use Rattle.hushlang_old.specs.OldTrees as says;
ghost use Rattle.hushlang_old.specs.OldTreesShown.{IsCutAtEquals};

use crate::old_tokens::{FoundWord, is_letter, is_name_byte};
use hushlang::{Command, Piece, Word};
use hushlang_uboot::{
    Reserved, are_constant_pieces, call_of, only_bytes, reserved_bytes, without_first,
};
use std::alloc::{AllocError, Global};

/// Whether no variable and no status can change a word.
#[tactic(auto, using(hushlang_uboot::proofs::WordLemmas::all_of_pieces))]
pub(crate) fn is_constant_word(word: &FoundWord) -> bool
    ensures { result ≡ says.is_constant_word (shown.word word.now) }
{
    are_constant_pieces(&word.pieces)
}

/// The reserved word that a word is.
pub(crate) fn reserved_in(word: &FoundWord) -> Option<Reserved>
    ensures { result ≡ says.reserved_in (shown.word word.now) }
{
    if word.escaped {
        return None;
    }
    match only_bytes(&word.pieces) {
        Some(bytes) => reserved_bytes(bytes),
        None => None,
    }
}

fn is_name_of_shell(name: &[u8]) -> bool
    ensures { result ≡ says.is_name_of_shell name.now }
{
    name == b"HUSH_VERSION".as_slice() || name == b"HUSH_NO_EVAL".as_slice()
}

fn begins_with_letter(bytes: &[u8]) -> bool
    ensures { result ≡ says.begins_with_letter bytes.now }
{
    match bytes {
        [byte, ..] => is_letter(*byte),
        [] => false,
    }
}

fn are_name_bytes(bytes: &[u8]) -> bool
    ensures { result ≡ list_all classes.is_name_byte bytes.now }
{
    bytes.iter().all(|byte| is_name_byte(*byte))
}

/// A letter, and then letters, digits and `_`.
fn is_name(bytes: &[u8]) -> bool
    ensures { result ≡ says.is_name bytes.now }
{
    begins_with_letter(bytes) && are_name_bytes(bytes)
}

/// The name of a `for`.
pub(crate) fn name_in(word: &FoundWord) -> Option<&[u8]>
    ensures { option_bytes result ≡ says.name_in (shown.word word.now) }
{
    match only_bytes(&word.pieces) {
        Some(bytes)
            if is_name(bytes) && !reserved_bytes(bytes).is_some() && !is_name_of_shell(bytes) => {
            Some(bytes)
        }
        _ => None,
    }
}

fn is_misname_byte(byte: u8) -> bool
    ensures { result ≡ says.is_misname_byte byte }
{
    is_name_byte(byte) || byte == b'-' || byte == b'.'
}

fn are_misname_bytes(bytes: &[u8]) -> bool
    ensures { result ≡ list_all says.is_misname_byte bytes.now }
{
    bytes.iter().all(|byte| is_misname_byte(*byte))
}

/// Whether a word for the name of a `for` is none.
fn is_misname(bytes: &[u8]) -> bool
    ensures { result ≡ says.is_misname bytes.now }
{
    !bytes.is_empty() && are_misname_bytes(bytes) && !is_name(bytes)
}

/// A word for the name of a `for` that is none.
pub(crate) fn misname_in(word: &FoundWord) -> Option<&[u8]>
    ensures { option_bytes result ≡ says.misname_in (shown.word word.now) }
{
    if word.escaped {
        return None;
    }
    match only_bytes(&word.pieces) {
        Some(bytes) if is_misname(bytes) => Some(bytes),
        _ => None,
    }
}

/// The command that such a word and a `=` are.
#[tactic(auto, using(hushlang::proofs::ViewLemmas::what_it_says))]
pub(crate) fn no_assignment(alloc: Global, misname: Vec<u8>) -> Result<Command, AllocError>
    ensures { IfOk result (λ command. view.command command ≡ says.no_assignment misname.items) }
{
    let mut bytes = misname;
    bytes.push(b'=')?;
    let mut pieces = Vec::new(alloc);
    pieces.push(Piece::Bytes(bytes))?;
    let mut words = Vec::new(alloc);
    words.push(Word { pieces })?;
    Ok(Command::Simple(call_of(alloc, words)?))
}

/// How many bytes at the start of some bytes may be in a name.
fn name_len(bytes: &[u8]) -> usize
    ensures value { result ≡ prefix_len classes.is_name_byte bytes.now }
    ensures within { result ≤ length bytes.now }
{
    bytes.iter().take_while(|byte| is_name_byte(**byte)).count()
}

/// The name of an assignment, and what is after its `=` in the first bytes of the word.
#[tactic(auto, unfolding(crate::specs::OldTrees::assignment))]
fn halves(word: &FoundWord) -> Option<(&[u8], &[u8])>
    ensures { IsCutAtEquals (shown.word word.now) result }
{
    let Some(Piece::Bytes(bytes)) = word.pieces.first() else {
        return None;
    };
    if !begins_with_letter(bytes) {
        return None;
    }
    let (name, rest) = bytes.split_at(name_len(bytes));
    match rest {
        [b'=', value @ ..] => Some((name, value)),
        _ => None,
    }
}

/// Whether a word is an assignment.
pub(crate) fn is_assignment(word: &FoundWord) -> bool
    ensures { result ≡ says.is_assignment (shown.word word.now) }
{
    halves(word).is_some()
}

/// Whether a word is an assignment by which the shell changes.
pub(crate) fn changes_shell(word: &FoundWord) -> bool
    ensures { result ≡ says.changes_shell (shown.word word.now) }
{
    match halves(word) {
        Some((name, _)) => is_name_of_shell(name),
        None => false,
    }
}

/// The name and the value of an assignment.
fn value_of(alloc: Global, word: FoundWord) -> Result<(Vec<u8>, Word), AllocError>
    ensures { IfOk result (λ value. view.value value ≡ says.value_of (shown.word word)) }
{
    let Some((name, value)) = halves(&word) else {
        let pieces = Vec::new(alloc);
        return Ok((Vec::new(alloc), Word { pieces }));
    };
    let name = name.to_vec(alloc)?;
    let value = value.to_vec(alloc)?;
    let mut pieces = without_first(word.pieces);
    if !value.is_empty() {
        pieces.insert(0, Piece::Bytes(value))?;
    }
    Ok((name, Word { pieces }))
}

/// A word of a command.
fn word_of(word: FoundWord) -> Result<Word, AllocError>
    ensures { IfOk result (λ made. view.word made ≡ says.word_of (shown.word word)) }
{
    let mut word = word;
    if word.quoted {
        word.pieces.insert(0, Piece::Mark)?;
    }
    Ok(Word {
        pieces: word.pieces,
    })
}

/// The words of a command.
pub(crate) fn words_of(alloc: Global, found: Vec<FoundWord>) -> Result<Vec<Word>, AllocError>
    ensures { IfOk result (λ words. view.words_in words ≡ map says.word_of (map shown.word found.items)) }
{
    let mut words = Vec::new(alloc);
    for word in found.into_iter() {
        words.push(word_of(word)?)?;
    }
    Ok(words)
}

/// The names and the values of assignments.
pub(crate) fn values_of(
    alloc: Global,
    found: Vec<FoundWord>,
) -> Result<Vec<(Vec<u8>, Word)>, AllocError>
    ensures { IfOk result (λ values. view.values_in values ≡ map says.value_of (map shown.word found.items)) }
{
    let mut values = Vec::new(alloc);
    for word in found.into_iter() {
        values.push(value_of(alloc, word)?)?;
    }
    Ok(values)
}
