//! What a word says: a reserved word, a name, an assignment, or a word of a command.
ghost use Rattle.std.specs.Prelude.{◌≡◌, ◌++◌, ◌≤◌, map, length, IfOk, OnOk};
ghost use Rattle.std.specs.List.{list_any, prefix_len};
ghost use Rattle.text.specs.TextsShown.{option_bytes};
ghost use Rattle.hushlang.specs.ByteClasses as classes;
ghost use Rattle.hushlang.specs.TreesShown as view;
ghost use Rattle.hushlang.specs.WordPieces.{in_piece};
ghost use Rattle.hushlang_modern.specs.ModernTokensShown as shown;
ghost use Rattle.hushlang_modern.specs.ModernWords as says;
ghost use Rattle.hushlang_modern.specs.ModernWordsShown.{IsCutAtEquals};

use crate::byte_classes::{is_name, is_name_byte};
use crate::modern_tokens::FoundWord;
use crate::word_bytes::without_guards;
use hushlang::{Piece, Word};
use hushlang_uboot::{
    Reserved, are_constant_pieces, have_quotes, only_bytes, reserved_bytes, unescaped,
    without_first,
};
use std::alloc::{AllocError, Global};

fn is_lasting(piece: &Piece) -> bool
    ensures { result ≡ says.is_lasting (view.piece piece.now) }
{
    match piece {
        Piece::Bytes(bytes) => !bytes.is_empty(),
        Piece::Mark | Piece::Status => true,
        Piece::Var { name: _, split: _ } => false,
    }
}

/// Whether a piece makes a word a field, whatever the variables are.
pub(crate) fn have_lasting(pieces: &[Piece]) -> bool
    ensures { result ≡ list_any (λ piece. says.is_lasting (view.piece piece)) pieces.now }
{
    pieces.iter().any(|piece| is_lasting(piece))
}

/// Whether a word is a field, whatever the variables are.
#[tactic(auto, using(hushlang_uboot::proofs::WordLemmas::any_of_map))]
pub(crate) fn is_sure(word: &FoundWord) -> bool
    ensures { result ≡ says.is_sure (shown.word word.now) }
{
    have_lasting(&word.pieces)
}

/// The bytes of a word that has no quotes, no backslash and no variable.
fn bare_bytes(word: &FoundWord) -> Option<&[u8]>
    ensures { option_bytes result ≡ says.bare_bytes (shown.word word.now) }
{
    if word.quoted {
        return None;
    }
    only_bytes(&word.pieces)
}

/// The reserved word that a word is.
pub(crate) fn reserved_in(word: &FoundWord) -> Option<Reserved>
    ensures { result ≡ says.reserved_in (shown.word word.now) }
{
    match bare_bytes(word) {
        Some(bytes) => reserved_bytes(bytes),
        None => None,
    }
}

/// Whether a word is `!`, `{` or `}`.
pub(crate) fn is_sign(word: &FoundWord) -> bool
    ensures { result ≡ says.is_sign (shown.word word.now) }
{
    match bare_bytes(word) {
        Some([byte]) => *byte == b'!' || *byte == b'{' || *byte == b'}',
        _ => false,
    }
}

/// Whether a word is `!`.
pub(crate) fn is_exclamation(word: &FoundWord) -> bool
    ensures { result ≡ says.is_exclamation (shown.word word.now) }
{
    match bare_bytes(word) {
        Some([byte]) => *byte == b'!',
        _ => false,
    }
}

/// The reserved word that a brace is.
fn brace_of(byte: u8) -> Option<Reserved>
    ensures { result ≡ says.brace_of byte }
{
    match byte {
        b'{' => Some(Reserved::OpenBrace),
        b'}' => Some(Reserved::CloseBrace),
        _ => None,
    }
}

/// The brace that a word is, as a reserved word.
fn brace_in(word: &FoundWord) -> Option<Reserved>
    ensures { result ≡ says.brace_among (says.bare_bytes (shown.word word.now)) }
{
    match bare_bytes(word) {
        Some([byte]) => brace_of(*byte),
        _ => None,
    }
}

/// The reserved word, or the brace, that a word is at the beginning of a command.
pub(crate) fn reserved_first(word: &FoundWord) -> Option<Reserved>
    ensures { result ≡ says.reserved_first (shown.word word.now) }
{
    match brace_in(word) {
        Some(brace) => Some(brace),
        None => reserved_in(word),
    }
}

/// The name of a `for`.
pub(crate) fn name_in(word: &FoundWord) -> Option<&[u8]>
    ensures { option_bytes result ≡ says.name_in (shown.word word.now) }
{
    match bare_bytes(word) {
        Some(bytes) if is_name(bytes) => Some(bytes),
        _ => None,
    }
}

/// Whether a name is one that is not followed.
pub(crate) fn is_strange(name: &[u8]) -> bool
    ensures { result ≡ says.is_strange name.now }
{
    name.is_empty() || name == b"IFS".as_slice()
}

/// How many bytes at the start of some bytes may be in a name.
fn name_len(bytes: &[u8]) -> usize
    ensures value { result ≡ prefix_len classes.is_name_byte bytes.now }
    ensures within { result ≤ length bytes.now }
{
    bytes.iter().take_while(|byte| is_name_byte(**byte)).count()
}

/// The name of an assignment, and what is after its `=` in the first bytes of the word.
#[tactic(auto, unfolding(crate::specs::ModernWords::assignment))]
fn halves(word: &FoundWord) -> Option<(&[u8], &[u8])>
    ensures { IsCutAtEquals (shown.word word.now) result }
{
    if !word.assigns {
        return None;
    }
    let Some(Piece::Bytes(bytes)) = word.pieces.first() else {
        return None;
    };
    let (name, rest) = bytes.split_at(name_len(bytes));
    match rest {
        [b'=', value @ ..] => Some((name, value)),
        _ => None,
    }
}

/// A piece of a value, without the backslashes of the shell.
fn unescaped_piece(alloc: Global, piece: Piece) -> Result<Piece, AllocError>
    ensures { IfOk result (λ made. view.piece made ≡ says.unescaped_piece (view.piece piece)) }
{
    match piece {
        Piece::Bytes(bytes) => Ok(Piece::Bytes(unescaped(alloc, &bytes)?)),
        piece => Ok(piece),
    }
}

/// Pieces of a value, without the backslashes of the shell.
fn unescaped_pieces(alloc: Global, pieces: Vec<Piece>) -> Result<Vec<Piece>, AllocError>
    ensures { IfOk result (λ made. map view.piece made.items
        ≡ map says.unescaped_piece (map view.piece pieces.items)) }
{
    let mut made = Vec::new(alloc);
    for piece in pieces.into_iter() {
        made.push(unescaped_piece(alloc, piece)?)?;
    }
    Ok(made)
}

/// Whether a word is an assignment where one may be.
pub(crate) fn is_assignment(word: &FoundWord) -> bool
    ensures { result ≡ says.is_assignment (shown.word word.now) }
{
    halves(word).is_some()
}

/// The name and the value of an assignment. Errors: memory ran out.
pub(crate) fn value_of(alloc: Global, word: FoundWord) -> Result<(Vec<u8>, Word), AllocError>
    ensures { IfOk result (λ value. view.value value ≡ says.value_of (shown.word word)) }
{
    let Some((name, value)) = halves(&word) else {
        let pieces = Vec::new(alloc);
        return Ok((Vec::new(alloc), Word { pieces }));
    };
    let name = name.to_vec(alloc)?;
    let value = unescaped(alloc, value)?;
    let mut pieces = unescaped_pieces(alloc, without_first(word.pieces))?;
    if !value.is_empty() {
        pieces.insert(0, Piece::Bytes(value))?;
    }
    Ok((name, Word { pieces }))
}

/// Quotes, if there are any among pieces.
#[tactic(auto, using(hushlang_uboot::proofs::WordLemmas::any_of_map))]
fn mark_of(alloc: Global, pieces: &[Piece]) -> Result<Vec<Piece>, AllocError>
    ensures { IfOk result (λ made. map view.piece made.items ≡ says.mark_of (map view.piece pieces.now)) }
{
    let mut made = Vec::new(alloc);
    if have_quotes(pieces) {
        made.push(Piece::Mark)?;
    }
    Ok(made)
}

/// Pieces with these bytes after them, if there are any.
fn with_bytes(pieces: Vec<Piece>, bytes: Vec<u8>) -> Result<Vec<Piece>, AllocError>
    ensures { IfOk result (λ made. map view.piece made.items
        ≡ map view.piece pieces.items ++ in_piece bytes.items) }
{
    let mut pieces = pieces;
    if bytes.is_empty() {
        return Ok(pieces);
    }
    pieces.push(Piece::Bytes(bytes))?;
    Ok(pieces)
}

/// The pieces of a word that nothing can change, as they say the bytes of its field.
fn settled(alloc: Global, pieces: &[Piece]) -> Result<Vec<Piece>, AllocError>
    ensures { IfOk result (λ made. map view.piece made.items ≡ says.settled (map view.piece pieces.now)) }
{
    let bytes = without_guards(alloc, bytes_of(alloc, pieces)?)?;
    with_bytes(mark_of(alloc, pieces)?, bytes)
}

/// A word of a command. Errors: memory ran out.
#[tactic(auto, using(hushlang_uboot::proofs::WordLemmas::all_of_pieces))]
fn word_of(alloc: Global, word: FoundWord) -> Result<Word, AllocError>
    ensures { IfOk result (λ made. view.word made ≡ says.word_of (shown.word word)) }
{
    if !are_constant_pieces(&word.pieces) {
        return Ok(Word {
            pieces: word.pieces,
        });
    }
    let pieces = settled(alloc, &word.pieces)?;
    Ok(Word { pieces })
}

/// The words of a command. Errors: memory ran out.
pub(crate) fn words_of(alloc: Global, found: Vec<FoundWord>) -> Result<Vec<Word>, AllocError>
    ensures { IfOk result (λ words. view.words_in words ≡ map says.word_of (map shown.word found.items)) }
{
    let mut words = Vec::new(alloc);
    for word in found.into_iter() {
        words.push(word_of(alloc, word)?)?;
    }
    Ok(words)
}

/// Whether a word is none, or goes wrong, where it is the first after `if`, `while` or `until`.
pub(crate) fn is_hazard(word: &FoundWord) -> bool
    ensures { result ≡ says.is_hazard (shown.word word.now) }
{
    match word.pieces.as_slice() {
        [] => true,
        [Piece::Bytes(bytes), ..] => begins_with_backslash(bytes),
        _ => false,
    }
}

fn begins_with_backslash(bytes: &[u8]) -> bool
    ensures { result ≡ classes.begins says.is_backslash bytes.now }
{
    match bytes {
        [byte, ..] => *byte == b'\\',
        [] => false,
    }
}

/// Adds the bytes of a piece.
fn append_bytes(bytes: &mut Vec<u8>, piece: &Piece) -> Result<(), AllocError>
    ensures { OnOk result (bytes.new.items ≡ bytes.old.items ++ says.bytes_of_piece (view.piece piece.now)) }
{
    match piece {
        Piece::Bytes(more) => bytes.extend_from_slice(more),
        Piece::Mark | Piece::Var { name: _, split: _ } | Piece::Status => Ok(()),
    }
}

/// The bytes of pieces, without values.
pub(crate) fn bytes_of(alloc: Global, pieces: &[Piece]) -> Result<Vec<u8>, AllocError>
    ensures { IfOk result (λ bytes. bytes.items ≡ says.bytes_of (map view.piece pieces.now)) }
{
    let mut bytes = Vec::new(alloc);
    for piece in pieces {
        append_bytes(&mut bytes, piece)?;
    }
    Ok(bytes)
}
