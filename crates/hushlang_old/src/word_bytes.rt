//! The bytes of words with their values put in, and the text of a command.
ghost use Rattle.std.specs.Prelude.{◌≡◌, ◌++◌, ◌∷◌, map, IfOk, OnOk};
ghost use Rattle.std.specs.List.{list_any};
ghost use Rattle.hushlang.specs.Expansion as expansion;
ghost use Rattle.hushlang.specs.TreesShown as view;
ghost use Rattle.hushlang_old.specs.Defaults as defaults;
ghost use Rattle.hushlang_old.specs.OldFields as says;
ghost use Rattle.hushlang_uboot.specs.ReadBytes.{is_newline};

use crate::constant::is_constant_word;
use crate::defaults::{behind_variable, variable_of, with_default};
use hushlang::{Piece, Vars, Word};
use hushlang_uboot::have_quotes;
use itoa::Buffer;
use std::alloc::{AllocError, Global};

/// Adds what a variable expands to, by what is in its braces, to the end of some bytes.
fn append_value<V: Vars>(bytes: &mut Vec<u8>, inside: &[u8], vars: &V) -> Result<(), AllocError>
    ensures { OnOk result (bytes.new.items ≡ bytes.old.items
        ++ defaults.found_value (V.parameters vars.now) inside.now) }
{
    let value = match vars.get(variable_of(inside)) {
        Some(value) => value,
        None => b"".as_slice(),
    };
    bytes.extend_from_slice(with_default(value, behind_variable(inside)))
}

/// Adds all bytes of a piece to the end of some bytes.
#[tactic(auto, using(hushlang::proofs::ExpandLemmas::uncut))]
fn append_piece<V: Vars>(bytes: &mut Vec<u8>, piece: &Piece, vars: &V) -> Result<(), AllocError>
    ensures { OnOk result (bytes.new.items ≡ bytes.old.items
        ++ expansion.all_bytes
        (expansion.atoms_of_piece (defaults.looked_up (V.parameters vars.now)) (view.piece piece.now))) }
{
    match piece {
        Piece::Bytes(more) => bytes.extend_from_slice(more),
        Piece::Mark => Ok(()),
        Piece::Var { name, split: _ } => append_value(bytes, name, vars),
        Piece::Status => bytes.extend_from_slice(Buffer::new().format(vars.status()).as_bytes()),
    }
}

/// All bytes of a word, uncut.
pub(crate) fn joined<V: Vars>(alloc: Global, word: &Word, vars: &V) -> Result<Vec<u8>, AllocError>
    ensures { IfOk result (λ bytes.
        bytes.items ≡ expansion.joined (defaults.looked_up (V.parameters vars.now)) (view.word word.now)) }
{
    let mut bytes = Vec::new(alloc);
    for piece in &word.pieces {
        append_piece(&mut bytes, piece, vars)?;
    }
    Ok(bytes)
}

fn newline_to_space(byte: u8) -> u8
    ensures { result ≡ says.newline_to_space byte }
{
    if byte == b'\n' { b' ' } else { byte }
}

/// Makes each newline a space.
fn newlines_to_spaces(alloc: Global, bytes: &[u8]) -> Result<Vec<u8>, AllocError>
    ensures { IfOk result (λ made. made.items ≡ map says.newline_to_space bytes.now) }
{
    bytes
        .iter()
        .map(|byte| newline_to_space(*byte))
        .collect(alloc)
}

/// All bytes of a word; if it has a variable, each newline in it is a space then.
pub fn inserted<V: Vars>(alloc: Global, word: &Word, vars: &V) -> Result<Vec<u8>, AllocError>
    ensures { IfOk result (λ bytes.
        bytes.items ≡ says.inserted (V.parameters vars.now) (view.word word.now)) }
{
    let bytes = joined(alloc, word, vars)?;
    if is_constant_word(word) {
        return Ok(bytes);
    }
    newlines_to_spaces(alloc, &bytes)
}

/// Adds a word to the text of a command.
fn append_word<V: Vars>(
    alloc: Global,
    text: &mut Vec<u8>,
    word: &Word,
    vars: &V,
) -> Result<(), AllocError>
    ensures { OnOk result (text.new.items ≡ text.old.items
        ++ 32 ∷ says.word_text (V.parameters vars.now) (view.word word.now)) }
{
    let bytes = inserted(alloc, word, vars)?;
    text.push(b' ')?;
    if !have_quotes(&word.pieces) {
        text.extend_from_slice(&bytes)?;
        return Ok(());
    }
    text.push(b'\'')?;
    text.extend_from_slice(&bytes)?;
    text.push(b'\'')?;
    Ok(())
}

/// Whether a newline is among some bytes.
fn has_newline(bytes: &[u8]) -> bool
    ensures { result ≡ list_any is_newline bytes.now }
{
    bytes.iter().any(|byte| *byte == b'\n')
}

/// The text of a command that is read a second time.
pub(crate) fn command_text<V: Vars>(
    alloc: Global,
    words: &[Word],
    vars: &V,
) -> Result<Vec<u8>, AllocError>
    ensures { IfOk result (λ text.
        text.items ≡ says.command_text (V.parameters vars.now) (map view.word words.now)) }
{
    let mut text = Vec::new(alloc);
    for word in words {
        append_word(alloc, &mut text, word, vars)?;
    }
    if has_newline(&text) {
        text.push(b'\n')?;
    }
    text.push(b'\n')?;
    Ok(text)
}
