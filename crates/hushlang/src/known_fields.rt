//! The fields of words that no variable and no status can change.
ghost use Rattle.std.specs.Prelude.{◌≡◌, map, IfOk, IfErr};
ghost use Rattle.std.specs.List.{list_all};
ghost use Rattle.hushlang.specs.KnownFields as spec;
ghost use Rattle.hushlang.specs.TreesShown as view;
ghost use Rattle.hushlang.specs.declared.token.SyntaxError.TheVariants.{Memory};

use crate::expanding::{ExpandError, Vars, expand};
use crate::token::SyntaxError;
use crate::tree::{Piece, Word};
use std::alloc::Global;
use std::rc::Rc;

/// No variable is set, and the status is 0.
struct NothingSet;

impl Vars for NothingSet {
    ghost use Rattle.hushlang.specs.KnownFields.{nothing_set};

    ghost parameters = { λ _. nothing_set };

    fn get(&self, _: &[u8]) -> Option<&[u8]> {
        None
    }

    fn status(&self) -> u8 {
        0
    }
}

/// Whether no variable and no status can change a piece.
fn is_constant(piece: &Piece) -> bool
    ensures { result ≡ spec.is_constant (view.piece piece.now) }
{
    match piece {
        Piece::Bytes(_) => true,
        Piece::Mark => true,
        Piece::Var { name: _, split: _ } => false,
        Piece::Status => false,
    }
}

/// Whether no variable and no status can change a word.
#[tactic(auto, using(crate::proofs::KnownFieldLemmas::all_pieces))]
fn is_constant_word(word: &Word) -> bool
    ensures { result ≡ spec.is_constant_word (view.word word.now) }
{
    are_constant_pieces(&word.pieces)
}

fn are_constant_pieces(pieces: &[Piece]) -> bool
    ensures { result ≡ list_all (λ piece. spec.is_constant (view.piece piece)) pieces.now }
{
    pieces.iter().all(|piece| is_constant(piece))
}

/// Whether no variable and no status can change words.
fn are_constant(words: &[Word]) -> bool
    ensures { result ≡ list_all (λ word. spec.is_constant_word (view.word word)) words.now }
{
    words.iter().all(|word| is_constant_word(word))
}

/// The fields of words, if no variable and no status can change them and they fit the limit. Errors:
/// `Memory`.
#[tactic(auto, using(crate::proofs::KnownFieldLemmas::all_words))]
pub(crate) fn known_fields(
    alloc: Global,
    words: &[Word],
) -> Result<Option<Rc<Vec<Vec<u8>>>>, SyntaxError>
    ensures fields { IfOk result (λ found. view.known found
        ≡ spec.known_fields (map view.word words.now)) }
    ensures err { IfErr result (λ error. error ≡ Memory) }
{
    if !are_constant(words) {
        return Ok(None);
    }
    match expand(alloc, words, &NothingSet) {
        Ok(fields) => Ok(Some(Rc::new(alloc, fields)?)),
        Err(ExpandError::TooLong) => Ok(None),
        Err(ExpandError::Memory) => Err(SyntaxError::Memory),
    }
}

/// The fields of the first word, if no variable and no status can change it and they fit the limit.
/// Errors: `Memory`.
pub(crate) fn known_of_first(
    alloc: Global,
    words: &[Word],
) -> Result<Option<Rc<Vec<Vec<u8>>>>, SyntaxError>
    ensures fields { IfOk result (λ found. view.known found
        ≡ spec.known_of_first (map view.word words.now)) }
    ensures err { IfErr result (λ error. error ≡ Memory) }
{
    match words {
        [] => Ok(None),
        [_, ..] => known_fields(alloc, &words[..1]),
    }
}
