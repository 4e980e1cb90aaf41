//! Words that no variable and no status can change, and their fields.
ghost use Rattle.std.specs.Prelude.{◌≡◌, true, map, IfOk};
ghost use Rattle.std.specs.List.{list_any, list_all};
ghost use Rattle.hushlang.specs.Expansion as expansion;
ghost use Rattle.hushlang.specs.KnownFields as known;
ghost use Rattle.hushlang.specs.TreesShown as view;
ghost use Rattle.hushlang_uboot.specs.Pieces as says;

use crate::word_bytes::joined;
use hushlang::{Piece, Vars, Word};
use hushlang_uboot::are_constant_pieces;
use std::alloc::{AllocError, Global};

/// Whether no variable and no status can change a word.
#[tactic(auto, using(hushlang_uboot::proofs::WordLemmas::all_of_pieces))]
pub(crate) fn is_constant_word(word: &Word) -> bool
    ensures { result ≡ known.is_constant_word (view.word word.now) }
{
    are_constant_pieces(&word.pieces)
}

/// Whether no variable and no status can change words.
pub(crate) fn are_constant(words: &[Word]) -> bool
    ensures { result ≡ list_all (λ word. known.is_constant_word (view.word word)) words.now }
{
    words.iter().all(|word| is_constant_word(word))
}

/// Whether a piece is quotes, or has a byte.
fn is_something(piece: &Piece) -> bool
    ensures { result ≡ says.is_something (view.piece piece.now) }
{
    match piece {
        Piece::Bytes(bytes) => !bytes.is_empty(),
        Piece::Mark => true,
        Piece::Var { name: _, split: _ } => true,
        Piece::Status => true,
    }
}

fn has_something(pieces: &[Piece]) -> bool
    ensures { result ≡ list_any (λ piece. says.is_something (view.piece piece)) pieces.now }
{
    pieces.iter().any(|piece| is_something(piece))
}

/// The fields of words that no variable and no status can change: each is one, whole.
pub(crate) fn constant_fields<V: Vars>(
    alloc: Global,
    words: &[Word],
    vars: &V,
) -> Result<Vec<Vec<u8>>, AllocError>
    requires { known.are_constant (map view.word words.now) ≡ true }
    ensures { IfOk result (λ found. map (λ field. field.items) found.items
        ≡ expansion.fields (V.parameters vars.now) (map view.word words.now)) }
{
    let mut fields = Vec::new(alloc);
    for word in words {
        if has_something(&word.pieces) {
            fields.push(joined(alloc, word, vars)?)?;
        }
    }
    Ok(fields)
}
