//! What the pieces of a word say.
ghost use Rattle.std.specs.Prelude.{◌≡◌, map, drop};
ghost use Rattle.std.specs.List.{list_any, list_all};
ghost use Rattle.text.specs.TextsShown.{option_bytes};
ghost use Rattle.hushlang.specs.KnownFields as known;
ghost use Rattle.hushlang.specs.TreesShown as view;
ghost use Rattle.hushlang_uboot.specs.Pieces as says;

use hushlang::Piece;

fn is_constant(piece: &Piece) -> bool
    ensures { result ≡ known.is_constant (view.piece piece.now) }
{
    match piece {
        Piece::Bytes(_) => true,
        Piece::Mark => true,
        Piece::Var { name: _, split: _ } => false,
        Piece::Status => false,
    }
}

/// Whether no variable and no status can change pieces.
pub fn are_constant_pieces(pieces: &[Piece]) -> bool
    ensures { result ≡ list_all (λ piece. known.is_constant (view.piece piece)) pieces.now }
{
    pieces.iter().all(|piece| is_constant(piece))
}

fn is_mark(piece: &Piece) -> bool
    ensures { result ≡ says.is_mark (view.piece piece.now) }
{
    match piece {
        Piece::Bytes(_) => false,
        Piece::Mark => true,
        Piece::Var { name: _, split: _ } => false,
        Piece::Status => false,
    }
}

/// Whether quotes are among pieces.
pub fn have_quotes(pieces: &[Piece]) -> bool
    ensures { result ≡ list_any (λ piece. says.is_mark (view.piece piece)) pieces.now }
{
    pieces.iter().any(|piece| is_mark(piece))
}

/// The bytes of pieces that nothing can change, if they are at most one piece.
pub fn only_bytes(pieces: &[Piece]) -> Option<&[u8]>
    ensures { option_bytes result ≡ says.only_bytes (map view.piece pieces.now) }
{
    match pieces {
        [] => Some(&[]),
        [Piece::Bytes(bytes)] => Some(bytes),
        _ => None,
    }
}

/// The pieces after the first one.
pub fn without_first(pieces: Vec<Piece>) -> Vec<Piece>
    ensures { map view.piece result.items ≡ drop 1 (map view.piece pieces.items) }
{
    let mut pieces = pieces;
    if !pieces.is_empty() {
        pieces.remove(0);
    }
    pieces
}
