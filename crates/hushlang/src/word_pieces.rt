//! The pieces of a word.

ghost use Rattle.std.specs.Prelude.{◌≡◌, OnOk};
ghost use Rattle.hushlang.specs.Tokenizing as reading;
ghost use Rattle.hushlang.specs.CuttersShown as cutting;
ghost use Rattle.hushlang.specs.TreesShown as view;
ghost use Rattle.hushlang.specs.WordPieces as spec;
ghost use Rattle.hushlang.specs.WordPieces.{GivesPieces};
ghost use Rattle.hushlang.specs.declared.word_parts.Mode.TheVariants as modes;

use crate::token::{SyntaxError, Token};
use crate::tree::Piece;
use crate::word_parts::{Part, Parts};
use std::alloc::{AllocError, Global};
use std::mem;

/// Pieces on the way: those that are whole, and the bytes of one that may still grow.
#[derive(Drop)]
struct Gathering {
    pieces: Vec<Piece>,
    bytes: Vec<u8>,
}

impl Gathering {
    /// Makes a piece of the bytes, if there are any.
    fn close(&mut self, alloc: Global) -> Result<(), AllocError>
        ensures { OnOk result (spec.pieces_so_far self.new
            ≡ spec.closed (spec.pieces_so_far self.old)) }
    {
        if !self.bytes.is_empty() {
            let bytes = mem::replace(&mut self.bytes, Vec::new(alloc));
            self.pieces.push(Piece::Bytes(bytes))?;
        }
        Ok(())
    }

    fn push(&mut self, alloc: Global, piece: Piece) -> Result<(), AllocError>
        ensures { OnOk result (spec.pieces_so_far self.new
            ≡ spec.with_piece (spec.pieces_so_far self.old) (view.piece piece)) }
    {
        self.close(alloc)?;
        self.pieces.push(piece)?;
        Ok(())
    }

    fn add(&mut self, alloc: Global, part: Part<'_>) -> Result<(), AllocError>
        ensures { OnOk result (spec.pieces_so_far self.new
            ≡ spec.with_part (spec.pieces_so_far self.old) (cutting.part part.entry)) }
    {
        match part {
            Part::Plain(b) | Part::Kept(b) => {
                self.bytes.push(b)?;
                Ok(())
            }
            Part::Mark => self.push(alloc, Piece::Mark),
            Part::Var { name, split } => {
                let name = name.to_vec(alloc)?;
                self.push(alloc, Piece::Var { name, split })
            }
            Part::Status => self.push(alloc, Piece::Status),
        }
    }
}

/// The pieces of the parts to come: bytes, with no two pieces of them next to each other; a mark
/// before what quotes hold; variables; and the status.
#[tactic(auto, using(crate::proofs::WordPieceLemmas::gathers))]
pub fn read_pieces(alloc: Global, mut parts: Parts<'_>) -> Result<Vec<Piece>, SyntaxError>
    ensures { GivesPieces (spec.pieces_in (cutting.to_come parts.entry)) result }
{
    let mut gathering = Gathering {
        pieces: Vec::new(alloc),
        bytes: Vec::new(alloc),
    };
    'parts: while let Some(part) = parts.next()? {
        gathering.add(alloc, part)?;
    }
    gathering.close(alloc)?;
    let Gathering { pieces, bytes: _ } = gathering;
    Ok(pieces)
}

/// The pieces of a word.
pub fn pieces_of(alloc: Global, token: Token<'_>) -> Result<Vec<Piece>, SyntaxError>
    ensures { GivesPieces (spec.pieces_in (reading.row modes.Bare 0 0 0 token.entry.text.now))
        result }
{
    read_pieces(alloc, Parts::new(token.text, 0))
}
