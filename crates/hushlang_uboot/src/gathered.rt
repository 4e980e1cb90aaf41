//! What has been read of a word.
ghost use Rattle.std.specs.Prelude.{◌≡◌, map, IfOk, OnOk};
ghost use Rattle.hushlang.specs.TreesShown as view;
ghost use Rattle.hushlang_uboot.specs.Gathered as says;
ghost use Rattle.hushlang_uboot.specs.GatheredShown as shown;

use hushlang::Piece;
use std::alloc::{AllocError, Global};
use std::mem;

/// What has been read of a word: its pieces that are whole, and the bytes after them.
#[derive(Drop)]
pub struct Gathered {
    alloc: Global,
    pieces: Vec<Piece>,
    bytes: Vec<u8>,
}

impl Gathered {
    /// Nothing has been read.
    #[tactic(auto, unfolding(crate::specs::GatheredShown::gathered))]
    pub fn new(alloc: Global) -> Gathered
        ensures { shown.gathered result ≡ says.nothing }
    {
        Gathered {
            alloc,
            pieces: Vec::new(alloc),
            bytes: Vec::new(alloc),
        }
    }

    /// Whether a byte or a variable has been read.
    #[tactic(auto, unfolding(crate::specs::GatheredShown::gathered))]
    pub fn has_read(&self) -> bool
        ensures { result ≡ says.has_read (shown.gathered self.now) }
    {
        !self.bytes.is_empty() || !self.pieces.is_empty()
    }

    /// Whether a piece is whole.
    #[tactic(auto, unfolding(crate::specs::GatheredShown::gathered))]
    pub fn has_pieces(&self) -> bool
        ensures { result ≡ says.has_pieces (shown.gathered self.now).pieces }
    {
        !self.pieces.is_empty()
    }

    /// The bytes after the pieces.
    #[tactic(auto, unfolding(crate::specs::GatheredShown::gathered))]
    pub fn bytes(&self) -> &[u8]
        ensures { result.now ≡ (shown.gathered self.now).bytes }
    {
        &self.bytes
    }

    /// Adds a byte. Errors: memory ran out.
    #[tactic(auto, unfolding(crate::specs::GatheredShown::gathered))]
    pub fn push_byte(&mut self, byte: u8) -> Result<(), AllocError>
        ensures { OnOk result
            (shown.gathered self.new ≡ says.with_byte byte (shown.gathered self.old)) }
    {
        self.bytes.push(byte)?;
        Ok(())
    }

    /// Makes a piece of the bytes after the pieces, if there are any.
    #[tactic(auto, unfolding(crate::specs::GatheredShown::gathered))]
    fn close_bytes(&mut self) -> Result<(), AllocError>
        ensures { OnOk result
            (shown.gathered self.new ≡ says.bytes_closed (shown.gathered self.old)) }
    {
        if self.bytes.is_empty() {
            return Ok(());
        }
        let bytes = mem::replace(&mut self.bytes, Vec::new(self.alloc));
        self.pieces.push(Piece::Bytes(bytes))?;
        Ok(())
    }

    /// Adds a piece. Errors: memory ran out.
    #[tactic(auto, unfolding(crate::specs::GatheredShown::gathered))]
    pub fn push_piece(&mut self, piece: Piece) -> Result<(), AllocError>
        ensures { OnOk result (shown.gathered self.new
            ≡ says.with_piece (view.piece piece) (shown.gathered self.old)) }
    {
        self.close_bytes()?;
        self.pieces.push(piece)?;
        Ok(())
    }

    /// Takes all that has been read, as pieces. Errors: memory ran out.
    #[tactic(auto, unfolding(crate::specs::GatheredShown::gathered))]
    pub fn take(&mut self) -> Result<Vec<Piece>, AllocError>
        ensures pieces { IfOk result (λ pieces. map view.piece pieces.items
            ≡ says.all_pieces (shown.gathered self.old)) }
        ensures after { OnOk result (shown.gathered self.new ≡ says.nothing) }
    {
        self.close_bytes()?;
        Ok(mem::replace(&mut self.pieces, Vec::new(self.alloc)))
    }
}
