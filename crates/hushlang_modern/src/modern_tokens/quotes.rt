//! The bytes that may act: quotes and backslashes, and what is in them or after them.
ghost use Rattle.std.specs.Prelude.{◌≡◌, OnOk};
ghost use Rattle.hushlang_modern.specs.ModernTokens as says;
ghost use Rattle.hushlang_modern.specs.ModernTokensShown as shown;

use crate::byte_classes::{is_escapable, is_foreign, is_guarded};
use crate::modern_tokens::{Place, TextReading};
use crate::stop::Stop;
use hushlang::Piece;
use std::alloc::AllocError;

impl TextReading {
    /// Adds a byte, after a backslash if it would act in a pattern (`o_addqchr`).
    fn guard(&mut self, byte: u8) -> Result<(), AllocError>
        ensures { OnOk result (shown.reading self.new
            ≡ says.with_bytes (says.guarded byte) (shown.reading self.old)) }
    {
        if is_guarded(byte) {
            self.word.push_byte(b'\\')?;
        }
        self.word.push_byte(byte)?;
        Ok(())
    }

    /// Reads `"`.
    fn read_double_quote(&mut self)
        ensures { shown.reading self.new ≡ says.read_double_quote (shown.reading self.old) }
    {
        if self.double {
            self.double = false;
            return;
        }
        self.quoted = true;
        self.doubled = true;
        self.double = true;
        self.place = Place::Opened;
    }

    /// Reads a byte that is neither a double quote, a backslash nor `$`.
    fn read_inside(&mut self, byte: u8) -> Result<(), AllocError>
        ensures { OnOk result (shown.reading self.new
            ≡ says.read_inside self.old.double byte (shown.reading self.old)) }
    {
        if self.double {
            return self.guard(byte);
        }
        if byte == b'\'' {
            self.quoted = true;
            self.place = Place::Single;
            return Ok(());
        }
        self.read_bare(byte)
    }

    /// Reads a byte that may act.
    #[tactic(auto, unfolding(crate::specs::ModernTokens::read_open))]
    pub(super) fn read_open(&mut self, byte: u8) -> Result<(), AllocError>
        ensures { OnOk result
            (shown.reading self.new ≡ says.read_open byte (shown.reading self.old)) }
    {
        if is_foreign(byte) {
            self.place = Place::Stopped(Stop::Unsupported);
            return Ok(());
        }
        match byte {
            b'\\' => self.place = Place::Behind(false),
            b'"' => self.read_double_quote(),
            b'$' => self.place = Place::Dollar,
            _ => return self.read_inside(byte),
        }
        Ok(())
    }

    /// Reads a byte that may act, where a backslash in front of a newline is not followed.
    pub(super) fn read_strict(&mut self, byte: u8) -> Result<(), AllocError>
        ensures { OnOk result
            (shown.reading self.new ≡ says.read_strict byte (shown.reading self.old)) }
    {
        if byte == b'\\' {
            self.place = Place::Behind(true);
            return Ok(());
        }
        self.read_open(byte)
    }

    /// Reads the byte after an opening `"`.
    pub(super) fn read_opened(&mut self, byte: u8) -> Result<(), AllocError>
        ensures { OnOk result
            (shown.reading self.new ≡ says.read_opened byte (shown.reading self.old)) }
    {
        self.place = Place::Open;
        if byte == b'"' {
            self.double = false;
            return self.word.push_piece(Piece::Mark);
        }
        self.read_strict(byte)
    }

    /// Adds the result of a backslash and the byte after it.
    fn push_escaped(&mut self, byte: u8) -> Result<(), AllocError>
        ensures { OnOk result (shown.reading self.new
            ≡ says.with_bytes (says.escaped self.old.double byte) (shown.reading self.old)) }
    {
        if !self.double {
            self.word.push_byte(b'\\')?;
            self.word.push_byte(byte)?;
            return Ok(());
        }
        if !is_escapable(byte) {
            self.word.push_byte(b'\\')?;
            self.word.push_byte(b'\\')?;
        }
        self.guard(byte)
    }

    /// Reads the byte after a backslash.
    pub(super) fn read_behind(&mut self, strict: bool, byte: u8) -> Result<(), AllocError>
        ensures { OnOk result (shown.reading self.new
            ≡ says.read_behind strict byte (shown.reading self.old)) }
    {
        if is_foreign(byte) || strict && byte == b'\n' {
            self.place = Place::Stopped(Stop::Unsupported);
            return Ok(());
        }
        self.place = Place::Open;
        if byte == b'\n' {
            return Ok(());
        }
        self.quoted = true;
        self.push_escaped(byte)
    }

    /// Reads a byte in single quotes.
    pub(super) fn read_single(&mut self, byte: u8) -> Result<(), AllocError>
        ensures { OnOk result
            (shown.reading self.new ≡ says.read_single byte (shown.reading self.old)) }
    {
        if is_foreign(byte) {
            self.place = Place::Stopped(Stop::Unsupported);
            return Ok(());
        }
        if byte == b'\'' {
            self.place = Place::Open;
            return Ok(());
        }
        self.guard(byte)
    }
}
