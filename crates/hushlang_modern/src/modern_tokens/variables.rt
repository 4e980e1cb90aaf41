//! The bytes after `$`: names, parameters of the shell, and what is in braces.
ghost use Rattle.std.specs.Prelude.{◌≡◌, OnOk};
ghost use Rattle.hushlang.specs.TreesShown as view;
ghost use Rattle.hushlang_modern.specs.ModernTokens as says;
ghost use Rattle.hushlang_modern.specs.ModernTokensShown as shown;

use crate::byte_classes::{
    begins_name, begins_with_digit, begins_with_name, is_digit, is_foreign, is_name_byte,
    is_operator, is_parameter,
};
use crate::modern_tokens::{Place, TextReading};
use crate::stop::Stop;
use hushlang::Piece;
use std::alloc::AllocError;
use std::mem;

impl TextReading {
    /// Adds a piece with a value, which double quotes keep whole.
    fn push_value(&mut self, piece: Piece) -> Result<(), AllocError>
        ensures { OnOk result (shown.reading self.new
            ≡ says.with_value (view.piece piece) (shown.reading self.old)) }
    {
        if self.double {
            self.word.push_piece(Piece::Mark)?;
        }
        self.word.push_piece(piece)
    }

    /// Adds the variable of the name.
    pub(super) fn push_variable(&mut self) -> Result<(), AllocError>
        requires { self.old.place ≡ shown.at_open }
        ensures { OnOk result (shown.reading self.new
            ≡ says.variable self.old.name.items (shown.reading self.old)) }
    {
        let name = mem::replace(&mut self.name, Vec::new(self.alloc));
        let split = !self.double;
        self.push_value(Piece::Var { name, split })
    }

    /// A name starts with this byte.
    fn begin_name(&mut self, byte: u8) -> Result<(), AllocError>
        ensures { OnOk result (shown.reading self.new
            ≡ says.at_place (says.Name (shown.one byte)) (shown.reading self.old)) }
    {
        self.name.clear();
        self.name.push(byte)?;
        self.place = Place::Name;
        Ok(())
    }

    /// A name in braces starts with this byte.
    fn begin_brace(&mut self, byte: u8) -> Result<(), AllocError>
        ensures { OnOk result (shown.reading self.new
            ≡ says.at_place (says.Brace (shown.one byte)) (shown.reading self.old)) }
    {
        self.name.clear();
        self.name.push(byte)?;
        self.place = Place::Brace;
        Ok(())
    }

    /// Adds the variable that has the name `-`.
    fn push_minus(&mut self) -> Result<(), AllocError>
        requires { self.old.place ≡ shown.at_open }
        ensures { OnOk result (shown.reading self.new
            ≡ says.variable (shown.one 45) (shown.reading self.old)) }
    {
        self.name.clear();
        self.name.push(b'-')?;
        self.push_variable()
    }

    /// Adds the quotes round a parameter of the shell, if they make a word of it.
    fn mark_parameter(&mut self, byte: u8) -> Result<(), AllocError>
        ensures { OnOk result (shown.reading self.new
            ≡ says.parameter_marked byte (shown.reading self.old)) }
    {
        if self.double && byte != b'@' {
            return self.word.push_piece(Piece::Mark);
        }
        Ok(())
    }

    /// Adds the number of the words that the shell has, if the parameter is that.
    fn count_parameter(&mut self, byte: u8) -> Result<(), AllocError>
        ensures { OnOk result (shown.reading self.new
            ≡ says.parameter_counted byte (shown.reading self.old)) }
    {
        if byte == b'#' {
            return self.word.push_byte(b'0');
        }
        Ok(())
    }

    /// Adds a parameter of the shell.
    fn push_parameter(&mut self, byte: u8) -> Result<(), AllocError>
        requires { self.old.place ≡ shown.at_open }
        ensures { OnOk result (shown.reading self.new
            ≡ says.with_parameter byte (shown.reading self.old)) }
    {
        if byte == b'-' {
            return self.push_minus();
        }
        self.mark_parameter(byte)?;
        self.count_parameter(byte)?;
        self.quoted = true;
        self.doubled = true;
        Ok(())
    }

    /// Reads the byte after `$`.
    pub(super) fn read_dollar(&mut self, byte: u8) -> Result<(), AllocError>
        ensures { OnOk result
            (shown.reading self.new ≡ says.read_dollar byte (shown.reading self.old)) }
    {
        if begins_name(byte) {
            return self.begin_name(byte);
        }
        if byte == b'?' {
            self.place = Place::Open;
            return self.push_value(Piece::Status);
        }
        if byte == b'{' {
            self.name.clear();
            self.place = Place::Brace;
            return Ok(());
        }
        if is_parameter(byte) {
            self.place = Place::Open;
            return self.push_parameter(byte);
        }
        self.word.push_byte(b'$')?;
        self.place = Place::Open;
        self.read_strict(byte)
    }

    /// Reads the byte after `$` and the first bytes of a name.
    pub(super) fn read_name(&mut self, byte: u8) -> Result<(), AllocError>
        requires { self.old.place ≡ shown.in_name }
        ensures { OnOk result (shown.reading self.new
            ≡ says.read_name self.old.name.items byte (shown.reading self.old)) }
    {
        if is_name_byte(byte) {
            self.name.push(byte)?;
            return Ok(());
        }
        self.place = Place::Open;
        self.push_variable()?;
        self.read_strict(byte)
    }

    /// Reads the first byte in braces.
    fn read_brace_first(&mut self, byte: u8) -> Result<(), AllocError>
        ensures { OnOk result (shown.reading self.new
            ≡ says.read_brace_first byte (shown.reading self.old)) }
    {
        if is_name_byte(byte) || byte == b'?' {
            return self.begin_brace(byte);
        }
        let unsupported = is_foreign(byte)
            || is_parameter(byte)
            || byte == b'$'
            || byte == b'!'
            || byte == b'\\';
        self.place = Place::Stopped(if unsupported {
            Stop::Unsupported
        } else {
            Stop::Fails
        });
        Ok(())
    }

    /// Braces end after a name, a digit or `?`.
    fn end_brace(&mut self) -> Result<(), AllocError>
        ensures { OnOk result (shown.reading self.new
            ≡ says.brace_ended self.old.name.items (shown.reading self.old)) }
    {
        self.place = Place::Open;
        if begins_with_digit(&self.name) {
            return self.push_parameter(b'0');
        }
        if begins_with_name(&self.name) {
            return self.push_variable();
        }
        self.push_value(Piece::Status)
    }

    /// Whether a byte in braces is a fault after a digit.
    fn spoils(&self, byte: u8) -> bool
        ensures { result ≡ says.spoils self.now.name.items byte }
    {
        let may_be = is_foreign(byte) || is_digit(byte) || is_operator(byte) || byte == b'\\';
        begins_with_digit(&self.name) && !may_be
    }

    /// Reads a further byte in braces.
    fn read_brace_next(&mut self, byte: u8) -> Result<(), AllocError>
        requires { self.old.place ≡ shown.in_brace }
        ensures { OnOk result (shown.reading self.new
            ≡ says.read_brace_next self.old.name.items byte (shown.reading self.old)) }
    {
        if byte == b'}' {
            return self.end_brace();
        }
        if self.spoils(byte) {
            self.place = Place::Stopped(Stop::Fails);
            return Ok(());
        }
        if is_foreign(byte) || byte == b'=' || !begins_with_name(&self.name) {
            self.place = Place::Stopped(Stop::Unsupported);
            return Ok(());
        }
        if is_operator(byte) {
            self.name.push(byte)?;
            self.place = Place::Operator;
            return Ok(());
        }
        if is_name_byte(byte) || byte == b'#' {
            self.name.push(byte)?;
            return Ok(());
        }
        self.place = Place::Stopped(Stop::Fails);
        Ok(())
    }

    /// Reads a byte in braces.
    pub(super) fn read_brace(&mut self, byte: u8) -> Result<(), AllocError>
        requires { self.old.place ≡ shown.in_brace }
        ensures { OnOk result (shown.reading self.new
            ≡ says.read_brace self.old.name.items byte (shown.reading self.old)) }
    {
        if self.name.is_empty() {
            return self.read_brace_first(byte);
        }
        self.read_brace_next(byte)
    }

    /// Reads the byte after an operator in braces.
    pub(super) fn read_operator(&mut self, byte: u8) -> Result<(), AllocError>
        requires { self.old.place ≡ shown.behind_operator }
        ensures { OnOk result (shown.reading self.new
            ≡ says.read_operator self.old.name.items byte (shown.reading self.old)) }
    {
        if byte == b'/' {
            self.place = Place::Stopped(Stop::Unsupported);
            return Ok(());
        }
        self.place = Place::Open;
        self.push_variable()?;
        self.read_open(byte)
    }
}

/// How the reading stops if the text ends in braces, after these bytes.
pub(super) fn stop_in_brace(name: &[u8]) -> Stop
    ensures { result ≡ says.stop_in_brace name.now }
{
    match name {
        [] => Stop::Fails,
        [first, ..] => if is_digit(*first) {
            Stop::Fails
        } else {
            Stop::Panics
        },
    }
}
