//! The bytes outside all quotes: ordinary ones, operators, groups and comments.
ghost use Rattle.std.specs.Prelude.{◌≡◌, OnOk};
ghost use Rattle.hushlang_modern.specs.ModernTokens as says;
ghost use Rattle.hushlang_modern.specs.ModernTokensShown as shown;

use crate::byte_classes::{is_name, is_parenthesis};
use crate::modern_tokens::{Place, TextReading, Token};
use crate::stop::Stop;
use hushlang::Op;
use hushlang_uboot::{Gathered, sign_of};
use std::alloc::AllocError;

/// How many groups may be in one another.
const MAX_NESTING: usize = 64;

impl TextReading {
    /// Whether a byte makes the word on the way an assignment.
    fn makes_assignment(&self, byte: u8) -> bool
        ensures { result ≡ says.makes_assignment byte (shown.reading self.now) }
    {
        byte == b'='
            && !self.word.has_pieces()
            && !self.doubled
            && (self.word.bytes().is_empty() || is_name(self.word.bytes()))
    }

    fn read_ordinary(&mut self, byte: u8) -> Result<(), AllocError>
        ensures { OnOk result (shown.reading self.new
            ≡ says.read_ordinary byte (shown.reading self.old)) }
    {
        let assigns = self.assigns || self.makes_assignment(byte);
        self.word.push_byte(byte)?;
        self.assigns = assigns;
        Ok(())
    }

    /// Ends the word on the way at the first `&` or `|`.
    fn begin_joint(&mut self, op: Op) -> Result<(), AllocError>
        ensures { OnOk result (shown.reading self.new
            ≡ says.at_place (says.Joint op) (says.word_ended (shown.reading self.old))) }
    {
        self.end_word()?;
        self.place = Place::Joint(op);
        Ok(())
    }

    /// Reads `(`.
    fn read_opening(&mut self) -> Result<(), AllocError>
        ensures { OnOk result
            (shown.reading self.new ≡ says.read_opening (shown.reading self.old)) }
    {
        if self.groups >= MAX_NESTING {
            self.place = Place::Stopped(Stop::Unsupported);
            return Ok(());
        }
        self.tokens.push(Token::Opening(self.quoted))?;
        self.word = Gathered::new(self.alloc);
        self.quoted = false;
        self.doubled = false;
        self.assigns = false;
        self.groups += 1;
        Ok(())
    }

    /// Reads `)`.
    fn read_closing(&mut self) -> Result<(), AllocError>
        ensures { OnOk result
            (shown.reading self.new ≡ says.read_closing (shown.reading self.old)) }
    {
        if !self.has_begun() {
            self.tokens.push(Token::Closing)?;
        }
        self.read_ordinary(b')')
    }

    /// Reads `(` or `)`.
    fn read_parenthesis(&mut self, byte: u8) -> Result<(), AllocError>
        ensures { OnOk result (shown.reading self.new
            ≡ says.read_parenthesis byte (shown.reading self.old)) }
    {
        if self.is_lone_brace() {
            self.place = Place::Stopped(Stop::Unsupported);
            return Ok(());
        }
        if byte == b'(' {
            return self.read_opening();
        }
        self.read_closing()
    }

    /// Reads a byte outside all quotes that is neither a quote, a backslash nor `$`.
    pub(super) fn read_bare(&mut self, byte: u8) -> Result<(), AllocError>
        ensures { OnOk result
            (shown.reading self.new ≡ says.read_bare byte (shown.reading self.old)) }
    {
        match byte {
            b'\n' => return self.push_token(Token::NewLine),
            b';' => return self.push_token(Token::Semicolon),
            b'&' => return self.begin_joint(Op::And),
            b'|' => return self.begin_joint(Op::Or),
            b' ' | b'\t' => return self.end_word(),
            _ => (),
        }
        if byte == b'#' && !self.has_begun() {
            self.place = Place::Hash;
            return Ok(());
        }
        if is_parenthesis(byte) {
            return self.read_parenthesis(byte);
        }
        self.read_ordinary(byte)
    }

    /// Reads a byte of a comment.
    pub(super) fn read_comment(&mut self, byte: u8) -> Result<(), AllocError>
        ensures { OnOk result
            (shown.reading self.new ≡ says.read_comment byte (shown.reading self.old)) }
    {
        if byte == b'\n' {
            self.place = Place::Open;
            return self.push_token(Token::NewLine);
        }
        self.place = Place::Comment;
        Ok(())
    }

    /// Reads the first byte of a comment.
    pub(super) fn read_hash(&mut self, byte: u8) -> Result<(), AllocError>
        ensures { OnOk result
            (shown.reading self.new ≡ says.read_hash byte (shown.reading self.old)) }
    {
        if byte == b'\\' {
            self.place = Place::Stopped(Stop::Unsupported);
            return Ok(());
        }
        self.read_comment(byte)
    }

    /// Reads the byte after a single `&` or `|`.
    fn read_single_joint(&mut self, op: Op, byte: u8) -> Result<(), AllocError>
        ensures { OnOk result (shown.reading self.new
            ≡ says.read_single_joint op byte (shown.reading self.old)) }
    {
        if byte == b'\\' {
            self.place = Place::Stopped(Stop::Unsupported);
            return Ok(());
        }
        self.place = Place::Open;
        self.push_token(single(op))?;
        self.read_open(byte)
    }

    /// Reads the byte after the first `&` or `|`.
    pub(super) fn read_joint(&mut self, op: Op, byte: u8) -> Result<(), AllocError>
        ensures { OnOk result
            (shown.reading self.new ≡ says.read_joint op byte (shown.reading self.old)) }
    {
        if byte == sign_of(op) {
            self.place = Place::Open;
            return self.push_token(Token::Joins(op));
        }
        self.read_single_joint(op, byte)
    }
}

/// A single `&` or `|`.
pub(super) fn single(op: Op) -> Token
    ensures { shown.token result ≡ says.single op }
{
    match op {
        Op::And => Token::Ampersand,
        Op::Or => Token::Bar,
    }
}
