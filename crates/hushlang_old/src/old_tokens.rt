//! The tokens of a text, byte by byte.
ghost use Rattle.std.specs.Prelude.{◌≡◌, ◌≤◌, length, false, option_map, IfOk, OnOk};
ghost use Rattle.std.specs.List.{prefix_len};
ghost use Rattle.hushlang.specs.ByteClasses as classes;
ghost use Rattle.hushlang_old.specs.OldTokens as says;
ghost use Rattle.hushlang_old.specs.OldTokensShown as shown;

use crate::defaults::sets_variable;
use hushlang::{Op, Piece};
use hushlang_uboot::{Gathered, is_between, sign_of};
use std::alloc::{AllocError, Global};
use std::mem;

/// A word: its pieces, none of which is quotes; whether it has quotes; whether it has a backslash; and
/// whether a blank or a newline is after it.
#[derive(Drop)]
pub(crate) struct FoundWord {
    pub(crate) pieces: Vec<Piece>,
    pub(crate) quoted: bool,
    pub(crate) escaped: bool,
    pub(crate) apart: bool,
}

/// A token.
#[derive(Drop)]
pub(crate) enum Token {
    /// A word.
    Word(FoundWord),
    /// `;` or a newline.
    Ends,
    /// `&&` or `||`.
    Joins(Op),
    /// A fault: a single `&` or `|`, or single quotes or a brace without an end.
    Breaks,
}

/// What the next byte is. The bytes of a name are in the reading.
#[derive(Clone, Copy)]
enum Place {
    /// A byte that may act.
    Open,
    /// The byte after a backslash.
    Behind,
    /// A byte in single quotes, and whether it is after a backslash.
    Single(bool),
    /// The byte after `$`.
    Dollar,
    /// The byte after `$` and the first bytes of a name.
    Name,
    /// The byte after `${` and some bytes.
    Brace,
    /// A byte of a comment.
    Comment,
    /// The byte after the first `&` or `|`.
    Joint(Op),
    /// A byte after a fault.
    Broken,
    /// A byte after what is not followed.
    Refused,
}

/// A text that is being read: the tokens that are whole; of the word on the way what has been read,
/// whether it has quotes and whether a backslash; whether double quotes are open; what the next byte
/// is; and the bytes of a name.
#[derive(Drop)]
struct TextReading {
    alloc: Global,
    tokens: Vec<Token>,
    word: Gathered,
    quoted: bool,
    escaped: bool,
    double: bool,
    place: Place,
    name: Vec<u8>,
}

fn is_foreign(byte: u8) -> bool
    ensures { result ≡ says.is_foreign byte }
{
    byte == 3 || byte == 4 || byte > 127
}

/// Whether a byte is an ASCII letter.
pub(crate) fn is_letter(byte: u8) -> bool
    ensures { result ≡ says.is_letter byte }
{
    is_between(b'a', b'z', byte) || is_between(b'A', b'Z', byte)
}

/// Whether a byte is an ASCII letter, a digit or `_`.
pub(crate) fn is_name_byte(byte: u8) -> bool
    ensures { result ≡ says.is_name_byte byte }
{
    is_letter(byte) || is_between(b'0', b'9', byte) || byte == b'_'
}

/// Whether a byte in braces may change what they say.
fn acts_in_brace(is_first: bool, byte: u8) -> bool
    ensures { result ≡ says.acts_in_brace is_first byte }
{
    is_foreign(byte) || byte == b'\\' || (byte == b'$' && is_first)
}

fn is_no_newline(byte: u8) -> bool
    ensures { result ≡ says.is_no_newline byte }
{
    byte != b'\n'
}

/// How many bytes are before the first newline of a text.
fn first_line_len(text: &[u8]) -> usize
    ensures value { result ≡ prefix_len says.is_no_newline text.now }
    ensures within { result ≤ length text.now }
{
    text.iter().take_while(|byte| is_no_newline(**byte)).count()
}

/// Whether the first newline of a text is its last byte.
fn ends_line(text: &[u8]) -> bool
    ensures { result ≡ says.ends_line text.now }
{
    first_line_len(text) + 1 == text.len()
}

impl TextReading {
    fn new(alloc: Global) -> TextReading
        ensures { shown.reading result ≡ says.nothing_read }
    {
        TextReading {
            alloc,
            tokens: Vec::new(alloc),
            word: Gathered::new(alloc),
            quoted: false,
            escaped: false,
            double: false,
            place: Place::Open,
            name: Vec::new(alloc),
        }
    }

    /// Ends the word on the way. `apart` says whether a blank or a newline is after it.
    fn end_word(&mut self, apart: bool) -> Result<(), AllocError>
        ensures { OnOk result
            (shown.reading self.new ≡ says.word_ended apart (shown.reading self.old)) }
    {
        let found = self.quoted || self.word.has_read();
        let pieces = self.word.take()?;
        if found {
            self.tokens.push(Token::Word(FoundWord {
                pieces,
                quoted: self.quoted,
                escaped: self.escaped,
                apart,
            }))?;
        }
        self.quoted = false;
        self.escaped = false;
        Ok(())
    }

    /// Ends the word on the way, and adds a token that is no word.
    fn push_token(&mut self, apart: bool, token: Token) -> Result<(), AllocError>
        ensures { OnOk result (shown.reading self.new
            ≡ says.with_token apart (shown.token token) (shown.reading self.old)) }
    {
        self.end_word(apart)?;
        self.tokens.push(token)?;
        Ok(())
    }

    /// Reads a byte outside all quotes that is neither a quote, a backslash nor `$`.
    fn read_bare(&mut self, byte: u8) -> Result<(), AllocError>
        ensures { OnOk result
            (shown.reading self.new ≡ says.read_bare byte (shown.reading self.old)) }
    {
        if byte == b'\n' || byte == b';' {
            return self.push_token(byte == b'\n', Token::Ends);
        }
        if byte == b' ' || byte == b'\t' {
            return self.end_word(true);
        }
        if byte == b'&' {
            self.end_word(false)?;
            self.place = Place::Joint(Op::And);
            return Ok(());
        }
        if byte == b'|' {
            self.end_word(false)?;
            self.place = Place::Joint(Op::Or);
            return Ok(());
        }
        if byte == b'#' && !self.word.has_read() {
            self.place = Place::Comment;
            return Ok(());
        }
        self.word.push_byte(byte)?;
        Ok(())
    }

    /// Reads a byte that may act.
    #[tactic(auto, unfolding(crate::specs::OldTokens::read_open))]
    fn read_open(&mut self, byte: u8) -> Result<(), AllocError>
        ensures { OnOk result
            (shown.reading self.new ≡ says.read_open byte (shown.reading self.old)) }
    {
        if is_foreign(byte) {
            self.place = Place::Refused;
            return Ok(());
        }
        match byte {
            b'\\' => self.place = Place::Behind,
            b'\'' => {
                self.quoted = true;
                self.place = Place::Single(false);
            }
            b'"' => {
                self.quoted = true;
                self.double = !self.double;
            }
            b'$' => self.place = Place::Dollar,
            _ => {
                if self.double {
                    self.word.push_byte(byte)?;
                    return Ok(());
                }
                return self.read_bare(byte);
            }
        }
        Ok(())
    }

    /// Reads the byte after a backslash, which stays in double quotes.
    fn read_behind(&mut self, byte: u8) -> Result<(), AllocError>
        ensures { OnOk result
            (shown.reading self.new ≡ says.read_behind byte (shown.reading self.old)) }
    {
        if is_foreign(byte) {
            self.place = Place::Refused;
            return Ok(());
        }
        self.escaped = true;
        if self.double {
            self.word.push_byte(b'\\')?;
        }
        self.word.push_byte(byte)?;
        self.place = Place::Open;
        Ok(())
    }

    /// Reads a byte in single quotes.
    fn read_single(&mut self, behind: bool, byte: u8) -> Result<(), AllocError>
        ensures { OnOk result
            (shown.reading self.new ≡ says.read_single behind byte (shown.reading self.old)) }
    {
        if is_foreign(byte) {
            self.place = Place::Refused;
            return Ok(());
        }
        if byte == b'\'' {
            self.place = if behind { Place::Refused } else { Place::Open };
            return Ok(());
        }
        if byte == b'\\' && !behind {
            self.escaped = true;
            self.place = Place::Single(true);
            return Ok(());
        }
        self.word.push_byte(byte)?;
        self.place = Place::Single(false);
        Ok(())
    }

    /// Adds the variable of the name.
    fn push_variable(&mut self) -> Result<(), AllocError>
        requires { self.old.place ≡ shown.at_open }
        ensures { OnOk result (shown.reading self.new
            ≡ says.variable self.old.name.items (shown.reading self.old)) }
    {
        let name = mem::replace(&mut self.name, Vec::new(self.alloc));
        let split = !self.double;
        self.word.push_piece(Piece::Var { name, split })
    }

    /// Reads the byte after `$`.
    fn read_dollar(&mut self, byte: u8) -> Result<(), AllocError>
        ensures { OnOk result
            (shown.reading self.new ≡ says.read_dollar byte (shown.reading self.old)) }
    {
        if is_letter(byte) {
            self.name.clear();
            self.name.push(byte)?;
            self.place = Place::Name;
            return Ok(());
        }
        if byte == b'?' {
            self.place = Place::Open;
            return self.word.push_piece(Piece::Status);
        }
        if byte == b'{' {
            self.name.clear();
            self.place = Place::Brace;
            return Ok(());
        }
        self.word.push_byte(b'$')?;
        self.place = Place::Open;
        self.read_open(byte)
    }

    /// Reads the byte after `$` and the first bytes of a name.
    fn read_name(&mut self, byte: u8) -> Result<(), AllocError>
        requires { self.old.place ≡ shown.in_name }
        ensures { OnOk result (shown.reading self.new
            ≡ says.read_name self.old.name.items byte (shown.reading self.old)) }
    {
        if is_name_byte(byte) {
            self.name.push(byte)?;
            return Ok(());
        }
        self.place = Place::Open;
        self.push_variable()?;
        self.read_open(byte)
    }

    /// The braces of a variable end.
    fn end_brace(&mut self) -> Result<(), AllocError>
        ensures { OnOk result (shown.reading self.new
            ≡ says.brace_ended self.old.name.items (shown.reading self.old)) }
    {
        if sets_variable(&self.name) {
            self.place = Place::Refused;
            return Ok(());
        }
        self.place = Place::Open;
        self.push_variable()
    }

    /// Reads the byte after `${` and some bytes.
    fn read_brace(&mut self, byte: u8) -> Result<(), AllocError>
        requires { self.old.place ≡ shown.in_brace }
        ensures { OnOk result (shown.reading self.new
            ≡ says.read_brace self.old.name.items byte (shown.reading self.old)) }
    {
        if byte == b'}' {
            return self.end_brace();
        }
        if acts_in_brace(self.name.is_empty(), byte) {
            self.place = Place::Refused;
            return Ok(());
        }
        self.name.push(byte)?;
        Ok(())
    }

    /// Reads a byte of a comment.
    fn read_comment(&mut self, byte: u8) -> Result<(), AllocError>
        ensures { OnOk result
            (shown.reading self.new ≡ says.read_comment byte (shown.reading self.old)) }
    {
        if byte == b'\n' {
            self.place = Place::Open;
            return self.push_token(true, Token::Ends);
        }
        Ok(())
    }

    /// Reads the byte after the first `&` or `|`.
    fn read_joint(&mut self, op: Op, byte: u8) -> Result<(), AllocError>
        ensures { OnOk result
            (shown.reading self.new ≡ says.read_joint op byte (shown.reading self.old)) }
    {
        if byte == sign_of(op) {
            self.place = Place::Open;
            return self.push_token(false, Token::Joins(op));
        }
        self.place = Place::Broken;
        self.push_token(false, Token::Breaks)
    }

    /// Reads a byte.
    #[tactic(auto, unfolding(crate::specs::OldTokens::read))]
    fn read(&mut self, byte: u8) -> Result<(), AllocError>
        ensures { OnOk result (shown.reading self.new ≡ says.read byte (shown.reading self.old)) }
    {
        match self.place {
            Place::Open => self.read_open(byte),
            Place::Behind => self.read_behind(byte),
            Place::Single(behind) => self.read_single(behind, byte),
            Place::Dollar => self.read_dollar(byte),
            Place::Name => self.read_name(byte),
            Place::Brace => self.read_brace(byte),
            Place::Comment => self.read_comment(byte),
            Place::Joint(op) => self.read_joint(op, byte),
            Place::Broken | Place::Refused => Ok(()),
        }
    }

    /// Reads bytes.
    fn read_all(&mut self, text: &[u8]) -> Result<(), AllocError>
        ensures { OnOk result
            (shown.reading self.new ≡ says.read_all text.now (shown.reading self.old)) }
    {
        for byte in text {
            self.read(*byte)?;
        }
        Ok(())
    }

    /// Takes the tokens, if all are followed.
    fn take_tokens(&mut self) -> Result<Option<Vec<Token>>, AllocError>
        ensures { IfOk result (λ tokens. option_map shown.tokens tokens
            ≡ says.tokens_in (shown.reading self.old)) }
    {
        match self.place {
            Place::Open => self.push_token(!self.double, Token::Ends)?,
            Place::Single(_) | Place::Brace => self.tokens.push(Token::Breaks)?,
            Place::Broken => (),
            _ => return Ok(None),
        }
        Ok(Some(mem::replace(&mut self.tokens, Vec::new(self.alloc))))
    }

    /// Reads the newline that is added at the end of this text.
    fn read_end(&mut self, text: &[u8]) -> Result<(), AllocError>
        ensures { OnOk result (shown.reading self.new
            ≡ says.read_all (says.end_of text.now) (shown.reading self.old)) }
    {
        if ends_line(text) {
            return Ok(());
        }
        self.read(b'\n')
    }

    /// Reads a text to its end.
    fn read_text(&mut self, text: &[u8]) -> Result<Option<Vec<Token>>, AllocError>
        ensures { IfOk result (λ tokens. option_map shown.tokens tokens
            ≡ says.tokens_behind text.now (shown.reading self.old)) }
    {
        self.read_all(text)?;
        self.read_end(text)?;
        self.take_tokens()
    }
}

/// The tokens of a text, if all its constructs are followed.
#[tactic(auto, unfolding(crate::specs::OldTokens::old_tokens))]
pub(crate) fn old_tokens(alloc: Global, text: &[u8]) -> Result<Option<Vec<Token>>, AllocError>
    ensures { IfOk result (λ tokens. option_map shown.tokens tokens ≡ says.old_tokens text.now) }
{
    let mut reading = TextReading::new(alloc);
    reading.read_text(text)
}
