//! The tokens of a text, byte by byte (`parse_stream`).
ghost use Rattle.std.specs.Prelude.{◌≡◌, IfOk, OnOk};
ghost use Rattle.hushlang_modern.specs.ModernTokens as says;
ghost use Rattle.hushlang_modern.specs.ModernTokensShown as shown;

use crate::byte_classes::is_brace;
use crate::modern_tokens::operators::single;
use crate::modern_tokens::variables::stop_in_brace;
use crate::stop::Stop;
use hushlang::{Op, Piece};
use hushlang_uboot::Gathered;
use std::alloc::{AllocError, Global};
use std::mem;

mod operators;
mod quotes;
mod variables;

/// A word: its pieces; whether it has quotes or a backslash; and whether it is an assignment where one
/// may be.
#[derive(Drop)]
pub(crate) struct FoundWord {
    pub(crate) pieces: Vec<Piece>,
    pub(crate) quoted: bool,
    pub(crate) assigns: bool,
}

/// A token.
#[derive(Drop)]
pub(crate) enum Token {
    /// A word.
    Word(FoundWord),
    /// A newline.
    NewLine,
    /// `;`
    Semicolon,
    /// A single `&`.
    Ampersand,
    /// A single `|`.
    Bar,
    /// `&&` or `||`.
    Joins(Op),
    /// `(`, and whether it is after a word that has quotes.
    Opening(bool),
    /// A `)` in front of which no byte of a word is. It is one of the next word, if a word is in front of
    /// it.
    Closing,
}

/// What the next byte is. The bytes of a name are in the reading.
#[derive(Clone, Copy)]
enum Place {
    /// A byte that may act.
    Open,
    /// The byte after a backslash, and whether a newline is not followed there.
    Behind(bool),
    /// A byte in single quotes.
    Single,
    /// The byte after an opening `"`.
    Opened,
    /// The byte after `$`.
    Dollar,
    /// The byte after `$` and the first bytes of a name.
    Name,
    /// The byte after `${` and some bytes.
    Brace,
    /// The byte after an operator in braces, which ends the name.
    Operator,
    /// The first byte of a comment.
    Hash,
    /// A further byte of a comment.
    Comment,
    /// The byte after the first `&` or `|`.
    Joint(Op),
    /// A byte after the place at which the reading stops.
    Stopped(Stop),
}

/// A text that is being read: the tokens that are whole; of the word on the way what has been read,
/// whether it has quotes or a backslash, whether double quotes, and whether it is an assignment; whether
/// double quotes are open; how many groups are; what the next byte is; and the bytes of a name.
#[derive(Drop)]
struct TextReading {
    alloc: Global,
    tokens: Vec<Token>,
    word: Gathered,
    quoted: bool,
    doubled: bool,
    assigns: bool,
    double: bool,
    groups: usize,
    place: Place,
    name: Vec<u8>,
}

/// The tokens that are whole; how the reading stops after them, if it does; and whether it stops in a
/// word that has quotes.
#[derive(Drop)]
pub(crate) struct FoundTokens {
    pub(crate) tokens: Vec<Token>,
    pub(crate) stop: Option<Stop>,
    pub(crate) quoted: bool,
}

impl TextReading {
    fn new(alloc: Global) -> TextReading
        ensures { shown.reading result ≡ says.nothing_read }
    {
        TextReading {
            alloc,
            tokens: Vec::new(alloc),
            word: Gathered::new(alloc),
            quoted: false,
            doubled: false,
            assigns: false,
            double: false,
            groups: 0,
            place: Place::Open,
            name: Vec::new(alloc),
        }
    }

    /// Whether a word is on the way.
    fn has_begun(&self) -> bool
        ensures { result ≡ says.has_begun (shown.reading self.now) }
    {
        self.quoted || self.word.has_read()
    }

    /// Ends the word on the way (`done_word`).
    fn end_word(&mut self) -> Result<(), AllocError>
        ensures { OnOk result
            (shown.reading self.new ≡ says.word_ended (shown.reading self.old)) }
    {
        let found = self.has_begun();
        let pieces = self.word.take()?;
        if found {
            self.tokens.push(Token::Word(FoundWord {
                pieces,
                quoted: self.quoted,
                assigns: self.assigns,
            }))?;
        }
        self.quoted = false;
        self.doubled = false;
        self.assigns = false;
        Ok(())
    }

    /// Ends the word on the way, and adds a token that is no word.
    fn push_token(&mut self, token: Token) -> Result<(), AllocError>
        ensures { OnOk result (shown.reading self.new
            ≡ says.with_token (shown.token token) (shown.reading self.old)) }
    {
        self.end_word()?;
        self.tokens.push(token)?;
        Ok(())
    }

    /// Whether the word on the way is `{` or `}`.
    fn is_lone_brace(&self) -> bool
        ensures { result ≡ says.is_lone_brace (shown.reading self.now) }
    {
        !(self.quoted || self.word.has_pieces()) && is_brace(self.word.bytes())
    }

    /// Reads a byte.
    #[tactic(auto, unfolding(crate::specs::ModernTokens::read))]
    fn read(&mut self, byte: u8) -> Result<(), AllocError>
        ensures { OnOk result (shown.reading self.new ≡ says.read byte (shown.reading self.old)) }
    {
        match self.place {
            Place::Open => self.read_open(byte),
            Place::Behind(strict) => self.read_behind(strict, byte),
            Place::Single => self.read_single(byte),
            Place::Opened => self.read_opened(byte),
            Place::Dollar => self.read_dollar(byte),
            Place::Name => self.read_name(byte),
            Place::Brace => self.read_brace(byte),
            Place::Operator => self.read_operator(byte),
            Place::Hash => self.read_hash(byte),
            Place::Comment => self.read_comment(byte),
            Place::Joint(op) => self.read_joint(op, byte),
            Place::Stopped(_) => Ok(()),
        }
    }

    /// Reads bytes.
    fn read_all(&mut self, text: &[u8]) -> Result<(), AllocError>
        ensures { OnOk result
            (shown.reading self.new ≡ says.read_all text.now (shown.reading self.old)) }
    {
        for byte in text {
            self.read(*byte)?;
        }
        Ok(())
    }

    /// How the reading stops if the text ends here.
    fn stop(&self) -> Option<Stop>
        ensures { result ≡ says.stop_in (shown.reading self.now) }
    {
        if 0 < self.groups && self.is_lone_brace() {
            return Some(Stop::Unsupported);
        }
        match self.place {
            Place::Stopped(stop) => Some(stop),
            Place::Behind(_) => Some(Stop::Unsupported),
            Place::Brace => Some(stop_in_brace(&self.name)),
            Place::Single => Some(Stop::Fails),
            _ => if self.double || 0 < self.groups {
                Some(Stop::Fails)
            } else {
                None
            },
        }
    }

    /// Adds the result of the bytes after the last whole piece as the text ends.
    fn end_text(&mut self) -> Result<(), AllocError>
        ensures { OnOk result (shown.reading self.new ≡ shown.with_last (shown.reading self.old)) }
    {
        match self.place {
            Place::Dollar => self.word.push_byte(b'$')?,
            Place::Name | Place::Operator => {
                self.place = Place::Open;
                self.push_variable()?;
            }
            Place::Joint(op) => self.push_token(single(op))?,
            _ => (),
        }
        self.place = Place::Open;
        self.end_word()
    }

    /// Takes the tokens that are whole, and how the reading stops after them.
    fn take_tokens(&mut self) -> Result<FoundTokens, AllocError>
        ensures { IfOk result (λ found. shown.found found ≡ says.tokens_in (shown.reading self.old)) }
    {
        let stop = self.stop();
        let quoted = stop.is_some() && self.quoted;
        if stop.is_none() {
            self.end_text()?;
        }
        let tokens = mem::replace(&mut self.tokens, Vec::new(self.alloc));
        Ok(FoundTokens {
            tokens,
            stop,
            quoted,
        })
    }

    /// Reads a text to its end.
    fn read_text(&mut self, text: &[u8]) -> Result<FoundTokens, AllocError>
        ensures { IfOk result (λ found. shown.found found
            ≡ says.tokens_in (says.read_all text.now (shown.reading self.old))) }
    {
        self.read_all(text)?;
        self.take_tokens()
    }
}

/// The tokens of a text, and how the reading stops after them. Errors: memory ran out.
#[tactic(auto, unfolding(crate::specs::ModernTokens::modern_tokens))]
pub(crate) fn modern_tokens(alloc: Global, text: &[u8]) -> Result<FoundTokens, AllocError>
    ensures { IfOk result (λ found. shown.found found ≡ says.modern_tokens text.now) }
{
    let mut reading = TextReading::new(alloc);
    reading.read_text(text)
}
