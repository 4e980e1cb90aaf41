//! Tokens, cut from a text one at a time.

ghost use Rattle.std.specs.Prelude.{◌≡◌, ◌+◌, ◌<◌, ◌≤◌, ◌^◌, suc, length, drop, IsTrue, slice_index};
ghost use Rattle.hushlang.specs.ByteClasses as bytes;
ghost use Rattle.hushlang.specs.Tokenizing as spec;
ghost use Rattle.hushlang.specs.CuttersShown.{stop_of};
ghost use Rattle.hushlang.specs.LexerShown.{front_shown, Gives, SpellsNext, GoesOn, BeginsWord};
ghost use Rattle.hushlang.specs.declared.word_parts.Mode.TheVariants as modes;

use crate::byte_classes::{begins, is_separator, line_len};
use crate::token::{Kind, SyntaxError, Token};
use crate::word_parts::Parts;
use std::marker::Model;
use text::is_space;

/// The tokens of a text, one at a time. Takes no memory.
#[derive(Drop)]
pub struct Lexer<'a> {
    text: &'a [u8],
    at: usize,
    fault: Option<SyntaxError>,
}

impl<'a> Model for Lexer<'a> {
    ghost use Rattle.hushlang.specs.LexerShown.{Coming, IsKnown};
    ghost use Rattle.std.specs.Prelude.{◌≤◌, length};

    ghost Value = { Coming };

    ghost view = { λ l. record { source = l.text.now; at = l.at } };

    ghost invariant = { λ l. (l.at ≤ length l.text.now)
        × IsKnown l.fault record { source = l.text.now; at = l.at } };
}

/// What is at a place of a text, and where it stops.
#[derive(Clone, Copy)]
enum Front {
    Gap(usize),
    Token(Kind, usize),
}

/// Where the word at a place stops, or what refuses it.
fn word_end(text: &[u8], at: usize) -> Result<usize, SyntaxError>
    requires { at ≤ length text.now }
    ensures { result ≡ stop_of (spec.row modes.Bare at 0 at (drop at text.now)) }
{
    let mut parts = Parts::new(text, at);
    'parts: while let Some(_) = parts.next()? {}
    Ok(parts.stop())
}

/// The word at a place.
fn word(text: &[u8], at: usize) -> Result<Front, SyntaxError>
    requires inside { at < length text.now }
    requires begins { BeginsWord (slice_index text.now at) (drop (at + 1) text.now) }
    ensures value { result ≡ front_shown at
        (spec.word_front at (slice_index text.now at) (drop (at + 1) text.now)) }
    ensures within { GoesOn at (length text.now) result }
{
    let stop = word_end(text, at)?;
    Ok(Front::Token(Kind::Word, stop))
}

/// The separator at the start of a text.
fn separator(at: usize, b: u8, behind: &[u8]) -> Result<Front, SyntaxError>
    requires separates { IsTrue (bytes.is_separator b) }
    requires room { at + suc (length behind.now) < 2 ^ 64 }
    ensures value { result ≡ front_shown at (spec.separator_front at b behind.now) }
    ensures within { GoesOn at (at + suc (length behind.now)) result }
{
    if is_space(b) {
        return Ok(Front::Gap(at + 1));
    }
    match b {
        b';' => Ok(Front::Token(Kind::Semi, at + 1)),
        b'&' if begins(behind, b'&') => Ok(Front::Token(Kind::AndAnd, at + 2)),
        b'&' => Err(SyntaxError::SingleAmp(at)),
        b'|' if begins(behind, b'|') => Ok(Front::Token(Kind::OrOr, at + 2)),
        b'|' => Err(SyntaxError::SinglePipe(at)),
        _ => Ok(Front::Token(Kind::Newline, at + 1)),
    }
}

/// What is at a place.
#[tactic(auto, using(crate::proofs::WordPartLemmas::rest_is), unfolding(crate::specs::Tokenizing::front))]
fn front_at(text: &[u8], at: usize) -> Result<Front, SyntaxError>
    requires { at < length text.now }
    ensures value { result ≡ front_shown at
        (spec.front at (slice_index text.now at) (drop (at + 1) text.now)) }
    ensures within { GoesOn at (length text.now) result }
{
    let b = text[at];
    let behind = &text[at + 1..];
    if is_separator(b) {
        return separator(at, b, behind);
    }
    if b == b'#' {
        return Ok(Front::Gap(at + (1 + line_len(behind))));
    }
    if b == b'\\' && begins(behind, b'\n') {
        return Ok(Front::Gap(at + 2));
    }
    word(text, at)
}

impl<'a> Lexer<'a> {
    /// Starts at the beginning of a text.
    pub fn new(text: &'a [u8]) -> Lexer<'a>
        ensures { result ≡ record { source = text.now; at = 0 } }
    {
        Lexer {
            text,
            at: 0,
            fault: None,
        }
    }

    /// Gives the next token, or `None` at the end. After the end and after a refusal, gives the
    /// same again.
    ///
    /// The refusals are those of the tokens, from `OpenQuote` to `SinglePipe`, with their places.
    pub fn next(&mut self) -> Result<Option<Token<'a>>, SyntaxError>
        ensures spells { SpellsNext self.old result self.new }
        ensures gives { Gives self.old result self.new }
        ensures source { self.new.source ≡ self.old.source }
    {
        self.cut_token()
    }

    fn cut_token(&mut self) -> Result<Option<Token<'a>>, SyntaxError>
        ensures gives { Gives self.old result self.new }
        ensures source { self.new.source ≡ self.old.source }
    {
        if let Some(fault) = self.fault {
            return Err(fault);
        }
        'fronts: while self.at < self.text.len() {
            let start = self.at;
            match front_at(self.text, start) {
                Ok(Front::Gap(stop)) => self.at = stop,
                Ok(Front::Token(kind, stop)) => {
                    self.at = stop;
                    return Ok(Some(Token {
                        kind,
                        start,
                        stop,
                        text: &self.text[start..stop],
                    }));
                }
                Err(fault) => {
                    self.fault = Some(fault);
                    return Err(fault);
                }
            }
        }
        Ok(None)
    }
}
