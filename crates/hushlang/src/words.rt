//! What the grammar asks of a word.

ghost use Rattle.std.specs.Prelude.{◌≡◌, ◌<◌, length, map, is_some, option_map, IfOk, IfErr, IfSome};
ghost use Rattle.hushlang.specs.Token.{Plain};
ghost use Rattle.hushlang.specs.ByteClasses as bytes;
ghost use Rattle.hushlang.specs.Tokenizing as reading;
ghost use Rattle.hushlang.specs.LexerShown.{parts_of, token_of, IsCut};
ghost use Rattle.hushlang.specs.Words as spec;
ghost use Rattle.hushlang.specs.Grammar as grammar;
ghost use Rattle.hushlang.specs.CursorShown.{name_and_value};
ghost use Rattle.hushlang.specs.CuttersShown as cutting;
ghost use Rattle.hushlang.specs.CuttersShown.{to_come, IsTaken};
ghost use Rattle.hushlang.specs.declared.word_parts.Mode.TheVariants as modes;
ghost use Rattle.hushlang.specs.declared.token.SyntaxError.TheVariants.{Memory};

use crate::byte_classes::{begins_name, continues_name, name_len};
use crate::token::{Kind, SyntaxError, Token};
use crate::word_parts::{Part, Parts};
use std::alloc::Global;

/// The words that the grammar reserves at places where a command may start.
#[derive(Clone, Copy, PartialEq, Eq)]
pub enum Reserved {
    /// `if`
    If,
    /// `then`
    Then,
    /// `elif`
    Elif,
    /// `else`
    Else,
    /// `fi`
    Fi,
    /// `for`
    For,
    /// `while`
    While,
    /// `until`
    Until,
    /// `do`
    Do,
    /// `done`
    Done,
}

/// The byte of an ordinary part.
fn plain(part: Part<'_>) -> Option<u8>
    ensures { result ≡ spec.plain_byte (cutting.part part.entry) }
{
    match part {
        Part::Plain(b) => Some(b),
        _ => None,
    }
}

/// Whether a text is a word that has only ordinary bytes, and these.
#[tactic(auto, using(crate::proofs::PlainWordLemmas::spelled))]
fn spells(text: &[u8], word: &[u8]) -> bool
    ensures { result ≡ spec.spells word.now (reading.row modes.Bare 0 0 0 text.now) }
{
    let mut parts = Parts::new(text, 0);
    let mut left = word;
    'parts: loop {
        match parts.next() {
            Ok(Some(part)) => {
                let Some(b) = plain(part) else { return false };
                match left {
                    [first, rest @ ..] if b == *first => left = rest,
                    _ => return false,
                }
            }
            Ok(None) => return left.is_empty(),
            Err(_) => return false,
        }
    }
}

/// The same for a token, with a word that is not empty.
#[tactic(auto, using(crate::proofs::PlainWordLemmas::spells_parts), unfolding(crate::specs::LexerShown::parts_of))]
fn spells_word(token: Token<'_>, word: &[u8]) -> bool
    requires { 0 < length word.now }
    ensures { result ≡ spec.is_plain word.now (parts_of token.entry) }
{
    spells(token.text, word)
}

/// Whether these bytes spell this word.
fn are(bytes: &[u8], word: &[u8]) -> bool
    ensures { result ≡ spec.is_plain word.now (map Plain bytes.now) }
{
    bytes == word
}

/// The reserved word of these bytes.
#[tactic(auto, unfolding(crate::specs::Words::reserved))]
fn reserved_named(bytes: &[u8]) -> Option<Reserved>
    ensures { result ≡ spec.reserved (map Plain bytes.now) }
{
    if are(bytes, b"if") {
        return Some(Reserved::If);
    }
    if are(bytes, b"then") {
        return Some(Reserved::Then);
    }
    if are(bytes, b"elif") {
        return Some(Reserved::Elif);
    }
    if are(bytes, b"else") {
        return Some(Reserved::Else);
    }
    if are(bytes, b"fi") {
        return Some(Reserved::Fi);
    }
    if are(bytes, b"for") {
        return Some(Reserved::For);
    }
    if are(bytes, b"while") {
        return Some(Reserved::While);
    }
    if are(bytes, b"until") {
        return Some(Reserved::Until);
    }
    if are(bytes, b"do") {
        return Some(Reserved::Do);
    }
    if are(bytes, b"done") {
        return Some(Reserved::Done);
    }
    None
}

/// The length of the longest reserved word.
const RESERVED_MAX: usize = 5;

/// The reserved word that a word is. Cuts at most one part more of it than a reserved word can
/// have.
#[tactic(auto, using(crate::proofs::ReservedWordLemmas::fronting))]
fn reserved_word(token: Token<'_>) -> Option<Reserved>
    ensures { result ≡ spec.reserved (parts_of token.entry) }
{
    let mut parts = Parts::new(token.text, 0);
    let mut bytes = [0; RESERVED_MAX];
    let mut size = 0;
    'parts: loop {
        match parts.next() {
            Ok(Some(part)) => {
                let Some(b) = plain(part) else { return None };
                if size == RESERVED_MAX {
                    return None;
                }
                bytes[size] = b;
                size += 1;
            }
            Ok(None) => return reserved_named(&bytes[..size]),
            Err(_) => return None,
        }
    }
}

/// Whether a token is a word.
pub fn is_word(kind: Kind) -> bool
    ensures { result ≡ grammar.word_token kind }
{
    match kind {
        Kind::Word => true,
        _ => false,
    }
}

/// The reserved word that a token is.
#[tactic(auto, unfolding(crate::specs::Grammar::reserved_of))]
pub fn reserved_at(token: Token<'_>) -> Option<Reserved>
    ensures { result ≡ grammar.reserved_of (token_of token.entry) }
{
    match token.kind {
        Kind::Word => reserved_word(token),
        _ => None,
    }
}

/// Whether a token is the word `in`.
#[tactic(auto, unfolding(crate::specs::Grammar::is_in_word))]
pub fn is_in(token: Token<'_>) -> bool
    ensures { result ≡ grammar.is_in_word (token_of token.entry) }
{
    is_word(token.kind) && spells_word(token, b"in")
}

/// A letter or `_`, then letters, digits and `_`.
fn is_name(bytes: &[u8]) -> bool
    ensures { result ≡ grammar.is_name bytes.now }
{
    match bytes {
        [] => false,
        [b, ..] => begins_name(*b) && name_len(bytes) == bytes.len(),
    }
}

/// The name that a word of ordinary bytes spells.
#[tactic(auto, unfolding(crate::specs::Grammar::name_of))]
fn name(alloc: Global, token: Token<'_>) -> Result<Option<Vec<u8>>, SyntaxError>
    requires { IsCut token }
    ensures value { IfOk result
        (λ n. option_map (λ v. v.items) n ≡ grammar.name_of (parts_of token.entry)) }
    ensures err { IfErr result (λ e. e ≡ Memory) }
{
    let mut parts = Parts::new(token.text, 0);
    let mut name = Vec::new(alloc);
    'parts: while let Some(part) = parts.next()? {
        match plain(part) {
            Some(b) => name.push(b)?,
            None => return Ok(None),
        }
    }
    if is_name(name.as_slice()) {
        return Ok(Some(name));
    }
    Ok(None)
}

/// The name that a token spells.
#[tactic(auto, unfolding(crate::specs::Grammar::name_in))]
pub fn name_in(alloc: Global, token: Token<'_>) -> Result<Option<Vec<u8>>, SyntaxError>
    requires { IsCut token }
    ensures value { IfOk result
        (λ n. option_map (λ v. v.items) n ≡ grammar.name_in (token_of token.entry)) }
    ensures err { IfErr result (λ e. e ≡ Memory) }
{
    if is_word(token.kind) {
        name(alloc, token)
    } else {
        Ok(None)
    }
}

/// Whether a word is an assignment. Cuts the word up to `=`, or up to the first part that is not a
/// byte of a name. Takes no memory.
pub fn is_assignment(token: Token<'_>) -> bool
    requires { IsCut token }
    ensures { result ≡ is_some (grammar.assignment (parts_of token.entry)) }
{
    let mut parts = Parts::new(token.text, 0);
    let mut named = false;
    'parts: loop {
        match parts.next() {
            Ok(Some(part)) => match plain(part) {
                None => return false,
                Some(b'=') => return named,
                Some(b) if continues_name(named, b) => named = true,
                Some(_) => return false,
            },
            Ok(None) => return false,
            Err(_) => return false,
        }
    }
}

/// The name and the parts of the value, if a word is an assignment.
#[tactic(auto, unfolding(crate::specs::Grammar::assignment))]
pub fn assignment<'a>(
    alloc: Global,
    token: Token<'a>,
) -> Result<Option<(Vec<u8>, Parts<'a>)>, SyntaxError>
    requires { IsCut token }
    ensures value { IfOk result
        (λ found. option_map name_and_value found ≡ grammar.assignment (parts_of token.entry)) }
    ensures taken { IfOk result (λ found. IfSome found (λ f. IsTaken (to_come f.1))) }
    ensures err { IfErr result (λ e. e ≡ Memory) }
{
    let mut parts = Parts::new(token.text, 0);
    let mut name = Vec::new(alloc);
    'parts: while let Some(part) = parts.next()? {
        let Some(b) = plain(part) else {
            return Ok(None);
        };
        if b == b'=' {
            if is_name(name.as_slice()) {
                return Ok(Some((name, parts)));
            }
            return Ok(None);
        }
        name.push(b)?;
    }
    Ok(None)
}
