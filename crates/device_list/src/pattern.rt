//! The patterns that a list's lines of calls start with.
ghost use Rattle.std.specs.Prelude.{◌≡◌, map, option_map, IfOk, OnOk};
ghost use Rattle.device_list.specs.CallLines.{same_word, same_words, same_pattern, word_alone, filled_pattern, fits_word, fits, is_rest, pattern_word, pattern_words, ends_in_rest, fixed_words, pattern_of};
ghost use Rattle.device_list.specs.DevicesShown.{word_shown, pattern_shown};
ghost use Rattle.commands.specs.TextsShown.{texts};
ghost use Rattle.envtools.specs.Environment.{value_of};

use crate::filled::fill_words;
use envtools::Env;
use std::alloc::{AllocError, Global};

/// A word of a pattern.
#[derive(Drop)]
pub(crate) enum PatternWord {
    /// This word.
    Exactly(Vec<u8>),
    /// Each word that starts so.
    Starting(Vec<u8>),
}

/// The words of a call after its name.
#[derive(Drop)]
pub(crate) struct Pattern {
    words: Vec<PatternWord>,
    /// Whether any further words may follow.
    more: bool,
}

/// Whether a word of a call fits.
fn fits_word(pattern: &PatternWord, word: &[u8]) -> bool
    ensures { result ≡ fits_word (word_shown pattern.now) word.now }
{
    match pattern {
        PatternWord::Exactly(text) => word == text.as_slice(),
        PatternWord::Starting(text) => word.starts_with(text),
    }
}

/// Whether two words of patterns are the same.
fn same_word(word: &PatternWord, other: &PatternWord) -> bool
    ensures { result ≡ same_word (word_shown word.now) (word_shown other.now) }
{
    match (word, other) {
        (PatternWord::Exactly(text), PatternWord::Exactly(other)) => text.as_slice()
            == other.as_slice(),
        (PatternWord::Starting(text), PatternWord::Starting(other)) => text.as_slice()
            == other.as_slice(),
        _ => false,
    }
}

/// Whether two patterns have the same words.
fn same_words(words: &[PatternWord], others: &[PatternWord]) -> bool
    ensures { result ≡ same_words (map word_shown words.now) (map word_shown others.now) }
{
    let mut left = others;
    for word in words {
        let [other, rest @ ..] = left else {
            return false;
        };
        if !same_word(word, other) {
            return false;
        }
        left = rest;
    }
    left.is_empty()
}

impl Pattern {
    /// The pattern of the calls with this word alone. Errors: memory ran out.
    pub(crate) fn exactly(alloc: Global, word: Vec<u8>) -> Result<Pattern, AllocError>
        ensures { IfOk result (λ p. pattern_shown p ≡ word_alone word.items) }
    {
        let mut words = Vec::new(alloc);
        words.push(PatternWord::Exactly(word))?;
        Ok(Pattern { words, more: false })
    }

    /// Puts the values in the places of words that name a variable. Errors: memory ran out.
    pub(crate) fn fill(&mut self, alloc: Global, env: &Env) -> Result<(), AllocError>
        ensures { OnOk result (pattern_shown self.new ≡ filled_pattern (value_of env.now) (pattern_shown self.old)) }
    {
        fill_words(alloc, &mut self.words, env)
    }

    /// Whether two patterns are the same. Takes no memory.
    pub(crate) fn is_same(&self, other: &Pattern) -> bool
        ensures { result ≡ same_pattern (pattern_shown self.now) (pattern_shown other.now) }
    {
        same_words(&self.words, &other.words) && self.more == other.more
    }

    /// Whether a call with these words fits. Takes no memory.
    pub(crate) fn fits(&self, words: &[Vec<u8>]) -> bool
        ensures { result ≡ fits (pattern_shown self.now) (texts words.now) }
    {
        let mut left = words;
        for first in &self.words {
            let [word, rest @ ..] = left else {
                return false;
            };
            if !fits_word(first, word) {
                return false;
            }
            left = rest;
        }
        self.more || left.is_empty()
    }
}

/// Whether a word is any number of words.
fn is_rest(word: &[u8]) -> bool
    ensures { result ≡ is_rest word.now }
{
    word == b"**".as_slice()
}

/// The pattern that a word is.
fn pattern_word(alloc: Global, word: &[u8]) -> Result<PatternWord, AllocError>
    ensures { IfOk result (λ w. word_shown w ≡ pattern_word word.now) }
{
    let front = word.len().saturating_sub(1);
    if &word[front..] == b"*".as_slice() {
        let text = Vec::from_slice(alloc, &word[..front])?;
        return Ok(PatternWord::Starting(text));
    }
    let text = Vec::from_slice(alloc, word)?;
    Ok(PatternWord::Exactly(text))
}

/// The words of a pattern, if none is `**`.
fn pattern_words(alloc: Global, words: &[&[u8]]) -> Result<Option<Vec<PatternWord>>, AllocError>
    ensures { IfOk result (λ ws. option_map (λ v. map word_shown v.items) ws
        ≡ pattern_words (map (λ w. w.now) words.now)) }
{
    let mut list = Vec::new(alloc);
    for word in words {
        if is_rest(word) {
            return Ok(None);
        }
        let one = pattern_word(alloc, word)?;
        list.push(one)?;
    }
    Ok(Some(list))
}

/// Whether the last word is `**`.
fn ends_in_rest(words: &[&[u8]]) -> bool
    ensures { result ≡ ends_in_rest (map (λ w. w.now) words.now) }
{
    match words.last() {
        Some(last) => is_rest(last),
        None => false,
    }
}

/// The words without a `**` that is the last.
fn fixed_words<'a, 'b>(words: &'a [&'b [u8]]) -> &'a [&'b [u8]]
    ensures { map (λ w. w.now) result.now ≡ fixed_words (map (λ w. w.now) words.now) }
{
    if ends_in_rest(words) {
        &words[..words.len() - 1]
    } else {
        words
    }
}

/// The pattern that words are, if they are one: the last of them may be `**`.
pub(crate) fn pattern_of(alloc: Global, words: &[&[u8]]) -> Result<Option<Pattern>, AllocError>
    ensures { IfOk result (λ p. option_map pattern_shown p
        ≡ pattern_of (map (λ w. w.now) words.now)) }
{
    let more = ends_in_rest(words);
    let Some(words) = pattern_words(alloc, fixed_words(words))? else {
        return Ok(None);
    };
    Ok(Some(Pattern { words, more }))
}
