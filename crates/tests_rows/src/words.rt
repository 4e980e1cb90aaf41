//! The words of a row.

use crate::escapes::{shown, unescaped};
use anyhow::Context;
use std::alloc::{AllocError, Global};

/// The first word of a text, and what it says after that: nothing where it has one word alone.
pub fn first_word(says: &str) -> (&str, &str) {
    says.split_once(' ').unwrap_or((says, ""))
}

/// What a table has beside a word, or `other` where it has none. A row of the table has several words, a space between
/// them.
pub fn subject_of<S: Copy>(subjects: &[(&str, S)], word: &str, other: S) -> S {
    for (words, subject) in subjects {
        if words.split(' ').any(|it| it == word) {
            return *subject;
        }
    }
    other
}

/// The words of what a row says, a space between them. Where it says nothing there is none.
pub fn words_of(alloc: Global, text: &str) -> Result<Vec<Vec<u8>>, AllocError> {
    let mut words = Vec::new(alloc);
    if !text.is_empty() {
        for word in text.split(' ') {
            words.push(unescaped(alloc, word)?)?;
        }
    }
    Ok(words)
}

/// The number that a word spells.
pub fn number(word: &str) -> anyhow::Result<u32> {
    word.parse::<u32>().context("a number is missing")
}

/// Borrowed words.
pub fn slices(alloc: Global, words: &[Vec<u8>]) -> Result<Vec<&[u8]>, AllocError> {
    let mut slices = Vec::new(alloc);
    for word in words {
        slices.push(word.as_slice())?;
    }
    Ok(slices)
}

/// Bytes as a text, or as a row writes them where they are none.
pub fn text_of(alloc: Global, bytes: &[u8]) -> Result<String, AllocError> {
    match str::from_utf8(bytes) {
        Ok(text) => String::from_str(alloc, text),
        Err(_) => shown(alloc, bytes),
    }
}

/// What a text of a row means, as `text_of` has its bytes.
pub fn unescaped_text(alloc: Global, says: &str) -> Result<String, AllocError> {
    text_of(alloc, &unescaped(alloc, says)?)
}
