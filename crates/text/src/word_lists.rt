//! Lists of words: joined, and copied.
ghost use Rattle.std.specs.Prelude.{◌≡◌, map, IfOk};
ghost use Rattle.text.specs.TextsShown.{bytes_of_words};
ghost use Rattle.text.specs.Words.{joined_words};

use std::alloc::{AllocError, Global};
use std::convert::AsSlice;

/// The words, joined by single spaces. Errors: memory ran out.
pub fn joined_words<W: AsSlice<u8>>(alloc: Global, words: &[W]) -> Result<Vec<u8>, AllocError>
    ensures { IfOk result (λ v. v.items ≡ joined_words (map W.items words.now)) }
{
    let mut joined = Vec::new(alloc);
    for (at, word) in words.iter().enumerate() {
        if at > 0 {
            joined.push(b' ')?;
        }
        joined.extend_from_slice(word.as_slice())?;
    }
    Ok(joined)
}

/// Copies of the words. Errors: memory ran out.
pub fn copied_words(alloc: Global, words: &[Vec<u8>]) -> Result<Vec<Vec<u8>>, AllocError>
    ensures { IfOk result (λ copies. bytes_of_words copies.items ≡ bytes_of_words words.now) }
{
    let mut copies = Vec::with_capacity(alloc, words.len())?;
    for word in words {
        copies.push(Vec::from_slice(alloc, word)?)?;
    }
    Ok(copies)
}
