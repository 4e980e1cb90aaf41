//! Single quotes in a line of a device list, as the shell reads them.
ghost use Rattle.std.specs.Prelude.{◌≡◌, ◌||◌, ◌++◌, [], ◌∷◌, not, filter, if◌then◌else◌, map, option_map, IfOk, OnOk};
ghost use Rattle.std.specs.List.{list_any};
ghost use Rattle.text.specs.Words.{is_space};
ghost use Rattle.device_list.specs.Quotes.{has_byte, is_quote, quoted_words, unquoted};

use std::alloc::{AllocError, Global};
use text::{is_space, trimmed};

/// Whether a byte is a single quote.
pub(crate) fn is_quote(byte: u8) -> bool
    ensures { result ≡ is_quote byte }
{
    byte == b'\''
}

/// Whether a word holds a single quote.
pub(crate) fn has_quote(word: &[u8]) -> bool
    ensures { result ≡ list_any is_quote word.now }
{
    word.iter().any(|byte| *byte == b'\'')
}

/// Adds a piece of a line, if it has a byte. Errors: memory ran out.
fn close<'a>(words: &mut Vec<&'a [u8]>, word: &'a [u8]) -> Result<(), AllocError>
    ensures { OnOk result (map (λ w. w.now) words.new.items
        ≡ map (λ w. w.now) words.old.items ++ filter has_byte (word.now ∷ [])) }
{
    if let [_, ..] = word {
        words.push(word)?;
    }
    Ok(())
}

/// Whether the next byte is quoted.
fn is_quoted_after(quoted: bool, byte: u8) -> bool
    ensures { result ≡ (if is_quote byte then not quoted else quoted) }
{
    if is_quote(byte) { !quoted } else { quoted }
}

/// Whether a byte is one of a word, and no blank between words.
fn is_of_word(quoted: bool, byte: u8) -> bool
    ensures { result ≡ (quoted || not (is_space byte)) }
{
    quoted || !is_space(byte)
}

/// The words of a line, which blanks separate that are in no quotes. Quotes stay in their words.
pub(crate) fn quoted_words(alloc: Global, line: &[u8]) -> Result<Vec<&[u8]>, AllocError>
    ensures { IfOk result (λ v. map (λ w. w.now) v.items ≡ quoted_words line.now) }
{
    let line = trimmed(line);
    let mut words = Vec::new(alloc);
    let mut start = 0;
    let mut quoted = false;
    for at in 0..line.len() {
        let byte = line[at];
        if is_of_word(quoted, byte) {
            quoted = is_quoted_after(quoted, byte);
        } else {
            close(&mut words, &line[start..at])?;
            start = at + 1;
        }
    }
    close(&mut words, &line[start..])?;
    Ok(words)
}

/// A value without its quotes, if each one is closed.
pub(crate) fn unquoted(alloc: Global, value: &[u8]) -> Result<Option<Vec<u8>>, AllocError>
    ensures { IfOk result (λ v. option_map (λ bytes. bytes.items) v ≡ unquoted value.now) }
{
    let mut bytes = Vec::new(alloc);
    let mut quoted = false;
    for byte in value {
        if is_quote(*byte) {
            quoted = !quoted;
        } else {
            bytes.push(*byte)?;
        }
    }
    if quoted {
        return Ok(None);
    }
    Ok(Some(bytes))
}
