//! The line of a device command, as a record has it.
ghost use Rattle.std.specs.Prelude.{◌≡◌, ◌++◌, ◌∷◌, [], OnOk, codes, map};
ghost use Rattle.std.specs.Bool.{OnTrue};
ghost use Rattle.std.specs.List.{flat_map};
ghost use Rattle.text.specs.Bytes as ascii;
ghost use Rattle.text.specs.Escapes.{word_escaped, word_form};
ghost use Rattle.text.specs.TextsShown.{bytes_of_words, spaced};
ghost use Rattle.text.specs.Words.{joined_words};
ghost use Rattle.rehearse_rules.specs.Listing.{digit_when};
ghost use Rattle.bootstore_state.specs.DeviceLog.{entry_line};

use crate::log::LogEntry;
use std::alloc::AllocError;
use text::Escaped;

/// Whether a byte is printed in a word as it is.
fn is_plain(byte: u8) -> bool
    ensures { OnTrue result (word_escaped byte ≡ byte ∷ []) }
{
    b' ' < byte && byte <= b'~' && byte != b'\\'
}

/// Whether all bytes are printed in a word as they are.
fn are_plain(bytes: &[u8]) -> bool
    ensures { OnTrue result (flat_map word_escaped bytes.now ≡ bytes.now) }
{
    for byte in bytes {
        if !is_plain(*byte) {
            return false;
        }
    }
    true
}

/// Adds bytes as they are printed in a word. Errors: memory ran out.
fn add_escaped(text: &mut Vec<u8>, bytes: &[u8]) -> Result<(), AllocError>
    ensures { OnOk result (text.new.items ≡ text.old.items ++ flat_map word_escaped bytes.now) }
{
    for byte in bytes {
        text.extend_from_slice(Escaped::in_word(*byte).as_slice())?;
    }
    Ok(())
}

/// Adds bytes in word form. Errors: memory ran out.
fn add_word(text: &mut Vec<u8>, word: &[u8]) -> Result<(), AllocError>
    ensures { OnOk result (text.new.items ≡ text.old.items ++ word_form word.now) }
{
    if word.is_empty() {
        text.extend_from_slice(b"\\e")
    } else if are_plain(word) {
        text.extend_from_slice(word)
    } else {
        add_escaped(text, word)
    }
}

/// Adds words in word form, a space before each. Errors: memory ran out.
fn add_spaced(text: &mut Vec<u8>, words: &[Vec<u8>]) -> Result<(), AllocError>
    ensures { OnOk result (text.new.items ≡ text.old.items ++ flat_map spaced words.now) }
{
    for word in words {
        text.push(b' ')?;
        add_word(text, word)?;
    }
    Ok(())
}

/// Adds words in word form, separated by spaces. Errors: memory ran out.
fn add_words(text: &mut Vec<u8>, words: &[Vec<u8>]) -> Result<(), AllocError>
    ensures { OnOk result (text.new.items
        ≡ text.old.items ++ joined_words (map word_form (bytes_of_words words.now))) }
{
    match words.split_first() {
        None => Ok(()),
        Some((first, rest)) => {
            add_word(text, first)?;
            add_spaced(text, rest)?;
            Ok(())
        }
    }
}

/// What the line of a device command starts with.
fn line_start(success: bool) -> &'static [u8]
    ensures { result.now ≡ codes "dev " ++ digit_when success ∷ ascii.space ∷ [] }
{
    if success { b"dev 0 " } else { b"dev 1 " }
}

/// Adds the line of a device command. Errors: memory ran out.
pub(crate) fn add_line(text: &mut Vec<u8>, entry: &LogEntry) -> Result<(), AllocError>
    ensures { OnOk result (text.new.items ≡ text.old.items ++ entry_line entry.now) }
{
    text.extend_from_slice(line_start(entry.success))?;
    add_words(text, &entry.words)?;
    text.push(b'\n')?;
    Ok(())
}
