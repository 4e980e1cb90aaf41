//! What `exit` and its words say in U-Boot 2023.01 and 2025.01.
ghost use Rattle.std.specs.Prelude.{◌≡◌};
ghost use Rattle.commands.specs.Hexadecimal.{in_word};
ghost use Rattle.commands.specs.UBootExit as says;
ghost use Rattle.text.specs.TextsShown.{bytes_of_words};

use crate::number::begins_hexadecimal;
use crate::uboot_number::read_in;

/// The number at the start of a word: hexadecimal after `0x`, else decimal, also after a leading 0. It
/// wraps in 64 bits. Takes no memory.
pub fn leading_number(word: &[u8]) -> u64
    ensures { result ≡ in_word (says.leading_number word.now) }
{
    match word {
        [] => 0,
        [b'0', digits @ ..] if begins_hexadecimal(digits) => read_in(16, &digits[1..]),
        _ => read_in(10, word),
    }
}

/// The status that `exit` and its words have in 2023.01, where it is a command like others.
pub fn uboot_exit_status(words: &[Vec<u8>]) -> u8
    ensures { result ≡ says.uboot_exit_status (bytes_of_words words.now) }
{
    match words {
        [] => 0,
        [word] => {
            if leading_number(word) % 4_294_967_296 == 0 {
                0
            } else {
                1
            }
        }
        _ => 1,
    }
}

/// Whether `exit` with a word ends a text in 2025.01, where its number plays no part.
pub fn ends_text(word: &[u8]) -> bool
    ensures { result ≡ says.ends_text word.now }
{
    leading_number(word) < 2_147_483_647
}

/// The status that a word of `exit` names in 2025.01, if it is at most 255.
fn status_named(word: &[u8]) -> Option<u8>
    ensures { result ≡ says.status_named word.now }
{
    let number = leading_number(word);
    if number > 255 {
        return None;
    }
    Some(number as u8)
}

/// The status with which `exit` and its words end a text in 2025.01, if they end it.
pub fn newer_exit(words: &[Vec<u8>]) -> Option<u8>
    ensures { result ≡ says.newer_exit (bytes_of_words words.now) }
{
    match words {
        [] => Some(0),
        [word] => status_named(word),
        [_, _, ..] => None,
    }
}

/// The status of an `exit` of 2025.01 that does not end the text.
pub fn newer_exit_status(words: &[Vec<u8>]) -> u8
    ensures { result ≡ says.newer_exit_status (bytes_of_words words.now) }
{
    newer_exit(words).unwrap_or(1)
}

/// Whether `exit` with a word prints its usage in 2025.01, which it does by the number -1 in 32 bits.
fn tells_usage(word: &[u8]) -> bool
    ensures { result ≡ says.tells_usage word.now }
{
    leading_number(word) % 4_294_967_296 == 4_294_967_295
}

/// Whether the words of an `exit` of 2025.01 are followed: they name no number above 255, or one by which
/// `exit` prints its usage.
pub fn follows_exit(words: &[Vec<u8>]) -> bool
    ensures { result ≡ says.follows_exit (bytes_of_words words.now) }
{
    match words {
        [] => true,
        [word] => status_named(word).is_some() || tells_usage(word),
        [_, _, ..] => true,
    }
}
