//! Numbers as U-Boot's commands read them: hexadecimal, in 64 bits.
ghost use Rattle.std.specs.Prelude.{◌≡◌};
ghost use Rattle.commands.specs.Hexadecimal as says;

use text::digit_of;

/// What follows `0x`.
fn behind_prefix(word: &[u8]) -> &[u8]
    ensures { result.now ≡ says.behind_prefix word.now }
{
    match word {
        [zero, x, bytes @ ..] if *zero == b'0' && (*x == b'x' || *x == b'X') => bytes,
        _ => word,
    }
}

/// The number of the digits in front, and 0 if there is none.
fn read(bytes: &[u8]) -> u64
    ensures { result ≡ says.read_behind 0 bytes.now }
{
    let mut number: u64 = 0;
    for byte in bytes {
        let digit = digit_of(*byte);
        if digit >= 16 {
            return number;
        }
        number = number.wrapping_mul(16).wrapping_add(digit);
    }
    number
}

/// The number of a word, up to the first byte that is no digit.
pub(crate) fn hexadecimal(word: &[u8]) -> u64
    ensures { result ≡ says.hexadecimal word.now }
{
    read(behind_prefix(word))
}
