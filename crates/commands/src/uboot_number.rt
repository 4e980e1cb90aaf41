//! The numbers that the words of `test` spell for U-Boot's shells: in 64 bits that wrap.
ghost use Rattle.std.specs.Prelude.{◌≡◌};
ghost use Rattle.commands.specs.Hexadecimal.{in_word};
ghost use Rattle.commands.specs.Verdict.{read_in, magnitude};
ghost use Rattle.commands.specs.UBootTest.{number};

use crate::number::{begins_hexadecimal, behind_minus, digits_in};
use text::digit_of;

/// The number that the digits at the start spell, or 0 if there is none.
pub(crate) fn read_in(base: u64, word: &[u8]) -> u64
    ensures { result ≡ in_word (read_in base word.now) }
{
    let mut number: u64 = 0;
    let digits = digits_in(base, word);
    for digit in digits {
        number = number.wrapping_mul(base).wrapping_add(digit_of(*digit));
    }
    number
}

/// A number without a sign: hexadecimal after `0x`, octal after a leading 0, else decimal. Reading
/// ends at the first byte that does not fit.
fn magnitude(word: &[u8]) -> u64
    ensures { result ≡ in_word (magnitude word.now) }
{
    match word {
        [] => 0,
        [b'0', digits @ ..] => {
            if begins_hexadecimal(digits) {
                read_in(16, &digits[1..])
            } else {
                read_in(8, digits)
            }
        }
        _ => read_in(10, word),
    }
}

/// The number that a word spells, after an optional `-`.
pub(crate) fn number(word: &[u8]) -> i64
    ensures { result ≡ number word.now }
{
    match behind_minus(word) {
        Some(digits) => 0u64.wrapping_sub(magnitude(digits)).cast_signed(),
        None => magnitude(word).cast_signed(),
    }
}
