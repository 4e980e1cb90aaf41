//! The numbers of a configuration.
ghost use Rattle.std.specs.Prelude.{◌≡◌, ◌≤◌, nat_lt};
ghost use Rattle.std.specs.List.{list_all};
ghost use Rattle.std.specs.Option.{option_copied};
ghost use Rattle.envimage.specs.Config.{number_in, after_0x, offset_of, size_of};
ghost use Rattle.text.specs.Numbers.{digit_of};

use text::{digit_of, value_in};

/// The greatest number that a configuration may hold.
const NUMBER_MAX: u64 = 9_223_372_036_854_775_807;

/// Whether all digits are of a base.
fn all_of_base(base: u64, digits: &[u8]) -> bool
    ensures { result ≡ list_all (λ b. nat_lt (digit_of b) base) digits.now }
{
    digits.iter().all(|digit| digit_of(*digit) < base)
}

/// The number that one digit or more of a base spell, if it is not too great.
fn number_in(base: u64, digits: &[u8]) -> Option<u64>
    requires { 1 ≤ base }
    ensures { result ≡ number_in base digits.now }
{
    if digits.is_empty() || !all_of_base(base, digits) {
        return None;
    }
    let number = value_in(base, digits);
    if number > NUMBER_MAX {
        None
    } else {
        Some(number)
    }
}

/// What follows `0x` or `0X`.
fn after_0x(word: &[u8]) -> Option<&[u8]>
    ensures { option_copied result ≡ after_0x word.now }
{
    match word {
        [b'0', b'x' | b'X', digits @ ..] => Some(digits),
        _ => None,
    }
}

/// An offset: hexadecimal after `0x`, octal after a leading 0, else decimal.
pub(crate) fn offset_of(word: &[u8]) -> Option<u64>
    ensures { result ≡ offset_of word.now }
{
    if let Some(digits) = after_0x(word) {
        return number_in(16, digits);
    }
    match word {
        [] => None,
        [b'0', ..] => number_in(8, word),
        _ => number_in(10, word),
    }
}

/// A size: hexadecimal, with or without `0x`.
pub(crate) fn size_of(word: &[u8]) -> Option<u64>
    ensures { result ≡ size_of word.now }
{
    number_in(16, after_0x(word).unwrap_or(word))
}
