//! The numbers that the words of `test` spell.
ghost use Rattle.std.specs.Prelude.{◌≡◌, ◌-◌, ◌^◌, ◌≤◌, nat_lt, length, min, pos};
ghost use Rattle.std.specs.List.{prefix_len};
ghost use Rattle.std.specs.Option.{option_copied};
ghost use Rattle.text.specs.Numbers.{digit_of};
ghost use Rattle.commands.specs.Verdict.{digits_in, read_in, begins_hexadecimal, magnitude, negated, behind_minus, number};

use text::{digit_of, value_in};

/// How many bytes at the start are digits of a base.
fn digits_len(base: u64, word: &[u8]) -> usize
    ensures value { result ≡ prefix_len (λ b. nat_lt (digit_of b) base) word.now }
    ensures within { result ≤ length word.now }
{
    word.iter()
        .take_while(|byte| digit_of(**byte) < base)
        .count()
}

/// The bytes at the start that are digits of a base.
pub(crate) fn digits_in(base: u64, word: &[u8]) -> &[u8]
    ensures { result.now ≡ digits_in base word.now }
{
    &word[..digits_len(base, word)]
}

/// The number that the digits at the start spell, or 0 if there is none.
fn read_in(base: u64, word: &[u8]) -> u64
    requires { 1 ≤ base }
    ensures { result ≡ min (read_in base word.now) (2 ^ 64 - 1) }
{
    value_in(base, digits_in(base, word))
}

/// Whether a word starts with an x of either case and a hexadecimal digit.
pub(crate) fn begins_hexadecimal(word: &[u8]) -> bool
    ensures { result ≡ begins_hexadecimal word.now }
{
    match word {
        [x, digit, ..] => (*x == b'x' || *x == b'X') && digit_of(*digit) < 16,
        _ => false,
    }
}

/// A number without a sign: hexadecimal after `0x`, octal after a leading 0, else decimal. Reading
/// ends at the first byte that does not fit.
fn magnitude(word: &[u8]) -> u64
    ensures { result ≡ min (magnitude word.now) (2 ^ 64 - 1) }
{
    match word {
        [] => 0,
        [b'0', digits @ ..] => {
            if begins_hexadecimal(digits) {
                read_in(16, &digits[1..])
            } else {
                read_in(8, digits)
            }
        }
        _ => read_in(10, word),
    }
}

/// The number itself, or the greatest of 64 bits if that is smaller.
fn positive(magnitude: u64) -> i64
    ensures { result ≡ pos (min magnitude 9223372036854775807) }
{
    if magnitude <= 9_223_372_036_854_775_807 {
        magnitude as i64
    } else {
        i64::MAX
    }
}

/// The number with a minus sign, or the least of 64 bits if that is greater.
fn negative(magnitude: u64) -> i64
    ensures { result ≡ negated (min magnitude 9223372036854775808) }
{
    if magnitude <= 9_223_372_036_854_775_807 {
        -(magnitude as i64)
    } else {
        i64::MIN
    }
}

/// What follows a minus sign.
pub(crate) fn behind_minus(word: &[u8]) -> Option<&[u8]>
    ensures { option_copied result ≡ behind_minus word.now }
{
    match word {
        [b'-', digits @ ..] => Some(digits),
        _ => None,
    }
}

/// The number that a word spells, after an optional `-`. If 64 bits cannot hold it, it is the least
/// or the greatest number that they can hold.
#[tactic(auto, using(crate::proofs::VerdictLemmas::cut_numbers))]
pub(crate) fn number(word: &[u8]) -> i64
    ensures { result ≡ number word.now }
{
    match behind_minus(word) {
        Some(digits) => negative(magnitude(digits)),
        None => positive(magnitude(word)),
    }
}
