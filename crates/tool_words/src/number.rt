//! Numbers that may be written in hexadecimal digits.
ghost use Rattle.std.specs.Prelude.{◌≡◌, ◌≤◌};
ghost use Rattle.tool_words.specs.Numbers.{any_number, are_digits_in, byte_of, number_in, value_of};

use text::{digit_of, value_in};

/// Whether each byte is a digit of this base.
fn are_digits_in(base: u64, bytes: &[u8]) -> bool
    ensures { result ≡ are_digits_in base bytes.now }
{
    bytes.iter().all(|byte| digit_of(*byte) < base)
}

/// The number that these digits of a base spell, if it is below 2^32.
fn value_of(base: u64, digits: &[u8]) -> Option<u32>
    requires { 1 ≤ base }
    ensures { result ≡ value_of base digits.now }
{
    u32::try_from(value_in(base, digits)).ok()
}

/// The number below 2^32 that a text spells in this base, in one digit or more.
fn number_in(base: u64, text: &[u8]) -> Option<u32>
    requires { 1 ≤ base }
    ensures { result ≡ number_in base text.now }
{
    if text.is_empty() || !are_digits_in(base, text) {
        None
    } else {
        value_of(base, text)
    }
}

/// The number below 2^32 that a text writes: in decimal digits, or in hexadecimal ones after `0x`.
pub(crate) fn any_number(text: &str) -> Option<u32>
    ensures { result ≡ any_number text.now }
{
    match text.as_bytes() {
        [b'0', b'x', digits @ ..] => number_in(16, digits),
        digits => number_in(10, digits),
    }
}

/// The byte that a text writes in the same way.
pub(crate) fn byte_of(text: &str) -> Option<u8>
    ensures { result ≡ byte_of text.now }
{
    u8::try_from(any_number(text)?).ok()
}
