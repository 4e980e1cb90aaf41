//! Digits, and the numbers that they spell.
ghost use Rattle.std.specs.Prelude.{◌≡◌, ◌-◌, ◌^◌, ◌≤◌, min};
ghost use Rattle.text.specs.Numbers.{are_digits, digit_of, value_in};

/// The value of a digit of any base up to 16, or 16 if the byte is no digit.
pub fn digit_of(byte: u8) -> u64
    ensures { result ≡ digit_of byte }
{
    match byte {
        b'0'..=b'9' => u64::from(byte - b'0'),
        b'A'..=b'F' => u64::from(byte - b'A') + 10,
        b'a'..=b'f' => u64::from(byte - b'a') + 10,
        _ => 16,
    }
}

/// Whether all bytes are decimal digits.
pub fn are_digits(bytes: &[u8]) -> bool
    ensures { result ≡ are_digits bytes.now }
{
    bytes.iter().all(|byte| b'0' <= *byte && *byte <= b'9')
}

/// The number that the digits spell in this base, or the greatest number of 64 bits if that is
/// smaller.
pub fn value_in(base: u64, digits: &[u8]) -> u64
    requires { 1 ≤ base }
    ensures { result ≡ min (value_in base digits.now) (2 ^ 64 - 1) }
{
    let mut number: u64 = 0;
    for digit in digits {
        number = number.saturating_mul(base).saturating_add(digit_of(*digit));
    }
    number
}
