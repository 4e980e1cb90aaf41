//! Where a byte is first, and whether it is there.
ghost use Rattle.std.specs.Prelude.{◌≡◌, ◌==◌, position};
ghost use Rattle.text.specs.Words.{has_nul};

use memchr::memchr;

/// Finds the first place of a byte. Gives `None` if the byte is not there.
pub fn find(bytes: &[u8], wanted: u8) -> Option<usize>
    ensures { result ≡ position (λ b. b == wanted) bytes.now }
{
    memchr(wanted, bytes)
}

/// Whether a text holds a NUL.
pub fn has_nul(bytes: &[u8]) -> bool
    ensures { result ≡ has_nul bytes.now }
{
    bytes.iter().any(|byte| *byte == 0)
}
