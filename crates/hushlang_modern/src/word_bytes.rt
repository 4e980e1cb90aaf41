//! The bytes of words, as U-Boot's modern shell keeps them.
ghost use Rattle.std.specs.Prelude.{◌≡◌, false, IfOk};
ghost use Rattle.hushlang_modern.specs.ModernWords as says;

use crate::byte_classes::is_wild;
use hushlang_uboot::unescaped;
use std::alloc::{AllocError, Global};

/// Whether a byte acts in a pattern.
fn acts(behind: bool, byte: u8) -> bool
    ensures { result ≡ says.acts behind byte }
{
    !behind && is_wild(byte)
}

/// Whether a byte of some bytes acts in a pattern (`glob_needed`).
fn is_pattern(bytes: &[u8]) -> bool
    ensures { result ≡ says.is_pattern false bytes.now }
{
    let mut behind = false;
    for byte in bytes {
        if acts(behind, *byte) {
            return true;
        }
        behind = *byte == b'\\' && !behind;
    }
    false
}

/// The bytes of a field (`perform_glob`). Errors: memory ran out.
pub(crate) fn without_guards(alloc: Global, bytes: Vec<u8>) -> Result<Vec<u8>, AllocError>
    ensures { IfOk result (λ made. made.items ≡ says.without_guards bytes.items) }
{
    if is_pattern(&bytes) {
        return Ok(bytes);
    }
    unescaped(alloc, &bytes)
}
