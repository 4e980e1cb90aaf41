//! What U-Boot's shells see in bytes, and the bytes of an operator.
ghost use Rattle.std.specs.Prelude.{◌≡◌, false, IfOk};
ghost use Rattle.hushlang.specs.ByteClasses as classes;
ghost use Rattle.hushlang_uboot.specs.ReadBytes as says;

use hushlang::Op;
use std::alloc::{AllocError, Global};

/// Whether a byte is one of these two, or between them.
pub fn is_between(low: u8, high: u8, byte: u8) -> bool
    ensures { result ≡ classes.is_between low high byte }
{
    low <= byte && byte <= high
}

/// The byte that an operator has twice.
pub fn sign_of(op: Op) -> u8
    ensures { result ≡ says.sign_of op }
{
    match op {
        Op::And => b'&',
        Op::Or => b'|',
    }
}

/// Bytes without the backslash before each byte (`unbackslash`). Errors: memory ran out.
pub fn unescaped(alloc: Global, word: &[u8]) -> Result<Vec<u8>, AllocError>
    ensures { IfOk result (λ bytes. bytes.items ≡ says.unescaped false word.now) }
{
    let mut bytes = Vec::new(alloc);
    let mut behind = false;
    for byte in word {
        behind = *byte == b'\\' && !behind;
        if !behind {
            bytes.push(*byte)?;
        }
    }
    Ok(bytes)
}
