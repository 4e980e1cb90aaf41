//! The classes of bytes that U-Boot's modern shell distinguishes.
ghost use Rattle.std.specs.Prelude.{◌≡◌};
ghost use Rattle.std.specs.List.{list_all};
ghost use Rattle.hushlang.specs.ByteClasses as classes;
ghost use Rattle.hushlang_modern.specs.ModernTokens as says;

use hushlang_uboot::is_between;

/// Whether a byte is one that is not followed.
pub(crate) fn is_foreign(byte: u8) -> bool
    ensures { result ≡ says.is_foreign byte }
{
    byte == 3 || byte > 127
}

/// Whether a byte is a digit.
pub(crate) fn is_digit(byte: u8) -> bool
    ensures { result ≡ says.is_digit byte }
{
    is_between(b'0', b'9', byte)
}

/// Whether a byte is an ASCII letter or `_`.
pub(crate) fn begins_name(byte: u8) -> bool
    ensures { result ≡ classes.begins_name byte }
{
    is_between(b'a', b'z', byte) || is_between(b'A', b'Z', byte) || byte == b'_'
}

/// Whether a byte is an ASCII letter, a digit or `_`.
pub(crate) fn is_name_byte(byte: u8) -> bool
    ensures { result ≡ classes.is_name_byte byte }
{
    begins_name(byte) || is_digit(byte)
}

/// Whether a byte is `*`, `?` or `[`.
pub(crate) fn is_wild(byte: u8) -> bool
    ensures { result ≡ says.is_wild byte }
{
    byte == b'*' || byte == b'?' || byte == b'['
}

/// Whether quotes put a backslash in front of a byte.
pub(crate) fn is_guarded(byte: u8) -> bool
    ensures { result ≡ says.is_guarded byte }
{
    is_wild(byte) || byte == b'-' || byte == b'\\'
}

/// Whether a backslash in double quotes takes away the meaning of a byte.
pub(crate) fn is_escapable(byte: u8) -> bool
    ensures { result ≡ says.is_escapable byte }
{
    byte == b'"' || byte == b'$' || byte == b'`' || byte == b'\\'
}

/// Whether a byte after `$` is a parameter of the shell.
pub(crate) fn is_parameter(byte: u8) -> bool
    ensures { result ≡ says.is_parameter byte }
{
    is_digit(byte) || byte == b'#' || byte == b'*' || byte == b'@' || byte == b'-'
}

/// Whether a byte is `(` or `)`.
pub(crate) fn is_parenthesis(byte: u8) -> bool
    ensures { result ≡ says.is_parenthesis byte }
{
    byte == b'(' || byte == b')'
}

/// Whether a byte is an operator in braces.
pub(crate) fn is_operator(byte: u8) -> bool
    ensures { result ≡ says.is_operator byte }
{
    byte == b'%' || byte == b':' || byte == b'-' || byte == b'=' || byte == b'+' || byte == b'?'
}

/// Whether some bytes are `{` or `}`.
pub(crate) fn is_brace(bytes: &[u8]) -> bool
    ensures { result ≡ says.is_brace bytes.now }
{
    match bytes {
        [byte] => *byte == b'{' || *byte == b'}',
        _ => false,
    }
}

/// Whether some bytes start with a digit.
pub(crate) fn begins_with_digit(bytes: &[u8]) -> bool
    ensures { result ≡ classes.begins says.is_digit bytes.now }
{
    match bytes {
        [byte, ..] => is_digit(*byte),
        [] => false,
    }
}

/// Whether some bytes start with a letter or `_`.
pub(crate) fn begins_with_name(bytes: &[u8]) -> bool
    ensures { result ≡ classes.begins classes.begins_name bytes.now }
{
    match bytes {
        [byte, ..] => begins_name(*byte),
        [] => false,
    }
}

fn are_name_bytes(bytes: &[u8]) -> bool
    ensures { result ≡ list_all classes.is_name_byte bytes.now }
{
    bytes.iter().all(|byte| is_name_byte(*byte))
}

/// Whether some bytes are a letter or `_`, and then letters, digits and `_`.
pub(crate) fn is_name(bytes: &[u8]) -> bool
    ensures { result ≡ says.is_name bytes.now }
{
    begins_with_name(bytes) && are_name_bytes(bytes)
}
