//! The classes of bytes that the language distinguishes.

ghost use Rattle.std.specs.Prelude.{◌≡◌, ◌<◌, ◌≤◌, length, not, IsTrue, ◌==◌};
ghost use Rattle.std.specs.List.{prefix_len};
ghost use Rattle.text.specs.Bytes as ascii;
ghost use Rattle.hushlang.specs.ByteClasses as spec;

use text::is_space;

/// Whether a byte ends a word unless it is quoted.
pub fn is_separator(b: u8) -> bool
    ensures { result ≡ spec.is_separator b }
{
    is_space(b) || b == b';' || b == b'&' || b == b'|' || b == b'\n'
}

/// Whether a name may start with a byte.
pub fn begins_name(b: u8) -> bool
    ensures { result ≡ spec.begins_name b }
{
    (b'a' <= b && b <= b'z') || (b'A' <= b && b <= b'Z') || b == b'_'
}

/// Whether a name may contain a byte after its first.
pub fn is_name_byte(b: u8) -> bool
    ensures { result ≡ spec.is_name_byte b }
{
    begins_name(b) || (b'0' <= b && b <= b'9')
}

/// Whether a byte continues a name that has begun, or starts one.
pub fn continues_name(begun: bool, b: u8) -> bool
    ensures { result ≡ spec.continues_name begun b }
{
    begins_name(b) || (begun && is_name_byte(b))
}

/// Whether a byte may be in the name between `${` and `}`.
pub fn is_brace_byte(b: u8) -> bool
    ensures { result ≡ spec.is_brace_byte b }
{
    33 <= b && b <= 126 && !is_brace_exception(b)
}

fn is_brace_exception(b: u8) -> bool
    ensures { result ≡ spec.is_brace_exception b }
{
    b == b'$'
        || b == b'{'
        || b == b'}'
        || b == b':'
        || b == b'='
        || b == b'"'
        || b == b'\''
        || b == b'\\'
        || b == b'`'
}

/// Whether a backslash keeps a byte inside double quotes.
pub fn is_escapable(b: u8) -> bool
    ensures { result ≡ spec.is_escapable b }
{
    b == b'$' || b == b'"' || b == b'\\'
}

/// Whether a text starts with a byte.
pub fn begins(text: &[u8], wanted: u8) -> bool
    ensures value { result ≡ spec.begins (λ b. b == wanted) text.now }
    ensures some { IsTrue result → 0 < length text.now }
{
    match text {
        [b, ..] => *b == wanted,
        [] => false,
    }
}

/// How many bytes at the start of a text may be in a name.
pub fn name_len(text: &[u8]) -> usize
    ensures value { result ≡ prefix_len spec.is_name_byte text.now }
    ensures within { result ≤ length text.now }
{
    text.iter().take_while(|b| is_name_byte(**b)).count()
}

/// How many bytes at the start of a text may be in a name in braces.
pub fn brace_len(text: &[u8]) -> usize
    ensures value { result ≡ prefix_len spec.is_brace_byte text.now }
    ensures within { result ≤ length text.now }
{
    text.iter().take_while(|b| is_brace_byte(**b)).count()
}

/// How many bytes are before the end of the line.
pub fn line_len(text: &[u8]) -> usize
    ensures value { result ≡ prefix_len (λ b. not (b == ascii.newline)) text.now }
    ensures within { result ≤ length text.now }
{
    text.iter().take_while(|b| **b != b'\n').count()
}
