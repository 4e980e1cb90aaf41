//! Bytes that may not print.
ghost use Rattle.std.specs.Prelude.{◌≡◌, ◌++◌, OnOk};
ghost use Rattle.text.specs.Escapes.{word_form};
ghost use Rattle.hushcheck.specs.Shown.{line_byte, mark_line, shown_line};

use std::alloc::AllocError;
use text::Escaped;

/// Adds a name at the end of a text.
pub(crate) fn push_name(text: &mut Vec<u8>, name: &[u8]) -> Result<(), AllocError>
    ensures { OnOk result (text.new.items ≡ text.old.items ++ word_form name.now) }
{
    if name.is_empty() {
        return text.extend_from_slice(b"\\e");
    }
    for byte in name {
        text.extend_from_slice(Escaped::in_word(*byte).as_slice())?;
    }
    Ok(())
}

/// A byte of a line that is shown.
fn line_byte(byte: u8) -> u8
    ensures { result ≡ line_byte byte }
{
    match byte {
        b'\t' | b' '..=b'~' => byte,
        _ => b'?',
    }
}

/// Adds the bytes of a line at the end of a text.
pub(crate) fn push_line(text: &mut Vec<u8>, line: &[u8]) -> Result<(), AllocError>
    ensures { OnOk result (text.new.items ≡ text.old.items ++ shown_line line.now) }
{
    for byte in line {
        text.push(line_byte(*byte))?;
    }
    Ok(())
}

/// Adds the line of a mark at the end of a text. The mark is under the byte that follows these.
pub(crate) fn push_mark(text: &mut Vec<u8>, before: &[u8]) -> Result<(), AllocError>
    ensures { OnOk result (text.new.items ≡ text.old.items ++ mark_line before.now) }
{
    for byte in before {
        let under = if *byte == b'\t' { b'\t' } else { b' ' };
        text.push(under)?;
    }
    text.push(b'^')?;
    Ok(())
}
