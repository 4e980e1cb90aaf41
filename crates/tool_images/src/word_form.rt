//! Words as they are printed.
ghost use Rattle.std.specs.Prelude.{Some, string_bytes};
ghost use Rattle.std.specs.Fmt.{WritesOnOk};
ghost use Rattle.text.specs.Escapes.{word_escaped, word_form};

use std::{fmt, str};
use text::Escaped;

/// A name, a path or another word, printed so that its bytes can be told apart: `a b` as `a\x20b`, and
/// the empty word as `\e`.
#[derive(Debug, Drop)]
pub struct WordForm(pub String);

/// Writes a byte of a word.
fn write_byte<W: fmt::Write>(f: &mut fmt::Formatter<W>, byte: u8) -> fmt::Result
    ensures { WritesOnOk W.write_str_gives f.old result (word_escaped byte) f.new }
{
    write_ascii(f, Escaped::in_word(byte).as_slice())
}

fn write_ascii<W: fmt::Write>(f: &mut fmt::Formatter<W>, bytes: &[u8]) -> fmt::Result
    ensures { WritesOnOk W.write_str_gives f.old result bytes.now f.new }
{
    match str::from_utf8(bytes) {
        Ok(text) => f.write_str(text),
        Err(_) => Err(fmt::Error),
    }
}

impl fmt::Display for WordForm {
    ghost output = { λ w. Some (word_form (string_bytes w.0)) };

    fn fmt<W: fmt::Write>(&self, f: &mut fmt::Formatter<W>) -> fmt::Result {
        let bytes = self.0.as_bytes();
        if bytes.is_empty() {
            return f.write_str("\\e");
        }
        for byte in bytes {
            write_byte(f, *byte)?;
        }
        Ok(())
    }
}
