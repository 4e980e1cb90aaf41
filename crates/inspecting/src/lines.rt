//! The lines of a report: a key, a space and a value.
ghost use Rattle.std.specs.Prelude.{◌≡◌, ◌++◌, OnOk};
ghost use Rattle.text.specs.Escapes.{word_escaped, word_form};
ghost use Rattle.inspecting.specs.Report.{choice, decimal_line, hex_line, line, path_line};

use std::alloc::AllocError;
use text::Escaped;

/// Adds a line.
#[tactic(auto, unfolding(crate::specs::Report::line))]
pub fn put_line(text: &mut Vec<u8>, key: &str, value: &[u8]) -> Result<(), AllocError>
    ensures { OnOk result (text.new.items ≡ text.old.items ++ line key.now value.now) }
{
    text.extend_from_slice(key.as_bytes())?;
    text.push(b' ')?;
    text.extend_from_slice(value)?;
    text.push(b'\n')?;
    Ok(())
}

/// Adds a line with a decimal number.
pub fn put_decimal(text: &mut Vec<u8>, key: &str, number: usize) -> Result<(), AllocError>
    ensures { OnOk result (text.new.items ≡ text.old.items ++ decimal_line key.now number) }
{
    let alloc = *text.allocator();
    let digits = format!(in alloc; "{number}")?;
    put_line(text, key, digits.as_bytes())
}

/// Adds a line with a hexadecimal number.
pub fn put_hex(text: &mut Vec<u8>, key: &str, number: u64) -> Result<(), AllocError>
    ensures { OnOk result (text.new.items ≡ text.old.items ++ hex_line key.now number) }
{
    let alloc = *text.allocator();
    let digits = format!(in alloc; "0x{number:x}")?;
    put_line(text, key, digits.as_bytes())
}

/// Adds a line with `yes` or `no`.
pub fn put_choice(text: &mut Vec<u8>, key: &str, is_so: bool) -> Result<(), AllocError>
    ensures { OnOk result (text.new.items ≡ text.old.items ++ line key.now (choice is_so)) }
{
    put_line(text, key, if is_so { b"yes" } else { b"no" })
}

/// Adds a path, as words are printed.
pub fn put_word(text: &mut Vec<u8>, word: &str) -> Result<(), AllocError>
    ensures { OnOk result (text.new.items ≡ text.old.items ++ word_form word.now) }
{
    if word.is_empty() {
        text.extend_from_slice(b"\\e")?;
        return Ok(());
    }
    for byte in word.as_bytes() {
        text.extend_from_slice(Escaped::in_word(*byte).as_slice())?;
    }
    Ok(())
}

/// Adds the line of a path.
#[tactic(auto, unfolding(crate::specs::Report::line))]
pub fn put_path(text: &mut Vec<u8>, path: &str) -> Result<(), AllocError>
    ensures { OnOk result (text.new.items ≡ text.old.items ++ path_line path.now) }
{
    text.extend_from_slice(b"path ")?;
    put_word(text, path)?;
    text.push(b'\n')?;
    Ok(())
}
