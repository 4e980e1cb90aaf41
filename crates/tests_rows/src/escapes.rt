//! The escapes of a row. `\n`, `\t`, `\r` and `\\` are bytes, `\xHH` is the byte of two hexadecimal digits, and `\e` is
//! nothing, so that an empty word can be written. `\(N TEXT\)` is a text N times; it has no other such text in it.

use std::alloc::{AllocError, Global};
use std::fmt::Write;

/// What the next byte of a row is read as.
#[derive(Clone, Copy)]
enum Next {
    /// Itself, or the begin of an escape.
    Plain,
    /// What is after a backslash.
    Escape,
    /// The first digit of a byte.
    High,
    /// The second digit, after this one.
    Low(u8),
    /// A digit of how often a text is repeated, or the space after it.
    Count(u32),
}

/// A row while it is read.
#[derive(Drop)]
struct Reading {
    alloc: Global,
    bytes: Vec<u8>,
    next: Next,
    /// How often a text is repeated.
    turns: u32,
    /// Where that text begins.
    from: usize,
}

/// The value of a hexadecimal digit.
fn digit_of(byte: u8) -> u8 {
    match byte {
        b'0'..=b'9' => byte - b'0',
        b'a'..=b'f' => byte - b'a' + 10,
        b'A'..=b'F' => byte - b'A' + 10,
        _ => 0,
    }
}

impl Reading {
    /// Reads a byte that means itself, or begins an escape.
    fn plain(&mut self, byte: u8) -> Result<(), AllocError> {
        if byte == b'\\' {
            self.next = Next::Escape;
            return Ok(());
        }
        self.next = Next::Plain;
        Ok(self.bytes.push(byte)?)
    }

    /// Puts the text after a count there as often as it says.
    fn repeat(&mut self) -> Result<(), AllocError> {
        let text = self
            .bytes
            .get(self.from..)
            .unwrap_or(b"")
            .to_vec(self.alloc)?;
        self.bytes.truncate(self.from);
        for _ in 0..self.turns {
            self.bytes.extend_from_slice(&text)?;
        }
        Ok(())
    }

    /// Reads the byte after a backslash.
    fn escape(&mut self, byte: u8) -> Result<(), AllocError> {
        self.next = Next::Plain;
        match byte {
            b'n' => self.bytes.push(b'\n')?,
            b't' => self.bytes.push(b'\t')?,
            b'r' => self.bytes.push(b'\r')?,
            b'e' => {}
            b'x' => self.next = Next::High,
            b'(' => self.next = Next::Count(0),
            b')' => self.repeat()?,
            _ => self.bytes.push(byte)?,
        }
        Ok(())
    }

    /// Reads a digit of a count, or the space after it.
    fn count(&mut self, turns: u32, byte: u8) {
        if byte.is_ascii_digit() {
            let digit = u32::from(digit_of(byte));
            self.next = Next::Count(turns.saturating_mul(10).saturating_add(digit));
            return;
        }
        self.turns = turns;
        self.from = self.bytes.len();
        self.next = Next::Plain;
    }

    /// Reads the next byte.
    fn read(&mut self, byte: u8) -> Result<(), AllocError> {
        match self.next {
            Next::Plain => self.plain(byte)?,
            Next::Escape => self.escape(byte)?,
            Next::High => self.next = Next::Low(digit_of(byte)),
            Next::Low(high) => {
                self.next = Next::Plain;
                self.bytes.push(high.wrapping_mul(16) | digit_of(byte))?;
            }
            Next::Count(turns) => self.count(turns, byte),
        }
        Ok(())
    }
}

/// The bytes that a text of a row means.
pub fn unescaped(alloc: Global, text: &str) -> Result<Vec<u8>, AllocError> {
    let mut reading = Reading {
        alloc,
        bytes: Vec::new(alloc),
        next: Next::Plain,
        turns: 0,
        from: 0,
    };
    for byte in text.as_bytes() {
        reading.read(*byte)?;
    }
    Ok(reading.bytes)
}

/// Bytes as a row writes them.
pub fn shown(alloc: Global, bytes: &[u8]) -> Result<String, AllocError> {
    let mut text = String::new(alloc);
    for byte in bytes {
        match *byte {
            b'\n' => text.push_str("\\n")?,
            b'\\' => text.push_str("\\\\")?,
            b' '..=b'~' => text.push(char::from(*byte))?,
            other => write!(text, "\\x{other:02x}")?,
        }
    }
    Ok(text)
}
