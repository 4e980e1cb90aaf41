//! How bytes are printed, so that spaces and bytes that do not print can be told apart.
ghost use Rattle.std.specs.Prelude.{◌≡◌, ◌∷◌, ◌++◌, ◌/◌, ◌%◌, [], codes};
ghost use Rattle.text.specs.Escapes.{bytes_of, escaped, hex_digit, word_escaped};

/// What a byte is printed as.
#[derive(Clone, Copy, Debug)]
pub enum Escaped {
    /// The byte itself.
    Plain([u8; 1]),
    /// A backslash, and a sign for the byte.
    Pair([u8; 2]),
    /// A backslash, an `x`, and the byte's two hexadecimal digits.
    Hidden([u8; 4]),
}

/// A byte as `\x` and its two hexadecimal digits, in lower case.
fn hidden(byte: u8) -> [u8; 4]
    ensures { result ≡ codes "\\x" ++ hex_digit (byte / 16) ∷ hex_digit (byte % 16) ∷ [] }
{
    let mut shown = [b'\\', b'x', 0, 0];
    let _fits = hex::encode_to_slice([byte], &mut shown[2..]);
    shown
}

impl Escaped {
    /// A byte of a text: a newline is `\n`, a backslash `\\`; other bytes from 32 to 126 are
    /// themselves, and any other is `\x` and its two digits.
    pub fn in_text(byte: u8) -> Self
        ensures { bytes_of result ≡ escaped byte }
    {
        match byte {
            b'\n' => Escaped::Pair(*b"\\n"),
            b'\\' => Escaped::Pair(*b"\\\\"),
            b' '..=b'~' => Escaped::Plain([byte]),
            _ => Escaped::Hidden(hidden(byte)),
        }
    }

    /// A byte of a word: as in a text, and a space is `\x20`.
    pub fn in_word(byte: u8) -> Self
        ensures { bytes_of result ≡ word_escaped byte }
    {
        if byte == b' ' {
            Escaped::Hidden(*b"\\x20")
        } else {
            Escaped::in_text(byte)
        }
    }

    /// The bytes that are printed.
    pub fn as_slice(&self) -> &[u8]
        ensures { result.now ≡ bytes_of self.now }
    {
        match self {
            Escaped::Plain(bytes) => bytes,
            Escaped::Pair(bytes) => bytes,
            Escaped::Hidden(bytes) => bytes,
        }
    }
}
