//! Bytes as the characters of their numbers.

use std::io;

/// Prints bytes.
pub(crate) fn print_bytes(rt: &impl Print, bytes: &[u8]) -> io::Result<()> {
    for byte in bytes {
        print!(rt; "{}", char::from(*byte))?;
    }
    Ok(())
}

/// Prints a space and a variable.
pub(crate) fn print_pair(rt: &impl Print, name: &[u8], value: &[u8]) -> io::Result<()> {
    print!(rt; " ")?;
    print_bytes(rt, name)?;
    print!(rt; "=")?;
    print_bytes(rt, value)
}
