//! Writing all bytes, and seeing that the device has them.

use std::fs::OpenFile;
use std::io::{ErrorKind, Write};

/// Writes the bytes, and returns whether all were written. No failed write is repeated.
pub fn is_written<W: Write>(to: &mut W, bytes: &[u8]) -> bool {
    let mut rest = bytes;
    while !rest.is_empty() {
        match to.write(rest) {
            Ok(count) if count > 0 => rest = &rest[count..],
            _ => return false,
        }
    }
    to.flush().is_ok()
}

/// Whether the device has what was written. A file that cannot be asked counts as one that has.
pub fn is_synced<F: OpenFile>(file: &F) -> bool {
    match file.sync_all() {
        Ok(()) => true,
        Err(error) => error.kind() == ErrorKind::InvalidInput,
    }
}
