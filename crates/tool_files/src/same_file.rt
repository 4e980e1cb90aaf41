//! Whether two looks found one file.

use std::fs::Metadata;
use std::os::unix::fs::MetadataExt;

/// Whether these describe one file: the same number, on the same device.
pub fn is_same_file(first: &Metadata, second: &Metadata) -> bool {
    first.dev() == second.dev() && first.ino() == second.ino()
}
