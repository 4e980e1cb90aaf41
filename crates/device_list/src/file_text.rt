//! A file that a device list may name.

use std::alloc::Global;

/// What is known of a file.
#[derive(Clone, Drop)]
pub struct FileText {
    /// The text that it has as a script.
    pub text: Vec<u8>,
    /// Its size in bytes.
    pub size: u64,
}
