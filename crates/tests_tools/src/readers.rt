//! The input of tests.

use std::io::{self, ErrorKind, Read};

/// An input that gives some bytes a read, of which one read fails, and which fails if it is read again after its end.
#[derive(Drop)]
pub struct Source<'a> {
    /// What is still to be read.
    pub(crate) bytes: &'a [u8],
    /// How many bytes a read gives.
    pub(crate) step: u32,
    /// The number of the read that fails.
    pub(crate) failing: u32,
    /// How many reads there were.
    pub reads: u32,
    /// Whether it reported its end.
    pub(crate) has_ended: bool,
}

impl Read for Source<'_> {
    fn read(&mut self, buf: &mut [u8]) -> io::Result<usize> {
        let at = self.reads;
        self.reads = self.reads.saturating_add(1);
        if at == self.failing || self.has_ended {
            return Err(io::Error::from(ErrorKind::Interrupted));
        }
        self.has_ended = self.bytes.is_empty();
        let some = self.bytes.len().min(self.step as usize);
        let (mut now, later) = self.bytes.split_at(some);
        self.bytes = later;
        now.read(buf)
    }
}
