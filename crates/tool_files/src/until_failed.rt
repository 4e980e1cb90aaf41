//! A writer that is not called again after it has failed.
ghost use Rattle.std.specs.Prelude.{◌≡◌, ◌<◌, IfOk, IsErr, length, true};
ghost use Rattle.std.specs.Io.KnownBytes.{Keeps, WriteAppends};
ghost use Rattle.std.specs.Io.{WritesAtMost};
ghost use Rattle.tool_files.specs.UntilFailedShown.{has_failed, writer_of};

use std::io::{Error, ErrorKind, Result, Write};

/// A writer that is not called again after it has failed. A buffer of std repeats a write that was
/// interrupted, and when it is dropped it writes what it still holds. Over this writer no failed
/// write is repeated.
#[derive(Drop)]
pub struct UntilFailed<W> {
    writer: W,
    failed: bool,
}

impl<W> UntilFailed<W> {
    ghost use Rattle.std.specs.Prelude.{false};

    /// The writer, which has not failed.
    pub fn new(writer: W) -> Self
        ensures writer { writer_of result ≡ writer }
        ensures sound { has_failed result ≡ false }
    {
        UntilFailed {
            writer,
            failed: false,
        }
    }
}

impl<W: Write> Write for UntilFailed<W> {
    ghost contents = { λ w. W.contents (writer_of w) };

    /// A write that takes none of the bytes given is a failure too.
    fn write(&mut self, buf: &[u8]) -> Result<usize>
        ensures bound { WritesAtMost result buf.now }
        ensures bytes { WriteAppends (W.contents (writer_of self.old))
            (W.contents (writer_of self.new)) result buf.now }
        ensures stopped { has_failed self.old ≡ true → IsErr result }
        ensures unasked { has_failed self.old ≡ true → writer_of self.new ≡ writer_of self.old }
        ensures failed { IsErr result → has_failed self.new ≡ true }
        ensures none { IfOk result (λ taken. taken ≡ 0 → 0 < length buf.now → has_failed self.new
            ≡ true) }
    {
        if self.failed {
            return Err(Error::from(ErrorKind::BrokenPipe));
        }
        let Ok(taken) = self.writer.write(buf) else {
            self.failed = true;
            return Err(Error::from(ErrorKind::BrokenPipe));
        };
        self.failed = taken == 0 && !buf.is_empty();
        Ok(taken)
    }

    fn flush(&mut self) -> Result<()>
        ensures bytes { Keeps (W.contents (writer_of self.old)) (W.contents (writer_of self.new)) }
        ensures stopped { has_failed self.old ≡ true → IsErr result }
        ensures unasked { has_failed self.old ≡ true → writer_of self.new ≡ writer_of self.old }
        ensures failed { IsErr result → has_failed self.new ≡ true }
    {
        if !self.failed && self.writer.flush().is_ok() {
            return Ok(());
        }
        self.failed = true;
        Err(Error::from(ErrorKind::BrokenPipe))
    }
}
