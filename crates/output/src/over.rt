//! An output over a writer of std.
ghost use Rattle.std.specs.Prelude.{◌≡◌};

use crate::out::{Out, OutFault};
use std::io::Write;

/// An output over any writer of std. Its bytes are those that the writer shows.
#[derive(Drop)]
pub struct Over<W> {
    writer: W,
    failures: u64,
    /// Whether all that was written is flushed.
    flushed: bool,
}

impl<W> Over<W> {
    ghost use Rattle.output.specs.Over.{writer_of, failures_of};

    /// An output over this writer, with no failure so far.
    pub fn new(writer: W) -> Self
        ensures writer { writer_of result ≡ writer }
        ensures failures { failures_of result ≡ 0 }
    {
        Over {
            writer,
            failures: 0,
            flushed: false,
        }
    }

    /// The writer, with all that it took.
    pub fn into_writer(self) -> W
        ensures { result ≡ writer_of self }
    {
        let Over {
            writer,
            failures: _,
            flushed: _,
        } = self;
        writer
    }
}

impl<W: Write> Over<W> {
    ghost use Rattle.std.specs.Prelude.{OnOk, true};
    ghost use Rattle.std.specs.Io.KnownBytes.{Keeps};
    ghost use Rattle.output.specs.Over.{writer_of, failures_of, failures_flushed, is_flushed};

    /// Has the writer pass on all that it took. An error counts as one failure. Errors: `Failed`.
    pub fn flush(&mut self) -> Result<(), OutFault>
        ensures flushed { OnOk result (is_flushed self.new ≡ true) }
        ensures bytes { Keeps (W.contents (writer_of self.old)) (W.contents (writer_of self.new)) }
        ensures failures { failures_of self.new ≡ failures_flushed result (failures_of self.old) }
    {
        match self.writer.flush() {
            Ok(()) => {
                self.flushed = true;
                Ok(())
            }
            Err(_) => {
                self.failures = self.failures.saturating_add(1);
                Err(OutFault::Failed)
            }
        }
    }
}

impl<W: Write> Out for Over<W> {
    ghost use Rattle.output.specs.Over.{writer_of, failures_of};

    ghost sink = { λ o. record { taken = W.contents (writer_of o); failures = failures_of o } };

    fn write(&mut self, bytes: &[u8]) -> Result<usize, OutFault> {
        self.flushed = false;
        match self.writer.write(bytes) {
            Ok(taken) => {
                if taken == 0 && !bytes.is_empty() {
                    self.failures = self.failures.saturating_add(1);
                }
                Ok(taken)
            }
            Err(_) => {
                self.failures = self.failures.saturating_add(1);
                Err(OutFault::Failed)
            }
        }
    }

    fn pass_on(&mut self) {
        let _ = self.writer.flush();
    }
}
