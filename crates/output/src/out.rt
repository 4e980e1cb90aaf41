//! Where bytes are written to.
ghost use Rattle.std.specs.Prelude.{◌≡◌, ◌≤◌, length, IfOk};
ghost use Rattle.std.specs.Io.KnownBytes.{Keeps, WriteAppends};
ghost use Rattle.output.specs.Sink.{Sink, failures_after};

use thiserror::Error;

/// Why an output took no bytes.
#[derive(Clone, Copy, Debug, Drop, PartialEq, Eq, Error)]
pub enum OutFault {
    /// The device refused the bytes.
    #[error("the output failed")]
    Failed,
}

/// Where bytes are written to.
pub trait Out {
    /// The bytes taken and the failures counted.
    ghost sink: { Self → Sink };

    /// Takes the first bytes of `bytes` and returns how many. An error takes none and counts as one
    /// failure, and so does a 0 if there were bytes to take. The greatest count stays as it is.
    /// Errors: `Failed`.
    fn write(&mut self, bytes: &[u8]) -> Result<usize, OutFault>
        ensures within { IfOk result (λ n. n ≤ length bytes.now) }
        ensures taken { WriteAppends (sink self.old).taken (sink self.new).taken result bytes.now }
        ensures failures { (sink self.new).failures
            ≡ failures_after result bytes.now (sink self.old).failures };

    /// Has the device take what it was not given yet, so that it has it before what comes next is
    /// done. A failure of this is met, and counted, by a later call.
    fn pass_on(&mut self)
        ensures taken { Keeps (sink self.old).taken (sink self.new).taken }
        ensures failures { (sink self.new).failures ≡ (sink self.old).failures };
}
