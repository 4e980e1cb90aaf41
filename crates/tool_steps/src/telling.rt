//! An output that knows whether anything was written to it.
ghost use Rattle.std.specs.Prelude.{◌≡◌, ◌≤◌, IfOk, false, length, true};
ghost use Rattle.std.specs.Io.KnownBytes.{Keeps, WriteAppends};
ghost use Rattle.output.specs.Sink.{failures_after};
ghost use Rattle.tool_steps.specs.TellingShown.{has_told, out_of};

use output::{Out, OutFault, Over};
use std::io::Write;

/// An output, and whether anything was written to it.
#[derive(Drop)]
pub struct Telling<E> {
    out: E,
    told: bool,
}

impl<E> Telling<E> {
    /// The output, to which nothing was written yet.
    pub fn new(out: E) -> Self
        ensures out { out_of result ≡ out }
        ensures untold { has_told result ≡ false }
    {
        Telling { out, told: false }
    }

    /// Whether anything was written.
    pub fn has_told(&self) -> bool
        ensures { result ≡ has_told self.now }
    {
        self.told
    }
}

impl<W: Write> Telling<Over<W>> {
    /// Has the writer pass on all that it took. A failure is left unreported, since there is no other
    /// place to report it.
    pub(crate) fn flush(&mut self) {
        let _ = self.out.flush();
    }
}

impl<E: Out> Out for Telling<E> {
    ghost sink = { λ t. E.sink t.out };

    fn write(&mut self, bytes: &[u8]) -> Result<usize, OutFault>
        ensures within { IfOk result (λ n. n ≤ length bytes.now) }
        ensures taken { WriteAppends (E.sink (out_of self.old)).taken
            (E.sink (out_of self.new)).taken result bytes.now }
        ensures failures { (E.sink (out_of self.new)).failures
            ≡ failures_after result bytes.now (E.sink (out_of self.old)).failures }
        ensures told { has_told self.new ≡ true }
    {
        self.told = true;
        self.out.write(bytes)
    }

    fn pass_on(&mut self)
        ensures taken { Keeps (E.sink (out_of self.old)).taken (E.sink (out_of self.new)).taken }
        ensures failures { (E.sink (out_of self.new)).failures
            ≡ (E.sink (out_of self.old)).failures }
        ensures told { has_told self.new ≡ has_told self.old }
    {
        self.out.pass_on();
    }
}
