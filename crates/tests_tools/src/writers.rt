//! Outputs of tests, into memory: one that takes all, one byte at a time, or some bytes in all, and one of which a write
//! fails.
ghost use Rattle.std.specs.Prelude.{Some};

use output::{Out, OutFault};
use std::alloc::{AllocError, Global};
use tests_rows::{number, shown};

/// What an output takes.
#[derive(Clone, Copy)]
pub enum Mode {
    /// All bytes.
    All,
    /// One byte a write.
    Slow,
    /// So many bytes, and then it fails.
    Limited(usize),
    /// So many bytes, and then none, without a fault.
    Full(usize),
    /// All bytes, but the write of this number fails, counted from 0.
    FailsOnce(usize),
}

impl Mode {
    /// The mode of a row: `slow`, `limited N`, `full N` or `once N`.
    pub(crate) fn new(says: &str) -> anyhow::Result<Mode> {
        let (kind, count) = says.split_once(' ').unwrap_or((says, "0"));
        Mode::of(kind, number(count)? as usize)
    }

    /// The mode of a kind with a number.
    pub(crate) fn of(kind: &str, count: usize) -> anyhow::Result<Mode> {
        Ok(match kind {
            "slow" => Mode::Slow,
            "limited" => Mode::Limited(count),
            "full" => Mode::Full(count),
            "once" => Mode::FailsOnce(count),
            _ => anyhow::bail!("no output is called so"),
        })
    }
}

/// An output into memory. A growth that is refused is a failure.
#[derive(Drop)]
pub struct Tested {
    /// What was taken.
    pub bytes: Vec<u8>,
    /// How often it failed.
    pub failures: u64,
    /// How many writes there were.
    pub writes: usize,
    mode: Mode,
}

impl Tested {
    /// An empty one.
    pub(crate) fn new(alloc: Global, mode: Mode) -> Self {
        Tested {
            bytes: Vec::new(alloc),
            failures: 0,
            writes: 0,
            mode,
        }
    }

    /// How many of so many bytes the next write takes, if it does not fail.
    fn room(&self, len: usize) -> Option<usize> {
        let taken = self.bytes.len();
        match self.mode {
            Mode::All => Some(len),
            Mode::Slow => Some(1),
            Mode::Limited(room) if taken >= room && len > 0 => None,
            Mode::Limited(room) | Mode::Full(room) => Some(room.saturating_sub(taken)),
            Mode::FailsOnce(failing) if failing == self.writes => None,
            Mode::FailsOnce(_) => Some(len),
        }
    }

    /// Its name, its bytes and, where it failed, how often.
    pub(crate) fn line(&self, alloc: Global, name: &str) -> Result<String, AllocError> {
        let bytes = shown(alloc, &self.bytes)?;
        let (failures, writes) = (self.failures, self.writes);
        if failures == 0 {
            return format!(in alloc; "{name}: {bytes}|\n");
        }
        format!(in alloc; "{name}: {bytes}| {failures} of {writes} writes failed\n")
    }
}

impl Out for Tested {
    ghost use Rattle.std.specs.Prelude.{Some};

    ghost sink = { λ o. record { taken = Some o.bytes.items; failures = o.failures } };

    fn write(&mut self, bytes: &[u8]) -> Result<usize, OutFault> {
        let room = self.room(bytes.len());
        self.writes = self.writes.saturating_add(1);
        let Some(room) = room else {
            self.failures = self.failures.saturating_add(1);
            return Err(OutFault::Failed);
        };
        let taken = bytes.len().min(room);
        if taken == 0 {
            if !bytes.is_empty() {
                self.failures = self.failures.saturating_add(1);
            }
            return Ok(0);
        }
        if self.bytes.extend_from_slice(&bytes[..taken]).is_err() {
            self.failures = self.failures.saturating_add(1);
            return Err(OutFault::Failed);
        }
        Ok(taken)
    }

    fn pass_on(&mut self) {}
}
