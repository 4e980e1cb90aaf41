//! The device commands of a run, and their lines.
ghost use Rattle.std.specs.Prelude.{◌≡◌, IfOk};

use crate::device_line::add_line;
use crate::log::LogEntry;
use std::alloc::{AllocError, Global};
use std::marker::Model;

/// The device commands that were run, in order. Their lines are kept, so that no record makes the line of a
/// command that the run before it had too.
#[derive(Drop)]
pub struct DeviceLog {
    entries: Vec<LogEntry>,
    /// The lines of all entries.
    lines: Vec<u8>,
    /// Where the line of each entry starts.
    starts: Vec<usize>,
    /// Where a line is made.
    made: Vec<u8>,
}

impl Model for DeviceLog {
    ghost use Rattle.std.specs.Prelude.{List};
    ghost use Rattle.rehearse_terms.specs.State.{LoggedCommand};
    ghost use Rattle.bootstore_state.specs.DeviceLog.{AreLines};

    ghost Value = { List LoggedCommand };

    ghost view = { λ log. log.entries.items };

    ghost invariant = { λ log. AreLines log.entries.items log.lines.items log.starts.items };
}

/// A copy of entries. Errors: memory ran out.
fn copy_entries(alloc: Global, entries: &[LogEntry]) -> Result<Vec<LogEntry>, AllocError>
    ensures { IfOk result (λ copies. copies.items ≡ entries.now) }
{
    let mut copies = Vec::new(alloc);
    for entry in entries {
        copies.push(entry.copy()?)?;
    }
    Ok(copies)
}

impl DeviceLog {
    ghost use Rattle.std.specs.Prelude.{◌∷◌, ◌++◌, [], OnOk, OnErr, length, take};
    ghost use Rattle.std.specs.List.{flat_map};
    ghost use Rattle.bootstore_state.specs.DeviceLog.{entry_line};

    /// No command was run.
    pub fn new(alloc: Global) -> Self
        ensures { result ≡ [] }
    {
        DeviceLog {
            entries: Vec::new(alloc),
            lines: Vec::new(alloc),
            starts: Vec::new(alloc),
            made: Vec::new(alloc),
        }
    }

    /// How many there are.
    pub fn len(&self) -> usize
        ensures { result ≡ length self.now }
    {
        self.entries.len()
    }

    /// All of them.
    pub fn entries(&self) -> &[LogEntry]
        ensures { result.now ≡ self.now }
    {
        &self.entries
    }

    /// Their lines in a record.
    pub fn lines(&self) -> &[u8]
        ensures { result.now ≡ flat_map entry_line self.now }
    {
        &self.lines
    }

    /// Adds a command at the end. Errors: memory ran out, and nothing has changed.
    pub fn push(&mut self, entry: LogEntry) -> Result<(), AllocError>
        ensures ok { OnOk result (self.new ≡ self.old ++ entry ∷ []) }
        ensures err { OnErr result (self.new ≡ self.old) }
    {
        let start = self.lines.len();
        self.made.clear();
        add_line(&mut self.made, &entry)?;
        self.entries.reserve(1)?;
        self.starts.reserve(1)?;
        self.lines.extend_from_slice(&self.made)?;
        self.starts.push_reserved(start);
        self.entries.push_reserved(entry);
        Ok(())
    }

    /// Leaves the first so many, if there are more. Takes no memory.
    pub fn truncate(&mut self, count: usize)
        ensures { self.new ≡ take count self.old }
    {
        if count < self.entries.len() {
            let start = self.starts[count];
            self.lines.truncate(start);
            self.starts.truncate(count);
            self.entries.truncate(count);
        }
    }

    /// A copy. Errors: memory ran out.
    pub fn copy(&self, alloc: Global) -> Result<DeviceLog, AllocError>
        ensures { IfOk result (λ copy. copy ≡ self.now) }
    {
        Ok(DeviceLog {
            entries: copy_entries(alloc, &self.entries)?,
            lines: Vec::from_slice(alloc, &self.lines)?,
            starts: Vec::from_slice(alloc, &self.starts)?,
            made: Vec::new(alloc),
        })
    }
}
