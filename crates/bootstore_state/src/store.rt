//! What a store of states can do.
ghost use Rattle.std.specs.Prelude.{◌≡◌, ◌==◌, ◌+◌, ◌<◌, ◌≤◌, ◌^◌, not, length, IfOk, OnOk, OnErr, option_map, reverse, slice_get, Some};
ghost use Rattle.std.specs.List.{flat_map};
ghost use Rattle.std.specs.FinMap.{get, entries};
ghost use Rattle.bootstore_state.specs.Moment.{environment_of};
ghost use Rattle.text.specs.TextsShown.{option_bytes};
ghost use Rattle.bootstore_state.specs.Present.{moment_of};
ghost use Rattle.bootstore_state.specs.Record.{Record, fresh, started, stepped, stepped_by, with_mark, gone_back, changed, with_environment, with_local, with_echo, with_device, with_status, with_frame, with_place, without_frame};
ghost use Rattle.bootstore_state.specs.Scripts.{text_found};
ghost use Rattle.rehearse_terms.specs.Bounds.{most_steps};
ghost use Rattle.bootstore_state.specs.DeviceLog.{entry_line};
ghost use Rattle.hushlang_shells.specs.TreesByShell.{sourced_in, started_in};

use crate::frame::{At, Frame};
use crate::log::LogEntry;
use crate::present::Present;
use crate::scripts::TextFound;
use crate::table::Variables;
use envtools::Env;
use rehearse_terms::{Shell, Written};
use std::alloc::{AllocError, AllocFailed, Global};
use thiserror::Error;

/// Why a change was refused.
#[derive(Clone, Copy, Debug, PartialEq, Eq, Error)]
pub enum StoreError {
    /// Memory ran out.
    #[error("out of memory")]
    Memory,
}

impl From<AllocError> for StoreError {
    fn from(_: AllocError) -> Self {
        StoreError::Memory
    }
}

impl<T: Drop> From<AllocFailed<T>> for StoreError {
    fn from(_: AllocFailed<T>) -> Self {
        StoreError::Memory
    }
}

/// The present state of a run, and the marked states to which it can go back. A change returns
/// `Memory` only if a growth was refused, and has then changed nothing. The readers take no memory.
pub trait Store: Drop {
    /// The present state, the marked ones, and the count of all steps begun.
    ghost record_of: { Self → Record };

    /// A store in which everything is empty or 0. Takes no memory.
    fn new(alloc: Global) -> Self
        ensures { record_of result ≡ fresh };

    /// Starts a run in an environment: no frame and no mark. `begun` stays. What the run writes is kept or dropped.
    fn start(&mut self, env: &Env, written: Written) -> Result<(), StoreError>
        ensures ok { OnOk result (record_of self.new ≡ started written (environment_of env.now)
            (record_of self.old)) }
        ensures err { OnErr result (record_of self.new ≡ record_of self.old) };

    /// Sets an environment variable to a value, or deletes it if no value is given.
    fn set_env(&mut self, name: &[u8], value: Option<&[u8]>) -> Result<(), StoreError>
        ensures ok { OnOk result (record_of self.new
            ≡ changed (with_environment name.now (option_bytes value.entry)) (record_of self.old)) }
        ensures err { OnErr result (record_of self.new ≡ record_of self.old) };

    /// Sets a shell variable.
    fn set_local(&mut self, name: &[u8], value: &[u8]) -> Result<(), StoreError>
        ensures ok { OnOk result (record_of self.new ≡ changed (with_local name.now value.now)
            (record_of self.old)) }
        ensures err { OnErr result (record_of self.new ≡ record_of self.old) };

    /// Adds bytes at the end of the text, if it is kept.
    fn echo(&mut self, written: &[u8]) -> Result<(), StoreError>
        ensures ok { OnOk result (record_of self.new ≡ changed (with_echo written.now)
            (record_of self.old)) }
        ensures err { OnErr result (record_of self.new ≡ record_of self.old) };

    /// Adds a device command at the end of the log.
    fn device(&mut self, entry: LogEntry) -> Result<(), StoreError>
        ensures ok { OnOk result (record_of self.new ≡ changed (with_device entry)
            (record_of self.old)) }
        ensures err { OnErr result (record_of self.new ≡ record_of self.old) };

    /// Sets the status of the last command.
    fn set_status(&mut self, status: u8) -> Result<(), StoreError>
        ensures ok { OnOk result (record_of self.new ≡ changed (with_status status)
            (record_of self.old)) }
        ensures err { OnErr result (record_of self.new ≡ record_of self.old) };

    /// Begins a step: `steps` and `begun` grow by one. No call but this and the next changes `begun`.
    fn count_step(&mut self) -> Result<(), StoreError>
        requires steps { (record_of self.old).present.steps < most_steps }
        requires begun { (record_of self.old).begun + 1 < 2 ^ 64 }
        ensures ok { OnOk result (record_of self.new ≡ stepped (record_of self.old)) }
        ensures err { OnErr result (record_of self.new ≡ record_of self.old) };

    /// Begins so many steps at once: `steps` and `begun` grow by their count.
    fn count_steps(&mut self, count: u32) -> Result<(), StoreError>
        requires steps { (record_of self.old).present.steps + count ≤ most_steps }
        requires begun { (record_of self.old).begun + count < 2 ^ 64 }
        ensures ok { OnOk result (record_of self.new ≡ stepped_by count (record_of self.old)) }
        ensures err { OnErr result (record_of self.new ≡ record_of self.old) };

    /// Puts a frame on top of the others.
    fn push(&mut self, frame: Frame) -> Result<(), StoreError>
        ensures ok { OnOk result (record_of self.new ≡ changed (with_frame frame)
            (record_of self.old)) }
        ensures err { OnErr result (record_of self.new ≡ record_of self.old) };

    /// Moves the innermost frame to this place. Without a frame nothing changes.
    fn advance(&mut self, place: At) -> Result<(), StoreError>
        ensures ok { OnOk result (record_of self.new ≡ changed (with_place place)
            (record_of self.old)) }
        ensures err { OnErr result (record_of self.new ≡ record_of self.old) };

    /// Removes the innermost frame. Without a frame nothing changes.
    fn pop(&mut self) -> Result<(), StoreError>
        ensures ok { OnOk result (record_of self.new ≡ changed without_frame (record_of self.old)) }
        ensures err { OnErr result (record_of self.new ≡ record_of self.old) };

    /// Marks the present state.
    fn mark(&mut self) -> Result<(), StoreError>
        ensures ok { OnOk result (record_of self.new ≡ with_mark (record_of self.old)) }
        ensures err { OnErr result (record_of self.new ≡ record_of self.old) };

    /// Makes the last marked state the present one, with its frames, and removes its mark. Takes no
    /// memory. Without a mark nothing changes.
    fn back(&mut self)
        ensures { record_of self.new ≡ gone_back (record_of self.old) };

    /// What becomes of the text of an environment variable that `run` starts in this shell. Its script is shared, and kept for the next call
    /// with the same text and the same shell.
    fn text_of(&mut self, shell: Shell, name: &[u8]) -> Result<TextFound, StoreError>
        ensures found { IfOk result (λ found. text_found found
            ≡ option_map (started_in shell) (get (record_of self.old).present.environment name.now)) }
        ensures same { record_of self.new ≡ record_of self.old };

    /// What becomes of the text of a file that `source` runs in this shell. Its script is shared and kept in the same way.
    fn file_text(&mut self, shell: Shell, text: &[u8]) -> Result<TextFound, StoreError>
        ensures found { IfOk result (λ found. text_found found ≡ Some (sourced_in shell text.now)) }
        ensures same { record_of self.new ≡ record_of self.old };

    /// The present state, from which the readers below read.
    fn present(&self) -> &Present
        ensures { moment_of result.now ≡ (record_of self.now).present };

    /// Whether a state is marked.
    fn has_mark(&self) -> bool
        ensures { result ≡ not (length (record_of self.now).marked == 0) };

    /// How many steps were begun, in all runs together.
    fn begun(&self) -> u64
        ensures { result ≡ (record_of self.now).begun };

    /// The value of an environment variable.
    fn get_env(&self, name: &[u8]) -> Option<&[u8]>
        ensures { option_bytes result ≡ get (record_of self.now).present.environment name.now }
    {
        self.present().environment.get(name)
    }

    /// The value of a shell variable.
    fn get_local(&self, name: &[u8]) -> Option<&[u8]>
        ensures { option_bytes result ≡ get (record_of self.now).present.locals name.now }
    {
        self.present().locals.get(name)
    }

    /// The status of the last command.
    fn get_status(&self) -> u8
        ensures { result ≡ (record_of self.now).present.status }
    {
        self.present().status
    }

    /// How many steps the run has begun.
    fn steps(&self) -> u32
        ensures { result ≡ (record_of self.now).present.steps }
    {
        self.present().steps
    }

    /// The bytes that the run has written, if they are kept.
    fn text(&self) -> Option<&[u8]>
        ensures { option_bytes result ≡ (record_of self.now).present.text }
    {
        self.present().text.as_deref()
    }

    /// The device commands that were run, in order.
    fn log(&self) -> &[LogEntry]
        ensures { result.now ≡ (record_of self.now).present.log }
    {
        self.present().log.entries()
    }

    /// Their lines in a record.
    fn log_lines(&self) -> &[u8]
        ensures { result.now ≡ flat_map entry_line (record_of self.now).present.log }
    {
        self.present().log.lines()
    }

    /// The variables of the environment, in byte order of their names.
    fn variables(&self) -> Variables<'_>
        ensures { result ≡ entries (record_of self.now).present.environment }
    {
        self.present().environment.iter()
    }

    /// The shell variables, in byte order of their names.
    fn shell_variables(&self) -> Variables<'_>
        ensures { result ≡ entries (record_of self.now).present.locals }
    {
        self.present().locals.iter()
    }

    /// The frames, the innermost last.
    fn frames(&self) -> &[Frame]
        ensures { reverse result.now ≡ (record_of self.now).present.frames }
    {
        &self.present().frames
    }

    /// The innermost frame.
    fn top(&self) -> Option<&Frame>
        ensures { option_map (λ frame. frame.now) result
            ≡ slice_get (record_of self.now).present.frames 0 }
    {
        self.present().top()
    }
}
