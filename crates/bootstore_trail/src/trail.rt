//! A store that keeps its marks, and after each mark the inverses of the changes since.
ghost use Rattle.std.specs.Prelude.{reverse};
ghost use Rattle.bootstore_trail.specs.Inverse.{CanGoBack, KeepsOnce};

use crate::inverse::{Inverse, Kept, Marked, Since, undo_to_mark};
use bootstore_state::{
    At, Frame, LogEntry, Present, Scope, Scripts, Store, StoreError, TextFound, add_text,
    text_length,
};
use envtools::Env;
use rehearse_terms::{Shell, Written};
use std::alloc::Global;

/// The present state, and what takes back the changes since the first mark. While nothing is
/// marked, nothing is kept.
#[derive(Drop)]
pub struct Trail {
    alloc: Global,
    present: Present,
    kept: Vec<Kept>,
    since: Since,
    begun: u64,
    scripts: Scripts,
    ghost can: { CanGoBack present since.untouched (reverse kept.items) },
    ghost once: { KeepsOnce present since.kept (reverse kept.items) },
}

impl Trail {
    ghost use Rattle.std.specs.Prelude.{◌≡◌, ◌<◌, ◌⊎◌, OnOk, OnErr, length};
    ghost use Rattle.bootstore_trail.specs.Trail.{record_of_trail};
    ghost use Rattle.bootstore_state.specs.Record.{changed};
    ghost use Rattle.bootstore_state.specs.Present.{with_variable};
    ghost use Rattle.text.specs.TextsShown.{option_bytes};

    /// Keeps the innermost frame as it is, if it has not changed since the last mark. Errors:
    /// `Memory`.
    fn keep_top(&mut self) -> Result<(), StoreError>
        ensures record { record_of_trail self.new ≡ record_of_trail self.old }
        ensures touched { OnOk result
            ((self.new.since.untouched < length self.new.present.frames.items)
            ⊎ (length self.new.present.frames.items ≡ 0)) }
    {
        let count = self.present.frames.len();
        if self.since.untouched < count || count == 0 {
            return Ok(());
        }
        self.kept.reserve(1)?;
        let frame = self.present.frames[count - 1].copy()?;
        let touched = Inverse::Touched(count - 1, frame);
        self.kept.push_reserved(Kept::Change(touched));
        self.since.untouched = count - 1;
        Ok(())
    }

    /// Sets a variable to a value, or deletes it if no value is given. Errors: `Memory`.
    fn set(&mut self, scope: Scope, name: &[u8], value: Option<&[u8]>) -> Result<(), StoreError>
        ensures ok { OnOk result (record_of_trail self.new ≡ changed (with_variable scope name.now
            (option_bytes value.entry)) (record_of_trail self.old)) }
        ensures err { OnErr result (record_of_trail self.new ≡ record_of_trail self.old) }
    {
        if self.kept.is_empty() {
            self.present.table_mut(scope).set(self.alloc, name, value)?;
            return Ok(());
        }
        let table = self.present.table(scope);
        if value.is_none() && table.get(name).is_none() {
            return Ok(());
        }
        let kept_at = table.kept_at(name);
        if kept_at > self.since.kept {
            self.present
                .table_mut(scope)
                .put(self.alloc, name, value, kept_at)?;
            return Ok(());
        }
        self.kept.reserve(1)?;
        let key = Vec::from_slice(self.alloc, name)?;
        let kept_at = self.kept.len() + 1;
        let before = self
            .present
            .table_mut(scope)
            .put(self.alloc, name, value, kept_at)?;
        let inverse = Inverse::Variable(scope, key, before);
        self.kept.push_reserved(Kept::Change(inverse));
        Ok(())
    }
}

impl Store for Trail {
    ghost use Rattle.bootstore_trail.specs.Trail.{record_of_trail};

    ghost record_of = { record_of_trail };

    fn new(alloc: Global) -> Self {
        Trail {
            alloc,
            present: Present::new(alloc, Written::Kept),
            kept: Vec::new(alloc),
            since: Since {
                untouched: 0,
                kept: 0,
            },
            begun: 0,
            scripts: Scripts::new(alloc),
        }
    }

    fn start(&mut self, env: &Env, written: Written) -> Result<(), StoreError> {
        let present = Present::at_start(self.alloc, env, written)?;
        self.kept.clear();
        self.since = Since {
            untouched: 0,
            kept: 0,
        };
        self.present = present;
        Ok(())
    }

    fn set_env(&mut self, name: &[u8], value: Option<&[u8]>) -> Result<(), StoreError> {
        self.set(Scope::Environment, name, value)
    }

    fn set_local(&mut self, name: &[u8], value: &[u8]) -> Result<(), StoreError> {
        self.set(Scope::Local, name, Some(value))
    }

    fn echo(&mut self, written: &[u8]) -> Result<(), StoreError> {
        add_text(&mut self.present.text, written)?;
        Ok(())
    }

    fn device(&mut self, entry: LogEntry) -> Result<(), StoreError> {
        self.present.log.push(entry)?;
        Ok(())
    }

    fn set_status(&mut self, status: u8) -> Result<(), StoreError> {
        self.present.status = status;
        Ok(())
    }

    fn count_step(&mut self) -> Result<(), StoreError> {
        self.present.steps += 1;
        self.begun += 1;
        Ok(())
    }

    fn count_steps(&mut self, count: u32) -> Result<(), StoreError> {
        self.present.steps += count;
        self.begun += count as u64;
        Ok(())
    }

    fn push(&mut self, frame: Frame) -> Result<(), StoreError> {
        self.present.frames.push(frame)?;
        Ok(())
    }

    fn advance(&mut self, place: At) -> Result<(), StoreError> {
        self.keep_top()?;
        self.present.advance(place);
        Ok(())
    }

    fn pop(&mut self) -> Result<(), StoreError> {
        self.keep_top()?;
        self.present.frames.pop();
        Ok(())
    }

    fn mark(&mut self) -> Result<(), StoreError> {
        let marked = Marked {
            status: self.present.status,
            steps: self.present.steps,
            text: text_length(&self.present.text),
            log: self.present.log.len(),
            frames: self.present.frames.len(),
            before: self.since,
        };
        self.kept.push(Kept::Mark(marked))?;
        self.since = Since {
            untouched: marked.frames,
            kept: self.kept.len(),
        };
        Ok(())
    }

    fn back(&mut self) {
        self.since = undo_to_mark(&mut self.present, &mut self.kept);
    }

    fn text_of(&mut self, shell: Shell, name: &[u8]) -> Result<TextFound, StoreError> {
        self.scripts.text_of(shell, &self.present.environment, name)
    }

    fn file_text(&mut self, shell: Shell, text: &[u8]) -> Result<TextFound, StoreError> {
        self.scripts.file_text(shell, text)
    }

    fn present(&self) -> &Present {
        &self.present
    }

    fn has_mark(&self) -> bool {
        !self.kept.is_empty()
    }

    fn begun(&self) -> u64 {
        self.begun
    }
}
