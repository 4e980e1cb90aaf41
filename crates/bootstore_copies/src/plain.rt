//! A store that keeps a copy of each marked state.
use bootstore_state::{
    At, Frame, LogEntry, Present, Scripts, Store, StoreError, TextFound, add_text, copy_of,
};
use envtools::Env;
use rehearse_terms::{Shell, Written};
use std::alloc::Global;

/// The present state, and the marked ones.
#[derive(Drop)]
pub struct Plain {
    alloc: Global,
    present: Present,
    marked: Vec<Present>,
    begun: u64,
    scripts: Scripts,
}

impl Store for Plain {
    ghost use Rattle.bootstore_copies.specs.Plain.{record_of_plain};

    ghost record_of = { record_of_plain };

    fn new(alloc: Global) -> Self {
        Plain {
            alloc,
            present: Present::new(alloc, Written::Kept),
            marked: Vec::new(alloc),
            begun: 0,
            scripts: Scripts::new(alloc),
        }
    }

    fn start(&mut self, env: &Env, written: Written) -> Result<(), StoreError> {
        self.present = Present::at_start(self.alloc, env, written)?;
        self.marked.clear();
        Ok(())
    }

    fn set_env(&mut self, name: &[u8], value: Option<&[u8]>) -> Result<(), StoreError> {
        self.present.environment.set(self.alloc, name, value)?;
        Ok(())
    }

    fn set_local(&mut self, name: &[u8], value: &[u8]) -> Result<(), StoreError> {
        self.present.locals.set(self.alloc, name, Some(value))?;
        Ok(())
    }

    fn echo(&mut self, written: &[u8]) -> Result<(), StoreError> {
        add_text(&mut self.present.text, written)?;
        Ok(())
    }

    fn device(&mut self, entry: LogEntry) -> Result<(), StoreError> {
        self.present.log.push(entry)?;
        Ok(())
    }

    fn set_status(&mut self, status: u8) -> Result<(), StoreError> {
        self.present.status = status;
        Ok(())
    }

    fn count_step(&mut self) -> Result<(), StoreError> {
        self.present.steps += 1;
        self.begun += 1;
        Ok(())
    }

    fn count_steps(&mut self, count: u32) -> Result<(), StoreError> {
        self.present.steps += count;
        self.begun += count as u64;
        Ok(())
    }

    fn push(&mut self, frame: Frame) -> Result<(), StoreError> {
        self.present.frames.push(frame)?;
        Ok(())
    }

    fn advance(&mut self, place: At) -> Result<(), StoreError> {
        self.present.advance(place);
        Ok(())
    }

    fn pop(&mut self) -> Result<(), StoreError> {
        self.present.frames.pop();
        Ok(())
    }

    fn mark(&mut self) -> Result<(), StoreError> {
        let copy = copy_of(&self.present, self.alloc)?;
        self.marked.push(copy)?;
        Ok(())
    }

    fn back(&mut self) {
        if let Some(present) = self.marked.pop() {
            self.present = present;
        }
    }

    fn text_of(&mut self, shell: Shell, name: &[u8]) -> Result<TextFound, StoreError> {
        self.scripts.text_of(shell, &self.present.environment, name)
    }

    fn file_text(&mut self, shell: Shell, text: &[u8]) -> Result<TextFound, StoreError> {
        self.scripts.file_text(shell, text)
    }

    fn present(&self) -> &Present {
        &self.present
    }

    fn has_mark(&self) -> bool {
        !self.marked.is_empty()
    }

    fn begun(&self) -> u64 {
        self.begun
    }
}
