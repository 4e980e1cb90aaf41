//! The present state of a run.
ghost use Rattle.std.specs.Prelude.{◌≡◌, IfOk, Some, option_map, slice_get, vec_len, vec_capacity};
ghost use Rattle.std.specs.Borrow.{sem};

use crate::device_log::DeviceLog;
use crate::frame::{At, Frame};
use crate::kept_text::no_text;
use crate::table::Table;
use envtools::Env;
use rehearse_terms::Written;
use std::alloc::{AllocError, Global};

/// Where a variable is known.
#[derive(Clone, Copy)]
pub enum Scope {
    /// In the environment.
    Environment,
    /// In the shell.
    Local,
}

/// The state of a script, and its frames, the innermost last.
#[derive(Drop)]
pub struct Present {
    pub environment: Table,
    pub locals: Table,
    pub status: u8,
    pub text: Option<Vec<u8>>,
    pub log: DeviceLog,
    pub steps: u32,
    pub frames: Vec<Frame>,
}

impl Present {
    ghost use Rattle.std.specs.FinMap.{empty};
    ghost use Rattle.bootstore_state.specs.Record.{beginning, with_place};
    ghost use Rattle.bootstore_state.specs.Present.{moment_of, table_of, LendsTable};
    ghost use Rattle.bootstore_state.specs.Moment.{environment_of};
    ghost use Rattle.bootstore_state.specs.Table.{KeepsNothing};

    /// Everything is empty or 0.
    pub fn new(alloc: Global, written: Written) -> Self
        ensures beginning { moment_of result ≡ beginning written empty }
        ensures kept { KeepsNothing result.environment × KeepsNothing result.locals }
    {
        Present {
            environment: Table::new(alloc),
            locals: Table::new(alloc),
            status: 0,
            text: no_text(alloc, written),
            log: DeviceLog::new(alloc),
            steps: 0,
            frames: Vec::new(alloc),
        }
    }

    /// The state at the start of a run in an environment. Errors: memory ran out.
    pub fn at_start(alloc: Global, env: &Env, written: Written) -> Result<Present, AllocError>
        ensures beginning { IfOk result
            (λ present. moment_of present ≡ beginning written (environment_of env.now)) }
        ensures kept { IfOk result (λ present. KeepsNothing present.environment
            × KeepsNothing present.locals) }
    {
        let mut present = Present::new(alloc, written);
        for place in 0..env.len() {
            let (name, value) = env.pair(place).unwrap();
            present.environment.set(alloc, name, Some(value))?;
        }
        Ok(present)
    }

    /// The variables of a scope.
    pub fn table(&self, scope: Scope) -> &Table
        ensures { result.now ≡ table_of self.now scope }
    {
        match scope {
            Scope::Environment => &self.environment,
            Scope::Local => &self.locals,
        }
    }

    /// The variables of a scope, to change them.
    pub fn table_mut(&mut self, scope: Scope) -> &mut Table
        ensures* lends { sem 𝓛 (LendsTable self.entry scope result) }
        ensures value { result.now ≡ table_of self.old scope }
    {
        match scope {
            Scope::Environment => &mut self.environment,
            Scope::Local => &mut self.locals,
        }
    }

    /// The innermost frame.
    pub fn top(&self) -> Option<&Frame>
        ensures { option_map (λ frame. frame.now) result ≡ slice_get (moment_of self.now).frames 0 }
    {
        self.frames.last()
    }

    /// Moves the innermost frame to this place. Without a frame nothing changes.
    pub fn advance(&mut self, place: At)
        ensures moved { moment_of self.new ≡ with_place place (moment_of self.old) }
        ensures environment { self.new.environment ≡ self.old.environment }
        ensures locals { self.new.locals ≡ self.old.locals }
        ensures frames { vec_len self.new.frames ≡ vec_len self.old.frames }
        ensures capacity { vec_capacity self.new.frames ≡ vec_capacity self.old.frames }
    {
        let count = self.frames.len();
        if count > 0 {
            self.frames[count - 1].move_to(place);
        }
    }
}
