//! The row of changes.

use bootstore_state::{At, Frame, FrameKind, LogEntry, Store, StoreError};
use envtools::{Env, EnvError};
use hushlang::Script;
use rehearse_terms::Written;
use std::alloc::{AllocError, Global};
use std::rc::Rc;

/// A change of a store.
#[derive(Clone, Copy, Debug)]
pub(crate) enum Change {
    Start,
    Mark,
    SetA,
    DeleteA,
    SetB,
    DeleteB,
    SetLocal,
    SetStatus,
    Echo,
    Device,
    CountStep,
    Push,
    Advance,
    Pop,
    Back,
}

/// Each kind of change, before the first mark, after it and after the second, and the way back.
pub(crate) const ROW: [Change; 34] = [
    Change::Start,
    Change::SetA,
    Change::SetLocal,
    Change::Echo,
    Change::Device,
    Change::CountStep,
    Change::Push,
    Change::Mark,
    Change::SetA,
    Change::SetB,
    Change::SetLocal,
    Change::SetStatus,
    Change::Echo,
    Change::Device,
    Change::CountStep,
    Change::Advance,
    Change::Push,
    Change::Mark,
    Change::Pop,
    Change::Pop,
    Change::DeleteA,
    Change::DeleteB,
    Change::Echo,
    Change::CountStep,
    Change::Back,
    Change::SetB,
    Change::Mark,
    Change::Advance,
    Change::SetStatus,
    Change::Back,
    Change::Back,
    Change::Back,
    Change::SetB,
    Change::Start,
];

/// What the changes take: an environment and a script.
#[derive(Drop)]
pub(crate) struct Parts {
    alloc: Global,
    env: Env,
    script: Rc<Script>,
}

impl Parts {
    /// An environment of one variable, and a script without a command.
    pub(crate) fn new(alloc: Global) -> Result<Parts, EnvError> {
        let mut env = Env::new(alloc);
        env.set(b"b", b"0")?;
        let lists = Vec::new(alloc);
        let Ok(script) = Rc::new(alloc, Script { lists }) else {
            return Err(EnvError::Memory);
        };
        Ok(Parts { alloc, env, script })
    }

    fn entry(&self) -> Result<LogEntry, StoreError> {
        let mut words = Vec::new(self.alloc);
        words.push(Vec::from_slice(self.alloc, b"load")?)?;
        Ok(LogEntry {
            success: true,
            words,
            stays: false,
            again: false,
        })
    }

    fn frame(&self) -> Result<Frame, AllocError> {
        let at = At {
            list: 0,
            command: 0,
            turn: 0,
            last: 0,
        };
        Ok(Frame::new(FrameKind::Text, self.script.clone()?, at))
    }
}

/// Makes a change. A step is counted only if it may be.
pub(crate) fn make<S: Store>(
    parts: &Parts,
    store: &mut S,
    change: Change,
) -> Result<(), StoreError> {
    match change {
        Change::Start => store.start(&parts.env, Written::Kept),
        Change::Mark => store.mark(),
        Change::SetA => store.set_env(b"a", Some(b"1")),
        Change::DeleteA => store.set_env(b"a", None),
        Change::SetB => store.set_env(b"b", Some(b"long value")),
        Change::DeleteB => store.set_env(b"b", None),
        Change::SetLocal => store.set_local(b"x", b"local"),
        Change::SetStatus => store.set_status(1),
        Change::Echo => store.echo(b"some text that was written "),
        Change::Device => store.device(parts.entry()?),
        Change::CountStep => {
            if store.steps() < 1_000_000 && store.begun() < 1_000_000 {
                store.count_step()?;
            }
            Ok(())
        }
        Change::Push => store.push(parts.frame()?),
        Change::Advance => store.advance(At {
            list: 1,
            command: 2,
            turn: 3,
            last: 4,
        }),
        Change::Pop => store.pop(),
        Change::Back => {
            store.back();
            Ok(())
        }
    }
}
