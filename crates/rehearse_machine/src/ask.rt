//! The result of one move of the machine.
ghost use Rattle.std.specs.Prelude.{◌≡◌, IfOk};
ghost use Rattle.rehearse_machine.specs.MovesShown.{request_shown};

use bootstore_state::StoreError;
use device_list::Effect;
use rehearse_rules::Halt;
use std::alloc::Global;
use text::copied_words;

/// The status of a command that was asked, by its outcome.
#[derive(Clone, Copy)]
pub struct Statuses {
    /// On success.
    pub success: u8,
    /// On failure.
    pub failure: u8,
}

/// A device command that asks for its outcome.
#[derive(Drop)]
pub struct Ask<'a> {
    /// Its name.
    pub name: Vec<u8>,
    /// The words after its name.
    pub words: Vec<Vec<u8>>,
    /// What it does on success, and how it answers.
    pub effect: Effect<'a>,
    /// Whether it has its answer without an outcome.
    pub again: bool,
    /// Its status.
    pub statuses: Statuses,
}

impl<'a> Ask<'a> {
    /// A copy. Errors: `Memory`.
    pub fn copy(&self, alloc: Global) -> Result<Ask<'a>, StoreError>
        ensures { IfOk result (λ ask. request_shown ask ≡ request_shown self.now) }
    {
        let name = Vec::from_slice(alloc, &self.name)?;
        let words = copied_words(alloc, &self.words)?;
        Ok(Ask {
            name,
            words,
            effect: self.effect,
            again: self.again,
            statuses: self.statuses,
        })
    }
}

/// The result of a move.
#[derive(Drop)]
pub enum Step<'a> {
    /// There is more to do.
    Going,
    /// A device command asks.
    Asks(Ask<'a>),
    /// The run has ended.
    Ends(Halt),
}
