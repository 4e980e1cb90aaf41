//! The variables and the status of a run, which words expand by.

use bootstore_state::Store;
use hushlang::Vars;

/// The variables and the status that a store has.
#[derive(Drop)]
pub(crate) struct Memory<'a, S> {
    /// The store.
    pub(crate) store: &'a S,
}

impl<'a, S: Store> Vars for Memory<'a, S> {
    ghost use Rattle.rehearse_machine.specs.Variables.{parameters_at};

    ghost parameters = { λ m. parameters_at (S.record_of m.store.now).present };

    fn get(&self, name: &[u8]) -> Option<&[u8]> {
        match self.store.get_env(name) {
            Some(value) => Some(value),
            None => self.store.get_local(name),
        }
    }

    fn status(&self) -> u8 {
        self.store.get_status()
    }
}
