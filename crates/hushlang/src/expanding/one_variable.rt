//! One variable, for callers that have no store of variables.

use crate::expanding::Vars;

/// Variables of which only one is set.
#[derive(Clone, Copy)]
pub struct OneVariable<'a> {
    /// The variable.
    pub name: &'a [u8],
    /// Its value.
    pub value: &'a [u8],
    /// The status of the last command.
    pub status: u8,
}

impl Vars for OneVariable<'_> {
    ghost use Rattle.std.specs.FinMap.{empty, insert};
    ghost use Rattle.hushlang.specs.Expansion.{parameters_of};

    ghost parameters = { λ one.
        parameters_of (insert empty one.name.now one.value.now) one.status };

    fn get(&self, name: &[u8]) -> Option<&[u8]> {
        if name.cmp(&self.name).is_eq() {
            Some(self.value)
        } else {
            None
        }
    }

    fn status(&self) -> u8 {
        self.status
    }
}
