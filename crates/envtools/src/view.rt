//! Variables that are looked up by name, or gone through in order.
ghost use Rattle.std.specs.Prelude.{◌≡◌, List, false, length, is_some, slice_get};
ghost use Rattle.std.specs.Option.{option_map, option_copied};
ghost use Rattle.envimage.specs.Data.{Pair, data_fault, pairs_of};
ghost use Rattle.envtools.specs.Environment.{value_of, env_of};

use crate::draft::Draft;
use crate::env::Env;
use crate::list::VariableList;
use envimage::entries;

/// Variables that can be looked up by name.
pub(crate) trait Lookup {
    /// The variables in order.
    ghost pairs: { Self → List Pair };

    /// The value of a variable.
    fn get(&self, name: &[u8]) -> Option<&[u8]>
        ensures { option_copied result ≡ value_of (pairs self.now) name.now };
}

/// Variables that can be gone through in order.
pub(crate) trait Variables {
    /// The variables in order.
    ghost pairs: { Self → List Pair };

    /// How many variables there are.
    fn len(&self) -> usize
        ensures { result ≡ length (pairs self.now) };

    /// The variable at a place.
    fn pair(&self, at: usize) -> Option<(&[u8], &[u8])>
        ensures { option_map (λ p. (p.0.now, p.1.now)) result ≡ slice_get (pairs self.now) at };
}

impl Lookup for Env {
    ghost pairs = { λ env. env };

    fn get(&self, name: &[u8]) -> Option<&[u8]> {
        Env::get(self, name)
    }
}

impl Variables for Env {
    ghost pairs = { λ env. env };

    fn len(&self) -> usize {
        Env::len(self)
    }

    fn pair(&self, at: usize) -> Option<(&[u8], &[u8])> {
        Env::pair(self, at)
    }
}

/// An image's data, which has no fault. Looking up a name reads all of it, and takes no memory.
#[derive(Drop)]
pub(crate) struct Body<'a> {
    pub(crate) bytes: &'a [u8],
    pub ghost faultless: { is_some (data_fault bytes.now) ≡ false },
}

impl Lookup for Body<'_> {
    ghost pairs = { λ body. env_of (pairs_of body.bytes.now) };

    fn get(&self, name: &[u8]) -> Option<&[u8]> {
        let mut found = None;
        for (key, value) in entries(self.bytes) {
            if name == key {
                found = Some(value);
            }
        }
        found
    }
}

impl Lookup for Draft<'_> {
    ghost pairs = { λ draft. draft };

    fn get(&self, name: &[u8]) -> Option<&[u8]> {
        Draft::get(self, name)
    }
}

impl Variables for VariableList<'_> {
    ghost pairs = { λ list. list };

    fn len(&self) -> usize {
        VariableList::len(self)
    }

    fn pair(&self, at: usize) -> Option<(&[u8], &[u8])> {
        VariableList::pair(self, at)
    }
}
