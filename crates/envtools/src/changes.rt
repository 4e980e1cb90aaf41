//! Many changes of an environment at once.
ghost use Rattle.std.specs.Prelude.{◌≡◌, map, fold, IfOk, OnOk};
ghost use Rattle.envimage.specs.Entries.{pair_at};
ghost use Rattle.envtools.specs.Changes.{with_change, with_changes};
ghost use Rattle.keyed_hash.specs.Keyed.{with_text};

use crate::draft::Draft;
use crate::env::{Env, is_name, is_value};
use crate::list::VariableList;
use keyed_hash::KeyedHash;
use std::alloc::{AllocError, Global};

/// Gives a name a value, if a variable may have both. Errors: memory ran out.
fn make<'a>(draft: &mut Draft<'a>, name: &'a [u8], value: &'a [u8]) -> Result<(), AllocError>
    ensures { OnOk result (draft.new ≡ with_change draft.old (name.now, value.now)) }
{
    if is_name(name) && is_value(value) {
        return draft.change(name, value);
    }
    Ok(())
}

/// Gives names values, one after another. Errors: memory ran out.
fn make_all<'a>(draft: &mut Draft<'a>, changes: &[(&'a [u8], &'a [u8])]) -> Result<(), AllocError>
    ensures { OnOk result (draft.new ≡ with_changes draft.old (map pair_at changes.now)) }
{
    for (name, value) in changes {
        make(draft, name, value)?;
    }
    Ok(())
}

/// A hash with the names of changes after its key, one after another.
fn hasher_with(first: KeyedHash, changes: &[(&[u8], &[u8])]) -> KeyedHash
    ensures { result ≡ fold (λ hasher change. with_text hasher change.0) first (map pair_at changes.now) }
{
    let mut hasher = first;
    for (name, _value) in changes {
        hasher = hasher.with(name);
    }
    hasher
}

impl Env {
    /// The environment after changes, each a name and a value, one after another. Each is made as by
    /// `change` with one word: an empty value deletes. One is left out if no variable may have its name
    /// or its value. The time grows with the environment and the changes, not with their product.
    /// Errors: memory ran out.
    pub fn changed_by(&self, changes: &[(&[u8], &[u8])]) -> Result<Env, AllocError>
        ensures { IfOk result (λ env. env ≡ with_changes self.now (map pair_at changes.now)) }
    {
        let alloc = self.allocator();
        let list = VariableList::with_pairs(self.pairs()?);
        let mut draft = Draft::of(alloc, &list)?;
        make_all(&mut draft, changes)?;
        let changed = VariableList::with_pairs(draft.pairs(alloc)?);
        Env::of_list(alloc, &changed, hasher_with(self.hasher(), changes))
    }
}
