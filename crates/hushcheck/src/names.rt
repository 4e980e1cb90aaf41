//! Names in order, each once.
ghost use Rattle.std.specs.Prelude.{◌≡◌, ◌^◌, ◌<◌, [], length, map, not, IfOk, OnOk, slice_get, slice_index_or};
ghost use Rattle.std.specs.Option.{option_copied};
ghost use Rattle.std.specs.List.{list_any};
ghost use Rattle.envtools.specs.Environment.{same};
ghost use Rattle.hushcheck.specs.CallSetsShown.{names_shown};
ghost use Rattle.hushcheck.specs.Order.{once, with_name, with_names};

use envtools::Env;
use indexmap::IndexSet;
use keyed_hash::KeyedHash;
use std::alloc::{AllocError, Global};
use std::marker::Model;

/// Names in the order in which they came, each once.
#[derive(Drop)]
pub(crate) struct Names {
    names: IndexSet<Vec<u8>, KeyedHash>,
}

impl Model for Names {
    ghost use Rattle.std.specs.Prelude.{List, ℕ, map};

    ghost Value = { List (List ℕ) };

    ghost view = { λ n. map (λ name. name.items) n.names.keys };
}

impl Names {
    /// No names. They will be found by this hash.
    pub(crate) fn new(alloc: Global, hasher: KeyedHash) -> Names
        ensures { result ≡ [] }
    {
        Names {
            names: IndexSet::with_hasher(alloc, hasher),
        }
    }

    /// How many there are.
    pub(crate) fn len(&self) -> usize
        ensures count { result ≡ length self.now }
        ensures small { result < 2 ^ 63 }
    {
        self.names.len()
    }

    /// The name at a place.
    fn get(&self, at: usize) -> Option<&[u8]>
        ensures { option_copied result ≡ slice_get self.now at }
    {
        let name = self.names.get_index(at)?;
        Some(name.as_slice())
    }

    /// The name at a place that has one.
    pub(crate) fn name_at(&self, at: usize) -> &[u8]
        requires { at < length self.now }
        ensures { result.now ≡ slice_index_or self.now at [] }
    {
        self.get(at).unwrap()
    }

    /// Adds a name after the others, if it is new. Errors: memory ran out.
    pub(crate) fn add(&mut self, name: Vec<u8>) -> Result<(), AllocError>
        ensures { OnOk result (self.new ≡ with_name self.old name.items) }
    {
        self.names.insert(name)?;
        Ok(())
    }

    /// Adds a name after the others, if it is new, and says whether it is. Errors: memory ran out.
    pub(crate) fn add_new(&mut self, name: Vec<u8>) -> Result<bool, AllocError>
        ensures names { OnOk result (self.new ≡ with_name self.old name.items) }
        ensures new { IfOk result (λ new. new ≡ not (list_any (same name.items) self.old)) }
    {
        Ok(self.names.insert(name)?)
    }

    /// Adds a copy of a name after the others, if it is new. Errors: memory ran out.
    fn add_copy(&mut self, alloc: Global, name: &[u8]) -> Result<(), AllocError>
        ensures { OnOk result (self.new ≡ with_name self.old name.now) }
    {
        self.add(Vec::from_slice(alloc, name)?)
    }

    /// Adds copies of names. Errors: memory ran out.
    pub(crate) fn add_all(&mut self, alloc: Global, more: &[Vec<u8>]) -> Result<(), AllocError>
        ensures { OnOk result (self.new ≡ with_names self.old (names_shown more.now)) }
    {
        for name in more {
            self.add(Vec::from_slice(alloc, name)?)?;
        }
        Ok(())
    }

    /// All names. Errors: memory ran out.
    pub(crate) fn into_names(self, alloc: Global) -> Result<Vec<Vec<u8>>, AllocError>
        ensures { IfOk result (λ names. names_shown names.items ≡ self) }
    {
        let Names { names } = self;
        names.into_iter().collect(alloc)
    }
}

/// The names of the variables of an environment, found by this hash. Errors: memory ran out.
pub(crate) fn names_of(alloc: Global, env: &Env, hasher: KeyedHash) -> Result<Names, AllocError>
    ensures { IfOk result (λ names. names ≡ once (map (λ p. p.0) env.now)) }
{
    let pairs = env.pairs()?;
    let mut names = Names::new(alloc, hasher);
    for pair in &pairs {
        if let Err(error) = names.add_copy(alloc, pair.0) {
            drop(names);
            return Err(error);
        }
    }
    Ok(names)
}

/// The names that are asked for, each once, found by this hash.
pub(crate) fn asked_names(
    alloc: Global,
    asked: &[&[u8]],
    hasher: KeyedHash,
) -> Result<Names, AllocError>
    ensures { IfOk result (λ names. names ≡ once (map (λ name. name.now) asked.now)) }
{
    let mut names = Names::new(alloc, hasher);
    for name in asked {
        if let Err(error) = names.add_copy(alloc, name) {
            drop(names);
            return Err(error);
        }
    }
    Ok(names)
}

/// Names, followed by others, each once, found by this hash. Errors: memory ran out.
pub fn names_once(
    alloc: Global,
    names: &[&[u8]],
    others: &[Vec<u8>],
    hasher: KeyedHash,
) -> Result<Vec<Vec<u8>>, AllocError>
    ensures { IfOk result (λ all. names_shown all.items
        ≡ with_names (once (map (λ name. name.now) names.now)) (names_shown others.now)) }
{
    let mut all = asked_names(alloc, names, hasher)?;
    all.add_all(alloc, others)?;
    all.into_names(alloc)
}
