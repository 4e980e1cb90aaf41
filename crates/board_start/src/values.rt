//! The values that a variable may have before a run.
ghost use Rattle.std.specs.Prelude.{◌≡◌, ◌+◌, length, not, IfOk, OnOk, Some, min};
ghost use Rattle.std.specs.List.{list_any};
ghost use Rattle.std.specs.Str.{bytes_eq};
ghost use Rattle.board_start.specs.Start.{choices, has_value, is_further, value_at, varies, with_value};
ghost use Rattle.board_start.specs.StartShown.{givens_shown, values_shown};
ghost use Rattle.device_list.specs.DeviceList.{changed_at};

use indexmap::IndexMap;
use keyed_hash::KeyedHash;
use std::alloc::{AllocError, Global};

/// The values that a variable may have, each once.
#[derive(Drop)]
pub(crate) struct Values {
    pub(crate) first: Vec<u8>,
    pub(crate) others: Vec<Vec<u8>>,
}

/// The variables that are given, found by a hash whose key is made from the list.
pub(crate) type Givens = IndexMap<Vec<u8>, Values, KeyedHash>;

/// Whether a value is one of these.
fn is_among(value: &[u8], values: &[Vec<u8>]) -> bool
    ensures { result ≡ list_any (λ one. bytes_eq value.now one.items) values.now }
{
    values.iter().any(|one| value == one.as_slice())
}

impl Values {
    /// Whether this is one of them.
    fn has(&self, value: &[u8]) -> bool
        ensures { result ≡ has_value (values_shown self.now) value.now }
    {
        value == self.first.as_slice() || is_among(value, &self.others)
    }

    /// One more value, which is kept once. Returns whether it is a further one. Errors: memory ran out.
    fn add(&mut self, value: Vec<u8>) -> Result<bool, AllocError>
        ensures values { OnOk result (values_shown self.new ≡ with_value value.items (Some (values_shown self.old))) }
        ensures further { IfOk result (λ more. more ≡ not (has_value (values_shown self.old) value.items)) }
    {
        if self.has(&value) {
            return Ok(false);
        }
        self.others.push(value)?;
        Ok(true)
    }

    /// The value with this number, from 0 on.
    pub(crate) fn value_at(&self, place: usize) -> &[u8]
        ensures { result.now ≡ value_at (values_shown self.now) place }
    {
        if place == 0 {
            return &self.first;
        }
        match self.others.get(place - 1) {
            Some(value) => value,
            None => &self.first,
        }
    }
}

/// One more value of a variable. Returns whether it had others. Errors: memory ran out.
pub(crate) fn add_value(
    alloc: Global,
    givens: &mut Givens,
    name: &[u8],
    value: Vec<u8>,
) -> Result<bool, AllocError>
    ensures values { OnOk result (givens_shown givens.new.entries
        ≡ changed_at (with_value value.items) (givens_shown givens.old.entries) name.now) }
    ensures further { IfOk result (λ more. more
        ≡ is_further (givens_shown givens.old.entries) name.now value.items) }
{
    if let Some(values) = givens.get_mut(name) {
        let is_further = values.add(value)?;
        return Ok(is_further);
    }
    let others = Vec::new(alloc);
    let values = Values {
        first: value,
        others,
    };
    let name = Vec::from_slice(alloc, name)?;
    givens.insert(name, values)?;
    Ok(false)
}

/// How many environments there are, or 65 if they are more than 64.
pub(crate) fn count(givens: &Givens) -> u32
    ensures { result ≡ min (choices (givens_shown givens.now.entries)) 65 }
{
    let mut count: u32 = 1;
    for at in 0..givens.len() {
        let (_, values) = givens.get_index(at).unwrap();
        let more = values.others.len();
        if more >= 64 || count * (more as u32 + 1) > 64 {
            return 65;
        }
        count *= more as u32 + 1;
    }
    count
}

/// Whether a variable has several values.
pub(crate) fn varies(givens: &Givens, name: &[u8]) -> bool
    ensures { result ≡ varies (givens_shown givens.now.entries) name.now }
{
    match givens.get(name) {
        Some(values) => 0 < values.others.len(),
        None => false,
    }
}
