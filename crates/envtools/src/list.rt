//! The variables of an image's data as a list of slices: for one change, and for printing all.
ghost use Rattle.std.specs.Prelude.{◌≡◌, None, IfOk, OnOk, OnErr, true, List, ℕ, length, map, slice_get};
ghost use Rattle.std.specs.Option.{option_map};
ghost use Rattle.envimage.specs.Data.{data_fault, pairs_of};
ghost use Rattle.envimage.specs.Entries.{pair_at};
ghost use Rattle.envtools.specs.Environment.{HasDistinctNames, IsEnvironment, env_of, dropped, put, has_value, changed_to, is_name, is_value};
ghost use Rattle.envtools.specs.Listed.{IsPlaceOf};

use crate::distinct::are_distinct;
use crate::draft::Draft;
use envimage::entries;
use std::alloc::{AllocError, Global};
use std::marker::Model;

/// The variables of data in their order.
fn in_order(alloc: Global, body: &[u8]) -> Result<Vec<(&[u8], &[u8])>, AllocError>
    requires fault { data_fault body.now ≡ None }
    ensures { IfOk result (λ pairs. map pair_at pairs.items ≡ pairs_of body.now) }
{
    let mut pairs = Vec::new(alloc);
    for pair in entries(body) {
        pairs.push(pair)?;
    }
    Ok(pairs)
}

/// The variables of an image's data, each name once. Names and values are slices of the data.
#[derive(Drop)]
pub struct VariableList<'a> {
    pairs: Vec<(&'a [u8], &'a [u8])>,
}

impl<'a> Model for VariableList<'a> {
    ghost use Rattle.std.specs.Prelude.{List, ℕ, map};
    ghost use Rattle.envimage.specs.Entries.{pair_at};
    ghost use Rattle.envtools.specs.Environment.{IsEnvironment};

    ghost Value = { List (List ℕ × List ℕ) };

    ghost view = { λ list. map pair_at list.pairs.items };

    ghost invariant = { λ list. IsEnvironment (map pair_at list.pairs.items) };
}

impl<'a> VariableList<'a> {
    /// The variables of data without a fault: each name once, in its first place, with its last
    /// value. No table of names is made if none is found twice. Errors: memory ran out.
    pub fn from_checked(alloc: Global, body: &'a [u8]) -> Result<Self, AllocError>
        requires { data_fault body.now ≡ None }
        ensures { IfOk result (λ list. list ≡ env_of (pairs_of body.now)) }
    {
        let pairs = if are_distinct(alloc, body)? {
            in_order(alloc, body)?
        } else {
            Draft::of_data(alloc, body)?.pairs(alloc)?
        };
        Ok(VariableList { pairs })
    }

    /// The list of these variables.
    pub(crate) fn with_pairs(pairs: Vec<(&'a [u8], &'a [u8])>) -> Self
        requires { IsEnvironment (map pair_at pairs.items) }
        ensures { result ≡ map pair_at pairs.entry.items }
    {
        VariableList { pairs }
    }

    /// Takes these variables in place of its own.
    pub(crate) fn replace(&mut self, pairs: Vec<(&'a [u8], &'a [u8])>)
        requires { IsEnvironment (map pair_at pairs.items) }
        ensures { self.new ≡ map pair_at pairs.entry.items }
    {
        self.pairs = pairs;
    }

    /// How many variables there are.
    pub(crate) fn len(&self) -> usize
        ensures len { result ≡ length self.now }
        ensures valid { IsEnvironment self.now }
    {
        self.pairs.len()
    }

    /// The variable at a place.
    pub(crate) fn pair(&self, at: usize) -> Option<(&'a [u8], &'a [u8])>
        ensures { option_map (λ p. (p.0.now, p.1.now)) result ≡ slice_get self.now at }
    {
        let pair = self.pairs.get(at)?;
        Some(*pair)
    }

    /// All variables in order, each a name and a value.
    pub fn as_slice(&self) -> &[(&'a [u8], &'a [u8])]
        ensures pairs { map pair_at result.now ≡ self.now }
        ensures valid { IsEnvironment self.now }
    {
        &self.pairs
    }

    /// Gives a name a value, as `Env::change` does with one word. An error changes nothing.
    pub fn change_to(&mut self, name: &'a [u8], value: &'a [u8]) -> Result<(), AllocError>
        requires name { is_name name.now ≡ true }
        requires value { is_value value.now ≡ true }
        ensures ok { OnOk result (self.new ≡ changed_to self.old name.now value.now) }
        ensures err { OnErr result (self.new ≡ self.old) }
    {
        let place = place_of(&self.pairs, name);
        if value.is_empty() {
            remove_at(&mut self.pairs, place);
            return Ok(());
        }
        if has_value_at(&self.pairs, place, value) {
            return Ok(());
        }
        put_at(&mut self.pairs, place, name, value)
    }
}

/// The place of a name in a list.
fn place_of(pairs: &[(&[u8], &[u8])], name: &[u8]) -> Option<usize>
    ensures { IsPlaceOf (map pair_at pairs.now) name.now result }
{
    for (at, pair) in pairs.iter().enumerate() {
        if name == pair.0 {
            return Some(at);
        }
    }
    None
}

/// Whether the variable at the place of a name, if it has one, has this value.
fn has_value_at(pairs: &[(&[u8], &[u8])], place: Option<usize>, value: &[u8]) -> bool
    requires { HasDistinctNames (map pair_at pairs.now) }
    ensures { (name : List ℕ) → IsPlaceOf (map pair_at pairs.now) name place →
        result ≡ has_value (map pair_at pairs.now) name value.now }
{
    let Some(at) = place else {
        return false;
    };
    match pairs.get(at) {
        Some(pair) => pair.1 == value,
        None => false,
    }
}

/// Removes the variable at the place of a name, if it has one.
fn remove_at(pairs: &mut Vec<(&[u8], &[u8])>, place: Option<usize>)
    requires { HasDistinctNames (map pair_at pairs.old.items) }
    ensures { (name : List ℕ) → IsPlaceOf (map pair_at pairs.old.items) name place →
        map pair_at pairs.new.items ≡ dropped (map pair_at pairs.old.items) name }
{
    if let Some(at) = place {
        if at < pairs.len() {
            pairs.remove(at);
        }
    }
}

/// Puts a variable last, and removes the one at the place of its name, if it has one. An error
/// changes nothing.
fn put_at<'a>(
    pairs: &mut Vec<(&'a [u8], &'a [u8])>,
    place: Option<usize>,
    name: &'a [u8],
    value: &'a [u8],
) -> Result<(), AllocError>
    requires distinct { HasDistinctNames (map pair_at pairs.old.items) }
    requires place { IsPlaceOf (map pair_at pairs.old.items) name.now place }
    ensures ok { OnOk result (map pair_at pairs.new.items
        ≡ put (map pair_at pairs.old.items) name.now value.now) }
    ensures err { OnErr result (pairs.new.items ≡ pairs.old.items) }
{
    pairs.push((name, value))?;
    if let Some(at) = place {
        pairs.remove(at);
    }
    Ok(())
}
