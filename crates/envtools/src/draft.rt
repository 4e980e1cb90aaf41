//! The variables of a list while a script changes them.
ghost use Rattle.std.specs.Prelude.{◌≡◌, [], map, true, None, OnOk, OnErr, IfOk};
ghost use Rattle.std.specs.Option.{option_copied};
ghost use Rattle.envimage.specs.Data.{IsVariable, data_fault, pairs_of};
ghost use Rattle.envimage.specs.Entries.{pair_at};
ghost use Rattle.envtools.specs.Environment.{IsEnvironment, env_of, value_of, dropped, put, assigned, has_value, changed_to, is_name, is_value};
ghost use Rattle.envtools.specs.Drafting.{place_of, held, IsMoved, IsDraft};

use crate::list::VariableList;
use envimage::entries;
use std::alloc::{AllocError, Global};
use std::collections::BTreeMap;
use std::marker::Model;

/// The place of each name's variable among the written ones. A deleted name has none. Names are found by comparing them, so
/// no choice of names makes that slow.
type Places<'a> = BTreeMap<&'a [u8], Option<usize>>;

/// The variables of a list while a script makes many changes. No name and no value is copied. Each change takes time for its
/// own name and value, and to find the name: a variable that moves is written again after the others, and `places` says
/// which one holds.
#[derive(Drop)]
pub(crate) struct Draft<'a> {
    written: Vec<(&'a [u8], &'a [u8])>,
    places: Places<'a>,
}

impl<'a> Model for Draft<'a> {
    ghost use Rattle.std.specs.Prelude.{List, ℕ, map};

    ghost Value = { List (List ℕ × List ℕ) };

    ghost use Rattle.envimage.specs.Entries.{pair_at};
    ghost use Rattle.envtools.specs.Drafting.{place_of, held, IsDraft};

    ghost view = { λ d. held (place_of d.places.entries) 0 (map pair_at d.written.items) };

    ghost invariant = { λ d. IsDraft (place_of d.places.entries)
        (map pair_at d.written.items) };
}

impl<'a> Draft<'a> {
    /// A draft without variables. Takes no memory.
    fn new(alloc: Global) -> Self
        ensures { result ≡ [] }
    {
        Draft {
            written: Vec::new(alloc),
            places: BTreeMap::new(alloc),
        }
    }

    /// A draft of a list's variables. Errors: memory ran out.
    pub(crate) fn of(alloc: Global, list: &VariableList<'a>) -> Result<Self, AllocError>
        ensures { IfOk result (λ draft. draft ≡ list.now) }
    {
        let mut draft = Draft::new(alloc);
        for at in 0..list.len() {
            let (name, value) = list.pair(at).unwrap();
            draft.put(name, value)?;
        }
        Ok(draft)
    }

    /// A draft of the variables of data without a fault: each name once, in its first place, with its
    /// last value. Errors: memory ran out.
    pub(crate) fn of_data(alloc: Global, body: &'a [u8]) -> Result<Self, AllocError>
        requires { data_fault body.now ≡ None }
        ensures { IfOk result (λ draft. draft ≡ env_of (pairs_of body.now)) }
    {
        let mut draft = Draft::new(alloc);
        for (name, value) in entries(body) {
            draft.assign(name, value)?;
        }
        Ok(draft)
    }

    /// The value of a variable.
    pub(crate) fn get(&self, name: &[u8]) -> Option<&[u8]>
        ensures { option_copied result ≡ value_of self.now name.now }
    {
        let place = place_of(&self.places, name)?;
        let (_, value) = self.written.get(place)?;
        Some(*value)
    }

    /// Whether the name has this value.
    fn has_value(&self, name: &[u8], value: &[u8]) -> bool
        ensures { result ≡ has_value self.now name.now value.now }
    {
        match self.get(name) {
            None => false,
            Some(present) => present == value,
        }
    }

    /// Removes a variable. An error changes nothing.
    fn remove(&mut self, name: &'a [u8]) -> Result<(), AllocError>
        ensures ok { OnOk result (self.new ≡ dropped self.old name.now) }
        ensures err { OnErr result (self.new ≡ self.old) }
    {
        move_to(&mut self.places, name, None)?;
        Ok(())
    }

    /// Gives a name a value. The variable goes last. An error changes nothing.
    fn put(&mut self, name: &'a [u8], value: &'a [u8]) -> Result<(), AllocError>
        requires { IsVariable (name.now, value.now) }
        ensures ok { OnOk result (self.new ≡ put self.old name.now value.now) }
        ensures err { OnErr result (self.new ≡ self.old) }
    {
        self.written.reserve(1)?;
        let last = self.written.len();
        move_to(&mut self.places, name, Some(last))?;
        self.written.push((name, value)).unwrap();
        Ok(())
    }

    /// Gives a name a value. A name that is set keeps its place. An error changes nothing.
    fn assign(&mut self, name: &'a [u8], value: &'a [u8]) -> Result<(), AllocError>
        requires { IsVariable (name.now, value.now) }
        ensures ok { OnOk result (self.new ≡ assigned self.old name.now value.now) }
        ensures err { OnErr result (self.new ≡ self.old) }
    {
        let Some(place) = place_of(&self.places, name) else {
            return self.put(name, value);
        };
        self.written[place] = (name, value);
        Ok(())
    }

    /// Gives a name a value: an empty one deletes, the one that it has changes nothing, and with
    /// any other the variable goes last. An error changes nothing.
    pub(crate) fn change(&mut self, name: &'a [u8], value: &'a [u8]) -> Result<(), AllocError>
        requires name { is_name name.now ≡ true }
        requires value { is_value value.now ≡ true }
        ensures ok { OnOk result (self.new ≡ changed_to self.old name.now value.now) }
        ensures err { OnErr result (self.new ≡ self.old) }
    {
        if value.is_empty() {
            return self.remove(name);
        }
        if self.has_value(name, value) {
            return Ok(());
        }
        self.put(name, value)
    }

    /// The variables that hold, in order. Errors: memory ran out.
    pub(crate) fn pairs(&self, alloc: Global) -> Result<Vec<(&'a [u8], &'a [u8])>, AllocError>
        ensures pairs { IfOk result (λ pairs. map pair_at pairs.items ≡ self.now) }
        ensures valid { IfOk result (λ pairs. IsEnvironment (map pair_at pairs.items)) }
    {
        held(alloc, &self.written, &self.places)
    }
}

/// The place of a name's variable, or `None` if the name has none.
fn place_of(places: &Places<'_>, name: &[u8]) -> Option<usize>
    ensures { result ≡ place_of places.now.entries name.now }
{
    match places.get(name) {
        None => None,
        Some(place) => *place,
    }
}

/// Gives a name a place. An error changes nothing.
fn move_to<'a>(
    places: &mut Places<'a>,
    name: &'a [u8],
    place: Option<usize>,
) -> Result<(), AllocError>
    ensures ok { OnOk result (IsMoved (place_of places.old.entries) name.now place
        (place_of places.new.entries)) }
    ensures err { OnErr result (places.new.entries ≡ places.old.entries) }
{
    places.insert(name, place)?;
    Ok(())
}

/// The written variables that hold, in order. Errors: memory ran out.
fn held<'a>(
    alloc: Global,
    written: &[(&'a [u8], &'a [u8])],
    places: &Places<'a>,
) -> Result<Vec<(&'a [u8], &'a [u8])>, AllocError>
    ensures { IfOk result (λ pairs. map pair_at pairs.items
        ≡ held (place_of places.now.entries) 0 (map pair_at written.now)) }
{
    let mut pairs = Vec::new(alloc);
    for (at, pair) in written.iter().enumerate() {
        if place_of(places, pair.0) == Some(at) {
            pairs.push(*pair)?;
        }
    }
    Ok(pairs)
}
