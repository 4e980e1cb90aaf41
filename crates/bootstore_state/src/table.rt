//! Variables by name. The place of a name can be kept empty, so that its value can come back without memory.
ghost use Rattle.std.specs.Prelude.{◌≡◌, IfOk, OnOk, OnErr, None, Some, true, false};
ghost use Rattle.text.specs.TextsShown.{option_bytes, option_items};

use std::alloc::{AllocError, Global};
use std::collections::BTreeMap;
use std::collections::btree_map::Iter;
use std::marker::Model;
use std::mem;

/// What is at the place of a name.
#[derive(Drop)]
pub struct Place {
    /// The value, or none if the name was deleted.
    pub value: Option<Vec<u8>>,
    /// The count of kept things right after the last inverse of this place was kept, or 0.
    pub kept_at: usize,
}

impl Clone for Place {
    ghost use Rattle.std.specs.Prelude.{◌≡◌};
    ghost use Rattle.text.specs.TextsShown.{option_items};

    ghost is_clone = { λ place copy. option_items copy.value ≡ option_items place.value };

    fn clone(&self) -> Result<Place, AllocError> {
        Ok(Place {
            value: copy_value(&self.value)?,
            kept_at: self.kept_at,
        })
    }
}

/// Values by name, in byte order of the names.
#[derive(Drop)]
pub struct Table {
    slots: BTreeMap<Vec<u8>, Place>,
}

impl Table {
    ghost use Rattle.std.specs.FinMap.{get, empty, entries};
    ghost use Rattle.text.specs.TextsShown.{option_bytes, option_items};
    ghost use Rattle.bootstore_state.specs.Record.{assigned};
    ghost use Rattle.bootstore_state.specs.Table.{variables_of, has_slot, KeepsSlots, AreEqual, IsWith, without, names_before, stands_among, place_at, place_value, last_kept, kept_of, KeepsNothing};

    /// A table without a place.
    pub fn new(alloc: Global) -> Self
        ensures empty { variables_of result ≡ empty }
        ensures kept { KeepsNothing result }
    {
        Table {
            slots: BTreeMap::new(alloc),
        }
    }

    /// The value of a name.
    pub fn get(&self, name: &[u8]) -> Option<&[u8]>
        ensures { option_bytes result ≡ get (variables_of self.now) name.now }
    {
        match self.slots.get(name) {
            None => None,
            Some(place) => match &place.value {
                None => None,
                Some(value) => Some(value.as_slice()),
            },
        }
    }

    /// The count of kept things right after the last inverse of a name's place was kept, or 0.
    pub fn kept_at(&self, name: &[u8]) -> usize
        ensures { result ≡ last_kept self.now name.now }
    {
        match self.slots.get(name) {
            None => 0,
            Some(place) => place.kept_at,
        }
    }

    /// How many places there are, also those without a value.
    pub fn places(&self) -> usize {
        self.slots.len()
    }

    /// The names that have a value, in byte order, with their values.
    pub fn iter(&self) -> Variables<'_>
        ensures { result ≡ entries (variables_of self.now) }
    {
        Variables {
            slots: self.slots.iter(),
        }
    }

    /// A copy of all places. Errors: memory ran out.
    pub fn copy(&self) -> Result<Table, AllocError>
        ensures { IfOk result (λ table. variables_of table ≡ variables_of self.now) }
    {
        Ok(Table {
            slots: self.slots.clone()?,
        })
    }

    /// Gives a name a value, or removes its place. An error changes no value.
    pub fn set(
        &mut self,
        alloc: Global,
        name: &[u8],
        value: Option<&[u8]>,
    ) -> Result<(), AllocError>
        ensures ok { OnOk result (variables_of self.new ≡ assigned (variables_of self.old) name.now
            (option_bytes value.entry)) }
        ensures err { OnErr result (variables_of self.new ≡ variables_of self.old) }
        ensures kept { OnOk result (IsWith (last_kept self.old) name.now 0 (last_kept self.new)) }
        ensures gone { OnOk result (value.entry ≡ None → has_slot self.new name.now ≡ false) }
        ensures kept_err { OnErr result (AreEqual (last_kept self.old) (last_kept self.new)) }
    {
        if value.is_some() {
            self.put(alloc, name, value, 0)?;
        } else {
            self.remove(name);
        }
        Ok(())
    }

    /// Gives a name a value, or none but a place for one. Returns what was at its place, if it had
    /// a place. An error changes no value.
    pub fn put(
        &mut self,
        alloc: Global,
        name: &[u8],
        value: Option<&[u8]>,
        kept_at: usize,
    ) -> Result<Option<Place>, AllocError>
        ensures ok { OnOk result (variables_of self.new ≡ assigned (variables_of self.old) name.now
            (option_bytes value.entry)) }
        ensures before { IfOk result (λ before. before ≡ place_at self.old name.now) }
        ensures slots { KeepsSlots self.old self.new }
        ensures err { OnErr result (variables_of self.new ≡ variables_of self.old) }
        ensures kept { OnOk result
            (IsWith (last_kept self.old) name.now kept_at (last_kept self.new)) }
        ensures kept_err { OnErr result (AreEqual (last_kept self.old) (last_kept self.new)) }
    {
        let value = copied(alloc, value)?;
        let place = Place { value, kept_at };
        if let Some(slot) = self.slots.get_mut(name) {
            return Ok(Some(mem::replace(slot, place)));
        }
        let name = Vec::from_slice(alloc, name)?;
        self.slots.insert(name, place)?;
        Ok(None)
    }

    /// Removes the place of a name, if it has one.
    pub fn remove(&mut self, name: &[u8])
        ensures removed { variables_of self.new ≡ assigned (variables_of self.old) name.now None }
        ensures places { AreEqual (without name.now (has_slot self.old)) (has_slot self.new) }
        ensures kept { IsWith (last_kept self.old) name.now 0 (last_kept self.new) }
    {
        self.slots.remove(name);
    }

    /// Gives the place of a name what was there before, or removes it if nothing was. Takes no
    /// memory.
    pub fn restore(&mut self, name: &[u8], before: Option<Place>)
        requires { stands_among (has_slot self.old) name.now before ≡ true }
        ensures restored { variables_of self.new ≡ assigned (variables_of self.old) name.now
            (place_value before) }
        ensures places { AreEqual (names_before name.now before (has_slot self.old))
            (has_slot self.new) }
        ensures kept { IsWith (last_kept self.old) name.now (kept_of before) (last_kept self.new) }
    {
        let Some(place) = before else {
            self.remove(name);
            return;
        };
        if let Some(slot) = self.slots.get_mut(name) {
            *slot = place;
        }
    }
}

/// A copy of a value, if there is one.
fn copy_value(value: &Option<Vec<u8>>) -> Result<Option<Vec<u8>>, AllocError>
    ensures { IfOk result (λ copy. option_items copy ≡ option_items value.now) }
{
    match value {
        Some(bytes) => Ok(Some(bytes.clone()?)),
        None => Ok(None),
    }
}

/// A copy of the bytes, if there are any.
fn copied(alloc: Global, bytes: Option<&[u8]>) -> Result<Option<Vec<u8>>, AllocError>
    ensures { IfOk result (λ copy. option_items copy ≡ option_bytes bytes.entry) }
{
    match bytes {
        Some(bytes) => Ok(Some(Vec::from_slice(alloc, bytes)?)),
        None => Ok(None),
    }
}

/// The variables of a table, in byte order of their names.
#[derive(Drop)]
pub struct Variables<'a> {
    slots: Iter<'a, Vec<u8>, Place>,
}

impl<'a> Model for Variables<'a> {
    ghost use Rattle.bootstore_state.specs.Slots.{NamedValues, live};

    ghost Value = { NamedValues };

    ghost view = { λ v. live v.slots };
}

impl<'a> Iterator for Variables<'a> {
    type Item = (&'a [u8], &'a [u8]);

    ghost use Rattle.std.specs.Iterator.{YieldsFirstBy, item_count};

    ghost next_gives = { YieldsFirstBy (λ p. (p.0.now, p.1.now)) (λ v. v) };

    ghost remaining = { item_count (λ v. v) };

    fn next(&mut self) -> Option<(&'a [u8], &'a [u8])> {
        while let Some((name, place)) = self.slots.next() {
            if let Some(value) = &place.value {
                return Some((name.as_slice(), value.as_slice()));
            }
        }
        None
    }
}
