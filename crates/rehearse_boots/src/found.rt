//! The boots that were found, each by what it finds saved.
ghost use Rattle.std.specs.Prelude.{◌≡◌, ◌≢◌, ◌+◌, ◌<◌, ◌≤◌, ◌^◌, [], length, map, IfOk, IfErr, OnOk, OnErr, IfSome, Some, option_map, slice_get};
ghost use Rattle.rehearse_boots.specs.Boots.{number_of, with_boot};
ghost use Rattle.rehearse_boots.specs.BootsShown.{kept_shown};
ghost use Rattle.rehearse_boots.specs.Exploring.{with_finding};
ghost use Rattle.rehearse_boots.specs.declared.boots_error.BootsError.TheVariants.{Boots as TooMany, Memory};
ghost use Rattle.text.specs.TextsShown.{bytes_of_words};

use crate::boots_error::BootsError;
use indexmap::IndexSet;
use keyed_hash::KeyedHash;
use std::alloc::{AllocError, Global};
use std::marker::Model;

/// The boots that were found, in this order, each by the values that it finds saved of the variables that are kept.
#[derive(Drop)]
pub(crate) struct Boots {
    kept: IndexSet<Vec<Vec<u8>>, KeyedHash>,
}

impl Model for Boots {
    ghost use Rattle.std.specs.Prelude.{List, map};
    ghost use Rattle.rehearse_boots.specs.Boots.{Kept};
    ghost use Rattle.rehearse_boots.specs.BootsShown.{kept_shown};

    ghost Value = { List Kept };

    ghost view = { λ b. map kept_shown b.kept.keys };
}

/// A copy of what a boot finds saved. Errors: memory ran out.
pub(crate) fn copied(alloc: Global, kept: &[Vec<u8>]) -> Result<Vec<Vec<u8>>, AllocError>
    ensures { IfOk result (λ copy. kept_shown copy ≡ bytes_of_words kept.now) }
{
    let mut copy = Vec::new(alloc);
    for value in kept {
        copy.push(Vec::from_slice(alloc, value)?)?;
    }
    Ok(copy)
}

/// By which way a boot was found.
#[derive(Clone, Copy, Debug, Drop)]
pub(crate) struct FoundBy {
    /// The place of the boot from which it leads.
    pub(crate) place: usize,
    /// The place of the way among those of that boot.
    pub(crate) way: usize,
}

/// The boots that were found, and by which way each but the first.
#[derive(Drop)]
pub(crate) struct Found {
    pub(crate) boots: Boots,
    pub(crate) by: Vec<FoundBy>,
}

impl Boots {
    /// No boot. They will be found by this hash. Takes no memory.
    pub(crate) fn new(alloc: Global, hasher: KeyedHash) -> Boots
        ensures { result ≡ [] }
    {
        Boots {
            kept: IndexSet::with_hasher(alloc, hasher),
        }
    }

    /// How many there are.
    pub(crate) fn len(&self) -> usize
        ensures count { result ≡ length self.now }
        ensures small { result < 2 ^ 63 }
    {
        self.kept.len()
    }

    /// A copy of what the boot at a place finds saved, if there is one. Errors: memory ran out.
    pub(crate) fn copy_at(
        &self,
        alloc: Global,
        place: usize,
    ) -> Result<Option<Vec<Vec<u8>>>, AllocError>
        ensures { IfOk result (λ kept. option_map kept_shown kept ≡ slice_get self.now place) }
    {
        match self.kept.get_index(place) {
            Some(kept) => {
                let copy = copied(alloc, kept)?;
                Ok(Some(copy))
            }
            None => Ok(None),
        }
    }

    /// The number of the boot at a place, and what it finds saved, if there is one.
    pub(crate) fn numbered(&self, place: usize) -> Option<(usize, &[Vec<u8>])>
        ensures number { IfSome result (λ b. b.0 ≡ place + 1) }
        ensures kept { option_map (λ b. bytes_of_words b.1.now) result ≡ slice_get self.now place }
    {
        if place >= self.len() {
            return None;
        }
        match self.kept.get_index(place) {
            Some(kept) => Some((place + 1, kept.as_slice())),
            None => None,
        }
    }

    /// The number of the boot that finds this saved; a new one goes last. Errors: `Boots`, if there are then more than
    /// allowed; `Memory`.
    pub(crate) fn number(&mut self, kept: Vec<Vec<u8>>, most: usize) -> Result<usize, BootsError>
        ensures added { OnOk result (self.new ≡ with_boot self.old (kept_shown kept)) }
        ensures number { IfOk result (λ number. number ≡ number_of self.new (kept_shown kept)) }
        ensures few { OnOk result (length self.new ≤ most) }
        ensures many { IfErr result (λ e. e ≡ TooMany
            → (self.new ≡ with_boot self.old (kept_shown kept)) × (most < length self.new)) }
        ensures other { IfErr result (λ e. e ≢ TooMany → e ≡ Memory) }
    {
        let (place, _) = self.kept.insert_full(kept)?;
        if self.len() > most {
            return Err(BootsError::Boots);
        }
        Ok(place + 1)
    }
}

impl Found {
    /// The number of the boot that finds this saved; a new one goes last, with the way by which it was found. Errors:
    /// those of `Boots::number`.
    pub(crate) fn number(
        &mut self,
        kept: Vec<Vec<u8>>,
        by: FoundBy,
        most: usize,
    ) -> Result<usize, BootsError>
        ensures added { OnOk result (self.new.boots ≡ with_boot self.old.boots (kept_shown kept)) }
        ensures number { IfOk result (λ number. number ≡ number_of self.new.boots (kept_shown kept)) }
        ensures by { OnOk result (self.new.by.items ≡ with_finding by self.old.boots (kept_shown kept) self.old.by.items) }
        ensures few { OnOk result (length self.new.boots ≤ most) }
        ensures many { IfErr result (λ e. e ≡ TooMany
            → (self.new.boots ≡ with_boot self.old.boots (kept_shown kept)) × (most < length self.new.boots)) }
        ensures other { IfErr result (λ e. e ≢ TooMany → e ≡ Memory) }
    {
        let before = self.boots.len();
        let number = self.boots.number(kept, most)?;
        if before < self.boots.len() {
            self.by.push(by)?;
        }
        Ok(number)
    }
}
