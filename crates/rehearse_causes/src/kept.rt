//! Causes that are kept, and where those of a number are.
ghost use Rattle.std.specs.Prelude.{◌≡◌, [], IfOk, OnOk};
ghost use Rattle.std.specs.List.{list_any, slice_get};
ghost use Rattle.rehearse_causes.specs.Keeping.{AreNoted, NotesOne, foremost, is_covered, is_covered_by, is_one_covering, with_cause};

use crate::cause::Cause;
use bootstore_state::StoreError;
use std::alloc::Global;
use std::collections::HashMap;

/// With more failures than these a cause has too many parts, and is compared with each that is kept.
const FEW: usize = 8;

/// Causes in their order, and where those of each number are.
#[derive(Drop)]
pub(crate) struct Kept {
    /// None is covered by one before it.
    pub(crate) causes: Vec<Cause>,
    /// The places of the causes of each number.
    places: HashMap<u64, Vec<usize>>,
}

/// Whether the cause at a place covers another one.
fn covers_at(causes: &[Cause], place: usize, cause: &Cause) -> bool
    ensures { result ≡ is_one_covering (slice_get causes.now place) cause.now }
{
    match causes.get(place) {
        Some(one) => one.covers(cause),
        None => false,
    }
}

/// Whether one of those at these places covers a cause.
fn covers_from(causes: &[Cause], places: &[usize], cause: &Cause) -> bool
    ensures { result ≡ list_any (λ place. is_one_covering (slice_get causes.now place) cause.now)
        places.now }
{
    places.iter().any(|place| covers_at(causes, *place, cause))
}

impl Kept {
    /// No causes. Takes no memory.
    pub(crate) fn new(alloc: Global) -> Kept
        ensures causes { result.causes.items ≡ [] }
        ensures noted { AreNoted result }
    {
        Kept {
            causes: Vec::new(alloc),
            places: HashMap::new(alloc),
        }
    }

    /// Whether one of a number covers a cause.
    fn has(&self, number: u64, cause: &Cause) -> bool
        requires { AreNoted self.now }
        ensures { result ≡ is_covered_by number self.now.causes.items cause.now }
    {
        match self.places.get(&number) {
            Some(places) => covers_from(&self.causes, places, cause),
            None => false,
        }
    }

    /// Whether one of one of these numbers covers a cause.
    fn has_one(&self, numbers: &[u64], cause: &Cause) -> bool
        requires { AreNoted self.now }
        ensures { result ≡ list_any (λ number. is_covered_by number self.now.causes.items
            cause.now) numbers.now }
    {
        numbers.iter().any(|number| self.has(*number, cause))
    }

    /// Whether one covers a cause. Looks at those that have the number of a part of what fails in it.
    /// Errors: `Memory`.
    fn is_covered(&self, alloc: Global, cause: &Cause) -> Result<bool, StoreError>
        requires { AreNoted self.now }
        ensures { IfOk result (λ b. b ≡ is_covered self.now.causes.items cause.now) }
    {
        if cause.count() > FEW {
            return Ok(self.causes.iter().any(|one| one.covers(cause)));
        }
        let numbers = cause.part_numbers(alloc)?;
        Ok(self.has_one(&numbers, cause))
    }

    /// Notes the place of a cause of this number. Errors: `Memory`.
    fn note(&mut self, alloc: Global, number: u64, place: usize) -> Result<(), StoreError>
        ensures causes { self.new.causes ≡ self.old.causes }
        ensures noted { OnOk result (NotesOne self.old self.new number place) }
    {
        if let Some(places) = self.places.get_mut(&number) {
            places.push(place)?;
            return Ok(());
        }
        let mut places = Vec::new(alloc);
        places.push(place)?;
        self.places.insert(number, places)?;
        Ok(())
    }

    /// Keeps one more, if none covers it. Errors: `Memory`.
    pub(crate) fn keep(&mut self, alloc: Global, cause: Cause) -> Result<(), StoreError>
        requires { AreNoted self.old }
        ensures noted { OnOk result (AreNoted self.new) }
        ensures causes { OnOk result (self.new.causes.items
            ≡ with_cause self.old.causes.items cause) }
    {
        if self.is_covered(alloc, &cause)? {
            return Ok(());
        }
        let place = self.causes.len();
        self.note(alloc, cause.number(), place)?;
        self.causes.push(cause)?;
        Ok(())
    }
}

/// Those that none before them covers. Errors: `Memory`.
pub(crate) fn foremost(alloc: Global, causes: Vec<Cause>) -> Result<Vec<Cause>, StoreError>
    ensures { IfOk result (λ made. made.items ≡ foremost causes.items) }
{
    let mut kept = Kept::new(alloc);
    for cause in causes {
        kept.keep(alloc, cause)?;
    }
    Ok(kept.causes)
}
