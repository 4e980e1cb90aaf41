//! The table of the states in which device commands asked.
ghost use Rattle.std.specs.Prelude.{ℕ, ◌≡◌, ◌≢◌, ◌≤◌, ◌<◌, ◌+◌, IfOk, IfErr, OnOk, MatchOption, IsTrue, Contains, false, List, length, map, reverse, [], option_map, Some};
ghost use Rattle.std.specs.List.{slice_get};
ghost use Rattle.rehearse_machine.specs.Machine.{IsAsking};
ghost use Rattle.rehearse_machine.specs.MovesShown.{limits_of};
ghost use Rattle.rehearse_states.specs.PlaceNumbers.{place_number};
ghost use Rattle.rehearse_states.specs.SumNodes.{sums_shown};
ghost use Rattle.rehearse_endings.specs.Held.{most_held, size_of};
ghost use Rattle.rehearse_endings.specs.Searching.{AreEntries, IsFound, IsKept};
ghost use Rattle.rehearse_endings.specs.Indexed.{AllOf, AreNoted, BeginWith, Fits, FitsNot, HasMoreWays, IsNumberBehind, KnowsNext, Leads, NoneBy, NoneFits, NoneFrom, NoneOnTop, NotesOne, TakesOne, WayIsNoted, known_in, noted, ways};
ghost use Rattle.rehearse_reports.specs.Known.{key_of};
ghost use Rattle.rehearse_states.specs.Drawing.{nodes_shown};
ghost use Rattle.rehearse_endings.specs.declared.sum_error.SumError.TheVariants.{Memory};

use crate::entry::{Entry, Future, below_entry, fits, innermost, moved};
use crate::held::behind_state;
use crate::numbers::{have_one_key, mix_here, mix_known};
use crate::sum_error::SumError;
use bootstore_state::{Frame, Store, StoreError};
use device_list::Devices;
use rehearse_reports::Known;
use rehearse_states::{Flow, SumNode, Summary, number_of};
use rehearse_terms::RunBounds;
use std::alloc::{AllocError, Global};
use std::collections::HashMap;

/// The states that were searched, how many may be entered, and how many more bytes may be held.
#[derive(Drop)]
pub(crate) struct Table {
    /// The states whose runs are all counted.
    pub(crate) entries: Vec<Entry>,
    /// By the number of a place and of the first things that are known there, where an entry is that knows more. What
    /// a state reads goes by what it has read before: of states that know the same so far, the next key is mostly the same.
    pub(crate) onward: HashMap<u64, usize>,
    /// Where further entries of this number are, whose next keys are others.
    pub(crate) forks: HashMap<u64, Vec<usize>>,
    /// By the number of a place and of all that is known there, where the entries are.
    pub(crate) alike: HashMap<u64, Vec<usize>>,
    /// How many keys an entry has at most.
    pub(crate) longest: usize,
    /// How many frames the entries have that others may have below them, each number once.
    pub(crate) depths: Vec<usize>,
    /// The nodes of the states, and of the ways to end.
    pub(crate) flow: Flow,
    /// What the rows of the states are made of, and those of the runs that are over.
    pub(crate) sums: Vec<SumNode>,
    /// How many states were entered.
    pub(crate) visited: u32,
    /// How many states may be entered.
    pub(crate) most: u32,
    /// How many more bytes the entries may count.
    pub(crate) room: u64,
}

impl Table {
    ghost use Rattle.std.specs.Prelude.{◌+◌, Err};
    ghost use Rattle.rehearse_endings.specs.declared.sum_error.SumError.TheVariants.{Bytes, States, Steps};

    /// A table without entries. Takes no memory.
    pub(crate) fn new(alloc: Global, most: u32, room: u64) -> Table
        ensures entries { result.entries.items ≡ [] }
        ensures flow { result.flow.nodes.items ≡ [] }
        ensures visited { result.visited ≡ 0 }
        ensures most { result.most ≡ most }
        ensures held { most_held result ≡ room }
        ensures noted { AreNoted result }
    {
        Table {
            entries: Vec::new(alloc),
            onward: HashMap::new(alloc),
            forks: HashMap::new(alloc),
            alike: HashMap::new(alloc),
            longest: 0,
            depths: Vec::new(alloc),
            flow: Flow::new(alloc),
            sums: Vec::new(alloc),
            visited: 0,
            most,
            room,
        }
    }

    /// Enters one more state. Errors: `States`, exactly if as many states were entered as allowed.
    pub(crate) fn enter(&mut self) -> Result<(), SumError>
        ensures entries { self.new.entries.items ≡ self.old.entries.items }
        ensures noted { AreNoted self.old → AreNoted self.new }
        ensures flow { self.new.flow ≡ self.old.flow }
        ensures sums { self.new.sums ≡ self.old.sums }
        ensures most { self.new.most ≡ self.old.most }
        ensures held { most_held self.new ≡ most_held self.old }
        ensures visited { OnOk result (self.new.visited ≡ self.old.visited + 1) }
        ensures within { OnOk result (self.new.visited ≤ self.new.most) }
        ensures err { IfErr result (λ e. e ≡ States) }
        ensures full { IfErr result (λ e. e ≡ States → self.old.most ≤ self.old.visited) }
        ensures limit { self.old.most ≤ self.old.visited → result ≡ Err States }
    {
        if self.visited >= self.most {
            return Err(SumError::States);
        }
        self.visited += 1;
        Ok(())
    }

    /// What is to come after the present state, with the values of variables, if an entry fits. The place of the
    /// state has this number, and its log so many device commands. Errors: `Memory`.
    pub(crate) fn find<S: Store>(
        &self,
        alloc: Global,
        store: &S,
        devices: &Devices,
        bounds: RunBounds,
        names: &[&[u8]],
        place: u64,
        depth: u32,
    ) -> Result<Option<Future>, StoreError>
        requires asks { IsAsking (limits_of devices.now bounds) (S.record_of store.now).present }
        requires depth { length (S.record_of store.now).present.log ≡ depth }
        requires place { place ≡ place_number (S.record_of store.now).present.frames }
        requires table { AreEntries (map (λ n. n.now) names.now) (limits_of devices.now bounds) (nodes_shown self.now.flow.nodes)
            (sums_shown self.now.sums) self.now.entries.items }
        requires noted { AreNoted self.now }
        ensures { IfOk result
            (λ found. MatchOption found (NoneFits bounds.steps bounds.devices self.now.entries.items (S.record_of store.now).present)
            (IsFound (map (λ n. n.now) names.now) (limits_of devices.now bounds) (nodes_shown self.now.flow.nodes)
            (sums_shown self.now.sums) self.now.entries.items (S.record_of store.now).present)) }
    {
        let (_devices, _names) = (devices, names);
        if let Some(found) = self.look(alloc, store, bounds, place, 0, depth)? {
            return Ok(Some(found));
        }
        let found = self.find_on_top(alloc, store, bounds, depth)?;
        Ok(found)
    }

    /// What is to come, if an entry fits whose frames are the innermost ones of the present state. Errors: `Memory`.
    fn find_on_top<S: Store>(
        &self,
        alloc: Global,
        store: &S,
        bounds: RunBounds,
        depth: u32,
    ) -> Result<Option<Future>, StoreError>
        requires { length (S.record_of store.now).present.log ≡ depth }
        ensures { IfOk result
            (λ found. MatchOption found (AllOf self.now.depths.items
            (NoneOnTop bounds.steps bounds.devices self.now (S.record_of store.now).present))
            (TakesOne bounds.steps bounds.devices self.now.entries.items (S.record_of store.now).present)) }
    {
        for many in &self.depths {
            if let Some(found) = self.look_on_top(alloc, store, bounds, *many, depth)? {
                return Ok(Some(found));
            }
        }
        Ok(None)
    }

    /// The same, if these are so many. Errors: `Memory`.
    fn look_on_top<S: Store>(
        &self,
        alloc: Global,
        store: &S,
        bounds: RunBounds,
        many: usize,
        depth: u32,
    ) -> Result<Option<Future>, StoreError>
        requires { length (S.record_of store.now).present.log ≡ depth }
        ensures { IfOk result
            (λ found. MatchOption found (NoneOnTop bounds.steps bounds.devices self.now (S.record_of store.now).present many)
            (TakesOne bounds.steps bounds.devices self.now.entries.items (S.record_of store.now).present)) }
    {
        let Some(top) = innermost(store, many) else {
            return Ok(None);
        };
        let found = self.look(alloc, store, bounds, number_of(top), 0, depth)?;
        Ok(found)
    }

    /// What is to come, if an entry fits to which what it knows leads from this number, of the place and of so many
    /// things that are known there. Errors: `Memory`.
    #[cycle(looking)]
    fn look<S: Store>(
        &self,
        alloc: Global,
        store: &S,
        bounds: RunBounds,
        number: u64,
        from: usize,
        depth: u32,
    ) -> Result<Option<Future>, StoreError>
        requires { length (S.record_of store.now).present.log ≡ depth }
        ensures { IfOk result
            (λ found. MatchOption found (NoneFrom bounds.steps bounds.devices self.now (S.record_of store.now).present number from)
            (TakesOne bounds.steps bounds.devices self.now.entries.items (S.record_of store.now).present)) }
    {
        let mut number = number;
        for at in from..self.longest {
            if let Some(found) = self.find_alike(alloc, store, bounds, number, depth)? {
                return Ok(Some(found));
            }
            if let Some(found) = self.look_aside(alloc, store, bounds, number, at, depth)? {
                return Ok(Some(found));
            }
            let Some(place) = self.onward.get(&number) else {
                return Ok(None);
            };
            let Some(next) = self.number_behind(store, number, *place, at) else {
                return Ok(None);
            };
            number = next;
        }
        let found = self.find_alike(alloc, store, bounds, number, depth)?;
        Ok(found)
    }

    /// The same by the further keys that entries of this number know next. Errors: `Memory`.
    #[cycle(looking)]
    fn look_aside<S: Store>(
        &self,
        alloc: Global,
        store: &S,
        bounds: RunBounds,
        number: u64,
        at: usize,
        depth: u32,
    ) -> Result<Option<Future>, StoreError>
        requires depth { length (S.record_of store.now).present.log ≡ depth }
        requires within { at + 1 ≤ self.now.longest }
        ensures { IfOk result
            (λ found. MatchOption found (AllOf (noted self.now.forks number)
            (NoneBy bounds.steps bounds.devices self.now (S.record_of store.now).present number at))
            (TakesOne bounds.steps bounds.devices self.now.entries.items (S.record_of store.now).present)) }
    {
        let Some(places) = self.forks.get(&number) else {
            return Ok(None);
        };
        for place in places {
            if let Some(found) = self.look_behind(
                alloc, store, bounds, number, *place, at, depth,
            )? {
                return Ok(Some(found));
            }
        }
        Ok(None)
    }

    /// The same by what the entry at a place knows next. Errors: `Memory`.
    #[cycle(looking)]
    fn look_behind<S: Store>(
        &self,
        alloc: Global,
        store: &S,
        bounds: RunBounds,
        number: u64,
        place: usize,
        at: usize,
        depth: u32,
    ) -> Result<Option<Future>, StoreError>
        requires depth { length (S.record_of store.now).present.log ≡ depth }
        requires within { at + 1 ≤ self.now.longest }
        ensures { IfOk result
            (λ found. MatchOption found (NoneBy bounds.steps bounds.devices self.now (S.record_of store.now).present number at place)
            (TakesOne bounds.steps bounds.devices self.now.entries.items (S.record_of store.now).present)) }
    {
        let Some(next) = self.number_behind(store, number, place, at) else {
            return Ok(None);
        };
        let found = self.look(alloc, store, bounds, next, at + 1, depth)?;
        Ok(found)
    }

    /// The number with what the present state has at the key that the entry at a place knows after so many
    /// others, if it knows more.
    fn number_behind<S: Store>(
        &self,
        store: &S,
        number: u64,
        place: usize,
        at: usize,
    ) -> Option<u64>
        ensures { IsNumberBehind self.now.entries.items (S.record_of store.now).present number at place result }
    {
        let known = self.known_at(place, at)?;
        Some(mix_here(store, number, known))
    }

    /// What the entry at a place knows after so many other things.
    fn known_at(&self, place: usize, at: usize) -> Option<&Known>
        ensures { option_map (λ known. known.now) result ≡ known_in self.now.entries.items place at }
    {
        let Some(entry) = self.entries.get(place) else {
            return None;
        };
        entry.known.get(at)
    }

    /// What is to come, if an entry of this number fits. Errors: `Memory`.
    fn find_alike<S: Store>(
        &self,
        alloc: Global,
        store: &S,
        bounds: RunBounds,
        number: u64,
        depth: u32,
    ) -> Result<Option<Future>, StoreError>
        requires { length (S.record_of store.now).present.log ≡ depth }
        ensures { IfOk result
            (λ found. MatchOption found (AllOf (noted self.now.alike number)
            (FitsNot bounds.steps bounds.devices self.now.entries.items (S.record_of store.now).present))
            (TakesOne bounds.steps bounds.devices self.now.entries.items (S.record_of store.now).present)) }
    {
        let Some(places) = self.alike.get(&number) else {
            return Ok(None);
        };
        for place in places {
            if let Some(entry) = self.fitting(store, bounds, *place, depth) {
                let below = below_entry(store, entry);
                let found = moved(alloc, bounds, entry, store.steps(), depth, below)?;
                return Ok(Some(found));
            }
        }
        Ok(None)
    }

    /// The entry at a place, if it fits.
    fn fitting<S: Store>(
        &self,
        store: &S,
        bounds: RunBounds,
        place: usize,
        depth: u32,
    ) -> Option<&Entry>
        requires { length (S.record_of store.now).present.log ≡ depth }
        ensures { MatchOption result
            (FitsNot bounds.steps bounds.devices self.now.entries.items (S.record_of store.now).present place)
            (λ e. (slice_get self.now.entries.items place ≡ Some e.now)
            × Fits bounds.steps bounds.devices e.now (S.record_of store.now).present) }
    {
        match self.entries.get(place) {
            Some(entry) if fits(store, bounds, entry, depth) => Some(entry),
            _ => None,
        }
    }

    /// Keeps the summary of a state in which a device command asked. The place that its frames that count make has this
    /// number, and they are all frames, or any others may be below them. Errors: `Bytes`,
    /// exactly if the state has no room, with the number of states that were entered, and then nothing changes; `Memory`.
    pub(crate) fn keep(
        &mut self,
        alloc: Global,
        place: u64,
        frames: Vec<Frame>,
        whole: bool,
        known: Vec<Known>,
        steps: u32,
        devices: u32,
        summary: Summary,
    ) -> Result<(), SumError>
        requires { place ≡ place_number (reverse frames.items) }
        ensures err { IfErr result (λ e. (e ≢ States) × ((count : ℕ) → e ≢ Steps count)) }
        ensures full { (count : ℕ) → IfErr result (λ e. e ≡ Bytes count → self.old.room < size_of frames.items known.items) }
        ensures limit { self.old.room < size_of frames.items known.items
            → (result ≡ Err (Bytes self.old.visited)) × (self.new ≡ self.old) }
        ensures kept { OnOk result
            (IsKept self.old.entries.items self.new.entries.items frames.items whole known.items steps devices
            summary) }
        ensures noted { OnOk result (AreNoted self.old → AreNoted self.new) }
        ensures held { OnOk result (most_held self.new ≡ most_held self.old) }
        ensures flow { self.new.flow ≡ self.old.flow }
        ensures sums { self.new.sums ≡ self.old.sums }
        ensures visited { self.new.visited ≡ self.old.visited }
        ensures most { self.new.most ≡ self.old.most }
    {
        let Some(left) = behind_state(self.room, &frames, &known) else {
            return Err(SumError::Bytes(self.visited));
        };
        let at = self.entries.len();
        let number = self.note_ways(alloc, place, &known, at)?;
        note(alloc, &mut self.alike, number, at)?;
        self.longest = self.longest.max(known.len());
        note_depth(&mut self.depths, whole, frames.len())?;
        self.entries.push(Entry {
            frames,
            whole,
            known,
            steps,
            devices,
            summary,
        })?;
        self.room = left;
        Ok(())
    }

    /// Notes the way from the number of a place by what the next entry knows. Returns the number of all that. Errors:
    /// `Memory`.
    fn note_ways(
        &mut self,
        alloc: Global,
        place: u64,
        known: &[Known],
        entry: usize,
    ) -> Result<u64, SumError>
        ensures err { IfErr result (λ e. e ≡ Memory) }
        ensures ways { IfOk result (λ number. WayIsNoted self.old.entries.items self.new number place known.now entry) }
        ensures grows { OnOk result (HasMoreWays (ways self.old) (ways self.new)) }
        ensures entries { self.new.entries ≡ self.old.entries }
        ensures alike { self.new.alike ≡ self.old.alike }
        ensures longest { self.new.longest ≡ self.old.longest }
        ensures depths { self.new.depths ≡ self.old.depths }
        ensures flow { self.new.flow ≡ self.old.flow }
        ensures sums { self.new.sums ≡ self.old.sums }
        ensures visited { self.new.visited ≡ self.old.visited }
        ensures most { self.new.most ≡ self.old.most }
        ensures room { self.new.room ≡ self.old.room }
    {
        let mut number = place;
        for (at, one) in known.iter().enumerate() {
            self.note_way(alloc, number, at, one, entry)?;
            number = mix_known(number, one);
        }
        Ok(number)
    }

    /// Notes that the next entry knows this after so many other things, under their number, if no entry that is noted
    /// there knows something of the same key. Errors: `Memory`.
    fn note_way(
        &mut self,
        alloc: Global,
        number: u64,
        at: usize,
        known: &Known,
        entry: usize,
    ) -> Result<(), SumError>
        ensures err { IfErr result (λ e. e ≡ Memory) }
        ensures leads { OnOk result ((es : List Entry) → BeginWith self.old.entries.items es
            → KnowsNext es entry at (key_of known.now) → Leads (ways self.new number) es at (key_of known.now)) }
        ensures grows { OnOk result (HasMoreWays (ways self.old) (ways self.new)) }
        ensures entries { self.new.entries ≡ self.old.entries }
        ensures alike { self.new.alike ≡ self.old.alike }
        ensures longest { self.new.longest ≡ self.old.longest }
        ensures depths { self.new.depths ≡ self.old.depths }
        ensures flow { self.new.flow ≡ self.old.flow }
        ensures sums { self.new.sums ≡ self.old.sums }
        ensures visited { self.new.visited ≡ self.old.visited }
        ensures most { self.new.most ≡ self.old.most }
        ensures room { self.new.room ≡ self.old.room }
    {
        let Some(first) = self.onward.get(&number) else {
            self.onward.insert(number, entry)?;
            return Ok(());
        };
        if self.knows_next(*first, at, known) || self.has_fork(number, at, known) {
            return Ok(());
        }
        note(alloc, &mut self.forks, number, entry)?;
        Ok(())
    }

    /// Whether the entry at a place knows something of the same key after so many other things.
    fn knows_next(&self, place: usize, at: usize, known: &Known) -> bool
        ensures { IsTrue result → KnowsNext self.now.entries.items place at (key_of known.now) }
    {
        match self.known_at(place, at) {
            Some(other) => have_one_key(other, known),
            None => false,
        }
    }

    /// Whether one of the further entries of this number does.
    fn has_fork(&self, number: u64, at: usize, known: &Known) -> bool
        ensures { IsTrue result → Leads (noted self.now.forks number) self.now.entries.items at (key_of known.now) }
    {
        let Some(places) = self.forks.get(&number) else {
            return false;
        };
        for place in places {
            if self.knows_next(*place, at, known) {
                return true;
            }
        }
        false
    }
}

/// Notes that an entry of a number is at this place of the entries. Errors: `Memory`.
fn note(
    alloc: Global,
    places: &mut HashMap<u64, Vec<usize>>,
    number: u64,
    at: usize,
) -> Result<(), SumError>
    ensures err { IfErr result (λ e. e ≡ Memory) }
    ensures noted { OnOk result (NotesOne places.old places.new number at) }
{
    if let Some(noted) = places.get_mut(&number) {
        noted.push(at)?;
        return Ok(());
    }
    let mut noted = Vec::new(alloc);
    noted.push(at)?;
    places.insert(number, noted)?;
    Ok(())
}

/// Whether a number is among others.
fn is_noted(depths: &[usize], depth: usize) -> bool
    ensures { IsTrue result → Contains depths.now depth }
{
    for other in depths {
        if *other == depth {
            return true;
        }
    }
    false
}

/// Notes how many frames an entry has, if they are not whole, and it is not noted yet. Errors: memory ran out.
fn note_depth(depths: &mut Vec<usize>, whole: bool, depth: usize) -> Result<(), AllocError>
    ensures more { OnOk result ((n : ℕ) → Contains depths.old.items n → Contains depths.new.items n) }
    ensures there { OnOk result (whole ≡ false → Contains depths.new.items depth) }
{
    if whole || is_noted(depths, depth) {
        return Ok(());
    }
    depths.push(depth)?;
    Ok(())
}
