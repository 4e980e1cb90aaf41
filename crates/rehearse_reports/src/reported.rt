//! What the steps of a run read and write, as they are made.
ghost use Rattle.std.specs.Prelude.{◌≡◌, [], ◌∷◌, ◌++◌, IfOk, OnOk};
ghost use Rattle.rehearse_reads.specs.Keys.{Reads, Writes, keys_in_front};
ghost use Rattle.rehearse_reports.specs.ReportsShown.{key_shown, keys_shown, accesses_shown, needed_shown, is_in};
ghost use Rattle.rehearse_reports.specs.Reports.{Adds, AddsUnwritten, AreAlike, unwritten};

use crate::key::Key;
use indexmap::IndexSet;
use keyed_hash::KeyedHash;
use std::alloc::{AllocError, Global};

/// The keys that a stretch of a run reads before it writes them, and those that it writes. Each is
/// there once, so its memory goes with the keys and not with the steps.
#[derive(Drop)]
pub struct Reported {
    alloc: Global,
    /// What was read before it was written, in the order of the first reads.
    read: IndexSet<Key, KeyedHash>,
    /// What was written.
    written: IndexSet<Key, KeyedHash>,
}

/// Whether a key is among those that were written, mostly none.
fn is_written(written: &IndexSet<Key, KeyedHash>, key: &Key) -> bool
    ensures { result ≡ is_in key.now written.now }
{
    !written.is_empty() && written.contains(key)
}

impl Reported {
    /// Nothing was read or written. Keys will be found by this hash. Takes no memory.
    pub fn new(alloc: Global, hasher: KeyedHash) -> Reported
        ensures { accesses_shown result ≡ [] }
    {
        Reported {
            alloc,
            read: IndexSet::with_hasher(alloc, hasher),
            written: IndexSet::with_hasher(alloc, hasher),
        }
    }

    /// The hash by which keys are found.
    pub fn hasher(&self) -> KeyedHash {
        *self.read.hasher()
    }

    /// What was written, each key once.
    pub(crate) fn written(&self) -> &IndexSet<Key, KeyedHash> {
        &self.written
    }

    /// A key is read. Errors: memory ran out.
    pub(crate) fn reads(&mut self, key: Key) -> Result<(), AllocError>
        ensures { OnOk result (Adds (accesses_shown self.old) (accesses_shown self.new) (Reads (key_shown key) ∷ [])) }
    {
        if is_written(&self.written, &key) {
            return Ok(());
        }
        self.read.insert(key)?;
        Ok(())
    }

    /// A key is written. Errors: memory ran out.
    pub(crate) fn writes(&mut self, key: Key) -> Result<(), AllocError>
        ensures { OnOk result (Adds (accesses_shown self.old) (accesses_shown self.new) (Writes (key_shown key) ∷ [])) }
    {
        self.written.insert(key)?;
        Ok(())
    }
}

/// Keys that have to be known, each once, in the order in which they were added.
#[derive(Drop)]
pub struct Needed {
    alloc: Global,
    keys: IndexSet<Key, KeyedHash>,
}

impl Needed {
    /// No key has to be known. Keys will be found by this hash. Takes no memory.
    pub fn new(alloc: Global, hasher: KeyedHash) -> Needed
        ensures { needed_shown result ≡ [] }
    {
        Needed {
            alloc,
            keys: IndexSet::with_hasher(alloc, hasher),
        }
    }

    /// Adds a key, unless it was written. Errors: memory ran out.
    fn add(&mut self, written: &IndexSet<Key, KeyedHash>, key: Key) -> Result<(), AllocError>
        ensures { OnOk result (AddsUnwritten (keys_shown written.now.keys) (needed_shown self.old) (key_shown key) (needed_shown self.new)) }
    {
        if is_written(written, &key) {
            return Ok(());
        }
        self.keys.insert(key)?;
        Ok(())
    }

    /// Adds these keys. Errors: memory ran out.
    fn add_all(&mut self, keys: Vec<Key>) -> Result<(), AllocError>
        ensures { OnOk result (AreAlike (needed_shown self.old ++ keys_shown keys.items) (needed_shown self.new)) }
    {
        for key in keys {
            self.keys.insert(key)?;
        }
        Ok(())
    }

    /// Adds these keys, without those that were written. Errors: memory ran out.
    fn add_unwritten(
        &mut self,
        written: &IndexSet<Key, KeyedHash>,
        keys: Vec<Key>,
    ) -> Result<(), AllocError>
        ensures { OnOk result (AreAlike
            (needed_shown self.old ++ unwritten (keys_shown written.now.keys) (keys_shown keys.items))
            (needed_shown self.new)) }
    {
        for key in keys {
            self.add(written, key)?;
        }
        Ok(())
    }

    /// Adds the keys that have to be known in front of a stretch if these keys have to be known after it,
    /// and no others: first those that it read, in the order of the first reads. Errors: memory ran out.
    pub fn add_in_front(&mut self, stretch: Reported, later: Vec<Key>) -> Result<(), AllocError>
        ensures { OnOk result (AreAlike
            (needed_shown self.old ++ keys_in_front (accesses_shown stretch) (keys_shown later.items))
            (needed_shown self.new)) }
    {
        let Reported { read, written, .. } = stretch;
        let read: Vec<Key> = read.into_iter().collect(self.alloc)?;
        self.add_all(read)?;
        self.add_unwritten(&written, later)
    }

    /// The keys, each once. Errors: memory ran out.
    pub fn into_keys(self) -> Result<Vec<Key>, AllocError>
        ensures { IfOk result (λ keys. keys_shown keys.items ≡ needed_shown self) }
    {
        self.keys.into_iter().collect(self.alloc)
    }
}
