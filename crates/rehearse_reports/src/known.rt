//! Keys with what a moment has at them.
ghost use Rattle.std.specs.Prelude.{◌≡◌, ◌&&◌, not, IfOk, IsTrue};
ghost use Rattle.text.specs.TextsShown.{bytes_of_words, option_bytes};
ghost use Rattle.rehearse_terms.specs.State.{answer_in, same_words};
ghost use Rattle.rehearse_reports.specs.ReportsShown.{key_shown, keys_shown};
ghost use Rattle.rehearse_reports.specs.Known.{value_shown, key_of, keys_of, Holds, AllHold};

use crate::key::Key;
use bootstore_state::{LogEntry, Store, StoreError, has_succeeded};
use std::alloc::{AllocError, Global};
use text::copied_words;

/// A key, and what a moment has at it.
#[derive(Drop)]
pub enum Known {
    /// A variable of the environment, and its value, if it is set.
    Environment(Vec<u8>, Option<Vec<u8>>),
    /// A shell variable, in the same way.
    Local(Vec<u8>, Option<Vec<u8>>),
    /// The words of a device command, its name first, and the answer that stays for it, if there is one.
    AnswerTo(Vec<Vec<u8>>, Option<bool>),
    /// The first words of a device command, its name first, and whether one that begins so has succeeded.
    Succeeded(Vec<Vec<u8>>, bool),
    /// `$?`
    Status(u8),
}

/// Whether a logged command has the answer that stays for one with these words, its name first.
fn answers(entry: &LogEntry, call: &[Vec<u8>]) -> bool
    ensures { result ≡ ((not entry.now.again && entry.now.stays)
        && same_words (bytes_of_words call.now) entry.now.words) }
{
    entry.has_answer() && call == entry.words.as_slice()
}

/// The answer in a log that stays for a command with these words, its name first.
pub fn answer_to(log: &[LogEntry], call: &[Vec<u8>]) -> Option<bool>
    ensures { result ≡ answer_in log.now (bytes_of_words call.now) }
{
    for entry in log {
        if answers(entry, call) {
            return Some(entry.success);
        }
    }
    None
}

/// A copy of a value. Errors: memory ran out.
fn copied(alloc: Global, value: Option<&[u8]>) -> Result<Option<Vec<u8>>, AllocError>
    ensures { IfOk result (λ copy. value_shown copy ≡ option_bytes value.entry) }
{
    match value {
        Some(bytes) => {
            let copy = Vec::from_slice(alloc, bytes)?;
            Ok(Some(copy))
        }
        None => Ok(None),
    }
}

/// Whether a value is this one.
fn is_value(value: Option<&[u8]>, other: &Option<Vec<u8>>) -> bool
    ensures same { IsTrue result → option_bytes value.entry ≡ value_shown other.now }
    ensures told { option_bytes value.entry ≡ value_shown other.now → IsTrue result }
{
    match (value, other) {
        (Some(bytes), Some(others)) => bytes == others.as_slice(),
        (None, None) => true,
        _ => false,
    }
}

impl Known {
    /// What the present state of a store has at a key. Errors: `Memory`.
    pub fn at<S: Store>(alloc: Global, store: &S, key: Key) -> Result<Known, StoreError>
        ensures key { IfOk result (λ known. key_of known ≡ key_shown key) }
        ensures holds { IfOk result
            (λ known. Holds (S.record_of store.now).present known) }
    {
        match key {
            Key::Environment(name) => {
                let value = copied(alloc, store.get_env(&name))?;
                Ok(Known::Environment(name, value))
            }
            Key::Local(name) => {
                let value = copied(alloc, store.get_local(&name))?;
                Ok(Known::Local(name, value))
            }
            Key::AnswerTo(call) => {
                let answer = answer_to(store.log(), &call);
                Ok(Known::AnswerTo(call, answer))
            }
            Key::Succeeded(start) => {
                let has = has_succeeded(store.log(), &start);
                Ok(Known::Succeeded(start, has))
            }
            Key::Status => Ok(Known::Status(store.get_status())),
        }
    }

    /// Whether the present state of a store has the same at the key.
    fn holds<S: Store>(&self, store: &S) -> bool
        ensures same { IsTrue result → Holds (S.record_of store.now).present self.now }
        ensures told { Holds (S.record_of store.now).present self.now → IsTrue result }
    {
        match self {
            Known::Environment(name, value) => is_value(store.get_env(name), value),
            Known::Local(name, value) => is_value(store.get_local(name), value),
            Known::AnswerTo(call, answer) => answer_to(store.log(), call) == *answer,
            Known::Succeeded(start, has) => has_succeeded(store.log(), start) == *has,
            Known::Status(status) => store.get_status() == *status,
        }
    }

    /// The key. Errors: memory ran out.
    pub fn key(&self, alloc: Global) -> Result<Key, AllocError>
        ensures { IfOk result (λ key. key_shown key ≡ key_of self.now) }
    {
        match self {
            Known::Environment(name, _) => Ok(Key::Environment(Vec::from_slice(alloc, name)?)),
            Known::Local(name, _) => Ok(Key::Local(Vec::from_slice(alloc, name)?)),
            Known::AnswerTo(call, _) => Ok(Key::AnswerTo(copied_words(alloc, call)?)),
            Known::Succeeded(start, _) => Ok(Key::Succeeded(copied_words(alloc, start)?)),
            Known::Status(_) => Ok(Key::Status),
        }
    }
}

/// What the present state of a store has at keys. Errors: `Memory`.
pub fn known_at<S: Store>(
    alloc: Global,
    store: &S,
    keys: Vec<Key>,
) -> Result<Vec<Known>, StoreError>
    ensures keys { IfOk result (λ known. keys_of known.items ≡ keys_shown keys.items) }
    ensures hold { IfOk result
        (λ known. AllHold (S.record_of store.now).present known.items) }
{
    let mut known = Vec::new(alloc);
    for key in keys {
        known.push(Known::at(alloc, store, key)?)?;
    }
    Ok(known)
}

/// Whether the present state of a store has the same at all of these keys.
pub fn all_hold<S: Store>(store: &S, known: &[Known]) -> bool
    ensures same { IsTrue result → AllHold (S.record_of store.now).present known.now }
    ensures told { AllHold (S.record_of store.now).present known.now → IsTrue result }
{
    for one in known {
        if !one.holds(store) {
            return false;
        }
    }
    true
}

/// The keys. Errors: memory ran out.
pub fn keys_of(alloc: Global, known: &[Known]) -> Result<Vec<Key>, AllocError>
    ensures { IfOk result (λ keys. keys_shown keys.items ≡ keys_of known.now) }
{
    let mut keys = Vec::new(alloc);
    for one in known {
        keys.push(one.key(alloc)?)?;
    }
    Ok(keys)
}
