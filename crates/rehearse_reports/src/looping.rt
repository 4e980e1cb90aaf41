//! Whether a stretch of a run has come back to the moment at which it began: then it is an endless loop.
ghost use Rattle.std.specs.Prelude.{◌≡◌, ◌+◌, ◌-◌, ◌<◌, ◌≤◌, ◌^◌, OnOk, IsTrue};
ghost use Rattle.bootstore_state.specs.Present.{moment_of};
ghost use Rattle.text.specs.TextsShown.{option_items};
ghost use Rattle.rehearse_reports.specs.Looping.{IsBack, BeginsRounds};

use crate::key::Key;
use bootstore_state::{Frame, LogEntry, Present, Store, StoreError, Variables, text_length};
use indexmap::IndexSet;
use keyed_hash::KeyedHash;
use rehearse_states::same_frames;
use rehearse_terms::RunBounds;

/// Whether both entries of logs are the same.
fn same_entry(a: &LogEntry, b: &LogEntry) -> bool
    ensures { IsTrue result → a.now ≡ b.now }
{
    if a.success != b.success || a.stays != b.stays || a.again != b.again {
        return false;
    }
    a.words == b.words
}

/// Whether both logs are the same.
fn same_log(a: &[LogEntry], b: &[LogEntry]) -> bool
    ensures { IsTrue result → a.now ≡ b.now }
{
    let mut others = b;
    for entry in a {
        let Some((other, more)) = others.split_first() else {
            return false;
        };
        if !same_entry(entry, other) {
            return false;
        }
        others = more;
    }
    others.is_empty()
}

/// Whether both texts are the same, if they are kept.
fn same_text(a: &Option<Vec<u8>>, b: &Option<Vec<u8>>) -> bool
    ensures { IsTrue result → option_items a.now ≡ option_items b.now }
{
    match (a, b) {
        (Some(one), Some(other)) => one == other,
        (None, None) => true,
        _ => false,
    }
}

/// Whether both are the same variables with the same values.
fn same_variables(a: Variables<'_>, b: Variables<'_>) -> bool
    ensures { IsTrue result → a.entry ≡ b.entry }
{
    let mut some = a;
    let mut others = b;
    while let Some((name, value)) = some.next() {
        let Some((other_name, other_value)) = others.next() else {
            return false;
        };
        if name != other_name || value != other_value {
            return false;
        }
    }
    others.next().is_none()
}

/// Whether the innermost frames are at the same place.
fn same_place(a: Option<&Frame>, b: Option<&Frame>) -> bool {
    match (a, b) {
        (Some(one), Some(other)) => one.at() == other.at(),
        (None, None) => true,
        _ => false,
    }
}

/// Whether both states have the same value of a variable, if the key is one.
fn same_at(key: &Key, a: &Present, b: &Present) -> bool {
    match key {
        Key::Environment(name) => a.environment.get(name) == b.environment.get(name),
        Key::Local(name) => a.locals.get(name) == b.locals.get(name),
        Key::AnswerTo(_) | Key::Succeeded(_) | Key::Status => true,
    }
}

/// Whether both states look the same at first sight. In a loop that ends they mostly do not,
/// and then no more of them is compared.
fn looks_same(a: &Present, b: &Present, written: &IndexSet<Key, KeyedHash>) -> bool {
    if a.frames.len() != b.frames.len() || !same_place(a.top(), b.top()) {
        return false;
    }
    if text_length(&a.text) != text_length(&b.text) || a.log.len() != b.log.len() {
        return false;
    }
    for key in written {
        if !same_at(key, a, b) {
            return false;
        }
    }
    true
}

/// Whether a state is the first one again, but for the count of steps.
fn is_again(first: &Present, present: &Present) -> bool
    ensures { IsTrue result → IsBack (moment_of first.now) (moment_of present.now) }
{
    if first.status != present.status || !same_text(&first.text, &present.text) {
        return false;
    }
    if !same_variables(first.locals.iter(), present.locals.iter()) {
        return false;
    }
    if !same_variables(first.environment.iter(), present.environment.iter()) {
        return false;
    }
    same_log(first.log.entries(), present.log.entries())
        && same_frames(&first.frames, &present.frames)
}

/// Whether a store is at the first state again, but for the count of steps. These keys were written since.
pub(crate) fn is_back<S: Store>(
    first: &Present,
    store: &S,
    written: &IndexSet<Key, KeyedHash>,
) -> bool
    ensures { IsTrue result → IsBack (moment_of first.now) (S.record_of store.now).present }
{
    let present = store.present();
    looks_same(first, present, written) && is_again(first, present)
}

/// Begins at once the steps of all further rounds of this many steps, as far as the bound allows. Errors:
/// `Memory`.
pub(crate) fn begin_rounds<S: Store>(
    store: &mut S,
    steps: u32,
    bounds: RunBounds,
) -> Result<(), StoreError>
    requires some { 0 < steps }
    requires within { (S.record_of store.old).present.steps ≤ bounds.steps }
    requires begun { (S.record_of store.old).begun + bounds.steps
        < 2 ^ 64 + (S.record_of store.old).present.steps }
    ensures { OnOk result (BeginsRounds bounds.steps steps (S.record_of store.old)
        (S.record_of store.new)) }
{
    let rounds = (bounds.steps() - store.steps()) / steps;
    store.count_steps(rounds * steps)
}
