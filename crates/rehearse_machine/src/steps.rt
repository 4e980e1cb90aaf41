//! Begins steps, and expands words.
ghost use Rattle.std.specs.Prelude.{◌≡◌, ◌+◌, ◌<◌, ◌^◌, IfOk, map, nat_le, true, false, Some, None};
ghost use Rattle.hushlang.specs.TreesShown as view;
ghost use Rattle.hushlang.specs.Expansion as expansion;
ghost use Rattle.rehearse_rules.specs.ByShell.{assigned_in, fields_in, turns_in};
ghost use Rattle.text.specs.TextsShown.{bytes_of_words};
ghost use Rattle.rehearse_machine.specs.Variables.{parameters_at};
ghost use Rattle.rehearse_machine.specs.MovesShown.{IsExpanded, IsExpandedOne, IsCounted};

use crate::memory::Memory;
use bootstore_state::{Store, StoreError};
use hushlang::{ExpandError, Fields, Word, expand_one};
use hushlang_modern::modern_fields;
use hushlang_old::{inserted, old_fields, old_turns};
use rehearse_terms::{RunBounds, Shell};
use std::alloc::Global;

/// The most bytes that the fields of a command may hold.
const MOST_BYTES: usize = 65_536;

/// Begins a step if the bound allows one more. Returns whether it did.
pub(crate) fn count<S: Store>(store: &mut S, bounds: RunBounds) -> Result<bool, StoreError>
    requires { (S.record_of store.old).begun + 1 < 2 ^ 64 }
    ensures { IfOk result (λ counted. IsCounted bounds counted (S.record_of store.old)
        (S.record_of store.new)) }
{
    if store.steps() >= bounds.steps() {
        return Ok(false);
    }
    store.count_step()?;
    Ok(true)
}

/// Puts the fields of words by ubtool's own rules in the place of these. Returns whether they hold no
/// more bytes than allowed.
fn filled<S: Store>(fields: &mut Fields, store: &S, words: &[Word]) -> Result<bool, StoreError>
    ensures { IfOk result (λ fit. IsExpanded fit fields.new
        (expansion.fields (parameters_at (S.record_of store.now).present)
        (map view.word words.now))) }
{
    match fields.fill(words, &Memory { store }) {
        Ok(()) => Ok(true),
        Err(ExpandError::TooLong) => Ok(false),
        Err(ExpandError::Memory) => Err(StoreError::Memory),
    }
}

/// Puts other fields in the place of these. Returns whether they hold no more bytes than allowed.
fn replaced(fields: &mut Fields, found: Vec<Vec<u8>>) -> bool
    ensures { IsExpanded result fields.new (map (λ field. field.items) found.items) }
{
    let fit = fits(found.as_slice());
    fields.replace(found);
    fit
}

/// Puts the fields of a command in a shell in the place of these. Returns whether they hold no more
/// bytes than allowed.
pub fn expanded<S: Store>(
    alloc: Global,
    fields: &mut Fields,
    store: &S,
    shell: Shell,
    words: &[Word],
) -> Result<bool, StoreError>
    ensures { IfOk result (λ fit. IsExpanded fit fields.new
        (fields_in shell (parameters_at (S.record_of store.now).present)
        (map view.word words.now))) }
{
    match shell {
        Shell::Profile => filled(fields, store, words),
        Shell::Old2023 | Shell::Old2025 => {
            let found = old_fields(alloc, words, &Memory { store })?;
            Ok(replaced(fields, found))
        }
        Shell::Modern2025 => {
            let found = modern_fields(alloc, words, &Memory { store })?;
            Ok(replaced(fields, found))
        }
    }
}

/// Puts the words of a `for` in a shell in the place of these. Returns whether they hold no more
/// bytes than allowed.
pub(crate) fn turned<S: Store>(
    alloc: Global,
    fields: &mut Fields,
    store: &S,
    shell: Shell,
    words: &[Word],
) -> Result<bool, StoreError>
    ensures { IfOk result (λ fit. IsExpanded fit fields.new
        (turns_in shell (parameters_at (S.record_of store.now).present)
        (map view.word words.now))) }
{
    match shell {
        Shell::Profile => filled(fields, store, words),
        Shell::Old2023 | Shell::Old2025 => {
            let found = old_turns(alloc, words, &Memory { store })?;
            Ok(replaced(fields, found))
        }
        Shell::Modern2025 => {
            let found = modern_fields(alloc, words, &Memory { store })?;
            Ok(replaced(fields, found))
        }
    }
}

/// Whether fields hold no more bytes than allowed.
fn fits(fields: &[Vec<u8>]) -> bool
    ensures { result ≡ nat_le (expansion.size (bytes_of_words fields.now)) expansion.most_bytes }
{
    let mut size = 0;
    for field in fields {
        if field.len() > MOST_BYTES - size {
            return false;
        }
        size += field.len();
    }
    true
}

/// Expands a word to its bytes. Gives `None` if there are too many.
fn expanded_one<S: Store>(
    alloc: Global,
    store: &S,
    word: &Word,
) -> Result<Option<Vec<u8>>, StoreError>
    ensures { IfOk result (λ found. IsExpandedOne found
        (expansion.joined (parameters_at (S.record_of store.now).present) (view.word word.now))) }
{
    match expand_one(alloc, word, &Memory { store }) {
        Ok(value) => Ok(Some(value)),
        Err(ExpandError::TooLong) => Ok(None),
        Err(ExpandError::Memory) => Err(StoreError::Memory),
    }
}

/// The value, unless it has too many bytes.
fn within(value: Vec<u8>) -> Option<Vec<u8>>
    ensures { IsExpandedOne result value.items }
{
    if value.len() > MOST_BYTES {
        return None;
    }
    Some(value)
}

/// The value that an assignment gives in a shell. Gives `None` if it has too many bytes.
pub fn assigned_value<S: Store>(
    alloc: Global,
    store: &S,
    shell: Shell,
    word: &Word,
) -> Result<Option<Vec<u8>>, StoreError>
    ensures { IfOk result (λ found. IsExpandedOne found
        (assigned_in shell (parameters_at (S.record_of store.now).present)
        (view.word word.now))) }
{
    match shell {
        Shell::Profile | Shell::Modern2025 => expanded_one(alloc, store, word),
        Shell::Old2023 | Shell::Old2025 => {
            let value = inserted(alloc, word, &Memory { store })?;
            Ok(within(value))
        }
    }
}
