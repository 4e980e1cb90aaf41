//! Reads what is expected of boots.
ghost use Rattle.std.specs.Prelude.{◌≡◌, IfOk, List, fold, map, option_map, string_bytes, ℕ};
ghost use Rattle.std.specs.HashSet.{contains_text};
ghost use Rattle.std.specs.List.{list_any};
ghost use Rattle.std.specs.Str.{bytes_eq};
ghost use Rattle.clap.specs.Words.{found_of, rows_of};
ghost use Rattle.keyed_hash.specs.Keyed.{with_text, without_key};
ghost use Rattle.tool_words.specs.Asked.{expected_asked, expected_values, named_value, named_values, with_expected};
ghost use Rattle.tool_words.specs.CommandAnswers.{SaysExpected, expected_shown, value_shown};

use crate::ask::{ExpectedAsk, UseError, ValueAsk};
use crate::read::{text_of, texts_of};
use clap::ArgMatches;
use indexmap::IndexSet;
use keyed_hash::KeyedHash;
use std::alloc::{AllocError, Global};

/// The name and the value of a text `NAME=VALUE`; `None` if it has no `=`, or no name before the first one. Errors: memory
/// ran out.
fn named_value(alloc: Global, text: &str) -> Result<Option<ValueAsk>, AllocError>
    ensures { IfOk result (λ value. option_map value_shown value ≡ named_value text.now) }
{
    match text.split_once('=') {
        Some((name, value)) if !name.is_empty() => Ok(Some(ValueAsk {
            name: String::from_str(alloc, name)?,
            value: String::from_str(alloc, value)?,
        })),
        _ => Ok(None),
    }
}

/// The names and the values of such texts, in their order; `None` if one has no name. Errors: memory ran out.
fn named_values(alloc: Global, texts: &[String]) -> Result<Option<Vec<ValueAsk>>, AllocError>
    ensures { IfOk result (λ values. option_map (λ v. map value_shown v.items) values
        ≡ named_values (map string_bytes texts.now)) }
{
    let mut values = Vec::new(alloc);
    for text in texts {
        let Some(value) = named_value(alloc, text.as_str())? else {
            return Ok(None);
        };
        values.push(value)?;
    }
    Ok(Some(values))
}

/// A hash with names after its key, one after another.
fn hash_of(names: &[String]) -> KeyedHash
    ensures { result ≡ fold with_text without_key (map string_bytes names.now) }
{
    let mut hash = KeyedHash::new();
    for name in names {
        hash = hash.with(name.as_bytes());
    }
    hash
}

/// A hash with the names of values after its key, too, one after another.
fn hash_with(first: KeyedHash, values: &[ValueAsk]) -> KeyedHash
    ensures { result ≡ fold (λ hash value. with_text hash value.0) first (map value_shown values.now) }
{
    let mut hash = first;
    for value in values {
        hash = hash.with(value.name.as_bytes());
    }
    hash
}

/// The set of these names, found by this hash. Errors: memory ran out.
fn set_of(
    alloc: Global,
    names: &[String],
    hash: KeyedHash,
) -> Result<IndexSet<String, KeyedHash>, AllocError>
    ensures { IfOk result (λ set. (name : List ℕ)
        → contains_text set name ≡ list_any (bytes_eq name) (map string_bytes names.now)) }
{
    let mut set = IndexSet::with_hasher(alloc, hash);
    for name in names {
        set.insert(name.clone()?)?;
    }
    Ok(set)
}

/// The names, and after them those of these values that are not among them. The time grows with the names and the
/// values, not with their product. Errors: memory ran out.
fn with_names(
    alloc: Global,
    names: Vec<String>,
    values: &[ValueAsk],
) -> Result<Vec<String>, AllocError>
    ensures { IfOk result (λ all. map string_bytes all.items
        ≡ with_expected (map string_bytes names.items) (map value_shown values.now)) }
{
    let mut known = set_of(alloc, &names, hash_with(hash_of(&names), values))?;
    let mut names = names;
    for value in values {
        if known.insert(value.name.clone()?)? {
            names.push(value.name.clone()?)?;
        }
    }
    Ok(names)
}

/// The names, and after them those of the values that are expected, each once. Errors: memory ran out.
pub(crate) fn with_expected(
    alloc: Global,
    names: Vec<String>,
    expected: &Option<ExpectedAsk>,
) -> Result<Vec<String>, AllocError>
    ensures { IfOk result (λ all. map string_bytes all.items ≡ with_expected (map string_bytes names.items)
        (expected_values (option_map expected_shown expected.now))) }
{
    match expected {
        Some(expected) => with_names(alloc, names, &expected.values),
        None => Ok(names),
    }
}

/// What is expected of each boot, if anything is. Errors: `NeedExpect` if a number of boots or a value is given and no
/// ending; `NeedEnding` if the ending is empty; `BadValue` if a value has no name; `Memory`.
pub(crate) fn expected_of(
    alloc: Global,
    matches: &ArgMatches<'_>,
    within: Option<u32>,
) -> Result<Option<ExpectedAsk>, UseError>
    ensures { SaysExpected (expected_asked within (rows_of (found_of matches.now))) result }
{
    let texts = texts_of(alloc, matches, "expect-var")?;
    let Some(ending) = text_of(alloc, matches, "expect")? else {
        if within.is_some() || !texts.is_empty() {
            return Err(UseError::NeedExpect);
        }
        return Ok(None);
    };
    if ending.is_empty() {
        return Err(UseError::NeedEnding);
    }
    match named_values(alloc, &texts)? {
        Some(values) => Ok(Some(ExpectedAsk {
            ending,
            within,
            values,
        })),
        None => Err(UseError::BadValue),
    }
}
