//! Ways that lead from a boot to others.
ghost use Rattle.std.specs.Prelude.{◌≡◌, ◌++◌, ◌∷◌, map, unwrap_or, IfErr, IfOk, OnOk};
ghost use Rattle.std.specs.List.{flat_map, list_all};
ghost use Rattle.envimage.specs.Entries.{pair_at};
ghost use Rattle.rehearse_boots.specs.Expecting as spec;
ghost use Rattle.rehearse_boots.specs.Exploring.{asked_in};
ghost use Rattle.rehearse_boots.specs.BootsShown.{expected_shown};
ghost use Rattle.rehearse_boots.specs.Ways.{is_met};
ghost use Rattle.rehearse_rules.specs.EndingsShown.{halt_shown};
ghost use Rattle.rehearse_rules.specs.Listing.{last_line};
ghost use Rattle.rehearse_states.specs.RowsShown.{row_shown, value_shown};

use crate::ask::Expected;
use crate::boot::Telling;
use bootstore_state::StoreError;
use rehearse_rules::Halt;
use rehearse_states::{Row, put_ending};
use std::alloc::Global;
use text::is_space;

/// An ending of a boot that is followed.
#[derive(Drop)]
pub(crate) struct Way {
    /// Its lines.
    pub(crate) lines: Vec<u8>,
    /// The number of the boot that follows.
    pub(crate) next: usize,
    /// The number of the one that follows after changes, if any are made.
    pub(crate) changed: Option<usize>,
    /// Whether nothing fails.
    pub(crate) is_clean: bool,
    /// Whether it is the ending that is expected.
    pub(crate) is_expected: bool,
}

/// Whether a line starts with these words.
fn starts_with(words: &[u8], line: &[u8]) -> bool
    ensures { result ≡ spec.starts_with words.now line.now }
{
    match line.strip_prefix(words) {
        None => false,
        Some([]) => true,
        Some([next, ..]) => is_space(*next),
    }
}

/// Whether the line of an ending starts with these words. Errors: `Memory`.
fn ends_so(alloc: Global, words: &[u8], halt: &Halt) -> Result<bool, StoreError>
    ensures { IfOk result (λ ends. ends ≡ spec.starts_with words.now (last_line (halt_shown halt.now))) }
{
    let mut line = Vec::new(alloc);
    put_ending(&mut line, halt)?;
    Ok(starts_with(words, &line))
}

/// The value that an ending leaves of a variable; an empty one if it is not set, or not asked for.
fn value_left<'a>(names: &[&[u8]], values: &'a [Option<Vec<u8>>], name: &[u8]) -> &'a [u8]
    ensures { result.now ≡ spec.value_left (map (λ n. n.now) names.now) (map value_shown values.now) name.now }
{
    for (other, value) in names.iter().zip(values) {
        if *other == name {
            return value.as_deref().unwrap_or(&[]);
        }
    }
    &[]
}

/// Whether an ending leaves this value of a variable.
fn is_left(names: &[&[u8]], values: &[Option<Vec<u8>>], pair: &(&[u8], &[u8])) -> bool
    ensures { result ≡ spec.is_left (map (λ n. n.now) names.now) (map value_shown values.now) (pair_at pair.now) }
{
    value_left(names, values, pair.0) == pair.1
}

/// Whether an ending leaves these values.
fn are_left(names: &[&[u8]], values: &[Option<Vec<u8>>], expected: &[(&[u8], &[u8])]) -> bool
    ensures { result ≡ list_all (spec.is_left (map (λ n. n.now) names.now) (map value_shown values.now))
        (map pair_at expected.now) }
{
    for pair in expected {
        if !is_left(names, values, pair) {
            return false;
        }
    }
    true
}

/// Whether an ending is this expected one. Errors: `Memory`.
fn is_expected(
    telling: &Telling<'_>,
    expected: &Expected<'_>,
    row: &Row,
) -> Result<bool, StoreError>
    ensures { IfOk result (λ is. is ≡ spec.is_expected (asked_in telling.now) (expected_shown expected.now) (row_shown row.now)) }
{
    if !ends_so(telling.alloc, expected.ending, &row.run_end.halt)? {
        return Ok(false);
    }
    Ok(are_left(telling.ask.names, &row.run_end.values, expected.values))
}

/// Whether an ending is the expected one, if there is one. Errors: `Memory`.
pub(crate) fn is_met(telling: &Telling<'_>, row: &Row) -> Result<bool, StoreError>
    ensures { IfOk result (λ is. is ≡ is_met (asked_in telling.now) (asked_in telling.now).expected (row_shown row.now)) }
{
    match &telling.ask.expected {
        None => Ok(false),
        Some(expected) => is_expected(telling, expected, row),
    }
}

/// Whether nothing fails in the first run of an ending with the fewest failures.
pub(crate) fn is_clean(row: &Row) -> bool
    ensures { result ≡ spec.is_clean (row_shown row.now) }
{
    row.unexpected == 0
}
