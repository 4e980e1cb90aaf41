//! What is kept from one boot to the next: the values of variables, an empty one of a variable that is not set.
ghost use Rattle.std.specs.Prelude.{◌≡◌, ◌∷◌, ◌++◌, ◌+◌, ◌-◌, [], length, map, option_map, unwrap_or, IfOk, OnOk};
ghost use Rattle.std.specs.List.{flat_map, zip};
ghost use Rattle.envtools.specs.Environment.{value_of};
ghost use Rattle.envimage.specs.Data.{entry};
ghost use Rattle.envimage.specs.Entries.{pair_at};
ghost use Rattle.rehearse_boots.specs.Boots as spec;
ghost use Rattle.rehearse_states.specs.RowsShown.{value_shown};
ghost use Rattle.text.specs.TextsShown.{bytes_of_words};

use envtools::Env;
use std::alloc::{AllocError, Global};

/// The value of a variable, or nothing if it is not set. Errors: memory ran out.
fn value_of(alloc: Global, env: &Env, name: &[u8]) -> Result<Vec<u8>, AllocError>
    ensures { IfOk result (λ value. value.items ≡ unwrap_or (value_of env.now name.now) []) }
{
    match env.get(name) {
        Some(value) => Vec::from_slice(alloc, value),
        None => Ok(Vec::new(alloc)),
    }
}

/// The values that variables have in an environment. Errors: memory ran out.
pub(crate) fn values_kept(
    alloc: Global,
    env: &Env,
    names: &[&[u8]],
) -> Result<Vec<Vec<u8>>, AllocError>
    ensures { IfOk result (λ kept. bytes_of_words kept.items
        ≡ spec.values_kept (map (λ n. n.now) names.now) env.now) }
{
    let mut kept = Vec::new(alloc);
    for name in names {
        let value = value_of(alloc, env, name)?;
        kept.push(value)?;
    }
    Ok(kept)
}

/// Adds a change of each of these variables to its value. Errors: memory ran out.
fn add_changes<'a>(
    changes: &mut Vec<(&'a [u8], &'a [u8])>,
    names: &[&'a [u8]],
    kept: &'a [Vec<u8>],
) -> Result<(), AllocError>
    ensures { OnOk result (map pair_at changes.new.items
        ≡ map pair_at changes.old.items ++ zip (map (λ n. n.now) names.now) (bytes_of_words kept.now)) }
{
    for (name, value) in names.iter().zip(kept) {
        changes.push((*name, value.as_slice()))?;
    }
    Ok(())
}

/// An environment in which these variables have these values. Errors: memory ran out.
pub(crate) fn with_kept(
    alloc: Global,
    env: &Env,
    names: &[&[u8]],
    kept: &[Vec<u8>],
) -> Result<Env, AllocError>
    ensures { IfOk result (λ found. found
        ≡ spec.with_kept env.now (map (λ n. n.now) names.now) (bytes_of_words kept.now)) }
{
    let mut changes = Vec::new(alloc);
    add_changes(&mut changes, names, kept)?;
    env.changed_by(&changes)
}

/// The value that is saved after a run, by the one that was saved before it and the copy that the run leaves.
fn kept_by<'a>(before: &'a [u8], copy: &'a Option<Vec<u8>>) -> &'a [u8]
    ensures { result.now ≡ spec.kept_by before.now (value_shown copy.now) }
{
    match copy {
        None => before,
        Some(copy) => {
            match copy.as_slice() {
                [_, value @ ..] => value,
                [] => &[],
            }
        }
    }
}

/// The value that is saved after a run, by the one that was saved before it and the copies that are left.
fn first_kept<'a>(before: &'a [u8], copies: &'a [Option<Vec<u8>>]) -> &'a [u8]
    ensures { spec.kept_after (before.now ∷ []) (map value_shown copies.now) ≡ result.now ∷ [] }
{
    match copies {
        [copy, ..] => kept_by(before, copy),
        [] => before,
    }
}

/// Adds the values that are saved after a run, by those that were saved before it and the copies that the run
/// leaves. Errors: memory ran out.
pub(crate) fn add_kept(
    alloc: Global,
    after: &mut Vec<Vec<u8>>,
    before: &[Vec<u8>],
    copies: &[Option<Vec<u8>>],
) -> Result<(), AllocError>
    ensures { OnOk result (bytes_of_words after.new.items ≡ bytes_of_words after.old.items
        ++ spec.kept_after (bytes_of_words before.now) (map value_shown copies.now)) }
{
    let mut left = copies;
    for value in before {
        after.push(Vec::from_slice(alloc, first_kept(value, left))?)?;
        if let [_, more @ ..] = left {
            left = more;
        }
    }
    Ok(())
}

/// Whether an image has room for an environment; without a number, it has room for any.
pub(crate) fn has_room(room: Option<usize>, env: &Env) -> bool
    ensures { result ≡ spec.has_room room env.now }
{
    match room {
        None => true,
        Some(room) => env.entries_len() < room,
    }
}

/// An environment without these variables. Errors: memory ran out.
fn without_kept(alloc: Global, env: &Env, names: &[&[u8]]) -> Result<Env, AllocError>
    ensures { IfOk result (λ others. others ≡ spec.without_kept env.now (map (λ n. n.now) names.now)) }
{
    let mut changes: Vec<(&[u8], &[u8])> = Vec::new(alloc);
    for name in names {
        changes.push((*name, &[]))?;
    }
    env.changed_by(&changes)
}

/// How many bytes an image has for these variables: those that the others leave, and the byte that ends all; without a
/// number, it has room for any. Errors: memory ran out.
pub(crate) fn room_kept(
    alloc: Global,
    env: &Env,
    names: &[&[u8]],
    room: Option<usize>,
) -> Result<Option<usize>, AllocError>
    ensures { IfOk result (λ left. left
        ≡ option_map (λ r. r - (length (flat_map entry (spec.without_kept env.now (map (λ n. n.now) names.now))) + 1)) room) }
{
    let Some(room) = room else {
        return Ok(None);
    };
    let others = without_kept(alloc, env, names)?;
    Ok(Some(room.saturating_sub(others.entries_len()).saturating_sub(1)))
}
