//! What nothing sets.
ghost use Rattle.std.specs.Prelude.{◌≡◌, ◌||◌, ◌++◌, ◌∷◌, [], map, IfOk, OnOk};
ghost use Rattle.std.specs.List.{flat_map};
ghost use Rattle.hushcheck.specs.CallSetsShown.{names_shown};
ghost use Rattle.hushcheck.specs.Order.{with_names};
ghost use Rattle.hushcheck.specs.Remarks.{all_found, all_read};
ghost use Rattle.hushcheck.specs.Telling.{Writes};
ghost use Rattle.hushcheck.specs.Unset as spec;
ghost use Rattle.hushcheck.specs.UsedShown.{all_used};

use crate::check_error::CheckError;
use crate::names::{Names, names_of};
use crate::remark::{Found, Read, Remark};
use crate::telling::write_found;
use envtools::Env;
use keyed_hash::KeyedHash;
use output::Out;
use std::alloc::{AllocError, Global};

/// A text that is reached, and what it reads and sets.
#[derive(Drop)]
pub(crate) struct Used<'a> {
    /// The name under which it is reported.
    pub(crate) name: Vec<u8>,
    /// The text.
    pub(crate) text: &'a [u8],
    /// The variables that it reads, in its order.
    pub(crate) reads: Vec<Read>,
    /// The names of the variables that it sets.
    pub(crate) sets: Vec<Vec<u8>>,
}

/// Adds what a text under a name reads and sets, after the others. Errors: memory ran out.
pub(crate) fn add_used<'a>(
    alloc: Global,
    used: &mut Vec<Used<'a>>,
    name: &[u8],
    text: &'a [u8],
    reads: Vec<Read>,
    sets: Vec<Vec<u8>>,
) -> Result<(), AllocError>
    ensures { OnOk result (all_used used.new.items ≡ all_used used.old.items ++ record {
      name = name.now;
      text = text.now;
      reads = all_read reads.items;
      sets = names_shown sets.items;
    } ∷ []) }
{
    let name = Vec::from_slice(alloc, name)?;
    used.push(Used {
        name,
        text,
        reads,
        sets,
    })?;
    Ok(())
}

/// Adds the names that the texts set. Errors: memory ran out.
fn add_sets(alloc: Global, names: &mut Names, used: &[Used<'_>]) -> Result<(), AllocError>
    ensures { OnOk result (names.new ≡ with_names names.old
        (flat_map (λ u. u.sets) (all_used used.now))) }
{
    for text in used {
        names.add_all(alloc, &text.sets)?;
    }
    Ok(())
}

/// The names that something sets, found by this hash. Errors: memory ran out.
pub(crate) fn set_names(
    alloc: Global,
    env: &Env,
    used: &[Used<'_>],
    hasher: KeyedHash,
) -> Result<Names, AllocError>
    ensures { IfOk result (λ names. names ≡ spec.set_names env.now (all_used used.now)) }
{
    let mut names = names_of(alloc, env, hasher)?;
    add_sets(alloc, &mut names, used)?;
    Ok(names)
}

/// Adds a variable that is read to what is reported, if nothing sets it and it was not reported yet. Errors:
/// memory ran out.
fn search_read(
    alloc: Global,
    known: &mut Names,
    found: &mut Vec<Found>,
    read: &Read,
) -> Result<(), AllocError>
    ensures { OnOk result (record { known = known.new; found = all_found found.new.items }
        ≡ spec.after_read record { known = known.old; found = all_found found.old.items }
        (read.now.at, read.now.name.items)) }
{
    if !known.add_new(Vec::from_slice(alloc, &read.name)?)? {
        return Ok(());
    }
    let remark = Remark::Unset(Vec::from_slice(alloc, &read.name)?);
    found.push(Found {
        at: read.at,
        remark,
    })?;
    Ok(())
}

/// What is reported of the variables that a text reads. These are then known. Errors: memory ran out.
fn search(alloc: Global, known: &mut Names, reads: &[Read]) -> Result<Vec<Found>, AllocError>
    ensures { IfOk result (λ found. record { known = known.new; found = all_found found.items }
        ≡ spec.searched known.old (all_read reads.now)) }
{
    let mut found = Vec::new(alloc);
    for read in reads {
        search_read(alloc, known, &mut found, read)?;
    }
    Ok(found)
}

/// Whether one of the two is so.
fn either(first: bool, second: bool) -> bool
    ensures { result ≡ (first || second) }
{
    first || second
}

/// Writes which variables that the texts read are not known, each at the first word that reads it; they are known
/// then. Returns whether there is one.
fn write_new_reads<O: Out>(
    alloc: Global,
    known: &mut Names,
    used: &[Used<'_>],
    out: &mut O,
) -> Result<bool, CheckError>
    ensures lines { Writes result (O.sink out.old) (O.sink out.new)
        (spec.unset_lines known.old (all_used used.now)) }
    ensures any { IfOk result (λ any. any ≡ spec.has_unset known.old (all_used used.now)) }
{
    let mut any = false;
    for text in used {
        let found = search(alloc, known, &text.reads)?;
        write_found(alloc, &text.name, text.text, &found, out)?;
        any = either(any, !found.is_empty());
    }
    Ok(any)
}

/// Writes which variables that the texts read are not known, each at the first word that reads it. Returns
/// whether there is one.
pub(crate) fn write_unset_reads<O: Out>(
    alloc: Global,
    known: Names,
    used: &[Used<'_>],
    out: &mut O,
) -> Result<bool, CheckError>
    ensures lines { Writes result (O.sink out.old) (O.sink out.new)
        (spec.unset_lines known (all_used used.now)) }
    ensures any { IfOk result (λ any. any ≡ spec.has_unset known (all_used used.now)) }
{
    let mut known = known;
    let told = write_new_reads(alloc, &mut known, used, out);
    drop(known);
    told
}
