//! The endings of one boot, and the boots that follow them.
ghost use Rattle.std.specs.Prelude.{◌≡◌, ◌≢◌, ◌∷◌, ◌++◌, [], ◌<◌, ◌≤◌, length, map, IfErr, IfOk, OnOk};
ghost use Rattle.rehearse_boots.specs.Boots as spec;
ghost use Rattle.rehearse_boots.specs.Exploring.{AddsNext, AddsWays, BreaksAt, IsWay, StaysFound, asked_in, next_of_all};
ghost use Rattle.rehearse_boots.specs.NextShown.{next_shown};
ghost use Rattle.rehearse_boots.specs.Ways.{way_shown};
ghost use Rattle.rehearse_boots.specs.declared.boots_error.BootsError.TheVariants.{Boots as TooMany, Memory};
ghost use Rattle.rehearse_states.specs.Drawing.{failing_on, nodes_shown};
ghost use Rattle.rehearse_states.specs.RowsShown.{row_shown, rows_shown};
ghost use Rattle.text.specs.TextsShown.{bytes_of_words};

use crate::ask::BootsAsk;
use crate::boots_error::BootsError;
use crate::found::{Found, FoundBy};
use crate::lines::put_way;
use crate::next::{Next, next_of};
use crate::way::{Way, is_clean, is_met};
use bootstore_state::StoreError;
use device_list::Devices;
use envtools::Env;
use rehearse_states::{Node, Row};
use rehearse_terms::RunBounds;
use std::alloc::Global;

/// What the endings of each boot are found by.
#[derive(Clone, Copy)]
pub(crate) struct Telling<'a> {
    pub(crate) alloc: Global,
    /// The environment that the first boot finds saved.
    pub(crate) env: &'a Env,
    /// What is asked of the boots.
    pub(crate) ask: &'a BootsAsk<'a>,
    /// What distinguishes the runs of a boot, beside their endings.
    pub(crate) apart: &'a [&'a [u8]],
    /// What the first boot finds saved.
    pub(crate) first: &'a [Vec<u8>],
    /// The bounds of a run, in which a call fails that saves more than an image has room for.
    pub(crate) bounds: RunBounds,
}

/// A boot whose endings are looked at.
#[derive(Clone, Copy)]
pub(crate) struct Ending<'a> {
    /// Its place.
    pub(crate) place: usize,
    /// What is saved when its run begins.
    pub(crate) saved: &'a [Vec<u8>],
    /// Its device commands, and the flow of its runs.
    pub(crate) devices: &'a Devices,
    pub(crate) nodes: &'a Vec<Node>,
}

/// The numbers of the boots after an ending.
#[derive(Clone, Copy, Drop)]
pub(crate) struct Numbers {
    pub(crate) next: usize,
    pub(crate) changed: Option<usize>,
}

/// Whether few enough failures lead to an ending.
fn is_followed(telling: &Telling<'_>, row: &Row) -> bool
    ensures { result ≡ spec.is_followed (asked_in telling.now) (row_shown row.now) }
{
    match telling.ask.failures {
        None => true,
        Some(most) => row.unexpected <= most as usize,
    }
}

/// Adds the boots that find this saved, which the way leads to. Errors: `Boots`, if there are then more than allowed;
/// `Memory`.
fn add_next(found: &mut Found, next: Next, by: FoundBy, most: usize) -> Result<Numbers, BootsError>
    ensures ok { IfOk result (AddsNext by (next_shown next) found.old.boots found.new.boots found.old.by.items found.new.by.items) }
    ensures few { OnOk result (length found.new.boots ≤ most) }
    ensures many { IfErr result (λ e. e ≡ TooMany → BreaksAt (spec.both (next_shown next)) most found.old.boots found.new.boots) }
    ensures other { IfErr result (λ e. e ≢ TooMany → e ≡ Memory) }
{
    let Next { saved, changed } = next;
    let next = found.number(saved, by, most)?;
    match changed {
        None => Ok(Numbers {
            next,
            changed: None,
        }),
        Some(changed) => {
            let changed = found.number(changed, by, most)?;
            Ok(Numbers {
                next,
                changed: Some(changed),
            })
        }
    }
}

/// The way of an ending to boots of these numbers. Errors: `Memory`.
fn way_of(
    telling: &Telling<'_>,
    ending: &Ending<'_>,
    row: &Row,
    numbers: Numbers,
) -> Result<Way, StoreError>
    ensures { IfOk result (λ way. IsWay (asked_in telling.now)
        (failing_on ending.now.devices.now (nodes_shown ending.now.nodes.now)) (row_shown row.now) numbers (way_shown way)) }
{
    let mut lines = Vec::new(telling.alloc);
    put_way(
        telling.alloc,
        &mut lines,
        telling.ask.names,
        ending.devices,
        ending.nodes,
        row,
        numbers,
    )?;
    Ok(Way {
        lines,
        next: numbers.next,
        changed: numbers.changed,
        is_clean: is_clean(row),
        is_expected: is_met(telling, row)?,
    })
}

/// Adds the way of an ending, and the boots that follow it. Errors: `Boots`, if there are then more than allowed;
/// `Memory`.
fn add_way(
    telling: &Telling<'_>,
    found: &mut Found,
    ways: &mut Vec<Way>,
    ending: &Ending<'_>,
    row: &Row,
) -> Result<(), BootsError>
    ensures ok { OnOk result (AddsWays (asked_in telling.now) (bytes_of_words ending.now.saved.now)
        (failing_on ending.now.devices.now (nodes_shown ending.now.nodes.now)) (row_shown row.now ∷ [])
        found.old.boots found.new.boots (map way_shown ways.old.items) (map way_shown ways.new.items)) }
    ensures by { OnOk result (StaysFound ending.now.place (map way_shown ways.old.items) (map way_shown ways.new.items)
        found.old.boots found.new.boots found.old.by.items found.new.by.items) }
    ensures few { OnOk result (length found.old.boots ≤ telling.now.ask.now.boots → length found.new.boots ≤ telling.now.ask.now.boots) }
    ensures many { IfErr result (λ e. e ≡ TooMany
        → BreaksAt (next_of_all (asked_in telling.now) (bytes_of_words ending.now.saved.now) (row_shown row.now ∷ []))
        telling.now.ask.now.boots found.old.boots found.new.boots) }
    ensures other { IfErr result (λ e. e ≢ TooMany → e ≡ Memory) }
{
    if !is_followed(telling, row) {
        return Ok(());
    }
    let next = next_of(telling, ending.saved, row)?;
    let by = FoundBy {
        place: ending.place,
        way: ways.len(),
    };
    let numbers = add_next(found, next, by, telling.ask.boots as usize)?;
    let way = way_of(telling, ending, row, numbers)?;
    ways.push(way)?;
    Ok(())
}

/// The ways of the endings of a boot. The boots that follow it are added. Errors: `Boots`, if there are then more than
/// allowed; `Memory`.
pub(crate) fn ways_of(
    telling: &Telling<'_>,
    found: &mut Found,
    ending: &Ending<'_>,
    rows: &Vec<Row>,
) -> Result<Vec<Way>, BootsError>
    ensures ok { IfOk result (λ ways. AddsWays (asked_in telling.now) (bytes_of_words ending.now.saved.now)
        (failing_on ending.now.devices.now (nodes_shown ending.now.nodes.now)) (rows_shown rows.now)
        found.old.boots found.new.boots [] (map way_shown ways.items)) }
    ensures by { IfOk result (λ ways. StaysFound ending.now.place [] (map way_shown ways.items)
        found.old.boots found.new.boots found.old.by.items found.new.by.items) }
    ensures few { OnOk result (length found.old.boots ≤ telling.now.ask.now.boots → length found.new.boots ≤ telling.now.ask.now.boots) }
    ensures many { IfErr result (λ e. e ≡ TooMany
        → BreaksAt (next_of_all (asked_in telling.now) (bytes_of_words ending.now.saved.now) (rows_shown rows.now))
        telling.now.ask.now.boots found.old.boots found.new.boots) }
    ensures other { IfErr result (λ e. e ≢ TooMany → e ≡ Memory) }
{
    let mut ways = Vec::new(telling.alloc);
    for row in rows {
        add_way(telling, found, &mut ways, ending, row)?;
    }
    Ok(ways)
}
