//! The way from the first boot to another one.
ghost use Rattle.std.specs.Prelude.{◌≡◌, ◌++◌, ◌≤◌, length, map, option_map, slice_get, IfOk, OnOk};
ghost use Rattle.std.specs.List.{flat_map};
ghost use Rattle.rehearse_boots.specs.Answering.{GoesBack, IsWalk, step_text, way_at};
ghost use Rattle.rehearse_boots.specs.Exploring.{IsRight, asked_in, graph_shown};
ghost use Rattle.rehearse_boots.specs.Ways.{way_shown};

use crate::boot::Telling;
use crate::exploring::Explored;
use crate::found::FoundBy;
use crate::lines::{put_head, put_lines};
use crate::way::Way;
use bootstore_state::StoreError;
use std::alloc::{AllocError, Global};

/// The ways by which boots were found that lead from the first one to the one at a place, in their order. Errors:
/// memory ran out.
pub(crate) fn way_to(
    alloc: Global,
    by: &[FoundBy],
    place: usize,
) -> Result<Vec<FoundBy>, AllocError>
    requires back { GoesBack by.now }
    requires there { place ≤ length by.now }
    ensures { IfOk result (λ way. IsWalk by.now way.items 0 place) }
{
    let mut way = Vec::new(alloc);
    let mut at = place;
    while at > 0 {
        let step = by[at - 1];
        way.push(step)?;
        at = step.place;
    }
    way.reverse();
    Ok(way)
}

/// The way at a place, if there is one.
fn way_in(ways: &[Way], place: usize) -> Option<&Way>
    ensures { option_map (λ w. way_shown w.now) result ≡ slice_get (map way_shown ways.now) place }
{
    ways.get(place)
}

/// The way by which a boot was found, if it is there.
fn way_at(graph: &[Vec<Way>], by: FoundBy) -> Option<&Way>
    ensures { option_map (λ w. way_shown w.now) result ≡ way_at (graph_shown graph.now) by }
{
    match graph.get(by.place) {
        None => None,
        Some(ways) => way_in(ways, by.way),
    }
}

/// Adds the lines of a boot on the way, with the ending that leads on.
fn put_step(
    telling: &Telling<'_>,
    explored: &Explored,
    text: &mut Vec<u8>,
    step: FoundBy,
) -> Result<(), StoreError>
    requires { IsRight telling.now }
    ensures { OnOk result (text.new.items ≡ text.old.items ++ step_text (asked_in telling.now) explored.now.found.boots
        (graph_shown explored.now.graph.items) step) }
{
    let Some(way) = way_at(&explored.graph, step) else {
        return Ok(());
    };
    let Some((number, kept)) = explored.found.boots.numbered(step.place) else {
        return Ok(());
    };
    put_head(text, telling.ask.kept, telling.first, number, kept)?;
    put_lines(text, &way.lines)
}

/// Adds the lines of the boots on a way, each with the ending that leads on.
pub(crate) fn put_steps(
    telling: &Telling<'_>,
    explored: &Explored,
    text: &mut Vec<u8>,
    way: &[FoundBy],
) -> Result<(), StoreError>
    requires { IsRight telling.now }
    ensures { OnOk result (text.new.items ≡ text.old.items ++ flat_map (step_text (asked_in telling.now) explored.now.found.boots
        (graph_shown explored.now.graph.items)) way.now) }
{
    for step in way {
        put_step(telling, explored, text, *step)?;
    }
    Ok(())
}
