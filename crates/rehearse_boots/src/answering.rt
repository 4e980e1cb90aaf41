//! The answer that is written of boots that were explored.
ghost use Rattle.std.specs.Prelude.{◌≡◌, ◌++◌, ◌∷◌, [], ◌<◌, ◌≤◌, ◌^◌, false, true, not, length, map, IfOk, OnOk};
ghost use Rattle.std.specs.List.{enumerate_from, flat_map, position};
ghost use Rattle.rehearse_boots.specs.Answering.{AreWithin, GoesBack, IsGraphAnswer, IsLostAnswer, IsWellExplored, clean_places, lost_text, one_text};
ghost use Rattle.rehearse_boots.specs.BootLines.{all_line};
ghost use Rattle.rehearse_boots.specs.Boots.{StartOf};
ghost use Rattle.rehearse_boots.specs.Exploring.{IsExplored, IsRight, asked_in, graph_shown};
ghost use Rattle.rehearse_boots.specs.Leading.{AreMarked};
ghost use Rattle.rehearse_boots.specs.TellingBoots.{IsAnswer};
ghost use Rattle.rehearse_boots.specs.Ways.{has_goal, way_shown};

use crate::boot::Telling;
use crate::exploring::Explored;
use crate::leading::leading;
use crate::lines::{put_all, put_head, put_lost, put_ways};
use crate::way::Way;
use crate::way_back::{put_steps, way_to};
use bootstore_state::StoreError;
use std::alloc::{AllocError, Global};

/// The lines that are written of boots, and whether what is expected of them holds.
#[derive(Drop)]
pub(crate) struct Answer {
    pub(crate) text: Vec<u8>,
    pub(crate) holds: bool,
}

/// Adds the lines of the boot at a place, if there is one.
fn put_boot(
    telling: &Telling<'_>,
    explored: &Explored,
    text: &mut Vec<u8>,
    place: usize,
    ways: &[Way],
) -> Result<(), StoreError>
    requires { IsRight telling.now }
    ensures { OnOk result (text.new.items ≡ text.old.items
        ++ one_text (asked_in telling.now) explored.now.found.boots place (map way_shown ways.now)) }
{
    let Some((number, kept)) = explored.found.boots.numbered(place) else {
        return Ok(());
    };
    put_head(text, telling.ask.kept, telling.first, number, kept)?;
    put_ways(text, ways)
}

/// Adds the lines of all boots.
fn put_boots(
    telling: &Telling<'_>,
    explored: &Explored,
    text: &mut Vec<u8>,
) -> Result<(), StoreError>
    requires { IsRight telling.now }
    ensures { OnOk result (text.new.items ≡ text.old.items ++ flat_map
        (λ g. one_text (asked_in telling.now) explored.now.found.boots g.0 g.1)
        (enumerate_from 0 (graph_shown explored.now.graph.items))) }
{
    for (place, ways) in explored.graph.iter().enumerate() {
        put_boot(telling, explored, text, place, ways)?;
    }
    Ok(())
}

/// Adds the places of the boots to which a way leads, if nothing fails in it. Errors: memory ran out.
fn add_places(places: &mut Vec<usize>, way: &Way) -> Result<(), AllocError>
    ensures { OnOk result (places.new.items ≡ places.old.items ++ clean_places (way_shown way.now ∷ [])) }
{
    if !way.is_clean {
        return Ok(());
    }
    places.push(way.next.saturating_sub(1))?;
    if let Some(changed) = way.changed {
        places.push(changed.saturating_sub(1))?;
    }
    Ok(())
}

/// The places of the boots to which ways lead in which nothing fails. Errors: memory ran out.
fn clean_places(alloc: Global, ways: &[Way]) -> Result<Vec<usize>, AllocError>
    ensures { IfOk result (λ places. places.items ≡ clean_places (map way_shown ways.now)) }
{
    let mut places = Vec::new(alloc);
    for way in ways {
        add_places(&mut places, way)?;
    }
    Ok(places)
}

/// Whether one of the ways has the ending that is expected, and nothing fails in it.
fn has_goal(ways: &[Way]) -> bool
    ensures { result ≡ has_goal (map way_shown ways.now) }
{
    for way in ways {
        if way.is_clean && way.is_expected {
            return true;
        }
    }
    false
}

/// Of each boot, the places to which ways lead in which nothing fails. Errors: memory ran out.
fn links_of(alloc: Global, graph: &[Vec<Way>]) -> Result<Vec<Vec<usize>>, AllocError>
    ensures { IfOk result (λ links. map (λ l. l.items) links.items ≡ map clean_places (graph_shown graph.now)) }
{
    let mut links = Vec::new(alloc);
    for ways in graph {
        links.push(clean_places(alloc, ways)?)?;
    }
    Ok(links)
}

/// Of each boot, whether a way has the ending that is expected. Errors: memory ran out.
fn goals_of(alloc: Global, graph: &[Vec<Way>]) -> Result<Vec<bool>, AllocError>
    ensures { IfOk result (λ goals. goals.items ≡ map has_goal (graph_shown graph.now)) }
{
    let mut goals = Vec::new(alloc);
    for ways in graph {
        goals.push(has_goal(ways))?;
    }
    Ok(goals)
}

/// The place of the first boot that does not lead on.
fn first_lost(leads: &[bool]) -> Option<usize>
    ensures { result ≡ position not leads.now }
{
    leads.iter().position(|leads| !*leads)
}

/// The answer that each boot leads on. Errors: `Memory`.
fn all_lead(telling: &Telling<'_>, explored: &Explored) -> Result<Answer, StoreError>
    ensures { IfOk result (λ a. (a.text.items ≡ all_line explored.now.found.boots) × (a.holds ≡ true)) }
{
    let mut text = Vec::new(telling.alloc);
    put_all(&mut text, explored.found.boots.len())?;
    Ok(Answer { text, holds: true })
}

/// Adds the lines of the boot at a place, and the line that it does not lead on.
fn put_lost_boot(
    telling: &Telling<'_>,
    explored: &Explored,
    text: &mut Vec<u8>,
    place: usize,
) -> Result<(), StoreError>
    requires right { IsRight telling.now }
    requires small { place < 2 ^ 63 }
    ensures { OnOk result (text.new.items ≡ text.old.items ++ lost_text (asked_in telling.now) explored.now.found.boots
        (graph_shown explored.now.graph.items) place) }
{
    let Some(ways) = explored.graph.get(place) else {
        return put_lost(text, place + 1);
    };
    put_boot(telling, explored, text, place, ways)?;
    put_lost(text, place + 1)
}

/// The answer that the boot at a place does not lead on. Errors: `Memory`.
fn one_is_lost(
    telling: &Telling<'_>,
    explored: &Explored,
    place: usize,
) -> Result<Answer, StoreError>
    requires right { IsRight telling.now }
    requires back { GoesBack explored.now.found.by.items }
    requires there { place ≤ length explored.now.found.by.items }
    ensures { IfOk result (λ a. IsLostAnswer (asked_in telling.now) explored.now.found.boots explored.now.found.by.items
        (graph_shown explored.now.graph.items) place a.text.items × (a.holds ≡ false)) }
{
    let way = way_to(telling.alloc, &explored.found.by, place)?;
    let mut text = Vec::new(telling.alloc);
    put_steps(telling, explored, &mut text, &way)?;
    put_lost_boot(telling, explored, &mut text, place)?;
    Ok(Answer { text, holds: false })
}

/// Of each boot, whether it leads to the ending that is expected. Errors: memory ran out.
fn leads_of(
    alloc: Global,
    graph: &[Vec<Way>],
    within: Option<usize>,
) -> Result<Vec<bool>, AllocError>
    requires { AreWithin (graph_shown graph.now) }
    ensures { IfOk result (λ leads. AreMarked (map has_goal (graph_shown graph.now)) (map clean_places (graph_shown graph.now))
        within leads.items) }
{
    let goals = goals_of(alloc, graph)?;
    let links = links_of(alloc, graph)?;
    leading(alloc, &goals, &links, within)
}

/// The lines of all boots. Errors: `Memory`.
fn listing(telling: &Telling<'_>, explored: &Explored) -> Result<Answer, StoreError>
    requires { IsRight telling.now }
    ensures { IfOk result (λ a. (a.text.items ≡ flat_map
        (λ g. one_text (asked_in telling.now) explored.now.found.boots g.0 g.1)
        (enumerate_from 0 (graph_shown explored.now.graph.items)) ++ all_line explored.now.found.boots) × (a.holds ≡ true)) }
{
    let mut text = Vec::new(telling.alloc);
    put_boots(telling, explored, &mut text)?;
    put_all(&mut text, explored.found.boots.len())?;
    Ok(Answer { text, holds: true })
}

/// The answer to whether each boot leads to the ending that is expected. Errors: `Memory`.
fn expecting(
    telling: &Telling<'_>,
    explored: &Explored,
    within: Option<usize>,
) -> Result<Answer, StoreError>
    requires right { IsRight telling.now }
    requires explored { IsWellExplored explored.now.found.boots explored.now.found.by.items (graph_shown explored.now.graph.items) }
    ensures { IfOk result (λ a. IsGraphAnswer (asked_in telling.now) within explored.now.found.boots explored.now.found.by.items
        (graph_shown explored.now.graph.items) a.text.items a.holds) }
{
    let leads = leads_of(telling.alloc, &explored.graph, within)?;
    match first_lost(&leads) {
        None => all_lead(telling, explored),
        Some(place) => one_is_lost(telling, explored, place),
    }
}

/// What is written of the boots that were explored. Errors: `Memory`.
pub(crate) fn answered(telling: &Telling<'_>, explored: &Explored) -> Result<Answer, StoreError>
    requires right { IsRight telling.now }
    requires explored { IsWellExplored explored.now.found.boots explored.now.found.by.items (graph_shown explored.now.graph.items) }
    ensures { (start_of : StartOf) → IsExplored start_of (asked_in telling.now) telling.now.ask.now.boots explored.now.found.boots
        explored.now.found.by.items (graph_shown explored.now.graph.items)
        → IfOk result (λ a. IsAnswer start_of (asked_in telling.now) explored.now.found.boots (asked_in telling.now).expected
        a.text.items a.holds) }
{
    match &telling.ask.expected {
        None => listing(telling, explored),
        Some(expected) => expecting(telling, explored, expected.within),
    }
}
