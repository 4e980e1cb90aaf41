//! Which boots lead to a goal, found back from the goals, by one boot more with each round.
ghost use Rattle.std.specs.Prelude.{◌≡◌, ◌<◌, ◌≢◌, [], length, replicate, suc, IfOk, OnOk};
ghost use Rattle.std.specs.List.{All};
ghost use Rattle.std.specs.Option.{option_map};
ghost use Rattle.rehearse_boots.specs.Leading.{AreInside, AreMarked, lists_of};
ghost use Rattle.rehearse_boots.specs.LeadingRounds.{AddsBack, AreTheMarked, AreTurned, Marks, places_before};

use std::alloc::{AllocError, Global};

/// So many empty lists. Errors: memory ran out.
fn empty_lists(alloc: Global, count: usize) -> Result<Vec<Vec<usize>>, AllocError>
    ensures { IfOk result (λ lists. lists_of lists.items ≡ replicate count []) }
{
    let mut lists = Vec::new(alloc);
    for _place in 0..count {
        lists.push(Vec::new(alloc))?;
    }
    Ok(lists)
}

/// Adds links back to one place, from each of these. Errors: memory ran out.
fn add_back(back: &mut [Vec<usize>], from: usize, places: &[usize]) -> Result<(), AllocError>
    requires { All (λ place. place < length back.old) places.now }
    ensures { OnOk result (AddsBack from places.now (lists_of back.old) (lists_of back.new)) }
{
    for place in places {
        back[*place].push(from)?;
    }
    Ok(())
}

/// The links turned round. Errors: memory ran out.
fn turned(alloc: Global, links: &[Vec<usize>]) -> Result<Vec<Vec<usize>>, AllocError>
    requires { AreInside (length links.now) (lists_of links.now) }
    ensures { IfOk result (λ back. AreTurned (length links.now) (lists_of links.now) (lists_of back.items)) }
{
    let mut back = empty_lists(alloc, links.len())?;
    for (from, places) in links.iter().enumerate() {
        add_back(&mut back, from, places)?;
    }
    Ok(back)
}

/// The places with a mark. Errors: memory ran out.
fn places_of(alloc: Global, marks: &[bool]) -> Result<Vec<usize>, AllocError>
    ensures { IfOk result (λ places. AreTheMarked marks.now places.items) }
{
    let mut places = Vec::new(alloc);
    for (place, marked) in marks.iter().enumerate() {
        if *marked {
            places.push(place)?;
        }
    }
    Ok(places)
}

/// Marks these places, and adds those that had no mark to what was found. Errors: memory ran out.
fn mark_places(
    places: &[usize],
    marks: &mut [bool],
    found: &mut Vec<usize>,
) -> Result<(), AllocError>
    requires { All (λ place. place < length marks.old) places.now }
    ensures { OnOk result (Marks places.now marks.old marks.new found.old.items found.new.items) }
{
    for place in places {
        if !marks[*place] {
            marks[*place] = true;
            found.push(*place)?;
        }
    }
    Ok(())
}

/// Marks the places with a link to one of these, by the links turned round, and returns those that had no mark. Errors:
/// memory ran out.
fn mark_before(
    alloc: Global,
    back: &[Vec<usize>],
    places: &[usize],
    marks: &mut [bool],
) -> Result<Vec<usize>, AllocError>
    requires places { All (λ place. place < length back.now) places.now }
    requires back { AreInside (length marks.old) (lists_of back.now) }
    ensures { IfOk result (λ found. Marks (places_before (lists_of back.now) places.now) marks.old marks.new
        [] found.items) }
{
    let mut found = Vec::new(alloc);
    for place in places {
        mark_places(&back[*place], marks, &mut found)?;
    }
    Ok(found)
}

/// One less than a number, if there is one.
fn one_less(count: Option<usize>) -> Option<usize>
    requires { count ≢ Some 0 }
    ensures { count ≡ option_map (λ n. suc n) result }
{
    match count {
        Some(count) => Some(count - 1),
        None => None,
    }
}

/// For each place, whether a goal is reached from it, by so many links or fewer if a number is given. Errors: memory ran
/// out.
fn leading_by(
    alloc: Global,
    goals: &[bool],
    links: &[Vec<usize>],
    count: Option<usize>,
) -> Result<Vec<bool>, AllocError>
    requires each { length links.now ≡ length goals.now }
    requires inside { AreInside (length goals.now) (lists_of links.now) }
    ensures { IfOk result (λ marks. AreMarked goals.now (lists_of links.now) (option_map (λ n. suc n) count)
        marks.items) }
{
    let back = turned(alloc, links)?;
    let mut marks = Vec::from_slice(alloc, goals)?;
    let mut latest = places_of(alloc, goals)?;
    let mut left = count;
    'rounds: while !latest.is_empty() && left != Some(0) {
        latest = mark_before(alloc, &back, &latest, &mut marks)?;
        left = one_less(left);
    }
    Ok(marks)
}

/// For each place, whether a goal is reached from it, within so many places if a number is given. Takes time linear in
/// the places and links. Errors: memory ran out.
pub(crate) fn leading(
    alloc: Global,
    goals: &[bool],
    links: &[Vec<usize>],
    within: Option<usize>,
) -> Result<Vec<bool>, AllocError>
    requires each { length links.now ≡ length goals.now }
    requires inside { AreInside (length goals.now) (lists_of links.now) }
    ensures { IfOk result (λ marks. AreMarked goals.now (lists_of links.now) within marks.items) }
{
    match within {
        None => leading_by(alloc, goals, links, None),
        Some(0) => vec![in alloc; false; goals.len()],
        Some(count) => leading_by(alloc, goals, links, Some(count - 1)),
    }
}
