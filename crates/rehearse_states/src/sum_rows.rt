//! The rows of a node, made from the first node on.
ghost use Rattle.std.specs.Prelude.{◌≡◌, ◌+◌, ◌<◌, ◌≤◌, IsTrue, List, Some, length, map, IfOk, OnOk, ℕ};
ghost use Rattle.std.specs.List.{slice_get};
ghost use Rattle.rehearse_states.specs.Endings.{Row as ShownRow};
ghost use Rattle.rehearse_states.specs.RowsShown.{rows_shown};
ghost use Rattle.rehearse_states.specs.SumNodes.{SumNode as ShownNode, Both, DrawsRows, sum_shown};
ghost use Rattle.rehearse_states.specs.SumRows.{AreMade, AreUses, IsUsedAt, Leaves, LeavesUsed, UsesAt, made_shown};

use crate::rows::{Row, copy_rows, merge_rows, one_row, put_in_front};
use crate::sum_nodes::SumNode;
use bootstore_state::StoreError;
use std::alloc::Global;
use std::mem::replace;

/// Notes that the rows of a place are used at this node, after those so far.
fn note_use(last: &mut Vec<usize>, place: usize, at: usize)
    ensures many { length last.new.items ≡ length last.old.items }
    ensures noted { place < length last.old.items → IsUsedAt last.new.items place at }
    ensures kept { (other before : ℕ) → before ≤ at → IsUsedAt last.old.items other before
        → IsUsedAt last.new.items other before }
{
    if place < last.len() {
        last[place] = at;
    }
}

/// Notes the places of which a node is made.
fn note_uses(last: &mut Vec<usize>, node: &SumNode, at: usize)
    requires { length last.old.items ≡ at }
    ensures many { length last.new.items ≡ length last.old.items }
    ensures noted { UsesAt (sum_shown node.now) last.new.items at }
    ensures kept { (other before : ℕ) → before ≤ at → IsUsedAt last.old.items other before
        → IsUsedAt last.new.items other before }
{
    if let SumNode::Both {
        expected: _,
        won,
        lost,
    } = node
    {
        note_use(last, *won, at);
        note_use(last, *lost, at);
    }
}

/// For each place the last node that is made of its rows. Those of the root are used after all nodes. Errors:
/// `Memory`.
fn last_uses(alloc: Global, nodes: &[SumNode], root: usize) -> Result<Vec<usize>, StoreError>
    ensures uses { IfOk result (λ last. AreUses (map sum_shown nodes.now) last.items (length nodes.now)) }
    ensures root { IfOk result (λ last. root < length nodes.now → IsUsedAt last.items root (length nodes.now)) }
{
    let mut last = Vec::new(alloc);
    for (at, node) in nodes.iter().enumerate() {
        note_uses(&mut last, node, at);
        last.push(at)?;
    }
    note_use(&mut last, root, nodes.len());
    Ok(last)
}

/// Whether the rows of a place are used after this node.
fn is_used_behind(last: &[usize], place: usize, at: usize) -> bool
    ensures { IsUsedAt last.now place (at + 1) → IsTrue result }
{
    match last.get(place) {
        Some(last) => *last > at,
        None => false,
    }
}

/// The rows of a place, or a copy if they are kept. Errors: `Memory`.
fn taken(
    alloc: Global,
    made: &mut Vec<Vec<Row>>,
    place: usize,
    keep: bool,
) -> Result<Vec<Row>, StoreError>
    ensures rows { IfOk result (λ rows. (there : List ShownRow) → slice_get (made_shown made.old) place ≡ Some there
        → rows_shown rows ≡ there) }
    ensures leaves { OnOk result (Leaves keep place (made_shown made.old) (made_shown made.new)) }
{
    if place >= made.len() {
        return Ok(Vec::new(alloc));
    }
    if keep {
        copy_rows(alloc, &made[place])
    } else {
        Ok(replace(&mut made[place], Vec::new(alloc)))
    }
}

/// Whether the rows after a success are used again: after this node, or by it after the failure.
fn is_used_again(last: &[usize], won: usize, lost: usize, at: usize) -> bool
    ensures behind { IsUsedAt last.now won (at + 1) → IsTrue result }
    ensures here { won ≡ lost → IsTrue result }
{
    won == lost || is_used_behind(last, won, at)
}

/// The rows of both sides of a node. Errors: `Memory`.
fn rows_of_sides(
    alloc: Global,
    made: &mut Vec<Vec<Row>>,
    last: &[usize],
    at: usize,
    expected: Option<bool>,
    won: usize,
    lost: usize,
) -> Result<Vec<Row>, StoreError>
    ensures rows { IfOk result (λ rows. (sums : List ShownNode) (drawn : List ShownRow)
        → AreMade sums last.now at (made_shown made.old) → slice_get sums at ≡ Some (Both expected won lost)
        → UsesAt (Both expected won lost) last.now at → DrawsRows sums at drawn → rows_shown rows ≡ drawn) }
    ensures leaves { OnOk result (LeavesUsed last.now (at + 1) (made_shown made.old) (made_shown made.new)) }
{
    let keep_won = is_used_again(last, won, lost, at);
    let won_rows = taken(alloc, made, won, keep_won)?;
    let keep_lost = is_used_behind(last, lost, at);
    let lost_rows = taken(alloc, made, lost, keep_lost)?;
    let front = put_in_front(alloc, won_rows, expected, true)?;
    let others = put_in_front(alloc, lost_rows, expected, false)?;
    let rows = merge_rows(alloc, front, others)?;
    Ok(rows)
}

/// The rows of the node at a place, from those of which it is made. Errors: `Memory`.
fn rows_at(
    alloc: Global,
    made: &mut Vec<Vec<Row>>,
    last: &[usize],
    at: usize,
    node: &SumNode,
) -> Result<Vec<Row>, StoreError>
    ensures rows { IfOk result (λ rows. (sums : List ShownNode) (drawn : List ShownRow)
        → AreMade sums last.now at (made_shown made.old) → slice_get sums at ≡ Some (sum_shown node.now)
        → UsesAt (sum_shown node.now) last.now at → DrawsRows sums at drawn → rows_shown rows ≡ drawn) }
    ensures leaves { OnOk result (LeavesUsed last.now (at + 1) (made_shown made.old) (made_shown made.new)) }
{
    match node {
        SumNode::Over(run_end) => {
            let shared = run_end.clone()?;
            let rows = one_row(alloc, shared)?;
            Ok(rows)
        }
        SumNode::Both {
            expected,
            won,
            lost,
        } => {
            let rows = rows_of_sides(alloc, made, last, at, *expected, *won, *lost)?;
            Ok(rows)
        }
    }
}

/// The rows that the node at a place draws. It goes through the nodes in their order, and keeps the rows of a node until the
/// last node that is made of them. Errors: `Memory`.
pub fn rows_of(alloc: Global, nodes: &[SumNode], root: usize) -> Result<Vec<Row>, StoreError>
    ensures { IfOk result (λ rows. (drawn : List ShownRow) → DrawsRows (map sum_shown nodes.now) root drawn
        → rows_shown rows ≡ drawn) }
{
    let last = last_uses(alloc, nodes, root)?;
    let mut made = Vec::new(alloc);
    for (at, node) in nodes.iter().enumerate() {
        let rows = rows_at(alloc, &mut made, &last, at, node)?;
        made.push(rows)?;
    }
    let rows = taken(alloc, &mut made, root, false)?;
    Ok(rows)
}
