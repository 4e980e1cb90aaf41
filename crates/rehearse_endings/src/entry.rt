//! An entry of the table: a state that was searched, whether another one is like it, and what is to come after that.
ghost use Rattle.std.specs.Prelude.{◌≡◌, ◌≤◌, ◌<◌, ◌+◌, IfOk, MatchOption, IsTrue, false, List, length, take, reverse, Some, ◌-◌};
ghost use Rattle.rehearse_reuse.specs.SummedRuns.{FitsIf, moved_by};
ghost use Rattle.rehearse_states.specs.Endings.{Row};
ghost use Rattle.rehearse_states.specs.RowsShown.{summary_with};
ghost use Rattle.rehearse_endings.specs.OnTop.{HasOnTop};
ghost use Rattle.rehearse_endings.specs.Indexed.{Fits, how_many_below};
ghost use Rattle.rehearse_reports.specs.Known.{AllHold, keys_of};
ghost use Rattle.rehearse_reports.specs.ReportsShown.{keys_shown};

use bootstore_state::{Frame, Store, StoreError};
use rehearse_reports::{Key, Known, all_hold, keys_of};
use rehearse_states::{Summary, same_frames};
use rehearse_terms::RunBounds;
use std::alloc::Global;

/// What is to come after a state: its summary, and the keys and frames on which it depends.
#[derive(Drop)]
pub(crate) struct Future {
    /// How the runs end.
    pub(crate) summary: Summary,
    /// The keys that are enough for it.
    pub(crate) keys: Vec<Key>,
    /// How many of the lowest frames do not count: nothing comes back to them.
    pub(crate) below: usize,
}

/// A place at which a device command asked, what was known there of the keys that are enough, and the summary of what
/// is to come after it.
#[derive(Drop)]
pub struct Entry {
    /// The frames that count.
    pub frames: Vec<Frame>,
    /// Whether they are all frames: else any others may be below them.
    pub whole: bool,
    pub known: Vec<Known>,
    pub steps: u32,
    pub devices: u32,
    pub summary: Summary,
}

/// Whether there is room: the same as there if a run was cut, else enough.
fn has_room(cut: bool, here: u32, there: u32, reach: u64, bound: u32) -> bool
    ensures same { IsTrue result → FitsIf cut here there reach bound }
    ensures told { FitsIf cut here there reach bound → IsTrue result }
{
    if cut {
        there == here
    } else {
        match u64::from(there).checked_add(reach) {
            Some(sum) => sum <= u64::from(here) + u64::from(bound),
            None => false,
        }
    }
}

/// So many of the innermost frames of the present state, if it has so many.
pub(crate) fn innermost<S: Store>(store: &S, many: usize) -> Option<&[Frame]>
    ensures { MatchOption result (length (S.record_of store.now).present.frames < many)
        (λ top. (many ≤ length (S.record_of store.now).present.frames)
        × (reverse top.now ≡ take many (S.record_of store.now).present.frames)) }
{
    let frames = store.frames();
    let below = frames.len().checked_sub(many)?;
    let (_below, top) = frames.split_at(below);
    Some(top)
}

/// Whether these are the innermost frames of the present state.
fn is_on_top<S: Store>(store: &S, frames: &[Frame]) -> bool
    ensures same { IsTrue result → HasOnTop false (reverse frames.now) (S.record_of store.now).present.frames }
    ensures told { HasOnTop false (reverse frames.now) (S.record_of store.now).present.frames → IsTrue result }
{
    match innermost(store, frames.len()) {
        Some(top) => same_frames(frames, top),
        None => false,
    }
}

/// Whether the present state is at the place of an entry: its frames are those of the entry, or the innermost ones are.
fn is_at<S: Store>(store: &S, entry: &Entry) -> bool
    ensures same { IsTrue result
        → HasOnTop entry.now.whole (reverse entry.now.frames.items) (S.record_of store.now).present.frames }
    ensures told { HasOnTop entry.now.whole (reverse entry.now.frames.items) (S.record_of store.now).present.frames
        → IsTrue result }
{
    if entry.whole {
        same_frames(&entry.frames, store.frames())
    } else {
        is_on_top(store, &entry.frames)
    }
}

/// How many frames the present state has below those of an entry that fits.
pub(crate) fn below_entry<S: Store>(store: &S, entry: &Entry) -> usize
    ensures { result ≡ how_many_below entry.now (S.record_of store.now).present }
{
    if entry.whole {
        return 0;
    }
    store.frames().len().saturating_sub(entry.frames.len())
}

/// Whether the present state is at the place of an entry, what was known there holds here, and its runs
/// have room here.
pub(crate) fn fits<S: Store>(store: &S, bounds: RunBounds, entry: &Entry, depth: u32) -> bool
    requires { length (S.record_of store.now).present.log ≡ depth }
    ensures frames { IsTrue result
        → HasOnTop entry.now.whole (reverse entry.now.frames.items) (S.record_of store.now).present.frames }
    ensures known { IsTrue result → AllHold (S.record_of store.now).present entry.now.known.items }
    ensures steps { IsTrue result → FitsIf entry.now.summary.cut_steps entry.now.steps
        (S.record_of store.now).present.steps entry.now.summary.steps bounds.steps }
    ensures devices { IsTrue result → FitsIf entry.now.summary.cut_devices entry.now.devices depth
        entry.now.summary.devices bounds.devices }
    ensures told { Fits bounds.steps bounds.devices entry.now (S.record_of store.now).present → IsTrue result }
{
    has_room(
        entry.summary.cut_steps,
        entry.steps,
        store.steps(),
        entry.summary.steps,
        bounds.steps(),
    ) && has_room(
        entry.summary.cut_devices,
        entry.devices,
        depth,
        entry.summary.devices,
        bounds.devices(),
    ) && is_at(store, entry)
        && all_hold(store, &entry.known)
}

/// How far the runs after an entry reach, moved to where this many came before.
fn reach_from(cut: bool, here: u32, there: u32, reach: u64, bound: u32) -> u64
    requires { FitsIf cut here there reach bound }
    ensures { result ≡ there + (reach - here) }
{
    let _bound = bound;
    let further = reach.saturating_sub(u64::from(here));
    u64::from(there) + further
}

/// What is to come after an entry that fits, as it is at these steps and device commands, with so many frames below those
/// of the entry.
pub(crate) fn moved(
    alloc: Global,
    bounds: RunBounds,
    entry: &Entry,
    steps: u32,
    devices: u32,
    below: usize,
) -> Result<Future, StoreError>
    requires steps { FitsIf entry.now.summary.cut_steps entry.now.steps steps entry.now.summary.steps bounds.steps }
    requires devices { FitsIf entry.now.summary.cut_devices entry.now.devices devices entry.now.summary.devices bounds.devices }
    ensures sums { IfOk result (λ f. (rows : List Row) → summary_with rows f.summary
        ≡ moved_by entry.now.steps steps entry.now.devices devices (summary_with rows entry.now.summary)) }
    ensures node { IfOk result (λ f. f.summary.sum ≡ entry.now.summary.sum) }
    ensures place { IfOk result (λ f. f.summary.place ≡ entry.now.summary.place) }
    ensures keys { IfOk result (λ f. keys_shown f.keys.items ≡ keys_of entry.now.known.items) }
    ensures below { IfOk result (λ f. f.below ≡ below) }
{
    let old = &entry.summary;
    let keys = keys_of(alloc, &entry.known)?;
    let summary = Summary {
        sum: old.sum,
        steps: reach_from(old.cut_steps, entry.steps, steps, old.steps, bounds.steps()),
        devices: reach_from(
            old.cut_devices,
            entry.devices,
            devices,
            old.devices,
            bounds.devices(),
        ),
        cut_steps: old.cut_steps,
        cut_devices: old.cut_devices,
        place: old.place,
    };
    Ok(Future {
        summary,
        keys,
        below,
    })
}
