//! The search through the states in which device commands ask.
ghost use Rattle.std.specs.Prelude.{ℕ, ◌≡◌, ◌≢◌, ◌+◌, ◌-◌, ◌*◌, ◌≤◌, ◌<◌, ◌^◌, true, false, List, [], ◌∷◌, length, map, IfOk, IfErr, OnOk};
ghost use Rattle.rehearse_terms.specs.Bounds.{most_steps};
ghost use Rattle.rehearse_terms.specs.Outcomes.{OutcomeWord};
ghost use Rattle.rehearse_machine.specs.Came.{settled};
ghost use Rattle.rehearse_machine.specs.Machine.{IsAsking, Stops, asked_at, outcome_when};
ghost use Rattle.rehearse_machine.specs.Tasks.{task_in};
ghost use Rattle.rehearse_machine.specs.StoppedTexts.{StoppedAt};
ghost use Rattle.rehearse_rules.specs.Runs.{run_on};
ghost use Rattle.rehearse_states.specs.RowsShown.{rows_shown, saturated};
ghost use Rattle.rehearse_states.specs.SumNodes.{sums_shown};
ghost use Rattle.rehearse_states.specs.Endings.{endings};
ghost use Rattle.rehearse_rules.specs.EndingsShown.{halt_shown};
ghost use Rattle.rehearse_frames.specs.Above.{IsNoEnd};
ghost use Rattle.rehearse_reports.specs.Following.{HasFramesAtStop, IsReportedAbove};
ghost use Rattle.rehearse_reports.specs.ReportsShown.{accesses_shown, keys_shown};
ghost use Rattle.rehearse_states.specs.Flow.{IsFlow};
ghost use Rattle.rehearse_states.specs.Drawing.{asks_in, nodes_shown};
ghost use Rattle.rehearse_endings.specs.Held.{ComesToBytes, HasNoRoom, HoldsStates, most_held};
ghost use Rattle.rehearse_endings.specs.Searching.{IsReached, AreEntries, IsKeptAt};
ghost use Rattle.rehearse_endings.specs.Indexed.{AreNoted};
ghost use Rattle.rehearse_endings.specs.States.{Asked, ComesBy, ComesToStates, ComesToSteps, HasEntered, HasStates};
ghost use Rattle.rehearse_endings.specs.Searched.{IsFull, IsSearched, IsSpent};
ghost use Rattle.rehearse_endings.specs.declared.sum_error.SumError.TheVariants.{Bytes, Memory, States, Steps};

use crate::entry::Future;
use crate::keys::{keys_at_end, keys_of_both};
use crate::sum_error::SumError;
use crate::table::Table;
use bootstore_state::Store;
use rehearse_machine::{Rehearsal, Stop};
use rehearse_reports::{Key, Reported, begin_watched, keys_of, known_at, resume_reported};
use rehearse_rules::Halt;
use rehearse_states::{
    Node, Row, Summary, copy_frames, hash_of, number_of, of_end, of_sides, rows_of, run_end_of,
    words_at,
};
use std::alloc::Global;

/// How the runs of a script end.
#[derive(Drop)]
pub struct Endings {
    /// For each way to end, in the order of the first runs, which runs end so.
    pub rows: Vec<Row>,
    /// How many states were searched in which a device command asks.
    pub states: u32,
    /// All runs as a graph: a node for each of these states, and one for each way to end. A run
    /// starts at the first node.
    pub nodes: Vec<Node>,
}

/// How many device commands are in the log.
fn logged<S: Store>(store: &S) -> u32
    requires { length (S.record_of store.now).present.log < 2 ^ 32 }
    ensures { result ≡ length (S.record_of store.now).present.log }
{
    store.log().len() as u32
}

/// How many of the lowest frames do not count at an end: all, unless the text ended.
fn below_end(halt: &Halt) -> usize
    ensures { result ≢ 0 → IsNoEnd (halt_shown halt.now) }
{
    match halt {
        Halt::End(_) => 0,
        Halt::CutDevices | Halt::CutSteps | Halt::Size => usize::MAX,
        Halt::Unknown(_) | Halt::Syntax(_) | Halt::Unsupported(_) | Halt::Panic(_) => usize::MAX,
        Halt::Finished(_, _) => usize::MAX,
    }
}

/// How many of the lowest frames neither outcome reaches, by how many frames there were at least after each, and how many
/// did not count after its stretch.
fn behind_both(won_frames: usize, won: usize, lost_frames: usize, lost: usize) -> usize
    ensures won { result ≤ won_frames - 1 }
    ensures behind_won { result ≤ won }
    ensures lost { result ≤ lost_frames - 1 }
    ensures behind_lost { result ≤ lost }
{
    let behind_won = won_frames.saturating_sub(1).min(won);
    let behind_lost = lost_frames.saturating_sub(1).min(lost);
    behind_won.min(behind_lost)
}

/// Keeps the summary of a state in which a device command asked, with the values of keys that are enough
/// for it. So many of its lowest frames do not count. Returns these keys. Errors: `Memory`; `Bytes`, only if that has no
/// room, with the number of states that were entered.
fn keep<S: Store>(
    alloc: Global,
    store: &S,
    table: &mut Table,
    keys: Vec<Key>,
    below: usize,
    devices: u32,
    summary: Summary,
) -> Result<Vec<Key>, SumError>
    requires { below ≤ length (S.record_of store.now).present.frames }
    ensures err { IfErr result (λ e. (e ≢ States) × ((count : ℕ) → e ≢ Steps count)) }
    ensures full { (count : ℕ) → IfErr result
        (λ e. e ≡ Bytes count → HasNoRoom table.old.room below (S.record_of store.now).present (keys_shown keys.items)) }
    ensures counted { (count : ℕ) → IfErr result (λ e. e ≡ Bytes count → count ≡ table.old.visited) }
    ensures keys { IfOk result (λ kept. keys_shown kept.items ≡ keys_shown keys.items) }
    ensures kept { OnOk result (IsKeptAt table.old.entries.items table.new.entries.items below
        (S.record_of store.now).present (keys_shown keys.items) devices summary) }
    ensures noted { OnOk result (AreNoted table.old → AreNoted table.new) }
    ensures held { OnOk result (most_held table.new ≡ most_held table.old) }
    ensures flow { table.new.flow ≡ table.old.flow }
    ensures sums { table.new.sums ≡ table.old.sums }
    ensures visited { table.new.visited ≡ table.old.visited }
    ensures most { table.new.most ≡ table.old.most }
{
    let known = known_at(alloc, store, keys)?;
    let keys = keys_of(alloc, &known)?;
    let (_below, top) = store.frames().split_at(below);
    let frames = copy_frames(alloc, top)?;
    let place = number_of(&frames);
    table.keep(
        alloc,
        place,
        frames,
        below == 0,
        known,
        store.steps(),
        devices,
        summary,
    )?;
    Ok(keys)
}

/// Whether more steps were begun than allowed, in all stretches together.
fn is_spent<S: Store>(store: &S, most_work: u32) -> bool
    ensures spent { result ≡ true → most_work < (S.record_of store.now).begun }
    ensures within { result ≡ false → (S.record_of store.now).begun ≤ most_work }
{
    store.begun() > u64::from(most_work)
}

/// Gives the device command that asks an outcome, and goes on until the text stops again. So many states were entered
/// before. Says how many frames there were at least: none if the text ended. Errors: `Memory`; `Steps` with this number,
/// after the stretch with which more steps were begun than allowed.
fn resumed<S: Store>(
    rehearsal: &Rehearsal<'_>,
    reported: &mut Reported,
    store: &mut S,
    fewest: &mut usize,
    most_work: u32,
    entered: u32,
    success: bool,
) -> Result<Stop, SumError>
    requires asks { IsAsking (task_in rehearsal.now).limits (S.record_of store.old).present }
    requires begun { (S.record_of store.old).begun + most_steps + 1 < 2 ^ 64 }
    requires fresh { accesses_shown reported.old ≡ [] }
    ensures stops { IfOk result
        (λ stop. Stops (task_in rehearsal.now).limits stop
        (λ w. asked_at (task_in rehearsal.now).limits (S.record_of store.old).present
        (outcome_when success ∷ w)) (S.record_of store.new).present) }
    ensures marks { OnOk result ((S.record_of store.new).marked ≡ (S.record_of store.old).marked) }
    ensures begun { OnOk result
        ((S.record_of store.new).begun + (S.record_of store.old).present.steps
        ≡ (S.record_of store.old).begun + (S.record_of store.new).present.steps) }
    ensures within { OnOk result ((S.record_of store.new).present.steps ≤ most_steps) }
    ensures keys { IfOk result (λ stop. IsReportedAbove (task_in rehearsal.now).limits fewest.new
        (outcome_when success) (S.record_of store.old).present stop
        (S.record_of store.new).present (accesses_shown reported.new)) }
    ensures all { OnOk result (fewest.new ≤ length (S.record_of store.old).present.frames) }
    ensures frames { IfOk result (λ stop. HasFramesAtStop fewest.new stop (S.record_of store.new).present) }
    ensures worked { OnOk result ((S.record_of store.new).begun ≤ most_work) }
    ensures err { IfErr result (λ e. (e ≢ States) × ((count : ℕ) → e ≢ Bytes count)) }
    ensures spent { (count : ℕ) → IfErr result (λ e. e ≡ Steps count → most_work < (S.record_of store.new).begun) }
    ensures soon { (count : ℕ) → IfErr result
        (λ e. e ≡ Steps count → (S.record_of store.new).begun ≤ (S.record_of store.old).begun + most_steps) }
    ensures counted { (count : ℕ) → IfErr result (λ e. e ≡ Steps count → count ≡ entered) }
{
    let stop = resume_reported(rehearsal, reported, store, fewest, success)?;
    if is_spent(store, most_work) {
        return Err(SumError::Steps(entered));
    }
    Ok(stop)
}

/// Begins the text, and goes on until it stops. Errors: `Memory`.
fn begin_text<S: Store>(rehearsal: &Rehearsal<'_>, store: &mut S) -> Result<Stop, SumError>
    requires { (S.record_of store.old).begun + most_steps + 1 < 2 ^ 64 }
    ensures stops { IfOk result
        (λ stop. Stops (task_in rehearsal.now).limits stop
        (λ w. settled (run_on (task_in rehearsal.now) w)) (S.record_of store.new).present) }
    ensures begun { OnOk result
        ((S.record_of store.new).begun ≡ (S.record_of store.old).begun +
        (S.record_of store.new).present.steps) }
    ensures within { OnOk result ((S.record_of store.new).present.steps ≤ most_steps) }
    ensures err { IfErr result (λ e. e ≡ Memory) }
{
    let stop = begin_watched(rehearsal, store)?;
    Ok(stop)
}

/// What is to come of a text that has stopped: the summary, and keys that are enough for it. States that
/// are in the table are not searched again. Errors: `Memory`, `States`; `Steps` and `Bytes`, each with the number of
/// states that were entered by then.
fn summed<S: Store>(
    rehearsal: &Rehearsal<'_>,
    store: &mut S,
    table: &mut Table,
    names: &[&[u8]],
    most_work: u32,
    depth: u32,
    stop: Stop,
) -> Result<Future, SumError>
    requires reached { IsReached (task_in rehearsal.now) depth stop
        (S.record_of store.old).present }
    requires table { AreEntries (map (λ n. n.now) names.now) (task_in rehearsal.now).limits (nodes_shown table.old.flow.nodes)
        (sums_shown table.old.sums) table.old.entries.items }
    requires noted { AreNoted table.old }
    requires within { (S.record_of store.old).present.steps ≤ most_steps }
    requires bound { (task_in rehearsal.now).limits.device_bound < 2 ^ 32 }
    requires begun { (S.record_of store.old).begun ≤ (2 * table.old.visited + 1) * most_steps }
    requires room { table.old.visited ≤ table.old.most }
    requires worked { (S.record_of store.old).begun ≤ most_work }
    ensures searched { IfOk result (λ f. IsSearched (map (λ n. n.now) names.now) (task_in rehearsal.now) stop
        (S.record_of store.old) (S.record_of store.new) table.old table.new f) }
    ensures refused { (p : OutcomeWord) (begun : List Asked)
        → StoppedAt (task_in rehearsal.now) p stop (S.record_of store.old).present → ComesBy p begun
        → HasEntered (map (λ n. n.now) names.now) (task_in rehearsal.now) begun table.old
        → IfErr result (λ e. e ≡ States → ComesToStates (map (λ n. n.now) names.now) (task_in rehearsal.now) (table.old.most + 1)) }
    ensures worked { OnOk result ((S.record_of store.new).begun ≤ most_work) }
    ensures spent { (count : ℕ) → IfErr result
        (λ e. e ≡ Steps count → IsSpent most_work count (S.record_of store.new) table.new) }
    ensures costly { (count : ℕ) (p : OutcomeWord) (begun : List Asked)
        → StoppedAt (task_in rehearsal.now) p stop (S.record_of store.old).present → ComesBy p begun
        → HasEntered (map (λ n. n.now) names.now) (task_in rehearsal.now) begun table.old
        → IfErr result (λ e. e ≡ Steps count → ComesToSteps (map (λ n. n.now) names.now) (task_in rehearsal.now) count most_work) }
    ensures large { (count : ℕ) (p : OutcomeWord) (begun : List Asked)
        → StoppedAt (task_in rehearsal.now) p stop (S.record_of store.old).present → ComesBy p begun
        → HasEntered (map (λ n. n.now) names.now) (task_in rehearsal.now) begun table.old
        → IfErr result (λ e. e ≡ Bytes count
        → IsFull (map (λ n. n.now) names.now) (task_in rehearsal.now) count (most_held table.old) table.new) }
{
    let devices = logged(store);
    match stop {
        Stop::Ends(halt) => {
            let below = below_end(&halt);
            let place = table.flow.end(&halt)?;
            let run_end = run_end_of(rehearsal.alloc, store, halt, names)?;
            let summary = of_end(
                rehearsal.alloc,
                &mut table.sums,
                store.steps(),
                devices,
                run_end,
                place,
            )?;
            let keys = keys_at_end(rehearsal.alloc, names)?;
            Ok(Future {
                summary,
                keys,
                below,
            })
        }
        Stop::Asks => {
            let hash = hash_of(store);
            if let Some(found) = table.find(
                rehearsal.alloc,
                store,
                rehearsal.devices,
                rehearsal.bounds,
                names,
                hash,
                devices,
            )? {
                return Ok(found);
            }
            table.enter()?;
            store.mark()?;
            store.mark()?;
            let mut won_way = Reported::new(rehearsal.alloc, rehearsal.env.hasher());
            let mut won_frames = 0;
            let entered = table.visited;
            let won_stop = resumed(
                rehearsal,
                &mut won_way,
                store,
                &mut won_frames,
                most_work,
                entered,
                true,
            )?;
            let words = words_at(rehearsal.alloc, store, devices)?;
            let won = summed(
                rehearsal,
                store,
                table,
                names,
                most_work,
                depth + 1,
                won_stop,
            )?;
            store.back();
            let mut lost_way = Reported::new(rehearsal.alloc, rehearsal.env.hasher());
            let mut lost_frames = 0;
            let entered = table.visited;
            let lost_stop = resumed(
                rehearsal,
                &mut lost_way,
                store,
                &mut lost_frames,
                most_work,
                entered,
                false,
            )?;
            let lost = summed(
                rehearsal,
                store,
                table,
                names,
                most_work,
                depth + 1,
                lost_stop,
            )?;
            store.back();
            let both = keys_of_both(
                rehearsal.alloc,
                store,
                won_way,
                won.keys,
                lost_way,
                lost.keys,
            )?;
            let below = behind_both(won_frames, won.below, lost_frames, lost.below);
            let expected = rehearsal.devices.expected(&words);
            let place = table
                .flow
                .ask(words, won.summary.place, lost.summary.place)?;
            let steps = store.steps();
            let summary = of_sides(
                &mut table.sums,
                steps,
                devices,
                expected,
                won.summary,
                lost.summary,
                place,
            )?;
            let keys = keep(rehearsal.alloc, store, table, both, below, devices, summary)?;
            Ok(Future {
                summary,
                keys,
                below,
            })
        }
    }
}

/// Counts how all runs of the text of the variable end. For each ending it gives how many runs have
/// it, or 2^128 - 1 if there are more; the first of them; and the first of them with the fewest
/// unexpected answers. Runs that leave other values of the named variables are told apart. The endings are in
/// the order of their first runs.
///
/// Two moments are the same state if they are at the same place, have the same values at the keys that were found to be
/// enough, and have room for the same runs. Frames to which nothing comes back do not count. Each state is searched once, so
/// at most two stretches of steps start at a state. Returns `States` if the runs reach more states than allowed. Returns
/// `Steps` after the first stretch with which all stretches together have more steps than allowed. Returns `Bytes` if the
/// states that were searched count more bytes than allowed. A state counts the bytes of its frames that count, and of what is
/// known at its keys. All three have the number of states that were entered by then.
/// Errors: `Memory`, `States`, `Steps`, `Bytes`.
pub fn sum_endings<S: Store>(
    rehearsal: &Rehearsal<'_>,
    store: &mut S,
    names: &[&[u8]],
    most_states: u32,
    most_work: u32,
    most_bytes: u64,
) -> Result<Endings, SumError>
    requires begun { (S.record_of store.old).begun ≡ 0 }
    requires bound { (task_in rehearsal.now).limits.device_bound < 2 ^ 32 }
    ensures rows { IfOk result
        (λ e. rows_shown e.rows ≡ map saturated
        (endings (map (λ n. n.now) names.now) (task_in rehearsal.now))) }
    ensures flow { IfOk result (λ e. IsFlow (task_in rehearsal.now) (nodes_shown e.nodes)) }
    ensures states { IfOk result (λ e. e.states ≤ most_states) }
    ensures met { IfOk result
        (λ e. HasStates (map (λ n. n.now) names.now) (task_in rehearsal.now) e.states) }
    ensures nodes { IfOk result (λ e. asks_in (nodes_shown e.nodes) ≡ e.states) }
    ensures refused { IfErr result (λ e. e ≡ States
        → ComesToStates (map (λ n. n.now) names.now) (task_in rehearsal.now) (most_states + 1)) }
    ensures once { IfOk result
        (λ e. (S.record_of store.new).begun ≤ (2 * e.states + 1) * most_steps) }
    ensures worked { OnOk result ((S.record_of store.new).begun ≤ most_work) }
    ensures spent { (count : ℕ) → IfErr result (λ e. e ≡ Steps count → most_work < (S.record_of store.new).begun) }
    ensures soon { (count : ℕ) → IfErr result
        (λ e. e ≡ Steps count → (S.record_of store.new).begun ≤ most_work + most_steps) }
    ensures costly { (count : ℕ) → IfErr result (λ e. e ≡ Steps count
        → ComesToSteps (map (λ n. n.now) names.now) (task_in rehearsal.now) count most_work) }
    ensures held { IfOk result
        (λ e. HoldsStates (map (λ n. n.now) names.now) (task_in rehearsal.now) e.states most_bytes) }
    ensures large { (count : ℕ) → IfErr result (λ e. e ≡ Bytes count
        → ComesToBytes (map (λ n. n.now) names.now) (task_in rehearsal.now) count most_bytes) }
{
    let stop = begin_text(rehearsal, store)?;
    if is_spent(store, most_work) {
        return Err(SumError::Steps(0));
    }
    let mut table = Table::new(rehearsal.alloc, most_states, most_bytes);
    let future = summed(rehearsal, store, &mut table, names, most_work, 0, stop)?;
    let states = table.visited;
    let rows = rows_of(rehearsal.alloc, &table.sums, future.summary.sum)?;
    let nodes = table.flow.into_lines(rehearsal.alloc)?;
    Ok(Endings {
        rows,
        states,
        nodes,
    })
}
