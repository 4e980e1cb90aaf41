//! The machine, with a report of what its moves read and write.
ghost use Rattle.std.specs.Prelude.{◌≡◌, [], ◌+◌, ◌<◌, ◌≤◌, ◌^◌, IfOk, OnOk, IsFalse, length, reverse};
ghost use Rattle.bootstore_state.specs.StoredState.{state_at};
ghost use Rattle.rehearse_machine.specs.Places.{place_move};
ghost use Rattle.rehearse_machine.specs.MovesShown.{Comes, limits_of};
ghost use Rattle.rehearse_machine.specs.Turning.{IsSound, Turns, Drives};
ghost use Rattle.rehearse_machine.specs.EndedTexts.{DropsEnded, is_run};
ghost use Rattle.rehearse_rules.specs.EndingsShown.{halt_shown};
ghost use Rattle.rehearse_frames.specs.Above.{IsNoEnd};
ghost use Rattle.rehearse_reports.specs.Following.{FollowsAbove};
ghost use Rattle.rehearse_reports.specs.Looping.{FramesLeft, GoAlikeAbove, HasFrames, MovesAbove, StepsAbove, below_run};
ghost use Rattle.rehearse_reports.specs.Reports.{ReportsAbove};
ghost use Rattle.rehearse_reports.specs.ReportsShown.{accesses_shown};

use crate::looping::{begin_rounds, is_back};
use crate::moves::report_move;
use crate::reported::Reported;
use bootstore_state::{Frame, FrameKind, Store, StoreError, copy_of};
use device_list::Devices;
use hushlang::Fields;
use rehearse_machine::{Step, drop_ended, step};
use rehearse_rules::Halt;
use rehearse_terms::RunBounds;
use std::alloc::Global;

/// A stretch that begins no more steps is not watched for an endless loop.
const FEW_STEPS: u32 = 64;

/// Whether a text ended.
fn is_end(halt: &Halt) -> bool
    ensures { IsFalse result → IsNoEnd (halt_shown halt.now) }
{
    match halt {
        Halt::End(_) => true,
        Halt::CutDevices | Halt::CutSteps | Halt::Size => false,
        Halt::Unknown(_) | Halt::Syntax(_) | Halt::Unsupported(_) | Halt::Panic(_) => false,
        Halt::Finished(_, _) => false,
    }
}

/// How many frames there are after a step: none if the text ended.
fn frames_left<S: Store>(step: &Step<'_>, store: &S) -> usize
    ensures { FramesLeft step.now (S.record_of store.now).present result }
{
    match step {
        Step::Ends(halt) => {
            if is_end(halt) {
                0
            } else {
                store.frames().len()
            }
        }
        Step::Going | Step::Asks(_) => store.frames().len(),
    }
}

/// Reports what the next move reads and writes, and makes it. Notes how many frames there are at least.
/// Errors: `Memory`.
fn reported_step<'d, S: Store>(
    alloc: Global,
    reported: &mut Reported,
    store: &mut S,
    fields: &mut Fields,
    devices: &'d Devices,
    bounds: RunBounds,
    fewest: &mut usize,
) -> Result<Step<'d>, StoreError>
    requires { (S.record_of store.old).begun + 1 < 2 ^ 64 }
    ensures moves { Comes result (S.record_of store.old) (S.record_of store.new)
        (place_move (limits_of devices.now bounds) (S.record_of store.old).present.frames) }
    ensures reported { OnOk result (ReportsAbove (limits_of devices.now bounds)
        (S.record_of store.old).present.frames (state_at (S.record_of store.old).present [])
        (accesses_shown reported.old) (accesses_shown reported.new)) }
    ensures above { IfOk result (λ step. StepsAbove (limits_of devices.now bounds) fewest.new
        (S.record_of store.old).present step (S.record_of store.new).present) }
    ensures fewer { OnOk result (fewest.new ≤ fewest.old) }
    ensures all { OnOk result (fewest.new ≤ length (S.record_of store.old).present.frames) }
    ensures frames { IfOk result (λ step. HasFrames fewest.new step (S.record_of store.new).present) }
{
    let before = store.frames().len();
    report_move(alloc, reported, store, fields, devices, bounds)?;
    let step = step(alloc, store, fields, devices, bounds)?;
    let left = frames_left(&step, store);
    *fewest = (*fewest).min(before).min(left);
    Ok(step)
}

/// Makes moves, with reports, until a step is begun, an outcome is asked for, or the run is over.
/// Errors: `Memory`.
fn reported_turn<'d, S: Store>(
    alloc: Global,
    reported: &mut Reported,
    store: &mut S,
    fields: &mut Fields,
    devices: &'d Devices,
    bounds: RunBounds,
    fewest: &mut usize,
) -> Result<Step<'d>, StoreError>
    requires sound { IsSound (S.record_of store.old).present }
    requires begun { (S.record_of store.old).begun + 1 < 2 ^ 64 }
    ensures turns { IfOk result (λ step. Turns (limits_of devices.now bounds) step
        (S.record_of store.old) (S.record_of store.new)) }
    ensures moves { IfOk result (λ step. MovesAbove (limits_of devices.now bounds) fewest.new
        (S.record_of store.old).present step (S.record_of store.new).present
        (accesses_shown reported.old) (accesses_shown reported.new)) }
    ensures fewer { OnOk result (fewest.new ≤ fewest.old) }
    ensures frames { IfOk result (λ step. HasFrames fewest.new step (S.record_of store.new).present) }
{
    let before = store.steps();
    'moves: loop {
        match reported_step(alloc, reported, store, fields, devices, bounds, fewest)? {
            Step::Going => {
                if store.steps() != before {
                    return Ok(Step::Going);
                }
            }
            Step::Asks(ask) => return Ok(Step::Asks(ask)),
            Step::Ends(halt) => return Ok(Step::Ends(halt)),
        }
    }
}

/// Whether it is a `run`.
fn is_run(kind: FrameKind) -> bool
    ensures { result ≡ is_run kind }
{
    match kind {
        FrameKind::Run => true,
        FrameKind::Text | FrameKind::Block | FrameKind::For | FrameKind::File => false,
    }
}

/// The frames below the innermost `run`.
fn below_run(frames: &[Frame]) -> &[Frame]
    ensures { reverse result.now ≡ below_run (reverse frames.now) }
{
    let mut left = frames;
    while let Some((frame, below)) = left.split_last() {
        if is_run(frame.kind()) {
            return below;
        }
        left = below;
    }
    left
}

/// Drops an ended text that changes nothing, if it can. Then two further ones were looked at, each with its
/// `run`: these frames count as reached. Errors: `Memory`.
fn drop_noted<S: Store>(store: &mut S, fewest: &mut usize) -> Result<(), StoreError>
    ensures drops { OnOk result (DropsEnded (S.record_of store.old) (S.record_of store.new)) }
    ensures alike { OnOk result (GoAlikeAbove fewest.new (S.record_of store.old).present
        (S.record_of store.new).present) }
    ensures fewer { OnOk result (fewest.new ≤ fewest.old) }
{
    let before = store.frames().len();
    drop_ended(store)?;
    if store.frames().len() != before {
        let lowest = below_run(below_run(below_run(store.frames())));
        *fewest = (*fewest).min(lowest.len());
    }
    Ok(())
}

/// Makes turns, with reports, until more than so many steps are begun, an outcome is asked for, or the run
/// is over. Ended texts that change nothing are dropped. If a turn comes back to the moment at which the
/// first one began, the loop has no end: the steps of its further rounds are begun at once. Errors:
/// `Memory`.
fn watched_turns<'d, S: Store>(
    alloc: Global,
    reported: &mut Reported,
    store: &mut S,
    fields: &mut Fields,
    devices: &'d Devices,
    bounds: RunBounds,
    fewest: &mut usize,
    most: u32,
) -> Result<Step<'d>, StoreError>
    requires sound { IsSound (S.record_of store.old).present }
    requires steps { (S.record_of store.old).present.steps ≤ bounds.steps }
    requires begun { (S.record_of store.old).begun + bounds.steps + 1
        < 2 ^ 64 + (S.record_of store.old).present.steps }
    ensures turns { IfOk result (λ step. Turns (limits_of devices.now bounds) step
        (S.record_of store.old) (S.record_of store.new)) }
    ensures follows { IfOk result (λ step. FollowsAbove (limits_of devices.now bounds) fewest.new
        (S.record_of store.old).present step (S.record_of store.new).present
        (accesses_shown reported.old) (accesses_shown reported.new)) }
    ensures fewer { OnOk result (fewest.new ≤ fewest.old) }
    ensures frames { IfOk result (λ step. HasFrames fewest.new step (S.record_of store.new).present) }
{
    let first = copy_of(store.present(), alloc)?;
    'turns: loop {
        match reported_turn(alloc, reported, store, fields, devices, bounds, fewest)? {
            Step::Going => {
                drop_noted(store, fewest)?;
                let steps = store.steps() - first.steps;
                if is_back(&first, store, reported.written()) {
                    begin_rounds(store, steps, bounds)?;
                    return Ok(Step::Going);
                }
                if steps > most {
                    return Ok(Step::Going);
                }
            }
            Step::Asks(ask) => return Ok(Step::Asks(ask)),
            Step::Ends(halt) => return Ok(Step::Ends(halt)),
        }
    }
}

/// Makes one turn or more, with reports. A stretch that has begun many steps already is watched for an
/// endless loop, as long again: so its copy of the state takes no more time than its steps. Errors:
/// `Memory`.
fn next_turns<'d, S: Store>(
    alloc: Global,
    reported: &mut Reported,
    store: &mut S,
    fields: &mut Fields,
    devices: &'d Devices,
    bounds: RunBounds,
    fewest: &mut usize,
    so_far: u32,
) -> Result<Step<'d>, StoreError>
    requires sound { IsSound (S.record_of store.old).present }
    requires steps { (S.record_of store.old).present.steps ≤ bounds.steps }
    requires begun { (S.record_of store.old).begun + bounds.steps + 1
        < 2 ^ 64 + (S.record_of store.old).present.steps }
    ensures turns { IfOk result (λ step. Turns (limits_of devices.now bounds) step
        (S.record_of store.old) (S.record_of store.new)) }
    ensures follows { IfOk result (λ step. FollowsAbove (limits_of devices.now bounds) fewest.new
        (S.record_of store.old).present step (S.record_of store.new).present
        (accesses_shown reported.old) (accesses_shown reported.new)) }
    ensures fewer { OnOk result (fewest.new ≤ fewest.old) }
    ensures frames { IfOk result (λ step. HasFrames fewest.new step (S.record_of store.new).present) }
{
    if so_far < FEW_STEPS || (so_far as usize) < store.present().environment.places() {
        return reported_turn(alloc, reported, store, fields, devices, bounds, fewest);
    }
    watched_turns(
        alloc, reported, store, fields, devices, bounds, fewest, so_far,
    )
}

/// Makes moves, with reports, until an outcome is asked for, or the run is over. Ended texts that change
/// nothing are dropped. Notes how many frames there are at least, or that the text ended. Errors:
/// `Memory`.
pub(crate) fn reported_drive<'d, S: Store>(
    alloc: Global,
    reported: &mut Reported,
    store: &mut S,
    fields: &mut Fields,
    devices: &'d Devices,
    bounds: RunBounds,
    fewest: &mut usize,
) -> Result<Step<'d>, StoreError>
    requires sound { IsSound (S.record_of store.old).present }
    requires steps { (S.record_of store.old).present.steps ≤ bounds.steps }
    requires begun { (S.record_of store.old).begun + bounds.steps + 1 < 2 ^ 64 }
    ensures drives { IfOk result (λ step. Drives (limits_of devices.now bounds) step
        (S.record_of store.old) (S.record_of store.new)) }
    ensures follows { IfOk result (λ step. FollowsAbove (limits_of devices.now bounds) fewest.new
        (S.record_of store.old).present step (S.record_of store.new).present
        (accesses_shown reported.old) (accesses_shown reported.new)) }
    ensures fewer { OnOk result (fewest.new ≤ fewest.old) }
    ensures frames { IfOk result (λ step. HasFrames fewest.new step (S.record_of store.new).present) }
{
    let before = store.steps();
    'turns: loop {
        let so_far = store.steps().saturating_sub(before);
        match next_turns(
            alloc, reported, store, fields, devices, bounds, fewest, so_far,
        )? {
            Step::Going => drop_noted(store, fewest)?,
            Step::Asks(ask) => return Ok(Step::Asks(ask)),
            Step::Ends(halt) => return Ok(Step::Ends(halt)),
        }
    }
}
