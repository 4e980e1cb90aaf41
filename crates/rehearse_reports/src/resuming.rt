//! A rehearsal that is begun, or continued with an outcome, and reports what it reads and writes.
ghost use Rattle.std.specs.Prelude.{◌≡◌, ◌+◌, ◌<◌, ◌≤◌, ◌^◌, ◌∷◌, [], OnOk, IfOk, length};
ghost use Rattle.rehearse_terms.specs.Bounds.{most_steps};
ghost use Rattle.rehearse_rules.specs.Runs.{run_on};
ghost use Rattle.rehearse_machine.specs.Came.{settled};
ghost use Rattle.rehearse_machine.specs.MovesShown.{Keeps, limits_of};
ghost use Rattle.rehearse_machine.specs.Turning.{IsSound, to_come};
ghost use Rattle.rehearse_machine.specs.Machine.{Stops, IsAsking, TakesOutcome, asked_at, outcome_when};
ghost use Rattle.rehearse_machine.specs.Tasks.{task_in};
ghost use Rattle.rehearse_reports.specs.Following.{FollowsOutcomeAbove, FollowsToStopAbove, HasFramesAtStop, IsReportedAbove};
ghost use Rattle.rehearse_reports.specs.ReportsShown.{accesses_shown};

use crate::driving::reported_drive;
use crate::outcomes::report_outcome;
use crate::reported::Reported;
use bootstore_state::{Store, StoreError};
use hushlang::Fields;
use rehearse_machine::{Rehearsal, Step, Stop, answer, find_again, start};

/// Goes on until a device command asks, or the run ends, and reports it. Errors: `Memory`.
fn go_on<S: Store>(
    rehearsal: &Rehearsal<'_>,
    reported: &mut Reported,
    store: &mut S,
    fewest: &mut usize,
) -> Result<Stop, StoreError>
    requires sound { IsSound (S.record_of store.old).present }
    requires steps { (S.record_of store.old).present.steps ≤ rehearsal.now.bounds.steps }
    requires begun { (S.record_of store.old).begun + rehearsal.now.bounds.steps + 1 < 2 ^ 64 }
    ensures stops { IfOk result
        (λ stop. Stops (limits_of rehearsal.now.devices.now rehearsal.now.bounds) stop
        (to_come (limits_of rehearsal.now.devices.now rehearsal.now.bounds)
        (S.record_of store.old).present) (S.record_of store.new).present) }
    ensures kept { OnOk result (Keeps (S.record_of store.old) (S.record_of store.new)) }
    ensures within { OnOk result
        ((S.record_of store.new).present.steps ≤ rehearsal.now.bounds.steps) }
    ensures grows { OnOk result
        ((S.record_of store.old).present.steps ≤ (S.record_of store.new).present.steps) }
    ensures follows { IfOk result (λ stop. FollowsToStopAbove
        (limits_of rehearsal.now.devices.now rehearsal.now.bounds) fewest.new
        (S.record_of store.old).present stop (S.record_of store.new).present
        (accesses_shown reported.old) (accesses_shown reported.new)) }
    ensures fewer { OnOk result (fewest.new ≤ fewest.old) }
    ensures frames { IfOk result (λ stop. HasFramesAtStop fewest.new stop (S.record_of store.new).present) }
{
    let mut fields = Fields::new(rehearsal.alloc);
    match reported_drive(
        rehearsal.alloc,
        reported,
        store,
        &mut fields,
        rehearsal.devices,
        rehearsal.bounds,
        fewest,
    )? {
        Step::Going => unreachable!(),
        Step::Asks(_) => Ok(Stop::Asks),
        Step::Ends(halt) => Ok(Stop::Ends(halt)),
    }
}

/// Does what `begin` of the machine does. A loop without an end is cut at once. Errors: `Memory`.
pub fn begin_watched<S: Store>(rehearsal: &Rehearsal<'_>, store: &mut S) -> Result<Stop, StoreError>
    requires { (S.record_of store.old).begun + most_steps + 1 < 2 ^ 64 }
    ensures stops { IfOk result
        (λ stop. Stops (task_in rehearsal.now).limits stop
        (λ w. settled (run_on (task_in rehearsal.now) w)) (S.record_of store.new).present) }
    ensures marks { OnOk result ((S.record_of store.new).marked ≡ []) }
    ensures begun { OnOk result
        ((S.record_of store.new).begun ≡ (S.record_of store.old).begun +
        (S.record_of store.new).present.steps) }
    ensures within { OnOk result ((S.record_of store.new).present.steps ≤ most_steps) }
{
    let _bound = rehearsal.bounds.steps();
    let mut unread = Reported::new(rehearsal.alloc, rehearsal.env.hasher());
    let mut fewest = 0;
    match start(rehearsal, store)? {
        None => go_on(rehearsal, &mut unread, store, &mut fewest),
        Some(halt) => Ok(Stop::Ends(halt)),
    }
}

/// Gives the device command that asks an outcome, and reports what the outcome writes. Errors:
/// `Memory`.
fn give_outcome<'a, S: Store>(
    rehearsal: &Rehearsal<'a>,
    reported: &mut Reported,
    store: &mut S,
    success: bool,
) -> Result<Step<'a>, StoreError>
    requires { IsAsking (task_in rehearsal.now).limits (S.record_of store.old).present }
    ensures taken { IfOk result
        (λ step. TakesOutcome (task_in rehearsal.now).limits (outcome_when success)
        (S.record_of store.old) (S.record_of store.new) step) }
    ensures follows { IfOk result (λ step. FollowsOutcomeAbove (task_in rehearsal.now).limits
        (length (S.record_of store.old).present.frames) (outcome_when success)
        (S.record_of store.old).present step (S.record_of store.new).present
        (accesses_shown reported.old) (accesses_shown reported.new)) }
{
    let found = find_again(rehearsal.alloc, store, rehearsal.devices, rehearsal.bounds)?;
    let Step::Asks(ask) = found else {
        unreachable!();
    };
    report_outcome(rehearsal.alloc, reported, &ask, success)?;
    answer(rehearsal.alloc, store, ask, success)
}

/// Does what `resume` of the machine does, and reports what is read and written from the outcome up to
/// where the text stops, and how many frames there were at least: none if the text ended. Errors:
/// `Memory`.
pub fn resume_reported<S: Store>(
    rehearsal: &Rehearsal<'_>,
    reported: &mut Reported,
    store: &mut S,
    fewest: &mut usize,
    success: bool,
) -> Result<Stop, StoreError>
    requires asks { IsAsking (task_in rehearsal.now).limits (S.record_of store.old).present }
    requires begun { (S.record_of store.old).begun + most_steps + 1 < 2 ^ 64 }
    requires fresh { accesses_shown reported.old ≡ [] }
    ensures stops { IfOk result
        (λ stop. Stops (task_in rehearsal.now).limits stop
        (λ w. asked_at (task_in rehearsal.now).limits (S.record_of store.old).present
        (outcome_when success ∷ w)) (S.record_of store.new).present) }
    ensures marks { OnOk result ((S.record_of store.new).marked ≡ (S.record_of store.old).marked) }
    ensures begun { OnOk result
        ((S.record_of store.new).begun + (S.record_of store.old).present.steps
        ≡ (S.record_of store.old).begun + (S.record_of store.new).present.steps) }
    ensures within { OnOk result ((S.record_of store.new).present.steps ≤ most_steps) }
    ensures grows { OnOk result
        ((S.record_of store.old).present.steps ≤ (S.record_of store.new).present.steps) }
    ensures keys { IfOk result (λ stop. IsReportedAbove (task_in rehearsal.now).limits fewest.new
        (outcome_when success) (S.record_of store.old).present stop
        (S.record_of store.new).present (accesses_shown reported.new)) }
    ensures all { OnOk result (fewest.new ≤ length (S.record_of store.old).present.frames) }
    ensures frames { IfOk result (λ stop. HasFramesAtStop fewest.new stop (S.record_of store.new).present) }
{
    let _bound = rehearsal.bounds.steps();
    *fewest = store.frames().len();
    match give_outcome(rehearsal, reported, store, success)? {
        Step::Going => go_on(rehearsal, reported, store, fewest),
        Step::Asks(_) => unreachable!(),
        Step::Ends(halt) => Ok(Stop::Ends(halt)),
    }
}
