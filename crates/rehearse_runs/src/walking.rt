//! The walk along the digits of a word.
ghost use Rattle.std.specs.Prelude.{◌≡◌, ◌+◌, ◌-◌, ◌*◌, ◌<◌, ◌≤◌, ◌^◌, ◌∷◌, [], ◌++◌, reverse, IfOk, OnOk};
ghost use Rattle.rehearse_terms.specs.Bounds.{most_steps};
ghost use Rattle.rehearse_rules.specs.Listing.{outcome_digit};
ghost use Rattle.rehearse_runs.specs.RunsShown.{outcomes};
ghost use Rattle.rehearse_machine.specs.Machine.{HasAsk, outcome_when, stop_of};
ghost use Rattle.rehearse_runs.specs.Searching.{AreAsked, AreMarks, IsCounted, requests};
ghost use Rattle.rehearse_machine.specs.StoppedTexts.{StoppedAt};
ghost use Rattle.rehearse_machine.specs.Tasks.{task_in};
ghost use Rattle.rehearse_runs.specs.Walking.{BeginsWithDigit, KeepsFor, Walks, WalksTo};

use crate::failing::after;
use crate::searching::{choose, expected_for};
use bootstore_state::{Store, StoreError};
use output::Bytes;
use rehearse_machine::{Ask, Rehearsal, Stopped, begin};
use rehearse_rules::Halt;

/// Where a walk ends.
#[derive(Drop)]
pub(crate) enum Walked {
    /// The text is the digits of a run, which the store holds.
    Ends(Halt),
    /// A device command asks, and no digit is left.
    Short,
    /// The run ends before the text, or a byte is not a digit.
    Long,
}

/// The outcome that a text starts with, and the digits after it.
fn next_outcome(text: &[u8]) -> Option<(bool, &[u8])>
    ensures { BeginsWithDigit text.now result }
{
    match text.split_first() {
        Some((b'0', behind)) => Some((true, behind)),
        Some((b'1', behind)) => Some((false, behind)),
        _ => None,
    }
}

/// Goes on along the digits of a text. So many answers were unexpected before it.
fn walk<'a, S: Store, const N: usize>(
    rehearsal: &Rehearsal<'a>,
    store: &mut S,
    digits: &mut Bytes<N>,
    asks: &mut Vec<Ask<'a>>,
    stopped: Stopped<'a>,
    text: &[u8],
    count: usize,
) -> Result<Walked, StoreError>
    requires count { IsCounted (task_in rehearsal.now) (outcomes digits.old.items) count }
    requires stopped { StoppedAt (task_in rehearsal.now) (outcomes digits.old.items)
        (stop_of stopped) (S.record_of store.old).present }
    requires command { HasAsk (task_in rehearsal.now).limits stopped
        (S.record_of store.old).present }
    requires marks { AreMarks (task_in rehearsal.now) (outcomes digits.old.items)
        (S.record_of store.old).marked }
    requires kept { AreAsked (task_in rehearsal.now).limits (reverse (requests asks.old.items))
        (S.record_of store.old).marked }
    requires within { (S.record_of store.old).present.steps ≤ most_steps }
    requires begun { (S.record_of store.old).begun +
        (most_steps - (S.record_of store.old).present.steps) + most_steps + 1 < 2 ^ 64 }
    requires bound { (task_in rehearsal.now).limits.device_bound ≤ N }
    ensures ok { IfOk result (λ found. Walks (task_in rehearsal.now) (outcomes digits.old.items)
        digits.old.items text.now digits.new.items (outcomes digits.new.items) found
        (S.record_of store.old) (S.record_of store.new)) }
    ensures kept { IfOk result (λ found. KeepsFor found (task_in rehearsal.now).limits
        (requests asks.new.items) (S.record_of store.new)) }
{
    match stopped {
        Stopped::Ends(halt) => {
            if text.is_empty() {
                Ok(Walked::Ends(halt))
            } else {
                Ok(Walked::Long)
            }
        }
        Stopped::Asks(ask) => {
            if text.is_empty() {
                return Ok(Walked::Short);
            }
            let Some((success, behind)) = next_outcome(text) else {
                return Ok(Walked::Long);
            };
            let _bound = rehearsal.bounds.devices();
            let expected = expected_for(rehearsal, &ask)?;
            let next = choose(
                rehearsal, store, digits, asks, ask, count, expected, success,
            )?;
            let more = after(count, expected, success);
            walk(rehearsal, store, digits, asks, next, behind, more)
        }
    }
}

/// Walks along the digits of a text, from the start of a run, and says whether they are the digits
/// of a run. Errors: `Memory`.
pub(crate) fn walk_to<'a, S: Store, const N: usize>(
    rehearsal: &Rehearsal<'a>,
    store: &mut S,
    digits: &mut Bytes<N>,
    asks: &mut Vec<Ask<'a>>,
    text: &[u8],
) -> Result<Walked, StoreError>
    requires begun { (S.record_of store.old).begun + 2 * most_steps + 1 < 2 ^ 64 }
    requires bound { (task_in rehearsal.now).limits.device_bound ≤ N }
    ensures ok { IfOk result (λ found. WalksTo (task_in rehearsal.now) text.now digits.new.items
        (outcomes digits.new.items) found (S.record_of store.old) (S.record_of store.new)) }
    ensures kept { IfOk result (λ found. KeepsFor found (task_in rehearsal.now).limits
        (requests asks.new.items) (S.record_of store.new)) }
{
    digits.clear();
    asks.clear();
    let stopped = begin(rehearsal, store)?;
    walk(rehearsal, store, digits, asks, stopped, text, 0)
}
