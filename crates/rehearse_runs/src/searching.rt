//! The search for the next run.
ghost use Rattle.std.specs.Prelude.{◌≡◌, ◌+◌, ◌-◌, ◌*◌, ◌<◌, ◌≤◌, ◌^◌, ◌∷◌, [], ◌++◌, ◌&&◌, length, reverse, take, IfOk, OnOk};
ghost use Rattle.rehearse_runs.specs.RunsShown.{outcomes};
ghost use Rattle.rehearse_runs.specs.Phases.{AreDigits};
ghost use Rattle.rehearse_runs.specs.Searching.{
  AreAsked,
  AreMarks,
  ExpectedFor,
  ExpectsFor,
  IsCounted,
  MarksIf,
  Found,
  FoundFirst,
  FoundNext,
  KeepsIf,
  requests,
};
ghost use Rattle.rehearse_machine.specs.Machine.{HasAsk, IsAsked, outcome_when, stop_of};
ghost use Rattle.rehearse_machine.specs.MovesShown.{request_shown};
ghost use Rattle.rehearse_machine.specs.declared.rehearsal.Stop.TheVariants.{Asks};
ghost use Rattle.rehearse_rules.specs.Listing.{outcome_digit};
ghost use Rattle.rehearse_machine.specs.StoppedTexts.{StoppedAt};
ghost use Rattle.rehearse_machine.specs.Tasks.{task_in};
ghost use Rattle.rehearse_terms.specs.Bounds.{most_run_devices, most_steps};
ghost use Rattle.rehearse_rules.specs.Runs.{IsListed, is_at_most};

use crate::failing::{after, asked, is_at_most, unexpected_for};
use bootstore_state::{Store, StoreError};
use output::Bytes;
use rehearse_machine::{Ask, Rehearsal, Stopped, begin, expected_answer, resume};
use rehearse_rules::Halt;
use std::alloc::Global;

/// The digits of a word.
pub(crate) type Digits = Bytes<1000>;

/// Marks the state in which a device command asks, if its success may be a failure, and keeps the
/// command. Errors: `Memory`.
fn mark_if<'a, S: Store>(
    alloc: Global,
    store: &mut S,
    asks: &mut Vec<Ask<'a>>,
    ask: &Ask<'a>,
    may: bool,
) -> Result<(), StoreError>
    ensures marks { OnOk result (MarksIf may (S.record_of store.old) (S.record_of store.new)) }
    ensures keeps { OnOk result (KeepsIf may (request_shown ask.now)
        (requests asks.old.items) (requests asks.new.items)) }
{
    if may {
        store.mark()?;
        let kept = ask.copy(alloc)?;
        asks.push(kept)?;
    }
    Ok(())
}

/// The digit of an outcome.
fn digit_of(success: bool) -> u8
    ensures { result ≡ outcome_digit (outcome_when success) }
{
    if success { b'0' } else { b'1' }
}

/// Whether an outcome is a success that may be a failure, after which so many answers are unexpected.
fn may_turn(most: Option<u32>, lost: usize, success: bool) -> bool
    ensures { result ≡ (success && is_at_most most lost) }
{
    success && is_at_most(most, lost)
}

/// Whether a success is expected of a device command that asks, if so many answers at most may be
/// unexpected. Without such a bound the answer says nothing, and takes no time. Errors: `Memory`.
pub(crate) fn expected_for(
    rehearsal: &Rehearsal<'_>,
    ask: &Ask<'_>,
) -> Result<Option<bool>, StoreError>
    ensures { IfOk result (λ answer. ExpectedFor (task_in rehearsal.now).failures
        (task_in rehearsal.now).limits.devices (request_shown ask.now) answer) }
{
    if rehearsal.bounds.failures().is_none() {
        return Ok(None);
    }
    expected_answer(rehearsal.alloc, rehearsal.devices, ask)
}

/// Gives the device command that asks an outcome. Marks a success that may be a failure, and keeps its command. So many answers were unexpected
/// before it.
pub(crate) fn choose<'a, S: Store, const N: usize>(
    rehearsal: &Rehearsal<'a>,
    store: &mut S,
    digits: &mut Bytes<N>,
    asks: &mut Vec<Ask<'a>>,
    ask: Ask<'a>,
    count: usize,
    expected: Option<bool>,
    success: bool,
) -> Result<Stopped<'a>, StoreError>
    requires asks { StoppedAt (task_in rehearsal.now) (outcomes digits.old.items) Asks
        (S.record_of store.old).present }
    requires this { IsAsked (task_in rehearsal.now).limits (request_shown ask)
        (S.record_of store.old).present }
    requires expects { ExpectsFor (task_in rehearsal.now).failures (task_in rehearsal.now).limits
        (S.record_of store.old).present expected }
    requires count { IsCounted (task_in rehearsal.now) (outcomes digits.old.items) count }
    requires marks { AreMarks (task_in rehearsal.now) (outcomes digits.old.items)
        (S.record_of store.old).marked }
    requires kept { AreAsked (task_in rehearsal.now).limits (reverse (requests asks.old.items))
        (S.record_of store.old).marked }
    requires begun { (S.record_of store.old).begun + most_steps + 1 < 2 ^ 64 }
    requires bound { (task_in rehearsal.now).limits.device_bound ≤ N }
    ensures stopped { IfOk result
        (λ stopped. StoppedAt (task_in rehearsal.now) (outcomes digits.new.items)
        (stop_of stopped) (S.record_of store.new).present) }
    ensures command { IfOk result
        (λ stopped. HasAsk (task_in rehearsal.now).limits stopped
        (S.record_of store.new).present) }
    ensures marks { OnOk result
        (AreMarks (task_in rehearsal.now) (outcomes digits.new.items)
        (S.record_of store.new).marked) }
    ensures kept { OnOk result (AreAsked (task_in rehearsal.now).limits
        (reverse (requests asks.new.items)) (S.record_of store.new).marked) }
    ensures digits { digits.new.items ≡ digits.old.items ++ outcome_digit (outcome_when success) ∷ [] }
    ensures begun { OnOk result
        ((S.record_of store.new).begun + (S.record_of store.old).present.steps
        ≡ (S.record_of store.old).begun + (S.record_of store.new).present.steps) }
    ensures within { OnOk result ((S.record_of store.new).present.steps ≤ most_steps) }
    ensures grows { OnOk result
        ((S.record_of store.old).present.steps ≤ (S.record_of store.new).present.steps) }
{
    let _bound = rehearsal.bounds.devices();
    let lost = after(count, expected, false);
    let may = may_turn(rehearsal.bounds.failures(), lost, success);
    digits.push(digit_of(success));
    mark_if(rehearsal.alloc, store, asks, &ask, may)?;
    let next = resume(rehearsal, store, ask, success)?;
    Ok(next)
}

/// Goes on with the first outcome that is allowed at each device command that asks, each marked if it is a success that may
/// be a failure, until the run ends. So many answers were unexpected before it.
pub(crate) fn search<'a, S: Store>(
    rehearsal: &Rehearsal<'a>,
    store: &mut S,
    digits: &mut Digits,
    asks: &mut Vec<Ask<'a>>,
    stopped: Stopped<'a>,
    count: usize,
) -> Result<Halt, StoreError>
    requires count { stop_of stopped ≡ Asks
        → IsCounted (task_in rehearsal.now) (outcomes digits.old.items) count }
    requires stopped { StoppedAt (task_in rehearsal.now) (outcomes digits.old.items)
        (stop_of stopped) (S.record_of store.old).present }
    requires command { HasAsk (task_in rehearsal.now).limits stopped
        (S.record_of store.old).present }
    requires marks { AreMarks (task_in rehearsal.now) (outcomes digits.old.items)
        (S.record_of store.old).marked }
    requires kept { AreAsked (task_in rehearsal.now).limits (reverse (requests asks.old.items))
        (S.record_of store.old).marked }
    requires digits { AreDigits digits.old.items }
    requires within { (S.record_of store.old).present.steps ≤ most_steps }
    requires begun { (S.record_of store.old).begun +
        (most_steps - (S.record_of store.old).present.steps) + most_steps + 1 < 2 ^ 64 }
    requires bound { (task_in rehearsal.now).limits.device_bound ≤ most_run_devices }
    ensures ok { IfOk result (λ halt. Found (task_in rehearsal.now) (outcomes digits.old.items)
        (outcomes digits.new.items) halt (S.record_of store.old) (S.record_of store.new)) }
    ensures kept { OnOk result (AreAsked (task_in rehearsal.now).limits
        (reverse (requests asks.new.items)) (S.record_of store.new).marked) }
    ensures digits { AreDigits digits.new.items }
{
    match stopped {
        Stopped::Ends(halt) => Ok(halt),
        Stopped::Asks(ask) => {
            let expected = expected_for(rehearsal, &ask)?;
            let won = after(count, expected, true);
            let success = is_at_most(rehearsal.bounds.failures(), won);
            let next = choose(
                rehearsal, store, digits, asks, ask, count, expected, success,
            )?;
            let more = after(count, expected, success);
            search(rehearsal, store, digits, asks, next, more)
        }
    }
}

/// Finds the first run. Errors: `Memory`.
pub(crate) fn first_run<'a, S: Store>(
    rehearsal: &Rehearsal<'a>,
    store: &mut S,
    digits: &mut Digits,
    asks: &mut Vec<Ask<'a>>,
) -> Result<Halt, StoreError>
    requires begun { (S.record_of store.old).begun + 2 * most_steps + 1 < 2 ^ 64 }
    requires bound { (task_in rehearsal.now).limits.device_bound ≤ most_run_devices }
    ensures ok { IfOk result (λ halt. FoundFirst (task_in rehearsal.now) (outcomes digits.new.items)
        halt (S.record_of store.old) (S.record_of store.new)) }
    ensures kept { OnOk result (AreAsked (task_in rehearsal.now).limits
        (reverse (requests asks.new.items)) (S.record_of store.new).marked) }
    ensures digits { AreDigits digits.new.items }
{
    digits.clear();
    asks.clear();
    let stopped = begin(rehearsal, store)?;
    search(rehearsal, store, digits, asks, stopped, 0)
}

/// Keeps the first digits of a word, and drops the others.
fn cut(digits: &mut Digits, count: usize)
    requires { count ≤ length digits.old.items }
    ensures { digits.new.items ≡ take count digits.old.items }
{
    while digits.len() > count {
        digits.pop();
    }
}

/// Finds the run after the one that the store holds: goes back to the last mark, where the command
/// that was kept last now fails. Gives `None` if there is no further run. Errors: `Memory`.
pub(crate) fn next_run<'a, S: Store>(
    rehearsal: &Rehearsal<'a>,
    store: &mut S,
    digits: &mut Digits,
    asks: &mut Vec<Ask<'a>>,
) -> Result<Option<Halt>, StoreError>
    requires run { IsListed (task_in rehearsal.now) (outcomes digits.old.items) }
    requires marks { AreMarks (task_in rehearsal.now) (outcomes digits.old.items)
        (S.record_of store.old).marked }
    requires kept { AreAsked (task_in rehearsal.now).limits (reverse (requests asks.old.items))
        (S.record_of store.old).marked }
    requires digits { AreDigits digits.old.items }
    requires begun { (S.record_of store.old).begun + 2 * most_steps + 1 < 2 ^ 64 }
    requires bound { (task_in rehearsal.now).limits.device_bound ≤ most_run_devices }
    ensures ok { IfOk result (λ found. FoundNext (task_in rehearsal.now) (outcomes digits.old.items)
        (outcomes digits.new.items) found (S.record_of store.old) (S.record_of store.new)) }
    ensures kept { OnOk result (AreAsked (task_in rehearsal.now).limits
        (reverse (requests asks.new.items)) (S.record_of store.new).marked) }
    ensures digits { AreDigits digits.new.items }
{
    if !store.has_mark() {
        return Ok(None);
    }
    store.back();
    let Some(ask) = asks.pop() else {
        unreachable!();
    };
    cut(digits, asked(store.log()));
    digits.push(b'1');
    let stopped = resume(rehearsal, store, ask, false)?;
    let count = unexpected_for(rehearsal.bounds.failures(), rehearsal.devices, store.log());
    let halt = search(rehearsal, store, digits, asks, stopped, count)?;
    Ok(Some(halt))
}
