//! Outcomes of device commands.
ghost use Rattle.std.specs.Prelude.{◌≡◌, ◌∷◌, [], false, map, option_map, IfOk, if◌then◌else◌};
ghost use Rattle.std.specs.FinMap.{entries};
ghost use Rattle.text.specs.TextsShown.{bytes_of_words};
ghost use Rattle.device_list.specs.Called as called;
ghost use Rattle.device_list.specs.Called.{named_by, variable_of, value_of, sets_in};
ghost use Rattle.device_list.specs.DevicesShown.{left_shown, right_shown, setting_shown};
ghost use Rattle.device_list.specs.Saving.{copy_of};
ghost use Rattle.rehearse_terms.specs.Outcomes.{Outcome};
ghost use Rattle.rehearse_terms.specs.State.{get};
ghost use Rattle.rehearse_rules.specs.Execution.{succeeds, with_all};
ghost use Rattle.device_list.specs.CommandsShown.{lent_effect};
ghost use Rattle.device_list.specs.DeviceList.{Devices as ListedDevices};
ghost use Rattle.rehearse_machine.specs.Places.{place_taken, place_answered, place_ask};
ghost use Rattle.rehearse_machine.specs.MovesShown.{Changed, Comes, request_shown, limits_of};
ghost use Rattle.rehearse_machine.specs.NewValueShown.{new_value_shown};

use crate::ask::{Ask, Statuses, Step};
use crate::file_moves::hand_over;
use crate::new_value::NewValue;
use crate::told::told;
use bootstore_state::{LogEntry, Store, StoreError};
use commands::is_bad_name;
use device_list::{Effect, LeftSide, RightSide, Setting, takes};
use rehearse_rules::Halt;
use rehearse_terms::RunBounds;
use std::alloc::Global;
use text::copied_words;

/// Gives a device command its outcome, which goes into the log and decides the status. On success
/// the command sets its variables, and may end the run, or hand over to the text of a file. Errors:
/// `Memory`.
pub fn answer<'d, S: Store>(
    alloc: Global,
    store: &mut S,
    ask: Ask<'d>,
    success: bool,
) -> Result<Step<'d>, StoreError>
    ensures { (outcome : Outcome) → succeeds outcome ≡ success
        → Comes result (S.record_of store.old) (S.record_of store.new)
        (place_answered outcome (request_shown ask.entry) (S.record_of store.old).present.frames) }
{
    hand_over(alloc, store, ask.effect.runs)?;
    take(alloc, store, ask, success)
}

/// Gives a device command its outcome, above the frames that are there.
fn take<'d, S: Store>(
    alloc: Global,
    store: &mut S,
    ask: Ask<'d>,
    success: bool,
) -> Result<Step<'d>, StoreError>
    ensures { (outcome : Outcome) → succeeds outcome ≡ success
        → Comes result (S.record_of store.old) (S.record_of store.new)
        (place_taken outcome (request_shown ask.entry) (S.record_of store.old).present.frames) }
{
    let Ask {
        name,
        mut words,
        effect,
        again,
        statuses,
    } = ask;
    set_all(alloc, store, &words, sets_on(success, effect))?;
    words.insert(0, name.clone()?)?;
    let stays = effect.stays;
    store.device(LogEntry {
        success,
        words,
        stays,
        again,
    })?;
    if !success {
        store.set_status(statuses.failure)?;
        return Ok(Step::Going);
    }
    store.set_status(statuses.success)?;
    if let Some(finish) = effect.ends {
        return Ok(Step::Ends(Halt::Finished(finish, name)));
    }
    Ok(Step::Going)
}

/// A device command, if the bound allows one more: one that is given its answer again goes on with
/// it, and another one asks. Errors: `Memory`.
pub(crate) fn ask<'d, S: Store>(
    alloc: Global,
    store: &mut S,
    bounds: RunBounds,
    name: &[u8],
    words: &[Vec<u8>],
    effect: Effect<'d>,
    statuses: Statuses,
) -> Result<Step<'d>, StoreError>
    ensures { (devices : ListedDevices) → Comes result (S.record_of store.old)
        (S.record_of store.new) (place_ask (limits_of devices bounds) (record {
          name = name.now;
          words = bytes_of_words words.now;
          effect = lent_effect effect.entry;
          again = false;
          on_success = statuses.success;
          on_failure = statuses.failure;
        }) (S.record_of store.old).present.frames) }
{
    let asked = store.log().len();
    if asked >= bounds.devices() as usize {
        return Ok(Step::Ends(Halt::CutDevices));
    }
    let answered = told(store, name, words, effect);
    let request = Ask {
        name: Vec::from_slice(alloc, name)?,
        words: copied_words(alloc, words)?,
        effect,
        again: answered.is_some(),
        statuses,
    };
    match answered {
        Some(success) => answer(alloc, store, request, success),
        None => Ok(Step::Asks(request)),
    }
}

/// What an outcome sets: nothing on failure.
fn sets_on(success: bool, effect: Effect<'_>) -> &[Setting]
    ensures { result.now ≡ (if success then effect.entry.sets.now else []) }
{
    if success { effect.sets } else { &[] }
}

/// Sets what a call with these words sets, one setting after another. Errors: `Memory`.
fn set_all<S: Store>(
    alloc: Global,
    store: &mut S,
    words: &[Vec<u8>],
    sets: &[Setting],
) -> Result<(), StoreError>
    ensures { Changed result (S.record_of store.old) (S.record_of store.new)
        (λ m. record m {
          environment = with_all
              (sets_in (bytes_of_words words.now) (map setting_shown sets.now)) m.environment;
        }) }
{
    for set in sets {
        set_one(alloc, store, words, set)?;
    }
    Ok(())
}

/// Makes one setting in a call with these words: the variable is set, also to a copy of another
/// one, or it is deleted. Errors: `Memory`.
fn set_one<S: Store>(
    alloc: Global,
    store: &mut S,
    words: &[Vec<u8>],
    set: &Setting,
) -> Result<(), StoreError>
    ensures { Changed result (S.record_of store.old) (S.record_of store.new)
        (λ m. record m {
          environment = with_all
              (sets_in (bytes_of_words words.now) (setting_shown set.now ∷ [])) m.environment;
        }) }
{
    let Some(name) = variable_of(&set.left, words) else {
        return Ok(());
    };
    let Some(value) = value_of(&set.value, words) else {
        return Ok(());
    };
    match value {
        NewValue::Value(text) => store.set_env(name, Some(text)),
        NewValue::Copied(other) => {
            let copy = copy_of(alloc, store, other)?;
            store.set_env(name, Some(&copy))
        }
        NewValue::Unset => store.set_env(name, None),
    }
}

/// What a copy of an environment variable holds: `=` and the value, or nothing if the variable is
/// not set. Errors: `Memory`.
fn copy_of<S: Store>(alloc: Global, store: &S, name: &[u8]) -> Result<Vec<u8>, StoreError>
    ensures { IfOk result (λ copy. copy.items
        ≡ copy_of (get (entries (S.record_of store.now).present.environment) name.now)) }
{
    let mut copy = Vec::new(alloc);
    let Some(value) = store.get_env(name) else {
        return Ok(copy);
    };
    copy.push(b'=')?;
    copy.extend_from_slice(value)?;
    Ok(copy)
}

/// What the right side of a setting means in a call with these words.
pub fn value_of<'a>(right: &'a RightSide, words: &'a [Vec<u8>]) -> Option<NewValue<'a>>
    ensures { option_map new_value_shown result ≡ value_of (right_shown right.now)
        (bytes_of_words words.now) }
{
    match right {
        RightSide::Literal(text) => Some(NewValue::Value(text)),
        RightSide::ValueAt(place) => word_value(words.get(*place as usize)),
        RightSide::LastValue => word_value(words.last()),
        RightSide::Deleted => Some(NewValue::Unset),
        RightSide::CopyOf(name) => Some(NewValue::Copied(name)),
    }
}

/// The value that a word is, if there is one.
fn word_value(word: Option<&Vec<u8>>) -> Option<NewValue<'_>>
    ensures { option_map new_value_shown result
        ≡ option_map called.Value (option_map (λ w. w.now.items) word.entry) }
{
    let word = word?;
    Some(NewValue::Value(word))
}

/// The variable that the left side of a setting means in a call with these words.
pub fn variable_of<'a>(left: &'a LeftSide, words: &'a [Vec<u8>]) -> Option<&'a [u8]>
    ensures { option_map (λ n. n.now) result ≡ variable_of (left_shown left.now)
        (bytes_of_words words.now) }
{
    match left {
        LeftSide::Variable(name) => Some(name),
        LeftSide::WordAt(place) => named_by(words.get(*place as usize)),
        LeftSide::LastWord => named_by(words.last()),
        LeftSide::Imported {
            name,
            reading,
            first,
        } => {
            if takes(words, name, *reading, *first) {
                Some(name)
            } else {
                None
            }
        }
        LeftSide::Saving => None,
    }
}

/// The variable that a word of a call names, if it is the name of one.
fn named_by(word: Option<&Vec<u8>>) -> Option<&[u8]>
    ensures { option_map (λ n. n.now) result ≡ named_by (option_map (λ w. w.now.items) word.entry) }
{
    let name = word?;
    if is_bad_name(name) {
        return None;
    }
    Some(name)
}
