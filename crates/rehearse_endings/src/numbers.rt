//! The numbers under which the table keeps states: of a place, and of what is known there so far.
ghost use Rattle.std.specs.Prelude.{◌≡◌, IsTrue};
ghost use Rattle.text.specs.TextsShown.{option_bytes};
ghost use Rattle.rehearse_reports.specs.Known.{key_of};
ghost use Rattle.rehearse_endings.specs.Numbers.{mixed_answer, mixed_flag, mixed_here, mixed_known, mixed_value};

use bootstore_state::{Store, has_succeeded};
use rehearse_reports::{Known, answer_to};
use rehearse_states::{mix, mix_text, mix_words};

/// Adds a value, or that there is none.
fn mix_value(hash: u64, value: Option<&[u8]>) -> u64
    ensures { result ≡ mixed_value hash (option_bytes value.entry) }
{
    match value {
        Some(bytes) => mix_text(mix(hash, 1), bytes),
        None => mix(hash, 0),
    }
}

/// Adds whether something is so.
fn mix_flag(hash: u64, is_so: bool) -> u64
    ensures { result ≡ mixed_flag hash is_so }
{
    if is_so { mix(hash, 1) } else { mix(hash, 0) }
}

/// Adds an answer, or that there is none.
fn mix_answer(hash: u64, answer: Option<bool>) -> u64
    ensures { result ≡ mixed_answer hash answer }
{
    match answer {
        Some(success) => mix_flag(mix(hash, 1), success),
        None => mix(hash, 0),
    }
}

/// Whether both are known of the same key.
pub(crate) fn have_one_key(one: &Known, other: &Known) -> bool
    ensures { IsTrue result → key_of one.now ≡ key_of other.now }
{
    match (one, other) {
        (Known::Environment(name, _), Known::Environment(other, _)) => {
            name.as_slice() == other.as_slice()
        }
        (Known::Local(name, _), Known::Local(other, _)) => name.as_slice() == other.as_slice(),
        (Known::AnswerTo(call, _), Known::AnswerTo(other, _)) => {
            call.as_slice() == other.as_slice()
        }
        (Known::Succeeded(start, _), Known::Succeeded(other, _)) => {
            start.as_slice() == other.as_slice()
        }
        (Known::Status(_), Known::Status(_)) => true,
        _ => false,
    }
}

/// Adds a key and what is known at it. The first part is the kind of the key.
pub(crate) fn mix_known(hash: u64, known: &Known) -> u64
    ensures { result ≡ mixed_known hash known.now }
{
    match known {
        Known::Environment(name, value) => {
            mix_value(mix_text(mix(hash, 1), name), value.as_deref())
        }
        Known::Local(name, value) => { mix_value(mix_text(mix(hash, 2), name), value.as_deref()) }
        Known::AnswerTo(call, answer) => mix_answer(mix_words(mix(hash, 3), call), *answer),
        Known::Succeeded(start, has) => mix_flag(mix_words(mix(hash, 4), start), *has),
        Known::Status(status) => mix(mix(hash, 5), u64::from(*status)),
    }
}

/// Adds the key of what is known, and what the present state of a store has at it.
pub(crate) fn mix_here<S: Store>(store: &S, hash: u64, known: &Known) -> u64
    ensures { result ≡ mixed_here (S.record_of store.now).present hash known.now }
{
    match known {
        Known::Environment(name, _) => {
            mix_value(mix_text(mix(hash, 1), name), store.get_env(name))
        }
        Known::Local(name, _) => mix_value(mix_text(mix(hash, 2), name), store.get_local(name)),
        Known::AnswerTo(call, _) => {
            mix_answer(mix_words(mix(hash, 3), call), answer_to(store.log(), call))
        }
        Known::Succeeded(start, _) => {
            mix_flag(
                mix_words(mix(hash, 4), start),
                has_succeeded(store.log(), start),
            )
        }
        Known::Status(_) => mix(mix(hash, 5), u64::from(store.get_status())),
    }
}
