//! What is known of a device command before it is asked: the answer that it has, and whether it can succeed.
ghost use Rattle.std.specs.Prelude.{◌≡◌, ◌∷◌, ◌&&◌, [], not, false};
ghost use Rattle.text.specs.TextsShown.{bytes_of_words};
ghost use Rattle.device_list.specs.CommandsShown.{lent_effect};
ghost use Rattle.rehearse_rules.specs.Execution.{request_of, told};
ghost use Rattle.rehearse_rules.specs.Needs.{is_met, effect_now};
ghost use Rattle.rehearse_terms.specs.State.{same_words, answer_in};
ghost use Rattle.bootstore_state.specs.StoredState.{state_at};

use crate::room::has_room;
use bootstore_state::{LogEntry, Store, has_succeeded};
use device_list::Effect;

/// Whether the words of a logged command are these, the name first.
fn is_call(call: &[Vec<u8>], name: &[u8], words: &[Vec<u8>]) -> bool
    ensures { result ≡ same_words (name.now ∷ bytes_of_words words.now) (bytes_of_words call.now) }
{
    match call {
        [first, rest @ ..] => name == first.as_slice() && words == rest,
        [] => false,
    }
}

/// Whether a logged command has the answer that stays for one with these words.
fn answers(entry: &LogEntry, name: &[u8], words: &[Vec<u8>]) -> bool
    ensures { result ≡ ((not entry.now.again && entry.now.stays)
        && same_words (name.now ∷ bytes_of_words words.now) entry.now.words) }
{
    entry.has_answer() && is_call(&entry.words, name, words)
}

/// The answer in a log that stays for a command with these words. Looks at each entry until it is
/// found.
fn answer_in(log: &[LogEntry], name: &[u8], words: &[Vec<u8>]) -> Option<bool>
    ensures { result ≡ answer_in log.now (name.now ∷ bytes_of_words words.now) }
{
    for entry in log {
        if answers(entry, name, words) {
            return Some(entry.success);
        }
    }
    None
}

/// Whether the call that is needed has succeeded, if one is needed.
fn is_met(needs: &[Vec<u8>], log: &[LogEntry]) -> bool
    ensures { result ≡ is_met (bytes_of_words needs.now) log.now }
{
    match needs {
        [] => true,
        [_, ..] => has_succeeded(log, needs),
    }
}

/// What a device command does now, with this room for what is saved: if it cannot succeed, since the
/// call that it needs has not, or since what it saves has no room, it fails without being asked, and
/// this answer does not stay.
pub(crate) fn effect_now<'d, S: Store>(
    store: &S,
    room: Option<usize>,
    effect: Effect<'d>,
) -> Effect<'d>
    ensures { lent_effect result
        ≡ effect_now room (state_at (S.record_of store.now).present []) (lent_effect effect.entry) }
{
    if is_met(effect.needs, store.log()) && has_room(store, room, effect.sets) {
        return effect;
    }
    Effect {
        stays: false,
        always: Some(false),
        ..effect
    }
}

/// The answer that a command has without an outcome: that of before, if its answers stay and it was
/// asked before with the same words; or the only one that it has.
pub(crate) fn told<S: Store>(
    store: &S,
    name: &[u8],
    words: &[Vec<u8>],
    effect: Effect<'_>,
) -> Option<bool>
    ensures { result ≡ told
        (request_of name.now (bytes_of_words words.now) (lent_effect effect.entry)) (S.record_of store.now).present.log }
{
    if effect.stays {
        answer_in(store.log(), name, words)
    } else {
        effect.always
    }
}
