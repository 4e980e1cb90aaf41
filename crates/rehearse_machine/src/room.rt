//! Whether there is room for what a call saves.
ghost use Rattle.std.specs.Prelude.{◌≡◌, ◌≤◌, ◌-◌, nat_le, sum_by, map, SomeIff};
ghost use Rattle.std.specs.FinMap.{entries};
ghost use Rattle.text.specs.TextsShown.{option_bytes};
ghost use Rattle.device_list.specs.DevicesShown.{right_shown, setting_shown};
ghost use Rattle.rehearse_rules.specs.Needs.{bytes_saved, bytes_copied, has_room};

use bootstore_state::Store;
use device_list::{RightSide, Setting};

/// How many bytes are left of a room after a variable with this value; `None` if it does not fit.
fn left_behind(room: usize, name: &[u8], value: Option<&[u8]>) -> Option<usize>
    ensures { SomeIff result (bytes_saved name.now (option_bytes value.entry) ≤ room)
        (room - bytes_saved name.now (option_bytes value.entry)) }
{
    match value {
        Some(value) if !value.is_empty() => room
            .checked_sub(name.len())?
            .checked_sub(value.len())?
            .checked_sub(2),
        _ => Some(room),
    }
}

/// The same after the variable that a setting copies, if it copies one.
fn left_behind_copy<S: Store>(store: &S, room: usize, copied: &RightSide) -> Option<usize>
    ensures { SomeIff result
        (bytes_copied (entries (S.record_of store.now).present.environment) (right_shown copied.now) ≤ room)
        (room - bytes_copied (entries (S.record_of store.now).present.environment) (right_shown copied.now)) }
{
    match copied {
        RightSide::CopyOf(name) => left_behind(room, name, store.get_env(name)),
        RightSide::Literal(_) => Some(room),
        RightSide::ValueAt(_) => Some(room),
        RightSide::LastValue => Some(room),
        RightSide::Deleted => Some(room),
    }
}

/// Whether the copies that settings make are within a room.
fn are_within<S: Store>(store: &S, room: usize, sets: &[Setting]) -> bool
    ensures { result ≡ nat_le (sum_by (λ set. bytes_copied
        (entries (S.record_of store.now).present.environment) (right_shown set.value)) sets.now) room }
{
    let mut left = room;
    for set in sets {
        match left_behind_copy(store, left, &set.value) {
            Some(behind) => left = behind,
            None => return false,
        }
    }
    true
}

/// Whether there is room for the copies that settings make.
pub(crate) fn has_room<S: Store>(store: &S, room: Option<usize>, sets: &[Setting]) -> bool
    ensures { result ≡ has_room room (entries (S.record_of store.now).present.environment)
        (map setting_shown sets.now) }
{
    match room {
        Some(room) => are_within(store, room, sets),
        None => true,
    }
}
