//! One move of a `for`: its variable gets the next field, or the loop ends.
ghost use Rattle.std.specs.Prelude.{◌≡◌, OnOk, slice_get};
ghost use Rattle.bootstore_state.specs.Record.{changed, with_status};
ghost use Rattle.rehearse_rules.specs.ByShell.{status_in_turn};
ghost use Rattle.hushlang.specs.TreesShown as view;
ghost use Rattle.rehearse_machine.specs.Places.{for_turn};
ghost use Rattle.rehearse_machine.specs.MovesShown.{Moves};

use crate::ask::Step;
use crate::by_shell::status_in_turn;
use crate::frames::{block, change_status, enter, in_turn, leave};
use bootstore_state::{Frame, Store, StoreError};
use hushlang::Script;
use rehearse_terms::Shell;
use std::rc::Rc;

/// Sets the status with which the body of a `for` begins.
fn begin_body<S: Store>(store: &mut S, shell: Shell) -> Result<(), StoreError>
    ensures { OnOk result (S.record_of store.new ≡ changed
        (with_status (status_in_turn shell (S.record_of store.old).present.status))
        (S.record_of store.old)) }
{
    let status = status_in_turn(shell, store.get_status());
    change_status(store, status)
}

/// Goes on with a `for` whose variable has this name: with its body and the next field, or after it
/// if no field is left.
pub fn next_turn<'d, S: Store>(
    store: &mut S,
    frame: &Frame,
    shell: Shell,
    name: &[u8],
    body: &Rc<Script>,
) -> Result<Step<'d>, StoreError>
    ensures { Moves frame.now result (S.record_of store.old) (S.record_of store.new)
        (for_turn shell (slice_get frame.now.words frame.now.place.turn) name.now
        (view.script body.now.value) frame.now) }
{
    let at = frame.at();
    let Some(field) = frame.words().get(at.turn) else {
        return leave(store);
    };
    store.set_local(name, field)?;
    begin_body(store, shell)?;
    enter(store, in_turn(at, at.turn, 0), block(body.clone()?))
}
