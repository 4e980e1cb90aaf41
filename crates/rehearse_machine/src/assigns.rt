//! Assignments of shell variables.
ghost use Rattle.std.specs.Prelude.{◌∷◌, ◌+◌, ◌<◌, ◌^◌, map};
ghost use Rattle.hushlang.specs.TreesShown as view;
ghost use Rattle.hushlang.specs.Tree as tree;
ghost use Rattle.device_list.specs.DeviceList.{Devices as ListedDevices};
ghost use Rattle.rehearse_machine.specs.Places as places;
ghost use Rattle.rehearse_machine.specs.MovesShown.{Changed, Moves, limits_of};
ghost use Rattle.rehearse_rules.specs.Execution.{assigned};

use crate::ask::Step;
use crate::by_shell::is_refused;
use crate::frames::{behind, finish};
use crate::steps::{assigned_value, count};
use bootstore_state::{Frame, Store, StoreError};
use hushlang::Word;
use rehearse_rules::Halt;
use rehearse_terms::{RunBounds, Shell};
use std::alloc::Global;

/// Begins a step for assignments, and assigns.
pub(crate) fn begin_assign<'d, S: Store>(
    alloc: Global,
    store: &mut S,
    frame: &Frame,
    bounds: RunBounds,
    values: &[(Vec<u8>, Word)],
) -> Result<Step<'d>, StoreError>
    requires command { frame.now.place.command + 1 < 2 ^ 64 }
    requires begun { (S.record_of store.old).begun + 1 < 2 ^ 64 }
    ensures { (devices : ListedDevices) → Moves frame.now result (S.record_of store.old)
        (S.record_of store.new)
        (places.place_command (limits_of devices bounds) (tree.Assign (map view.value values.now))
        frame.now) }
{
    let counted = count(store, bounds)?;
    if !counted {
        return Ok(Step::Ends(Halt::CutSteps));
    }
    assign(alloc, store, frame, bounds.shell(), values)
}

/// Gives a shell variable this value, unless the shell refuses the value.
fn assign_one<S: Store>(
    store: &mut S,
    shell: Shell,
    name: &[u8],
    value: &[u8],
) -> Result<(), StoreError>
    ensures { Changed result (S.record_of store.old) (S.record_of store.new)
        (assigned shell name.now value.now) }
{
    if is_refused(shell, value) {
        return Ok(());
    }
    store.set_local(name, value)?;
    Ok(())
}

/// Assigns the values in turn, each by the variables that the ones before it left. Then the status
/// is 0.
fn assign<'d, S: Store>(
    alloc: Global,
    store: &mut S,
    frame: &Frame,
    shell: Shell,
    values: &[(Vec<u8>, Word)],
) -> Result<Step<'d>, StoreError>
    requires { frame.now.place.command + 1 < 2 ^ 64 }
    ensures { Moves frame.now result (S.record_of store.old) (S.record_of store.new)
        (λ fs. places.place_assign shell (map view.value values.now)
        (places.behind frame.now ∷ fs)) }
{
    for value in values {
        let Some(found) = assigned_value(alloc, store, shell, &value.1)? else {
            return Ok(Step::Ends(Halt::Size));
        };
        assign_one(store, shell, &value.0, &found)?;
    }
    finish(store, behind(frame.at()), 0)
}
