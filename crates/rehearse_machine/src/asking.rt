//! Finds a device command that asks again.
ghost use Rattle.std.specs.Prelude.{◌≡◌, option_map};
ghost use Rattle.hushlang.specs.TreesShown as view;
ghost use Rattle.rehearse_machine.specs.AskingCommand as asking;
ghost use Rattle.rehearse_machine.specs.MovesShown.{Comes, Moves, limits_of};

use crate::ask::Step;
use crate::list_commands::command_of;
use crate::named::look_up;
use crate::simple::run_fields;
use crate::steps::expanded;
use bootstore_state::{Frame, Store, StoreError};
use device_list::Devices;
use hushlang::{Call, Command, Fields};
use rehearse_rules::Halt;
use rehearse_terms::RunBounds;
use std::alloc::Global;

/// The simple command before the place of a frame, if one is there.
pub fn call_in_front(frame: &Frame) -> Option<&Call>
    ensures { option_map (λ call. view.call call.now) result ≡ asking.words_in_front frame.now }
{
    let at = frame.at();
    if at.command == 0 {
        return None;
    }
    let script = frame.script();
    let Some(list) = script.lists.get(at.list) else {
        return None;
    };
    let Some(command) = command_of(list, at.command - 1) else {
        return None;
    };
    let Command::Simple(call) = command else {
        return None;
    };
    Some(call)
}

/// Finds the device command before the place of the innermost frame.
fn find_behind<'d, S: Store>(
    alloc: Global,
    store: &mut S,
    fields: &mut Fields,
    frame: &Frame,
    devices: &'d Devices,
    bounds: RunBounds,
) -> Result<Step<'d>, StoreError>
    ensures { Moves frame.now result (S.record_of store.old) (S.record_of store.new)
        (asking.fields_again (limits_of devices.now bounds) (asking.words_in_front frame.now)
        frame.now) }
{
    let script = frame.script();
    let Some(command) = call_in_front(frame) else {
        return Ok(Step::Ends(Halt::End(store.get_status())));
    };
    if let Some(known) = command.fields() {
        let known = known.as_slice();
        let named = look_up(command, devices, bounds.shell(), known);
        return run_fields(alloc, store, script, devices, bounds, named, known);
    }
    let fit = expanded(alloc, fields, store, bounds.shell(), command.words())?;
    if !fit {
        return Ok(Step::Ends(Halt::Size));
    }
    let found = fields.as_slice();
    let named = look_up(command, devices, bounds.shell(), found);
    run_fields(alloc, store, script, devices, bounds, named, found)
}

/// Finds the device command again that has begun and asks. It is before the place of the innermost
/// frame. Expands its words again, in the state in which it was begun. Errors: `Memory`.
pub fn find_again<'d, S: Store>(
    alloc: Global,
    store: &mut S,
    devices: &'d Devices,
    bounds: RunBounds,
) -> Result<Step<'d>, StoreError>
    ensures { Comes result (S.record_of store.old) (S.record_of store.new)
        (asking.found_again (limits_of devices.now bounds) (S.record_of store.old).present.frames) }
{
    let Some(top) = store.top() else {
        return Ok(Step::Ends(Halt::End(store.get_status())));
    };
    let frame = top.copy()?;
    let mut fields = Fields::new(alloc);
    find_behind(alloc, store, &mut fields, &frame, devices, bounds)
}
