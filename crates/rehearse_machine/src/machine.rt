//! The machine: moves over a store, until an outcome is asked for or the run ends.
ghost use Rattle.std.specs.Prelude.{◌+◌, ◌<◌, ◌≤◌, ◌^◌, IfOk};
ghost use Rattle.rehearse_machine.specs.Places.{place_move};
ghost use Rattle.rehearse_machine.specs.MovesShown.{Comes, Moves, limits_of};
ghost use Rattle.rehearse_machine.specs.NextMoves.{continued, HasRoom};
ghost use Rattle.rehearse_machine.specs.Turning.{IsSound, Turns, Drives};

use crate::ask::Step;
use crate::assigns::begin_assign;
use crate::ended_texts::drop_ended;
use crate::file_moves::move_file;
use crate::frame_moves::{move_for, move_run, next_of};
use crate::frames::{behind, block, enter, finish, go_on, leave, skip};
use crate::named::look_up;
use crate::next_move::Next;
use crate::simple::{begin_for, call};
use crate::steps::expanded;
use bootstore_state::{Frame, Store, StoreError};
use device_list::Devices;
use hushlang::Fields;
use rehearse_rules::Halt;
use rehearse_terms::RunBounds;
use std::alloc::Global;

/// Does what the innermost frame does next. The frame is a copy, since the store changes.
fn proceed<'d, S: Store>(
    alloc: Global,
    store: &mut S,
    fields: &mut Fields,
    frame: &Frame,
    devices: &'d Devices,
    bounds: RunBounds,
    next: Next<'_>,
) -> Result<Step<'d>, StoreError>
    requires room { HasRoom next frame.now }
    requires begun { (S.record_of store.old).begun + 1 < 2 ^ 64 }
    ensures { Moves frame.now result (S.record_of store.old) (S.record_of store.new)
        (continued (limits_of devices.now bounds) next.entry frame.now) }
{
    match next {
        Next::Leaves => leave(store),
        Next::Goes(at) => go_on(store, at),
        Next::Finishes(at, status) => finish(store, at, status),
        Next::Enters(at, script) => enter(store, at, block(script.clone()?)),
        Next::Skips(at, status, script) => skip(store, at, status, block(script.clone()?)),
        Next::Calls(command) => {
            let after = behind(frame.at());
            let script = frame.script();
            if let Some(known) = command.fields() {
                let known = known.as_slice();
                let named = look_up(command, devices, bounds.shell(), known);
                return call(
                    alloc, store, script, after, devices, bounds, true, named, known,
                );
            }
            let fit = expanded(alloc, fields, store, bounds.shell(), command.words())?;
            let found = fields.as_slice();
            let named = look_up(command, devices, bounds.shell(), found);
            call(
                alloc, store, script, after, devices, bounds, fit, named, found,
            )
        }
        Next::Assigns(values) => begin_assign(alloc, store, frame, bounds, values),
        Next::Loops(name, words) => begin_for(alloc, store, fields, frame, bounds, name, words),
        Next::Turns => move_for(store, frame, bounds.shell()),
        Next::Names => move_run(store, frame, bounds.shell()),
        Next::Hands => move_file(alloc, store, frame, devices, bounds),
    }
}

/// Makes one move. Only a move that reads its frame after the store has changed copies the frame.
pub fn step<'d, S: Store>(
    alloc: Global,
    store: &mut S,
    fields: &mut Fields,
    devices: &'d Devices,
    bounds: RunBounds,
) -> Result<Step<'d>, StoreError>
    requires { (S.record_of store.old).begun + 1 < 2 ^ 64 }
    ensures { Comes result (S.record_of store.old) (S.record_of store.new)
        (place_move (limits_of devices.now bounds) (S.record_of store.old).present.frames) }
{
    let status = store.get_status();
    let shell = bounds.shell();
    let Some(top) = store.top() else {
        return Ok(Step::Ends(Halt::End(status)));
    };
    match next_of(top, shell, status) {
        Next::Leaves => return leave(store),
        Next::Goes(at) => return go_on(store, at),
        Next::Finishes(at, status) => return finish(store, at, status),
        Next::Enters(at, script) => {
            let child = block(script.clone()?);
            return enter(store, at, child);
        }
        Next::Skips(at, status, script) => {
            let child = block(script.clone()?);
            return skip(store, at, status, child);
        }
        Next::Calls(command) => {
            let after = behind(top.at());
            let script = top.script().clone()?;
            if let Some(known) = command.fields() {
                let known = known.clone()?;
                let known = known.as_slice();
                let named = look_up(command, devices, bounds.shell(), known);
                return call(
                    alloc, store, &script, after, devices, bounds, true, named, known,
                );
            }
            let fit = expanded(alloc, fields, store, bounds.shell(), command.words())?;
            let found = fields.as_slice();
            let named = look_up(command, devices, bounds.shell(), found);
            return call(
                alloc, store, &script, after, devices, bounds, fit, named, found,
            );
        }
        _ => {}
    }
    let frame = top.copy()?;
    let next = next_of(&frame, shell, status);
    proceed(alloc, store, fields, &frame, devices, bounds, next)
}

/// Makes moves until a step is begun, an outcome is asked for, or the run is over.
pub(crate) fn turn<'d, S: Store>(
    alloc: Global,
    store: &mut S,
    fields: &mut Fields,
    devices: &'d Devices,
    bounds: RunBounds,
) -> Result<Step<'d>, StoreError>
    requires sound { IsSound (S.record_of store.old).present }
    requires begun { (S.record_of store.old).begun + 1 < 2 ^ 64 }
    ensures { IfOk result (λ step. Turns (limits_of devices.now bounds) step (S.record_of store.old)
        (S.record_of store.new)) }
{
    let before = store.steps();
    'moves: loop {
        match step(alloc, store, fields, devices, bounds)? {
            Step::Going => {
                if store.steps() != before {
                    return Ok(Step::Going);
                }
            }
            Step::Asks(ask) => return Ok(Step::Asks(ask)),
            Step::Ends(halt) => return Ok(Step::Ends(halt)),
        }
    }
}

/// Makes moves until an outcome is asked for, or the run is over. Ended texts that change nothing are
/// dropped.
pub(crate) fn drive<'d, S: Store>(
    alloc: Global,
    store: &mut S,
    fields: &mut Fields,
    devices: &'d Devices,
    bounds: RunBounds,
) -> Result<Step<'d>, StoreError>
    requires sound { IsSound (S.record_of store.old).present }
    requires steps { (S.record_of store.old).present.steps ≤ bounds.steps }
    requires begun { (S.record_of store.old).begun + bounds.steps + 1 < 2 ^ 64 }
    ensures { IfOk result (λ step. Drives (limits_of devices.now bounds) step
        (S.record_of store.old) (S.record_of store.new)) }
{
    'turns: loop {
        match turn(alloc, store, fields, devices, bounds)? {
            Step::Going => drop_ended(store)?,
            Step::Asks(ask) => return Ok(Step::Asks(ask)),
            Step::Ends(halt) => return Ok(Step::Ends(halt)),
        }
    }
}
