//! What the next move of the machine reads and writes.
ghost use Rattle.std.specs.Prelude.{[], OnOk};
ghost use Rattle.bootstore_state.specs.StoredState.{state_at};
ghost use Rattle.rehearse_machine.specs.MovesShown.{limits_of};
ghost use Rattle.rehearse_reports.specs.Begins.{of_begins};
ghost use Rattle.rehearse_reports.specs.Reports.{Reports, ReportsAbove};
ghost use Rattle.rehearse_reports.specs.ReportsShown.{accesses_shown};

use crate::beginnings::report_command;
use crate::begins::{Begins, begins_in};
use crate::key::Key;
use crate::reported::Reported;
use bootstore_state::{Store, StoreError};
use device_list::Devices;
use hushlang::Fields;
use rehearse_terms::RunBounds;
use std::alloc::Global;

/// Reports what a frame reads and writes by what it begins. Errors: `Memory`.
fn report_begun<S: Store>(
    alloc: Global,
    reported: &mut Reported,
    store: &S,
    fields: &mut Fields,
    devices: &Devices,
    bounds: RunBounds,
    begins: Begins<'_>,
) -> Result<(), StoreError>
    ensures { OnOk result (Reports (accesses_shown reported.old) (accesses_shown reported.new)
        (of_begins (limits_of devices.now bounds) begins.entry
        (state_at (S.record_of store.now).present []))) }
{
    match begins {
        Begins::Nothing => Ok(()),
        Begins::Command(command) => {
            report_command(alloc, reported, store, fields, devices, bounds, command)
        }
        Begins::Turn(name) => {
            reported.writes(Key::Local(Vec::from_slice(alloc, name)?))?;
            Ok(())
        }
        Begins::Text(name) => {
            reported.reads(Key::Environment(Vec::from_slice(alloc, name)?))?;
            Ok(())
        }
    }
}

/// Reports what the next move reads and writes, before it is made, whatever frames are below. The status
/// is always reported as read: where a device command asks, its outcome writes it. Errors: `Memory`.
pub(crate) fn report_move<S: Store>(
    alloc: Global,
    reported: &mut Reported,
    store: &S,
    fields: &mut Fields,
    devices: &Devices,
    bounds: RunBounds,
) -> Result<(), StoreError>
    ensures { OnOk result (ReportsAbove (limits_of devices.now bounds)
        (S.record_of store.now).present.frames (state_at (S.record_of store.now).present [])
        (accesses_shown reported.old) (accesses_shown reported.new)) }
{
    reported.reads(Key::Status)?;
    let Some(top) = store.top() else {
        return Ok(());
    };
    let begins = begins_in(top, store.get_status());
    report_begun(alloc, reported, store, fields, devices, bounds, begins)
}
