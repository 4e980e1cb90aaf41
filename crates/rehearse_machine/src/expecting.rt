//! What is expected of the device command that asks.
ghost use Rattle.std.specs.Prelude.{◌≡◌, ◌&&◌, not, IfOk};
ghost use Rattle.device_list.specs.DeviceList.{expected};
ghost use Rattle.rehearse_machine.specs.Expecting.{call_of};
ghost use Rattle.rehearse_machine.specs.MovesShown.{request_shown};
ghost use Rattle.rehearse_rules.specs.Expected.{is_unexpected};

use crate::ask::Ask;
use bootstore_state::{LogEntry, StoreError};
use device_list::Devices;
use std::alloc::Global;
use text::copied_words;

/// Whether a success is expected of a device command that asks; of one that asks which file runs neither answer
/// is. Errors: `Memory`.
pub fn expected_answer(
    alloc: Global,
    devices: &Devices,
    ask: &Ask<'_>,
) -> Result<Option<bool>, StoreError>
    ensures { IfOk result (λ answer. answer ≡ expected devices.now (call_of (request_shown ask.now))) }
{
    let mut call = copied_words(alloc, &ask.words)?;
    call.insert(0, ask.name.clone()?)?;
    Ok(devices.expected(&call))
}

/// Whether a device command took an outcome that is not the expected one.
pub fn is_unexpected(devices: &Devices, entry: &LogEntry) -> bool
    ensures { result ≡ (not entry.now.again
        && is_unexpected devices.now (entry.now.success, entry.now.words)) }
{
    if entry.again {
        return false;
    }
    match devices.expected(&entry.words) {
        Some(true) => !entry.success,
        Some(false) => entry.success,
        None => false,
    }
}
