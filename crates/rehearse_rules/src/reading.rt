//! The device list of a rehearsal, from its text.
ghost use Rattle.device_list.specs.DeviceList.{listed};
ghost use Rattle.rehearse_rules.specs.ReadDevices.{ReadsDevices};

use crate::rehearse_error::RehearseError;
use device_list::{Devices, DevicesError};
use std::alloc::Global;

/// Reads a device list. Errors: `DeviceList` with the first fault of the text, `Memory`.
pub fn read_devices(alloc: Global, text: &[u8]) -> Result<Devices, RehearseError>
    ensures { ReadsDevices (listed text.now) result }
{
    match Devices::parse(alloc, text) {
        Ok(devices) => Ok(devices),
        Err(DevicesError::Memory) => Err(RehearseError::Memory),
        Err(fault) => Err(RehearseError::DeviceList(fault)),
    }
}
