//! The boot partitions of an eMMC. The kernel keeps them read-only by a switch, `force_ro`.

use itoa::Buffer;
use output::Bytes;
use std::fs::{self, File, OpenOptions};
use std::io::{Read, Write};
use std::os::unix::fs::{FileTypeExt, MetadataExt};
use std::rt;

/// The bytes of a switch's path: its folder, two numbers of 32 bits, and its name.
const PATH_MAX: usize = 64;

/// The switch of a boot partition, by its path.
#[derive(Drop)]
pub struct Switch {
    path: Bytes<PATH_MAX>,
}

/// The numbers of a device, as `MAJOR:MINOR` has them (the macros `major` and `minor` of the C library).
fn numbers_of(device: u64) -> (u64, u64) {
    let major = (device >> 8 & 0xfff) | (device >> 32 & 0xffff_f000);
    let minor = (device & 0xff) | (device >> 12 & 0xffff_ff00);
    (major, minor)
}

/// The path of the switch that a device has if it is a boot partition.
fn switch_path(device: u64) -> Bytes<PATH_MAX> {
    let (major, minor) = numbers_of(device);
    let mut path = Bytes::new();
    let _ = path.extend(b"/sys/dev/block/");
    let _ = path.extend(Buffer::new().format(major).as_bytes());
    let _ = path.extend(b":");
    let _ = path.extend(Buffer::new().format(minor).as_bytes());
    let _ = path.extend(b"/force_ro");
    path
}

/// Whether the switch says that the device is read-only.
fn is_on<R: rt::Files>(rt: &R, path: &str) -> bool {
    let Ok(mut file) = File::open(rt, path) else {
        return false;
    };
    let mut said = [0; 1];
    match file.read(&mut said) {
        Ok(1) => said == *b"1",
        _ => false,
    }
}

/// Writes a digit to the switch. Returns whether it was taken.
fn is_set<R: rt::Files>(rt: &R, path: &str, digit: u8) -> bool {
    let mut how = OpenOptions::new();
    how.write(true);
    match how.open(rt, path) {
        Ok(mut file) => file.write(&[digit]).is_ok(),
        Err(_) => false,
    }
}

impl Switch {
    /// The switch of the device at a path, whose links are followed, if there is one and it is on.
    pub fn on_at<R: rt::Files>(rt: &R, device: &str) -> Option<Switch> {
        let Ok(known) = fs::metadata(rt, device) else {
            return None;
        };
        if !known.file_type().is_block_device() {
            return None;
        }
        let path = switch_path(known.rdev());
        let Ok(text) = str::from_utf8(path.as_slice()) else {
            return None;
        };
        if is_on(rt, text) {
            Some(Switch { path })
        } else {
            None
        }
    }

    /// Sets the switch to a digit. Returns whether it was taken.
    fn set<R: rt::Files>(&self, rt: &R, digit: u8) -> bool {
        match str::from_utf8(self.path.as_slice()) {
            Ok(path) => is_set(rt, path, digit),
            Err(_) => false,
        }
    }

    /// Lets the device be written. If that fails, the device stays read-only, and a write fails.
    pub fn turn_off<R: rt::Files>(&self, rt: &R) {
        let _ = self.set(rt, b'0');
    }

    /// Keeps the device read-only again. One failure is followed by another try.
    pub fn turn_on<R: rt::Files>(&self, rt: &R) {
        if !self.set(rt, b'1') {
            let _ = self.set(rt, b'1');
        }
    }
}
