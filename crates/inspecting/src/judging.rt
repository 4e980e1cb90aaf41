//! Which copies are right, and which one counts.
ghost use Rattle.std.specs.Prelude.{◌≡◌, ◌≤◌, length};
ghost use Rattle.envimage.specs.Image.{current, is_newer, is_right, stored};
ghost use Rattle.inspecting.specs.Report.{checksum, header_of};

use envimage::{ByteOrder, COPY_MIN, SINGLE_MIN, Which, crc32};

/// The bytes in front of the data: a copy of a pair has a flag.
pub fn header_of(is_copy: bool) -> usize
    ensures { result ≡ header_of is_copy }
{
    if is_copy {
        COPY_MIN - 1
    } else {
        SINGLE_MIN - 1
    }
}

/// The checksum that an image starts with.
pub fn stored(image: &[u8], order: ByteOrder) -> u32
    requires { 4 ≤ length image.now }
    ensures { result ≡ stored order image.now }
{
    let (front, _) = image.split_at(4);
    let bytes = [front[0], front[1], front[2], front[3]];
    match order {
        ByteOrder::Little => u32::from_le_bytes(bytes),
        ByteOrder::Big => u32::from_be_bytes(bytes),
    }
}

/// The checksum of what is after its header.
pub fn checksum(image: &[u8], is_copy: bool) -> u32
    requires { header_of is_copy ≤ length image.now }
    ensures { result ≡ checksum is_copy image.now }
{
    crc32(&image[header_of(is_copy)..])
}

/// Whether the two are the same.
pub fn is_right(image: &[u8], is_copy: bool, order: ByteOrder) -> bool
    requires { header_of is_copy ≤ length image.now }
    ensures { result ≡ is_right order (header_of is_copy) image.now }
{
    stored(image, order) == checksum(image, is_copy)
}

/// Whether a copy with the second flag was written after one with the first.
fn is_newer(first: u8, second: u8) -> bool
    ensures { result ≡ is_newer first second }
{
    (first == 255 && second == 0) || (first < second && !(first == 0 && second == 255))
}

/// Which of two copies counts.
pub fn current(first: &[u8], second: &[u8], order: ByteOrder) -> Option<Which>
    requires first { 5 ≤ length first.now }
    requires second { 5 ≤ length second.now }
    ensures { result ≡ current order first.now second.now }
{
    match (is_right(first, true, order), is_right(second, true, order)) {
        (true, true) if is_newer(first[4], second[4]) => Some(Which::Second),
        (true, _) => Some(Which::First),
        (false, true) => Some(Which::Second),
        (false, false) => None,
    }
}
