//! As what bytes would be right that count as no image.
ghost use Rattle.std.specs.Prelude.{◌≡◌, ◌+◌, ◌++◌, ◌==◌, ◌&&◌, ◌||◌, ◌<◌, ◌≤◌, ◌^◌, ◌-◌, bit_xor, drop, length, take, true, IfOk, OnOk};
ghost use Rattle.envimage.specs.Crc.{after_bit, after_byte};
ghost use Rattle.envimage.specs.Image.{stored};
ghost use Rattle.envimage.specs.declared.image.ByteOrder.TheVariants.{Big, Little};
ghost use Rattle.inspecting.specs.Guesses.{has_variables, is_start, may_be, right_sizes, starts};
ghost use Rattle.inspecting.specs.Report.{has_no_fault, header_of};

use crate::judging::{header_of, stored};
use envimage::{ByteOrder, check_data};
use std::alloc::{AllocError, Global};

/// What a bit of the checksum's register is combined with.
const POLYNOMIAL: u32 = 0xedb8_8320;

/// The most bytes of data in which they have to end, to be tried.
const DATA_MAX: usize = 65_536;

/// The places that are tried are multiples of this.
const BLOCK: usize = 512;

/// The register of the checksum after one more bit.
fn after_bit(register: u32, bit: u8) -> u32
    ensures { result ≡ after_bit register bit }
{
    if register % 2 == u32::from(bit) {
        register / 2
    } else {
        (register / 2) ^ POLYNOMIAL
    }
}

/// The register of the checksum after one more byte.
fn after_byte(register: u32, byte: u8) -> u32
    ensures { result ≡ after_byte register byte }
{
    let register = after_bit(register, byte % 2);
    let register = after_bit(register, byte / 2 % 2);
    let register = after_bit(register, byte / 4 % 2);
    let register = after_bit(register, byte / 8 % 2);
    let register = after_bit(register, byte / 16 % 2);
    let register = after_bit(register, byte / 32 % 2);
    let register = after_bit(register, byte / 64 % 2);
    after_bit(register, byte / 128 % 2)
}

/// Whether data have no fault.
fn has_no_fault(body: &[u8]) -> bool
    ensures { result ≡ has_no_fault body.now }
{
    check_data(body).is_ok()
}

/// Whether data whose checksum's register is this are right, and have no fault.
fn is_found(register: u32, wanted: u32, body: &[u8]) -> bool
    ensures { result ≡ (wanted == bit_xor register 4294967295) && has_no_fault body.now }
{
    wanted == register ^ u32::MAX && has_no_fault(body)
}

/// The sizes in which the first bytes are an image, in each byte order.
#[derive(Debug, Drop)]
pub struct RightSizes {
    /// With the lowest byte of the checksum first.
    pub little: Vec<usize>,
    /// With the highest byte first.
    pub big: Vec<usize>,
}

/// The sizes in which the first bytes are an image, in one pass over them.
pub fn right_sizes(alloc: Global, bytes: &[u8], is_copy: bool) -> Result<RightSizes, AllocError>
    requires { header_of is_copy < length bytes.now }
    ensures little { IfOk result (λ sizes. sizes.little.items
        ≡ right_sizes Little is_copy bytes.now) }
    ensures big { IfOk result (λ sizes. sizes.big.items ≡ right_sizes Big is_copy bytes.now) }
{
    let header = header_of(is_copy);
    let low_first = stored(bytes, ByteOrder::Little);
    let high_first = stored(bytes, ByteOrder::Big);
    let mut little = Vec::new(alloc);
    let mut big = Vec::new(alloc);
    let mut register = u32::MAX;
    let mut size = header;
    for byte in &bytes[header..] {
        register = after_byte(register, *byte);
        size += 1;
        if is_found(register, low_first, &bytes[header..size]) {
            little.push(size)?;
        }
        if is_found(register, high_first, &bytes[header..size]) {
            big.push(size)?;
        }
    }
    Ok(RightSizes { little, big })
}

/// The first of these, at most `most`.
pub fn front<T>(all: &[T], most: usize) -> &[T]
    ensures { result.now ≡ take most all.now }
{
    if all.len() > most { &all[..most] } else { all }
}

/// Whether data start with a byte that prints, and have no fault in their first bytes.
fn has_variables(body: &[u8]) -> bool
    ensures { result ≡ has_variables body.now }
{
    match body.first() {
        Some(byte) => byte.is_ascii_graphic() && has_no_fault(front(body, DATA_MAX)),
        None => false,
    }
}

/// Whether an image may start with these bytes.
pub fn may_be(bytes: &[u8], is_copy: bool) -> bool
    ensures { result ≡ may_be is_copy bytes.now }
{
    let header = header_of(is_copy);
    header < bytes.len() && has_variables(&bytes[header..])
}

/// Whether a single image or a copy may start with these bytes.
fn is_start(bytes: &[u8]) -> bool
    ensures { result ≡ is_start bytes.now }
{
    may_be(bytes, false) || may_be(bytes, true)
}

/// The places that are tried.
pub fn starts(alloc: Global, bytes: &[u8]) -> Result<Vec<usize>, AllocError>
    ensures { IfOk result (λ found. found.items ≡ starts bytes.now) }
{
    let mut found = Vec::new(alloc);
    for block in 0..bytes.len().div_ceil(BLOCK) {
        let offset = block * BLOCK;
        if is_start(&bytes[offset..]) {
            found.push(offset)?;
        }
    }
    Ok(found)
}
