//! Images: which copy is right and current, and what it holds.
ghost use Rattle.std.specs.Prelude.{◌≡◌, ◌≤◌, length, IfOk, None};
ghost use Rattle.std.specs.Option.{option_copied};
ghost use Rattle.envimage.specs.Data.{data_fault};
ghost use Rattle.envimage.specs.Image.{is_right, is_newer, is_size, stored, current, chosen_of, load_of, Gives, loaded_shown, copy_shown};
ghost use Rattle.envimage.specs.declared.image.ImageError.TheVariants.{Content, Memory};

use crate::content::{DataError, check_data};
use crate::crc::crc32;
use std::alloc::{AllocError, AllocFailed};
use thiserror::Error;

/// The least size of a single image, in bytes.
pub const SINGLE_MIN: usize = 5;

/// The least size of a copy of a redundant pair, in bytes.
pub const COPY_MIN: usize = 6;

/// The greatest size of an image in bytes, with its header.
pub const SIZE_MAX: usize = 1_048_576;

pub(crate) const SINGLE_HEADER: usize = 4;

pub(crate) const COPY_HEADER: usize = 5;

/// How the checksum is stored. Nothing else of an image depends on it.
#[derive(Clone, Copy, Debug, PartialEq, Eq)]
pub enum ByteOrder {
    /// The lowest byte first.
    Little,
    /// The highest byte first.
    Big,
}

/// One of two copies. A single image is the first.
#[derive(Clone, Copy, Debug, PartialEq, Eq)]
pub enum Which {
    /// The first copy, or the single image.
    First,
    /// The second copy.
    Second,
}

/// Why an image was refused.
#[derive(Clone, Copy, Debug, PartialEq, Eq, Error)]
pub enum ImageError {
    /// The size is out of its range, or the two copies differ in length.
    #[error("wrong image size")]
    WrongSize,
    /// No copy has a right checksum.
    #[error("no image with a right CRC")]
    BadCrc,
    /// The data of the current copy is faulty.
    #[error("{0}")]
    Content(DataError),
    /// The variables do not fit the image.
    #[error("environment is too large")]
    TooLarge,
    /// Memory ran out.
    #[error("out of memory")]
    Memory,
}

impl From<DataError> for ImageError {
    ghost from_gives = { λ fault e. e ≡ Content fault };

    fn from(fault: DataError) -> ImageError {
        ImageError::Content(fault)
    }
}

impl From<AllocError> for ImageError {
    ghost from_gives = { λ _ e. e ≡ Memory };

    fn from(_error: AllocError) -> ImageError {
        ImageError::Memory
    }
}

impl<T: Drop> From<AllocFailed<T>> for ImageError {
    ghost from_gives = { λ _ e. e ≡ Memory };

    fn from(_error: AllocFailed<T>) -> ImageError {
        ImageError::Memory
    }
}

/// What an image holds, or the current copy of a pair.
#[derive(Clone, Copy, Debug)]
pub struct Loaded<'a> {
    /// Which copy is current.
    pub which: Which,
    /// Its flag; a single image has none.
    pub flag: Option<u8>,
    /// The byte order in which it was read.
    pub order: ByteOrder,
    /// Its data, which has no fault.
    pub body: &'a [u8],
}

fn stored_crc(copy: &[u8], order: ByteOrder) -> u32
    requires { 4 ≤ length copy.now }
    ensures { result ≡ stored order copy.now }
{
    let (front, _) = copy.split_at(4);
    let bytes = [front[0], front[1], front[2], front[3]];
    match order {
        ByteOrder::Little => u32::from_le_bytes(bytes),
        ByteOrder::Big => u32::from_be_bytes(bytes),
    }
}

fn is_right(copy: &[u8], header: usize, order: ByteOrder) -> bool
    requires front { 4 ≤ length copy.now }
    requires header { header ≤ length copy.now }
    ensures { result ≡ is_right order header copy.now }
{
    stored_crc(copy, order) == crc32(&copy[header..])
}

pub(crate) fn is_size(size: usize, least: usize) -> bool
    ensures { result ≡ is_size least size }
{
    least <= size && size <= SIZE_MAX
}

/// Whether a copy with the second flag was written after one with the first.
fn is_newer(first: u8, second: u8) -> bool
    ensures { result ≡ is_newer first second }
{
    (first == 255 && second == 0) || (first < second && !(first == 0 && second == 255))
}

/// Which of two copies is current.
fn current_copy(first: &[u8], second: &[u8], order: ByteOrder) -> Option<Which>
    requires first { 5 ≤ length first.now }
    requires second { 5 ≤ length second.now }
    ensures { result ≡ current order first.now second.now }
{
    match (
        is_right(first, COPY_HEADER, order),
        is_right(second, COPY_HEADER, order),
    ) {
        (true, true) if is_newer(first[4], second[4]) => Some(Which::Second),
        (true, _) => Some(Which::First),
        (false, true) => Some(Which::Second),
        (false, false) => None,
    }
}

/// Finds the current copy. Errors in order: `WrongSize`, `BadCrc`.
fn choose(first: &[u8], second: Option<&[u8]>, order: ByteOrder) -> Result<Which, ImageError>
    ensures { result ≡ chosen_of order first.now (option_copied second.entry) }
{
    match second {
        None => {
            if !is_size(first.len(), SINGLE_MIN) {
                return Err(ImageError::WrongSize);
            }
            if !is_right(first, SINGLE_HEADER, order) {
                return Err(ImageError::BadCrc);
            }
            Ok(Which::First)
        }
        Some(second) => {
            if !is_size(first.len(), COPY_MIN) || first.len() != second.len() {
                return Err(ImageError::WrongSize);
            }
            current_copy(first, second, order).ok_or(ImageError::BadCrc)
        }
    }
}

/// Reads a single image, or the two copies of a redundant pair, and checks the data of the current
/// copy only. A copy is right if its first four bytes are the CRC-32 of what follows its header;
/// the CRC does not cover the flag. If both copies are right, the flags decide. The second copy is
/// current if the flags are 255 and 0, or if its flag is greater and they are not 0 and 255.
///
/// Refusals in order: `WrongSize`, `BadCrc`, `Content`. Takes no memory.
pub fn load<'a>(
    first: &'a [u8],
    second: Option<&'a [u8]>,
    order: ByteOrder,
) -> Result<Loaded<'a>, ImageError>
    ensures answer { Gives loaded_shown result
        (load_of order first.now (option_copied second.entry)) }
    ensures faultless { IfOk result (λ loaded. data_fault loaded.body.now ≡ None) }
{
    let which = choose(first, second, order)?;
    let loaded = match (second, which) {
        (None, _) => Loaded {
            which: Which::First,
            flag: None,
            order,
            body: &first[SINGLE_HEADER..],
        },
        (Some(_), Which::First) => copy_loaded(first, which, order),
        (Some(second), Which::Second) => copy_loaded(second, which, order),
    };
    check_data(loaded.body)?;
    Ok(loaded)
}

fn copy_loaded(copy: &[u8], which: Which, order: ByteOrder) -> Loaded<'_>
    requires { 5 ≤ length copy.now }
    ensures { loaded_shown result ≡ copy_shown order which copy.now }
{
    Loaded {
        which,
        flag: Some(copy[4]),
        order,
        body: &copy[COPY_HEADER..],
    }
}
