//! The image of a list of variables.
ghost use Rattle.std.specs.Prelude.{◌≡◌, ◌+◌, ◌<◌, ◌≤◌, ◌-◌, ◌^◌, min, ◌++◌, ◌↔◌, length, drop, map, replicate, true, false, OnOk, IfOk, IfErr, Err};
ghost use Rattle.std.specs.List.{flat_map, AllByRecursion};
ghost use Rattle.envimage.specs.Crc.{crc};
ghost use Rattle.envimage.specs.Data.{entry, IsVariable};
ghost use Rattle.envimage.specs.Entries.{pair_at};
ghost use Rattle.envimage.specs.Image.{stored_bytes};
ghost use Rattle.envimage.specs.Encoding.{is_image_size, header_len, needed, data_bytes, with_header, image_of, ReadsBack, IsEncodeRefusal};

use crate::crc::crc32;
use crate::image::{ByteOrder, COPY_HEADER, ImageError, SINGLE_HEADER, is_size};
use std::alloc::{AllocError, Global};

/// The length of the entries of the pairs, or the greatest number if that is smaller.
fn entries_len(pairs: &[(&[u8], &[u8])]) -> usize
    ensures { result ≡ min (length (flat_map entry (map pair_at pairs.now))) (2 ^ 64 - 1) }
{
    let mut total: usize = 0;
    for (name, value) in pairs {
        total = total
            .saturating_add(name.len())
            .saturating_add(value.len())
            .saturating_add(2);
    }
    total
}

/// The byte that ends an entry, that ends the data, and that fills the rest of an image.
const ENTRY_END: u8 = 0;

const DATA_END: u8 = 0;

const FILLING: u8 = 0;

/// What is in the place of the checksum until the rest of an image is there.
const NO_CHECKSUM: [u8; 4] = [0; 4];

fn push_entry(out: &mut Vec<u8>, name: &[u8], value: &[u8]) -> Result<(), AllocError>
    ensures { OnOk result (out.new.items ≡ out.old.items ++ entry (name.now, value.now)) }
{
    out.extend_from_slice(name)?;
    out.push(b'=')?;
    out.extend_from_slice(value)?;
    out.push(ENTRY_END)?;
    Ok(())
}

fn push_zeros(out: &mut Vec<u8>, count: usize) -> Result<(), AllocError>
    ensures { OnOk result (out.new.items ≡ out.old.items ++ replicate count 0) }
{
    for done in 0..count {
        out.push(FILLING)?;
    }
    Ok(())
}

/// Adds the entries of the pairs.
fn push_entries(out: &mut Vec<u8>, pairs: &[(&[u8], &[u8])]) -> Result<(), AllocError>
    ensures { OnOk result
        (out.new.items ≡ out.old.items ++ flat_map entry (map pair_at pairs.now)) }
{
    for (name, value) in pairs {
        push_entry(out, name, value)?;
    }
    Ok(())
}

/// Adds the entries of the pairs, a NUL, and zero bytes.
fn push_data(out: &mut Vec<u8>, pairs: &[(&[u8], &[u8])], filling: usize) -> Result<(), AllocError>
    ensures { OnOk result
        (out.new.items ≡ out.old.items ++ data_bytes (map pair_at pairs.now) filling) }
{
    push_entries(out, pairs)?;
    out.push(DATA_END)?;
    push_zeros(out, filling)
}

fn crc_bytes(crc: u32, order: ByteOrder) -> [u8; 4]
    ensures { result ≡ stored_bytes order crc }
{
    match order {
        ByteOrder::Little => crc.to_le_bytes(),
        ByteOrder::Big => crc.to_be_bytes(),
    }
}

/// Writes the checksum of what is after the header into the first four bytes.
fn seal(image: &mut [u8], header: usize, order: ByteOrder)
    requires header { 4 ≤ header }
    requires room { header ≤ length image.old }
    ensures { image.new ≡ stored_bytes order (crc (drop header image.old)) ++ drop 4 image.old }
{
    let checksum = crc_bytes(crc32(&image[header..]), order);
    image[..4].copy_from_slice(&checksum);
}

/// The length of the header of an image with this flag.
fn header_of(flag: Option<u8>) -> usize
    ensures { result ≡ header_len flag }
{
    match flag {
        Some(_) => COPY_HEADER,
        None => SINGLE_HEADER,
    }
}

/// An image whose body is the entries of the pairs, a NUL and zero bytes, in memory for `size` bytes.
fn sealed(
    alloc: Global,
    pairs: &[(&[u8], &[u8])],
    size: usize,
    flag: Option<u8>,
    order: ByteOrder,
    filling: usize,
) -> Result<Vec<u8>, AllocError>
    ensures { IfOk result (λ v. v.items
        ≡ with_header order flag (data_bytes (map pair_at pairs.now) filling)) }
{
    let mut image = Vec::with_capacity(alloc, size)?;
    image.extend_from_slice(&NO_CHECKSUM)?;
    if let Some(flag) = flag {
        image.push(flag)?;
    }
    push_data(&mut image, pairs, filling)?;
    seal(&mut image, header_of(flag), order);
    Ok(image)
}

/// Makes the image of these variables, of this size in bytes with its header: the checksum in its
/// byte order, the flag if it is a copy of a redundant pair, the entries, a NUL and zero bytes.
///
/// Refusals in order: `WrongSize`, `TooLarge`, `Memory`.
pub fn encode(
    alloc: Global,
    pairs: &[(&[u8], &[u8])],
    size: usize,
    flag: Option<u8>,
    order: ByteOrder,
) -> Result<Vec<u8>, ImageError>
    requires { AllByRecursion IsVariable (map pair_at pairs.now) }
    ensures wrong_size { (result ≡ Err ImageError.WrongSize) ↔ (is_image_size flag size ≡ false) }
    ensures too_large { (result ≡ Err ImageError.TooLarge)
        ↔ ((is_image_size flag size ≡ true) × (size < needed flag (map pair_at pairs.now))) }
    ensures other { IfErr result IsEncodeRefusal }
    ensures ok { IfOk result (λ v. v.items ≡ image_of order flag size (map pair_at pairs.now)) }
    ensures back { IfOk result (λ v. ReadsBack order flag v.items (map pair_at pairs.now)) }
{
    let header = header_of(flag);
    if !is_size(size, header + 1) {
        return Err(ImageError::WrongSize);
    }
    let room = size - header - 1;
    let used = entries_len(pairs);
    if used > room {
        return Err(ImageError::TooLarge);
    }
    Ok(sealed(alloc, pairs, size, flag, order, room - used)?)
}
