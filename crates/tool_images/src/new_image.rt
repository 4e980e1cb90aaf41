//! A new image of a text's environment, byte by byte that of `mkenvimage`.
ghost use Rattle.std.specs.Prelude.{◌≡◌, ◌+◌, ◌++◌, true, IfOk, OnOk, map, replicate};
ghost use Rattle.std.specs.List.{flat_map};
ghost use Rattle.envimage.specs.Data.{entry};
ghost use Rattle.envimage.specs.Encoding.{header_len, is_image_size, with_header};
ghost use Rattle.envimage.specs.Entries.{pair_at};
ghost use Rattle.envimage.specs.Image.{stored_bytes};
ghost use Rattle.tool_images.specs.NewImages.{IsImageOf, IsNewImage, data_of, flag_of, is_size_of};

use crate::error::ToolError;
use crate::fault::Fault;
use crate::text_image::env_of_text;
use envimage::{ByteOrder, COPY_MIN, ImageError, SINGLE_MIN, SIZE_MAX, crc32};
use envtools::{Env, TextError};
use std::alloc::{AllocError, Global};

/// What a new image is like.
#[derive(Clone, Copy, Debug)]
pub struct Layout {
    /// Its size in bytes, with its header.
    pub size: usize,
    /// Whether it is a copy of a redundant pair, and so has a flag.
    pub redundant: bool,
    /// How its checksum is stored.
    pub order: ByteOrder,
    /// The byte that fills it after the variables.
    pub fill: u8,
}

/// The flag of a new copy of a pair.
const NEW_FLAG: u8 = 1;

/// The flag of a new image, if it has one.
fn flag_of(redundant: bool) -> Option<u8>
    ensures { result ≡ flag_of redundant }
{
    if redundant { Some(NEW_FLAG) } else { None }
}

/// The least size of an image with this flag, or without one: its header and the NUL that ends its data.
fn least_of(flag: Option<u8>) -> usize
    ensures { result ≡ header_len flag + 1 }
{
    match flag {
        Some(_) => COPY_MIN,
        None => SINGLE_MIN,
    }
}

/// Whether an image with this flag, or without one, may have this size.
fn is_image_size(flag: Option<u8>, size: usize) -> bool
    ensures { result ≡ is_image_size flag size }
{
    least_of(flag) <= size && size <= SIZE_MAX
}

/// Adds the entries of the pairs.
fn push_entries(body: &mut Vec<u8>, pairs: &[(&[u8], &[u8])]) -> Result<(), AllocError>
    ensures { OnOk result
        (body.new.items ≡ body.old.items ++ flat_map entry (map pair_at pairs.now)) }
{
    for (name, value) in pairs {
        body.extend_from_slice(name)?;
        body.push(b'=')?;
        body.extend_from_slice(value)?;
        body.push(b'\0')?;
    }
    Ok(())
}

/// Adds a byte this many times.
fn push_filling(body: &mut Vec<u8>, count: usize, fill: u8) -> Result<(), AllocError>
    ensures { OnOk result (body.new.items ≡ body.old.items ++ replicate count fill) }
{
    for done in 0..count {
        body.push(fill)?;
    }
    Ok(())
}

/// The data of these variables: their entries, a NUL, and a filling of this many bytes.
fn data_of(
    alloc: Global,
    pairs: &[(&[u8], &[u8])],
    filling: usize,
    fill: u8,
) -> Result<Vec<u8>, AllocError>
    ensures { IfOk result (λ body. body.items ≡ data_of (map pair_at pairs.now) filling fill) }
{
    let mut body = Vec::new(alloc);
    push_entries(&mut body, pairs)?;
    body.push(b'\0')?;
    push_filling(&mut body, filling, fill)?;
    Ok(body)
}

/// A checksum as it is stored.
fn crc_bytes(crc: u32, order: ByteOrder) -> [u8; 4]
    ensures { result ≡ stored_bytes order crc }
{
    match order {
        ByteOrder::Little => crc.to_le_bytes(),
        ByteOrder::Big => crc.to_be_bytes(),
    }
}

/// The data with the header in front: the checksum, and the flag if there is one.
fn with_header(
    alloc: Global,
    order: ByteOrder,
    flag: Option<u8>,
    body: &[u8],
) -> Result<Vec<u8>, AllocError>
    ensures { IfOk result (λ image. image.items ≡ with_header order flag body.now) }
{
    let checksum = crc_bytes(crc32(body), order);
    let mut image = Vec::from_slice(alloc, &checksum)?;
    if let Some(flag) = flag {
        image.push(flag)?;
    }
    image.extend_from_slice(body)?;
    Ok(image)
}

/// The image of an environment, in a size that an image may have. Errors: `TooLarge`, `Memory`.
fn image_of(alloc: Global, env: &Env, layout: Layout) -> Result<Vec<u8>, ImageError>
    requires { is_size_of layout ≡ true }
    ensures { IsImageOf layout env.now result }
{
    let flag = flag_of(layout.redundant);
    let room = layout.size - least_of(flag);
    let used = env.entries_len();
    if used > room {
        return Err(ImageError::TooLarge);
    }
    let pairs = env.pairs()?;
    let body = data_of(alloc, &pairs, room - used, layout.fill)?;
    Ok(with_header(alloc, layout.order, flag, &body)?)
}

/// A new image of a text's environment, byte by byte that of `mkenvimage` if each name is there once: the checksum,
/// the flag 1 if it is a copy of a redundant pair, the entries in the order of the text, a NUL, and the filling.
///
/// Errors in order: `Tool` with `WrongSize`, if no image has this size; `Text` for the first line that is no
/// variable; `TextTooLarge`, if the environment does not fit; `Memory`.
pub fn new_image_of_text(alloc: Global, text: &[u8], layout: Layout) -> Result<Vec<u8>, Fault>
    ensures { IsNewImage layout text.now result }
{
    if !is_image_size(flag_of(layout.redundant), layout.size) {
        return Err(Fault::Tool(ToolError::Image(ImageError::WrongSize)));
    }
    let env = match env_of_text(alloc, text) {
        Ok(env) => env,
        Err(TextError::Memory) => return Err(Fault::Memory),
        Err(error) => return Err(Fault::Text(error)),
    };
    match image_of(alloc, &env, layout) {
        Ok(image) => Ok(image),
        Err(ImageError::TooLarge) => Err(Fault::TextTooLarge),
        Err(_) => Err(Fault::Memory),
    }
}
