//! The image that is made of a text.
ghost use Rattle.std.specs.Prelude.{◌≡◌, IfErr, IfOk, None, Ok};
ghost use Rattle.envtools.specs.Environment.{env_of};
ghost use Rattle.envtools.specs.FromText.{IsReadFromText};
ghost use Rattle.tool_images.specs.Dump.{read_text};
ghost use Rattle.tool_images.specs.PrintingImages.{environment_in};
ghost use Rattle.tool_images.specs.TextImages.{IsUnmade, MakesEmpty, MakesImage};

use crate::dump::dumped_text;
use crate::fault::Fault;
use envimage::{ByteOrder, ImageError, SINGLE_MIN, SIZE_MAX, encode};
use envtools::{Env, TextError, from_text};
use std::alloc::Global;

/// The environment of a text, as `mkenvimage` reads it. Of a text that U-Boot's `printenv` wrote to its console,
/// the lines after the variables and the carriage returns at the ends of lines are left out first.
///
/// Errors: `NoEquals` or `EmptyName` for the first line that is no variable; `Memory`.
pub fn env_of_text(alloc: Global, text: &[u8]) -> Result<Env, TextError>
    ensures { IsReadFromText (read_text text.now) result }
{
    match dumped_text(alloc, text) {
        Ok(Some(variables)) => from_text(alloc, &variables),
        Ok(None) => from_text(alloc, text),
        Err(_) => Err(TextError::Memory),
    }
}

/// The single image of an environment, just long enough. Errors: `TooLarge`, if it would have more than
/// `SIZE_MAX` bytes; `Memory`.
fn image_of(alloc: Global, env: &Env, order: ByteOrder) -> Result<Vec<u8>, ImageError>
    ensures image { IfOk result (λ image.
        environment_in order image.items None ≡ Ok (env_of env.now)) }
    ensures fault { IfErr result (IsUnmade env.now) }
{
    let size = env.entries_len().saturating_add(SINGLE_MIN);
    if size > SIZE_MAX {
        return Err(ImageError::TooLarge);
    }
    let pairs = env.pairs()?;
    encode(alloc, &pairs, size, None, order)
}

/// A single image without variables, with its CRC in this byte order. Errors: `Memory`.
pub fn empty_image(alloc: Global, order: ByteOrder) -> Result<Vec<u8>, Fault>
    ensures { MakesEmpty order result }
{
    match image_of(alloc, &Env::new(alloc), order) {
        Ok(image) => Ok(image),
        Err(_) => Err(Fault::Memory),
    }
}

/// A single image of a text's environment, with its CRC in this byte order.
///
/// Errors: `Text` for the first line that is no variable; `TextTooLarge`, if the image would have more
/// than `SIZE_MAX` bytes; `Memory`.
pub fn image_of_text(alloc: Global, text: &[u8], order: ByteOrder) -> Result<Vec<u8>, Fault>
    ensures { MakesImage order text.now result }
{
    let env = match env_of_text(alloc, text) {
        Ok(env) => env,
        Err(TextError::Memory) => return Err(Fault::Memory),
        Err(error) => return Err(Fault::Text(error)),
    };
    match image_of(alloc, &env, order) {
        Ok(image) => Ok(image),
        Err(ImageError::TooLarge) => Err(Fault::TextTooLarge),
        Err(_) => Err(Fault::Memory),
    }
}
