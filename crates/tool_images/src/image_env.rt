//! The environment of an image.
ghost use Rattle.std.specs.Option.{option_copied};
ghost use Rattle.tool_images.specs.PrintingImages.{Finds, environment_in};

use envimage::{ByteOrder, ImageError, load};
use envtools::Env;
use std::alloc::Global;

/// The environment of an image, or of the current copy of a pair. Errors: those of `load`, `Memory`.
pub fn env_of_image(
    alloc: Global,
    first: &[u8],
    second: Option<&[u8]>,
    order: ByteOrder,
) -> Result<Env, ImageError>
    ensures { Finds (environment_in order first.now (option_copied second.entry)) result }
{
    let loaded = load(first, second, order)?;
    match Env::from_checked(alloc, loaded.body) {
        Ok(env) => Ok(env),
        Err(_) => Err(ImageError::Memory),
    }
}
