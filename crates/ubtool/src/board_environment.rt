//! The environment that a rehearsal starts with.
ghost use Rattle.std.specs.Prelude.{◌≡◌, IfOk};
ghost use Rattle.std.specs.Option.{option_copied};
ghost use Rattle.tool_images.specs.PrintingImages.{environment_in};
ghost use Rattle.ubtool.specs.BoardEnvironment.{FindsOnBoard, on_board};

use envimage::{ByteOrder, ImageError};
use envtools::Env;
use rehearse_terms::Shell;
use std::alloc::{AllocError, Global};
use tool_images::env_of_image;

/// The environment that a board of this shell has of a stored one. Errors: memory ran out.
fn env_on_board(shell: Shell, env: Env) -> Result<Env, AllocError>
    ensures { IfOk result (λ board. board ≡ on_board shell env) }
{
    match shell {
        Shell::Profile => Ok(env),
        Shell::Old2023 | Shell::Old2025 | Shell::Modern2025 => env.imported(),
    }
}

/// The environment of an image, or of the current copy of a pair, as a board of this shell has it.
/// Errors: those of the image, `Memory`.
pub(crate) fn env_of_board(
    alloc: Global,
    first: &[u8],
    second: Option<&[u8]>,
    order: ByteOrder,
    shell: Shell,
) -> Result<Env, ImageError>
    ensures { FindsOnBoard shell (environment_in order first.now (option_copied second.entry)) result }
{
    let env = env_of_image(alloc, first, second, order)?;
    Ok(env_on_board(shell, env)?)
}
