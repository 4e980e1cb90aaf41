//! `printenv`, from the bytes of an image to both outputs.
ghost use Rattle.std.specs.Prelude.{◌≡◌, map, length, false};
ghost use Rattle.std.specs.Option.{option_copied};
ghost use Rattle.tool_images.specs.PrintingImages.{Prints, environment_in};
ghost use Rattle.output.specs.Outputs.{outputs};

use crate::error::ToolError;
use envimage::{ByteOrder, load};
use envtools::{PrintForm, print_data};
use output::Out;
use std::alloc::Global;

/// What `print_bytes` is to print.
#[derive(Clone, Copy)]
pub struct PrintAsk<'a> {
    /// The variables, in this order; none for all.
    pub names: &'a [&'a [u8]],
    /// How each of them is printed. Without its header, `names` is one name.
    pub form: PrintForm,
}

/// Prints the variables of an image, or of the current copy of a pair, as `printenv` does: all of
/// them in order, or the named ones, in the form that is asked for. Returns false if a name is
/// missing. Without the header only the value of the one name is printed. An error other than
/// `Write` leaves both outputs as they were.
pub fn print_bytes<O: Out, E: Out>(
    alloc: Global,
    first: &[u8],
    second: Option<&[u8]>,
    order: ByteOrder,
    ask: &PrintAsk<'_>,
    out: &mut O,
    err: &mut E,
) -> Result<bool, ToolError>
    requires { ask.now.form.header ≡ false → length ask.now.names.now ≡ 1 }
    ensures { Prints (environment_in order first.now (option_copied second.entry))
        (map (λ n. n.now) ask.now.names.now) ask.now.form
        (outputs (O.sink out.old) (O.sink out.new) (E.sink err.old) (E.sink err.new)) result }
{
    let loaded = load(first, second, order)?;
    Ok(print_data(alloc, loaded.body, ask.names, ask.form, out, err)?)
}
