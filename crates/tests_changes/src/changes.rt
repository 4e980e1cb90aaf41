//! A caller of `ubtool`.
ghost use Rattle.std.specs.Prelude.{Some, IfOk};
ghost use Rattle.ubtool.specs.ChangingImages.{IsSafe};

use std::alloc::Global;
use ubtool::{ByteOrder, Edit, ToolError, Which, set_bytes};

/// The copy of a redundant pair to write, and its bytes, with one variable set. Whatever prefix of them is written, the
/// pair still loads.
pub fn with_variable(
    alloc: Global,
    order: ByteOrder,
    first: &[u8],
    second: &[u8],
    name: &[u8],
    value: &[u8],
) -> Result<(Which, Vec<u8>), ToolError>
    ensures { IfOk result (λ w. IsSafe order first.now (Some second.now) w.0 w.1.items) }
{
    let words = [value];
    let edit = Edit::One {
        name,
        words: &words,
    };
    set_bytes(alloc, first, Some(second), order, edit)
}
