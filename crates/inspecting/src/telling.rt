//! The report of an image, written to an output.
ghost use Rattle.std.specs.Prelude.{◌≡◌, ◌++◌, true, IfOk, OnOk, length};
ghost use Rattle.std.specs.Option.{option_copied};
ghost use Rattle.inspecting.specs.CopiesShown.{copies_shown};
ghost use Rattle.inspecting.specs.Inspecting.{Inspects, is_readable, report_of};
ghost use Rattle.inspecting.specs.Report.{are_sizes, body_of};

use crate::copies::Copies;
use crate::guess_lines::put_all_guesses;
use crate::judging::{current, header_of, is_right};
use crate::report::{put_copies, put_data};
use envimage::{ByteOrder, COPY_MIN, ImageError, SINGLE_MIN, SIZE_MAX, Which};
use output::{Out, write_all};
use std::alloc::{AllocError, Global};
use tool_images::ToolError;

/// Whether images may have these sizes.
fn are_sizes(copies: Copies<'_>) -> bool
    ensures { result ≡ are_sizes (copies_shown copies.entry) }
{
    match copies {
        Copies::Single(held) => SINGLE_MIN <= held.bytes.len() && held.bytes.len() <= SIZE_MAX,
        Copies::Pair(first, second) => {
            COPY_MIN <= first.bytes.len()
                && first.bytes.len() <= SIZE_MAX
                && first.bytes.len() == second.bytes.len()
        }
    }
}

/// The data of the copy that counts, if one does.
fn body_of(copies: Copies<'_>, order: ByteOrder) -> Option<&[u8]>
    requires { are_sizes (copies_shown copies) ≡ true }
    ensures { option_copied result ≡ body_of order (copies_shown copies.entry) }
{
    match copies {
        Copies::Single(held) => {
            if is_right(held.bytes, false, order) {
                Some(&held.bytes[header_of(false)..])
            } else {
                None
            }
        }
        Copies::Pair(first, second) => match current(first.bytes, second.bytes, order) {
            Some(Which::First) => Some(&first.bytes[header_of(true)..]),
            Some(Which::Second) => Some(&second.bytes[header_of(true)..]),
            None => None,
        },
    }
}

/// Adds the report of an image. Returns whether its environment can be read.
fn put_report(
    alloc: Global,
    text: &mut Vec<u8>,
    copies: Copies<'_>,
    order: ByteOrder,
) -> Result<bool, AllocError>
    requires { are_sizes (copies_shown copies) ≡ true }
    ensures lines { OnOk result (text.new.items ≡ text.old.items ++ report_of order (copies_shown copies.entry)) }
    ensures readable { IfOk result (λ readable. readable ≡ is_readable order (copies_shown copies.entry)) }
{
    put_copies(text, copies, order)?;
    match body_of(copies, order) {
        Some(body) => put_data(alloc, text, body),
        None => {
            put_all_guesses(text, copies)?;
            Ok(false)
        }
    }
}

/// Writes what an image is: for each place its path, its offset and its size, the flag of a copy, the checksum that is
/// there and the one that is right, and whether it counts; of a pair why it does; then the number of the variables, and
/// how many bytes of the data are used and free, or the first fault of the data. If no copy counts, it writes as what their
/// bytes would be right, each with its line for a configuration. Returns whether the environment can be read.
///
/// Errors: `Image` with `WrongSize`, if no image has this size, or two copies differ in size; `Memory`; `Write`, with a
/// prefix of the report written.
pub fn inspect<O: Out>(
    alloc: Global,
    out: &mut O,
    copies: Copies<'_>,
    order: ByteOrder,
) -> Result<bool, ToolError>
    ensures { Inspects order (copies_shown copies.entry) (O.sink out.old) (O.sink out.new) result }
{
    if !are_sizes(copies) {
        return Err(ToolError::Image(ImageError::WrongSize));
    }
    let mut text = Vec::new(alloc);
    let is_readable = put_report(alloc, &mut text, copies, order)?;
    match write_all(out, &text) {
        Ok(()) => Ok(is_readable),
        Err(_) => Err(ToolError::Write),
    }
}
