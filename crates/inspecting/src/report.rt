//! What is reported of an image: its copies, which one counts, and its data.
ghost use Rattle.std.specs.Prelude.{◌≡◌, ◌+◌, ◌++◌, ◌≤◌, true, IfOk, None, OnOk, length};
ghost use Rattle.envimage.specs.Data.{data_fault};
ghost use Rattle.inspecting.specs.CopiesShown.{copies_shown, held_shown};
ghost use Rattle.inspecting.specs.Report.{are_sizes, checksum_lines, copies_lines, copy_lines, data_lines, environment_lines, fault_line, flag_line, header_of, pair_lines, place_lines, reason_line, single_lines, used_by, variables_in, has_no_fault};

use crate::copies::{Copies, Held};
use crate::judging::{checksum, current, is_right, stored};
use crate::lines::{put_choice, put_decimal, put_hex, put_line, put_path};
use envimage::{ByteOrder, DataError, Which, check_data, entries};
use envtools::Env;
use std::alloc::{AllocError, Global};

/// Adds the lines of the place of a copy.
fn put_place(text: &mut Vec<u8>, number: usize, held: Held<'_>) -> Result<(), AllocError>
    ensures { OnOk result (text.new.items ≡ text.old.items ++ place_lines number (held_shown held.entry)) }
{
    put_decimal(text, "copy", number)?;
    put_path(text, held.path)?;
    put_hex(text, "offset", held.offset)?;
    put_hex(text, "size", held.bytes.len() as u64)
}

/// Adds the lines of its checksums.
fn put_checksums(
    text: &mut Vec<u8>,
    image: &[u8],
    is_copy: bool,
    order: ByteOrder,
) -> Result<(), AllocError>
    requires { header_of is_copy ≤ length image.now }
    ensures { OnOk result (text.new.items
        ≡ text.old.items ++ checksum_lines order is_copy image.now) }
{
    put_hex(text, "stored", u64::from(stored(image, order)))?;
    put_hex(text, "checksum", u64::from(checksum(image, is_copy)))?;
    put_choice(text, "right", is_right(image, is_copy, order))
}

/// Adds the line of the flag of a copy of a pair.
fn put_flag(text: &mut Vec<u8>, image: &[u8]) -> Result<(), AllocError>
    requires { 5 ≤ length image.now }
    ensures { OnOk result (text.new.items ≡ text.old.items ++ flag_line image.now) }
{
    put_decimal(text, "flag", usize::from(image[4]))
}

/// Adds the lines of a single image.
fn put_single(text: &mut Vec<u8>, held: Held<'_>, order: ByteOrder) -> Result<(), AllocError>
    requires { 4 ≤ length held.bytes.now }
    ensures { OnOk result (text.new.items ≡ text.old.items ++ single_lines order (held_shown held.entry)) }
{
    put_place(text, 1, held)?;
    put_checksums(text, held.bytes, false, order)?;
    put_choice(text, "current", is_right(held.bytes, false, order))
}

/// Adds the lines of a copy of a pair.
fn put_copy(
    text: &mut Vec<u8>,
    number: usize,
    held: Held<'_>,
    order: ByteOrder,
    is_current: bool,
) -> Result<(), AllocError>
    requires { 5 ≤ length held.bytes.now }
    ensures { OnOk result (text.new.items
        ≡ text.old.items ++ copy_lines order number (held_shown held.entry) is_current) }
{
    put_place(text, number, held)?;
    put_flag(text, held.bytes)?;
    put_checksums(text, held.bytes, true, order)?;
    put_choice(text, "current", is_current)
}

/// Adds the line that says why the copy counts that does.
fn put_reason(
    text: &mut Vec<u8>,
    first: &[u8],
    second: &[u8],
    order: ByteOrder,
) -> Result<(), AllocError>
    requires first { 5 ≤ length first.now }
    requires second { 5 ≤ length second.now }
    ensures { OnOk result (text.new.items
        ≡ text.old.items ++ reason_line order first.now second.now) }
{
    match (is_right(first, true, order), is_right(second, true, order)) {
        (false, false) => Ok(()),
        (true, true) if first[4] == second[4] => put_line(text, "because", b"order"),
        (true, true) => put_line(text, "because", b"flag"),
        (_, _) => put_line(text, "because", b"checksum"),
    }
}

/// Adds the lines of a pair.
fn put_pair(
    text: &mut Vec<u8>,
    first: Held<'_>,
    second: Held<'_>,
    order: ByteOrder,
) -> Result<(), AllocError>
    requires first { 5 ≤ length first.bytes.now }
    requires second { 5 ≤ length second.bytes.now }
    ensures { OnOk result (text.new.items ≡ text.old.items ++ pair_lines order (held_shown first.entry) (held_shown second.entry)) }
{
    let which = current(first.bytes, second.bytes, order);
    put_copy(text, 1, first, order, which == Some(Which::First))?;
    put_copy(text, 2, second, order, which == Some(Which::Second))?;
    put_reason(text, first.bytes, second.bytes, order)
}

/// Adds the lines of all copies.
pub fn put_copies(
    text: &mut Vec<u8>,
    copies: Copies<'_>,
    order: ByteOrder,
) -> Result<(), AllocError>
    requires { are_sizes (copies_shown copies) ≡ true }
    ensures { OnOk result (text.new.items ≡ text.old.items ++ copies_lines order (copies_shown copies.entry)) }
{
    match copies {
        Copies::Single(held) => put_single(text, held, order),
        Copies::Pair(first, second) => put_pair(text, first, second, order),
    }
}

/// How many bytes the entries of data take that have no fault, and the NUL after them.
fn used_by(body: &[u8]) -> usize
    requires { data_fault body.now ≡ None }
    ensures { result ≡ used_by body.now }
{
    let mut used: usize = 1;
    for (name, value) in entries(body) {
        used = used
            .saturating_add(name.len())
            .saturating_add(value.len())
            .saturating_add(2);
    }
    used
}

/// How many variables data have that have no fault. Errors: `AllocError`.
fn variables_in(alloc: Global, body: &[u8]) -> Result<usize, AllocError>
    requires { data_fault body.now ≡ None }
    ensures { IfOk result (λ count. count ≡ variables_in body.now) }
{
    match Env::from_checked(alloc, body) {
        Ok(env) => Ok(env.len()),
        Err(_) => Err(AllocError),
    }
}

/// Adds the lines of the environment in data that have no fault.
fn put_environment(alloc: Global, text: &mut Vec<u8>, body: &[u8]) -> Result<(), AllocError>
    requires { data_fault body.now ≡ None }
    ensures { OnOk result (text.new.items ≡ text.old.items ++ environment_lines body.now) }
{
    let used = used_by(body);
    put_decimal(text, "variables", variables_in(alloc, body)?)?;
    put_decimal(text, "used", used)?;
    put_decimal(text, "free", body.len().saturating_sub(used))
}

/// Adds the line of the first fault of data.
fn put_fault(text: &mut Vec<u8>, fault: DataError) -> Result<(), AllocError>
    ensures { OnOk result (text.new.items ≡ text.old.items ++ fault_line fault) }
{
    match fault {
        DataError::NotTerminated => put_line(text, "fault", b"not-terminated"),
        DataError::NoEquals(at) => put_decimal(text, "fault no-equals", at),
        DataError::EmptyName(at) => put_decimal(text, "fault no-name", at),
    }
}

/// Adds the lines of data. Returns whether they have no fault.
pub fn put_data(alloc: Global, text: &mut Vec<u8>, body: &[u8]) -> Result<bool, AllocError>
    ensures lines { OnOk result (text.new.items ≡ text.old.items ++ data_lines body.now) }
    ensures faultless { IfOk result (λ faultless. faultless ≡ has_no_fault body.now) }
{
    match check_data(body) {
        Ok(()) => {
            put_environment(alloc, text, body)?;
            Ok(true)
        }
        Err(fault) => {
            put_fault(text, fault)?;
            Ok(false)
        }
    }
}
