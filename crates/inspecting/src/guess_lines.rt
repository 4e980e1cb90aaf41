//! The lines that say as what bytes would be right.
ghost use Rattle.std.specs.Prelude.{◌≡◌, ◌++◌, codes, drop, IfOk, OnOk};
ghost use Rattle.std.specs.List.{flat_map};
ghost use Rattle.inspecting.specs.CopiesShown.{copies_shown, held_shown};
ghost use Rattle.inspecting.specs.Guesses.{guess_lines, guesses, guesses_as, guesses_at, kind_word, order_word, place_of};
ghost use Rattle.inspecting.specs.Inspecting.{guesses_of};

use crate::copies::{Copies, Held};
use crate::guessing::{front, may_be, right_sizes, starts};
use crate::lines::{put_line, put_word};
use envimage::ByteOrder;
use std::alloc::{AllocError, Global};

/// The most places of a copy that are tried.
const STARTS_MAX: usize = 32;

/// The word for a single image, or for a copy of a pair.
fn kind_word(is_copy: bool) -> &'static [u8]
    ensures { result.now ≡ kind_word is_copy }
{
    if is_copy { b"copy" } else { b"single" }
}

/// The word for a byte order.
fn order_word(order: ByteOrder) -> &'static [u8]
    ensures { result.now ≡ order_word order }
{
    match order {
        ByteOrder::Little => b"little",
        ByteOrder::Big => b"big",
    }
}

/// The line of a configuration for bytes of this size, from an offset in the copy on.
fn place_of(
    held: Held<'_>,
    offset: usize,
    size: usize,
    alloc: Global,
) -> Result<Vec<u8>, AllocError>
    ensures { IfOk result (λ place. place.items ≡ place_of (held_shown held.entry) offset size) }
{
    let start = held.offset.saturating_add(offset as u64);
    let numbers = format!(in alloc; " 0x{start:x} 0x{size:x}")?;
    let mut place = Vec::new(alloc);
    put_word(&mut place, held.path)?;
    place.extend_from_slice(numbers.as_bytes())?;
    Ok(place)
}

/// What bytes would be right as, without their size.
fn kind_of(is_copy: bool, order: ByteOrder, alloc: Global) -> Result<Vec<u8>, AllocError>
    ensures { IfOk result (λ kind. kind.items
        ≡ kind_word is_copy ++ (codes " " ++ order_word order)) }
{
    let mut kind = Vec::from_slice(alloc, kind_word(is_copy))?;
    kind.push(b' ')?;
    kind.extend_from_slice(order_word(order))?;
    Ok(kind)
}

/// Adds the lines for one size.
fn put_guess(
    text: &mut Vec<u8>,
    held: Held<'_>,
    offset: usize,
    is_copy: bool,
    order: ByteOrder,
    size: usize,
) -> Result<(), AllocError>
    ensures { OnOk result (text.new.items
        ≡ text.old.items ++ guess_lines (held_shown held.entry) offset is_copy order size) }
{
    let alloc = *text.allocator();
    put_line(text, "guess", &kind_of(is_copy, order, alloc)?)?;
    put_line(text, "config", &place_of(held, offset, size, alloc)?)
}

/// Adds the lines for these sizes.
fn put_sizes(
    text: &mut Vec<u8>,
    held: Held<'_>,
    offset: usize,
    is_copy: bool,
    order: ByteOrder,
    sizes: &[usize],
) -> Result<(), AllocError>
    ensures { OnOk result (text.new.items ≡ text.old.items
        ++ flat_map (guess_lines (held_shown held.entry) offset is_copy order) sizes.now) }
{
    for size in sizes {
        put_guess(text, held, offset, is_copy, order, *size)?;
    }
    Ok(())
}

/// The bytes from an offset on.
fn rest_of(bytes: &[u8], offset: usize) -> &[u8]
    ensures { result.now ≡ drop offset bytes.now }
{
    if offset > bytes.len() {
        return &[];
    }
    &bytes[offset..]
}

/// Adds the lines for all that bytes from an offset on are right as, alone or as a copy.
fn put_guesses_as(
    text: &mut Vec<u8>,
    held: Held<'_>,
    offset: usize,
    is_copy: bool,
) -> Result<(), AllocError>
    ensures { OnOk result (text.new.items
        ≡ text.old.items ++ guesses_as (held_shown held.entry) offset is_copy) }
{
    let bytes = rest_of(held.bytes, offset);
    if !may_be(bytes, is_copy) {
        return Ok(());
    }
    let sizes = right_sizes(*text.allocator(), bytes, is_copy)?;
    put_sizes(
        text,
        held,
        offset,
        is_copy,
        ByteOrder::Little,
        &sizes.little,
    )?;
    put_sizes(text, held, offset, is_copy, ByteOrder::Big, &sizes.big)
}

/// Adds the lines for all that the bytes from an offset on are right as.
fn put_guesses_at(text: &mut Vec<u8>, held: Held<'_>, offset: usize) -> Result<(), AllocError>
    ensures { OnOk result (text.new.items
        ≡ text.old.items ++ guesses_at (held_shown held.entry) offset) }
{
    put_guesses_as(text, held, offset, false)?;
    put_guesses_as(text, held, offset, true)
}

/// Adds the lines for these offsets.
fn put_places(text: &mut Vec<u8>, held: Held<'_>, offsets: &[usize]) -> Result<(), AllocError>
    ensures { OnOk result (text.new.items
        ≡ text.old.items ++ flat_map (guesses_at (held_shown held.entry)) offsets.now) }
{
    for offset in offsets {
        put_guesses_at(text, held, *offset)?;
    }
    Ok(())
}

/// Adds the lines for all that the bytes of a copy would be right as.
fn put_guesses(text: &mut Vec<u8>, held: Held<'_>) -> Result<(), AllocError>
    ensures { OnOk result (text.new.items ≡ text.old.items ++ guesses (held_shown held.entry)) }
{
    let found = starts(*text.allocator(), held.bytes)?;
    put_places(text, held, front(&found, STARTS_MAX))
}

/// Adds the lines for all that the bytes of the copies would be right as.
pub fn put_all_guesses(text: &mut Vec<u8>, copies: Copies<'_>) -> Result<(), AllocError>
    ensures { OnOk result (text.new.items
        ≡ text.old.items ++ guesses_of (copies_shown copies.entry)) }
{
    match copies {
        Copies::Single(held) => put_guesses(text, held),
        Copies::Pair(first, second) => {
            put_guesses(text, first)?;
            put_guesses(text, second)
        }
    }
}
