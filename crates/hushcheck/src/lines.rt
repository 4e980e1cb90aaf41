//! The lines that are reported of a text.
ghost use Rattle.std.specs.Prelude.{◌≡◌, ◌++◌, codes, decimal, OnOk};
ghost use Rattle.hushcheck.specs.Calls as calls;
ghost use Rattle.hushcheck.specs.Place.{IsPoint, front_shown, place_in, rest_shown};
ghost use Rattle.hushcheck.specs.Places as places;
ghost use Rattle.hushcheck.specs.Remarks as shown;
ghost use Rattle.hushcheck.specs.Report as spec;
ghost use Rattle.hushcheck.specs.Warnings.{blocks_of};
ghost use Rattle.text.specs.Escapes.{word_form};

use crate::fault::{byte_of, what_of};
use crate::place::{Place, Point, Shown, first_point, moved, place_of_point, shown_at};
use crate::remark::Remark;
use crate::shown::{push_line, push_mark, push_name};
use crate::warning::warning_text;
use hushlang::SyntaxError;
use itoa::Buffer;
use std::alloc::AllocError;

/// Adds a number at the end of `told`.
fn push_number(told: &mut Vec<u8>, number: usize) -> Result<(), AllocError>
    ensures { OnOk result (told.new.items ≡ told.old.items ++ decimal number) }
{
    let mut digits = Buffer::new();
    told.extend_from_slice(digits.format(number).as_bytes())
}

/// Adds a line that starts with a name at the end of `told`.
pub(crate) fn push_named(told: &mut Vec<u8>, name: &[u8], rest: &[u8]) -> Result<(), AllocError>
    ensures { OnOk result (told.new.items ≡ told.old.items ++ (word_form name.now ++ rest.now)) }
{
    push_name(told, name)?;
    told.extend_from_slice(rest)
}

/// Adds `NAME:LINE:COLUMN: ` at the end of `told`.
fn push_place(told: &mut Vec<u8>, name: &[u8], place: Place) -> Result<(), AllocError>
    ensures { OnOk result (told.new.items ≡ told.old.items ++ places.place_form name.now place) }
{
    push_named(told, name, b":")?;
    push_number(told, place.line)?;
    told.extend_from_slice(b":")?;
    push_number(told, place.column)?;
    told.extend_from_slice(b": ")
}

/// Adds what is shown of the line of a byte, and the line of a mark under the byte, at the end of
/// `told`.
fn push_marked(told: &mut Vec<u8>, shown: &Shown<'_>) -> Result<(), AllocError>
    ensures { OnOk result (told.new.items
        ≡ told.old.items ++ places.marked shown.now.front.now shown.now.rest.now) }
{
    push_line(told, shown.front)?;
    push_line(told, shown.rest)?;
    told.extend_from_slice(b"\n")?;
    push_mark(told, shown.front)?;
    told.extend_from_slice(b"\n")?;
    Ok(())
}

/// Adds the place of a byte in a text that was gone through up to it at the end of `told`.
fn push_point(told: &mut Vec<u8>, name: &[u8], text: &[u8], point: Point) -> Result<(), AllocError>
    requires { IsPoint text.now point }
    ensures { OnOk result (told.new.items ≡ told.old.items
        ++ places.place_form name.now (place_in text.now point.at)) }
{
    push_place(told, name, place_of_point(text, point))
}

/// Adds the rest of the line of a byte's place, and what is shown of the byte's line with a mark,
/// at the end of `told`.
fn push_shown(told: &mut Vec<u8>, text: &[u8], point: Point) -> Result<(), AllocError>
    requires { IsPoint text.now point }
    ensures { OnOk result (told.new.items ≡ told.old.items
        ++ (codes "\n" ++ places.marked (front_shown text.now point.at)
        (rest_shown text.now point.at))) }
{
    told.extend_from_slice(b"\n")?;
    push_marked(told, &shown_at(text, point))
}

/// What is reported of a word, in words, at the end of `told`.
fn push_remark(told: &mut Vec<u8>, remark: &Remark) -> Result<(), AllocError>
    ensures { OnOk result (told.new.items ≡ told.old.items
        ++ calls.remark_text (shown.remark remark.now)) }
{
    match remark {
        Remark::NotFollowed => {
            told.extend_from_slice(b"note: not followed, since the name holds a variable")
        }
        Remark::Lacks(name) => {
            told.extend_from_slice(b"the device list lacks ")?;
            push_name(told, name)
        }
        Remark::SetsMore => {
            told.extend_from_slice(b"note: which variables this sets is not known")
        }
        Remark::Unset(name) => {
            told.extend_from_slice(b"warning: nothing sets ")?;
            push_name(told, name)
        }
        Remark::Warns(warning) => told.extend_from_slice(warning_text(*warning)),
    }
}

/// Adds what is found at a place of a text that was gone through up to it, its line and a mark at
/// the end of `told`.
pub(crate) fn push_found(
    told: &mut Vec<u8>,
    name: &[u8],
    text: &[u8],
    point: Point,
    remark: &Remark,
) -> Result<(), AllocError>
    requires { IsPoint text.now point }
    ensures { OnOk result (told.new.items ≡ told.old.items
        ++ calls.remark_lines name.now text.now (point.at, shown.remark remark.now)) }
{
    push_point(told, name, text, point)?;
    push_remark(told, remark)?;
    push_shown(told, text, point)
}

/// Adds what is reported of a place of a text, its line and a mark at the end of `told`.
fn push_at(
    told: &mut Vec<u8>,
    name: &[u8],
    text: &[u8],
    at: usize,
    what: &[u8],
) -> Result<(), AllocError>
    ensures { OnOk result (told.new.items ≡ told.old.items
        ++ places.lines_at name.now text.now at what.now) }
{
    let point = moved(text, first_point(text), at);
    push_point(told, name, text, point)?;
    told.extend_from_slice(what)?;
    push_shown(told, text, point)
}

/// Adds what is wrong with a text, its line and a mark at the end of `told`.
pub(crate) fn push_fault(
    told: &mut Vec<u8>,
    name: &[u8],
    text: &[u8],
    blocks: &[usize],
    error: SyntaxError,
) -> Result<(), AllocError>
    requires { blocks.now ≡ blocks_of text.now }
    ensures { OnOk result (told.new.items ≡ told.old.items
        ++ spec.fault_lines name.now text.now error) }
{
    push_at(
        told,
        name,
        text,
        byte_of(error),
        what_of(text.len(), blocks, error),
    )
}
