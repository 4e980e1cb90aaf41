//! The line and the column of a byte, and what is shown of its line.
ghost use Rattle.std.specs.Prelude.{◌≡◌, ◌≤◌, ◌+◌, length, min, take, drop, count_by};
ghost use Rattle.std.specs.List.{after_last, before_first};
ghost use Rattle.text.specs.Lines.{is_newline};
ghost use Rattle.hushcheck.specs.Place as spec;
ghost use Rattle.hushcheck.specs.Place.{IsPoint, place_in};

use memchr::{memchr, memrchr};

/// How many bytes of a line are shown at most.
const SHOWN_MAX: usize = 80;

/// How many of them are before the byte, if the line goes on for as many after it.
const FRONT_MAX: usize = 40;

/// Where a byte is in a text. Lines and columns count from 1, and columns count bytes.
#[derive(Clone, Copy, Debug, PartialEq, Eq)]
pub struct Place {
    /// The line.
    pub line: usize,
    /// The column in this line.
    pub column: usize,
}

/// A place of a text that is gone through, with its line.
#[derive(Clone, Copy, Debug, PartialEq, Eq)]
pub(crate) struct Point {
    /// The byte.
    pub(crate) at: usize,
    /// The number of its line, from 1.
    pub(crate) line: usize,
    /// Where this line starts.
    pub(crate) start: usize,
}

/// What is shown of a byte's line.
#[derive(Clone, Copy)]
pub(crate) struct Shown<'a> {
    /// The bytes before it.
    pub(crate) front: &'a [u8],
    /// The byte and those after it.
    pub(crate) rest: &'a [u8],
}

/// Where the first line of some bytes ends.
fn line_end(behind: &[u8]) -> usize
    ensures within { result ≤ length behind.now }
    ensures line { take result behind.now ≡ before_first is_newline behind.now }
{
    match memchr(b'\n', behind) {
        Some(at) => at,
        None => behind.len(),
    }
}

/// How many newlines there are.
fn newlines(bytes: &[u8]) -> usize
    ensures count { result ≡ count_by is_newline bytes.now }
    ensures within { result ≤ length bytes.now }
{
    bytes.iter().filter(|byte| **byte == b'\n').count()
}

/// The start of a text.
pub(crate) fn first_point(text: &[u8]) -> Point
    ensures point { IsPoint text.now result }
    ensures at { result.at ≡ 0 }
{
    let _ = text;
    Point {
        at: 0,
        line: 1,
        start: 0,
    }
}

/// A later place of a text.
fn advanced(text: &[u8], point: Point, at: usize) -> Point
    requires point { IsPoint text.now point }
    requires later { point.at ≤ at }
    requires within { at ≤ length text.now }
    ensures point { IsPoint text.now result }
    ensures at { result.at ≡ at }
{
    let between = &text[point.at..at];
    let line = point.line + newlines(between);
    match memrchr(b'\n', between) {
        Some(newline) => Point {
            at,
            line,
            start: point.at + newline + 1,
        },
        None => Point {
            at,
            line,
            start: point.start,
        },
    }
}

/// Another place of a text; the place after the last byte is the end of the text. From an earlier
/// place it takes time for the bytes between.
pub(crate) fn moved(text: &[u8], point: Point, at: usize) -> Point
    requires { IsPoint text.now point }
    ensures point { IsPoint text.now result }
    ensures at { result.at ≡ min at (length text.now) }
{
    let at = at.min(text.len());
    if at < point.at {
        advanced(text, first_point(text), at)
    } else {
        advanced(text, point, at)
    }
}

/// The line and the column of a place that was reached.
pub(crate) fn place_of_point(text: &[u8], point: Point) -> Place
    requires { IsPoint text.now point }
    ensures { result ≡ place_in text.now point.at }
{
    let _ = text;
    Place {
        line: point.line,
        column: point.at - point.start + 1,
    }
}

/// What is shown of the line of a place that was reached.
pub(crate) fn shown_at(text: &[u8], point: Point) -> Shown<'_>
    requires { IsPoint text.now point }
    ensures front { result.front.now ≡ spec.front_shown text.now point.at }
    ensures rest { result.rest.now ≡ spec.rest_shown text.now point.at }
{
    let column = point.at - point.start;
    let room = SHOWN_MAX - column.min(FRONT_MAX);
    let end = (point.at + room).min(text.len());
    let behind = &text[point.at..end];
    let rest = &behind[..line_end(behind)];
    let kept = column.min(SHOWN_MAX - rest.len());
    let front = &text[point.at - kept..point.at];
    Shown { front, rest }
}

/// The line and the column of the byte at a place. The place after the last byte is the end of the
/// text.
pub fn place_of(text: &[u8], at: usize) -> Place
    ensures { result ≡ place_in text.now at }
{
    let point = moved(text, first_point(text), at);
    place_of_point(text, point)
}
