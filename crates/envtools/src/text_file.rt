//! The environment of a text, as `mkenvimage` reads it.
ghost use Rattle.std.specs.Prelude.{◌≡◌, ◌++◌, IfOk, OnOk, false, length};
ghost use Rattle.envtools.specs.FromText.{IsReadFromText, added, data_of, ending, line_of, step, within};

use crate::env::Env;
use crate::env_error::EnvError;
use envimage::DataError;
use std::alloc::{AllocError, Global};
use thiserror::Error;

/// Why a text is refused. Lines count from 1, and skipped lines count too. An entry of several lines is named by its first
/// line.
#[derive(Clone, Copy, Debug, Drop, PartialEq, Eq, Error)]
pub enum TextError {
    /// The line has no `=`.
    #[error("text line {0} has no =")]
    NoEquals(usize),
    /// The line starts with `=`.
    #[error("text line {0} has no name")]
    EmptyName(usize),
    /// Memory ran out.
    #[error("out of memory")]
    Memory,
}

impl From<AllocError> for TextError {
    ghost use Rattle.std.specs.Prelude.{◌≡◌};
    ghost use Rattle.envtools.specs.declared.text_file.TextError.TheVariants.{Memory};

    ghost from_gives = { λ _ e. e ≡ Memory };

    fn from(_error: AllocError) -> TextError {
        TextError::Memory
    }
}

/// Where a byte of a text is.
#[derive(Clone, Copy)]
enum Position {
    /// At the start of a line.
    LineStart,
    /// Within a line that is not skipped.
    InLine,
    /// Within a line that starts with `#`.
    InComment,
    /// After a backslash, which was not added yet.
    Escaped,
}

/// What a byte of a text does.
#[derive(Clone, Copy)]
struct Step {
    /// Where the next byte is.
    next: Position,
    /// Whether the backslash before this byte is added.
    backslash: bool,
    /// What is added then.
    byte: Option<u8>,
}

impl Step {
    /// A step that adds this byte, if there is one.
    fn to(next: Position, byte: Option<u8>) -> Self
        ensures { (result.next ≡ next) × (added result ≡ added (record { next = next; backslash = false; byte = byte })) }
    {
        Step {
            next,
            backslash: false,
            byte,
        }
    }

    /// How many bytes it adds.
    fn len(&self) -> usize
        ensures { result ≡ length (added self.now) }
    {
        usize::from(self.backslash) + usize::from(self.byte.is_some())
    }

    /// Adds its bytes to the data.
    fn push_to(&self, out: &mut Vec<u8>) -> Result<(), AllocError>
        ensures { OnOk result (out.new.items ≡ out.old.items ++ added self.now) }
    {
        if self.backslash {
            out.push(b'\\')?;
        }
        if let Some(byte) = self.byte {
            out.push(byte)?;
        }
        Ok(())
    }
}

/// What a byte of a line does that is not skipped.
fn within(byte: u8) -> Step
    ensures step { (result.next, added result) ≡ within byte }
    ensures plain { result.backslash ≡ false }
{
    if byte == b'\\' {
        Step::to(Position::Escaped, None)
    } else {
        Step::to(Position::InLine, Some(byte))
    }
}

/// What a byte at a position does.
fn step_of(at: Position, byte: u8) -> Step
    ensures { (result.next, added result) ≡ step at byte }
{
    match (at, byte) {
        (Position::InLine, b'\n') => Step::to(Position::LineStart, Some(0)),
        (Position::Escaped, b'\n') => Step::to(Position::LineStart, Some(b'\n')),
        (_, b'\n') => Step::to(Position::LineStart, None),
        (Position::InComment, _) => Step::to(Position::InComment, None),
        (Position::LineStart, b'#') => Step::to(Position::InComment, None),
        (Position::Escaped, _) => Step {
            backslash: true,
            ..within(byte)
        },
        (_, _) => within(byte),
    }
}

/// Adds what ends the data.
fn push_ending(out: &mut Vec<u8>, at: Position) -> Result<(), AllocError>
    ensures { OnOk result (out.new.items ≡ out.old.items ++ ending at) }
{
    match at {
        Position::Escaped => out.extend_from_slice(b"\\\0\0"),
        _ => out.extend_from_slice(b"\0\0"),
    }
}

/// The data that `mkenvimage` makes of a text.
fn text_data(alloc: Global, text: &[u8]) -> Result<Vec<u8>, AllocError>
    ensures { IfOk result (λ made. made.items ≡ data_of text.now) }
{
    let mut made = Vec::new(alloc);
    let mut at = Position::LineStart;
    for byte in text {
        let step = step_of(at, *byte);
        step.push_to(&mut made)?;
        at = step.next;
    }
    push_ending(&mut made, at)?;
    Ok(made)
}

/// The number of the line from which the byte at a place of the data comes.
fn line_of(text: &[u8], place: usize) -> usize
    ensures { result ≡ line_of text.now place }
{
    let mut at = Position::LineStart;
    let mut line = 1;
    let mut left = place;
    for byte in text {
        let step = step_of(at, *byte);
        if left < step.len() {
            return line;
        }
        left -= step.len();
        if *byte == b'\n' {
            line += 1;
        }
        at = step.next;
    }
    line
}

/// Reads the environment of a text, as `mkenvimage` puts it into an image: each line is a variable `NAME=VALUE`. Empty
/// lines and lines that start with `#` are skipped. A newline after a backslash belongs to the value, and the backslash does
/// not; the lines that are skipped are skipped there too. The last line may lack its newline. Each name is there once, in its
/// first place, with its last value.
///
/// Errors: `NoEquals` or `EmptyName` for the first line that is no variable; `Memory`.
pub fn from_text(alloc: Global, text: &[u8]) -> Result<Env, TextError>
    ensures { IsReadFromText text.now result }
{
    let made = text_data(alloc, text)?;
    match Env::from_data(alloc, &made) {
        Ok(env) => Ok(env),
        Err(EnvError::Content(DataError::NoEquals(place))) => {
            Err(TextError::NoEquals(line_of(text, place)))
        }
        Err(EnvError::Content(DataError::EmptyName(place))) => {
            Err(TextError::EmptyName(line_of(text, place)))
        }
        Err(_) => Err(TextError::Memory),
    }
}
