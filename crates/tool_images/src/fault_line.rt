//! The line that reports a fault. It takes no memory.
ghost use Rattle.std.specs.Prelude.{ℕ, List};
ghost use Rattle.output.specs.Sink.{Prints};
ghost use Rattle.tool_images.specs.FaultLines.{TellsLine, line_of};

use output::{Bytes, Out, OutFault, write_all};
use std::fmt;

/// The most bytes of a text that are written at one time.
const PART: usize = 4096;

/// How many bytes a text has.
#[derive(Drop)]
struct Length {
    bytes: usize,
}

impl fmt::Write for Length {
    fn write_str(&mut self, text: &str) -> fmt::Result {
        self.bytes = self.bytes.saturating_add(text.len());
        Ok(())
    }
}

/// A part of a text: the bytes from a place on, as many as there is room for.
#[derive(Drop)]
struct Part {
    /// How many bytes there still are in front of the place.
    ahead: usize,
    bytes: Bytes<PART>,
}

impl fmt::Write for Part {
    fn write_str(&mut self, text: &str) -> fmt::Result {
        let text = text.as_bytes();
        let skipped = self.ahead.min(text.len());
        self.ahead -= skipped;
        let taken = &text[skipped..];
        let fitting = self.bytes.room().min(taken.len());
        let _ = self.bytes.extend(&taken[..fitting]);
        Ok(())
    }
}

/// How many bytes the text of a value has.
fn length_of<E: fmt::Display>(value: &E) -> usize {
    use std::fmt::Write;

    let mut length = Length { bytes: 0 };
    let _ = write!(length, "{value}");
    length.bytes
}

/// The part of the text of a value from this byte on.
fn part_of<E: fmt::Display>(value: &E, from: usize) -> Bytes<PART> {
    use std::fmt::Write;

    let mut part = Part {
        ahead: from,
        bytes: Bytes::new(),
    };
    let _ = write!(part, "{value}");
    part.bytes
}

/// Writes the text of a value, part by part. Errors: `Failed`, with a prefix written.
fn write_text<O: Out, E: fmt::Display>(out: &mut O, value: &E) -> Result<(), OutFault>
    ensures { (text : List ℕ) × Prints result (O.sink out.old) (O.sink out.new) text }
{
    let length = length_of(value);
    let mut from = 0;
    while from < length {
        write_all(out, part_of(value, from).as_slice())?;
        from = from.saturating_add(PART);
    }
    Ok(())
}

/// Writes the line of a program with the text of a value. Errors: `Failed`, with a prefix written.
fn write_line<O: Out, E: fmt::Display>(
    out: &mut O,
    program: &str,
    value: &E,
) -> Result<(), OutFault>
    ensures { (text : List ℕ)
        × Prints result (O.sink out.old) (O.sink out.new) (line_of program.now text) }
{
    write_all(out, program.as_bytes())?;
    write_all(out, b": ")?;
    write_text(out, value)?;
    write_all(out, b"\n")
}

/// Writes one line for a fault of a program, such as `ubtool: output failed`. If the output fails, the
/// rest is left out. The device has the line before the call returns.
pub fn write_fault_of<O: Out, E: fmt::Display>(err: &mut O, program: &str, fault: &E)
    ensures { TellsLine program.now (O.sink err.old) (O.sink err.new) }
{
    let _ = write_line(err, program, fault);
    err.pass_on();
}
