//! Outputs, and writers of std below them.

use crate::case::Case;
use crate::faults::in_room;
use crate::writers::Tested;
use output::{Out, Over, write_all, write_parts};
use std::alloc::Global;
use std::io::{self, BufWriter, ErrorKind, Write};
use tests_rows::{number, shown, slices, unescaped, words_of};
use tool_files::UntilFailed;

/// A writer of std with one write that fails. It counts its writes and its flushes.
#[derive(Drop)]
struct Writer<'a> {
    failing: u32,
    writes: &'a mut u32,
    flushes: &'a mut u32,
}

impl Write for Writer<'_> {
    fn write(&mut self, bytes: &[u8]) -> io::Result<usize> {
        let at = *self.writes;
        *self.writes = at.saturating_add(1);
        if at == self.failing {
            return Err(io::Error::from(ErrorKind::Interrupted));
        }
        Ok(bytes.len())
    }

    fn flush(&mut self) -> io::Result<()> {
        *self.flushes = self.flushes.saturating_add(1);
        Ok(())
    }
}

/// Writes words as parts, and a line end after them, on the output of a case.
fn parts(case: &Case<'_>, says: &str) -> anyhow::Result<String> {
    let words = words_of(case.alloc, says)?;
    let mut out = Tested::new(case.alloc, case.modes.0);
    let mut answer = write_parts(&mut out, &slices(case.alloc, &words)?);
    if answer.is_ok() {
        answer = write_all(&mut out, b"\n");
    }
    let line = out.line(case.alloc, "out")?;
    Ok(format!(in case.alloc; "{answer:?}\n{line}")?)
}

/// Writes a text, and then nothing, to an output over a vector.
fn pass(alloc: Global, says: &str) -> anyhow::Result<String> {
    let mut over = Over::new(Vec::new(alloc));
    let answer = write_all(&mut over, &unescaped(alloc, says)?);
    let none = over.write(b"");
    let bytes = shown(alloc, &over.into_writer())?;
    Ok(format!(in alloc; "{answer:?}, {none:?}: {bytes}")?)
}

/// Writes until the write of a number fails, and returns the last answer and how many writes there were.
fn over(alloc: Global, failing: u32) -> anyhow::Result<String> {
    let (mut writes, mut flushes) = (0, 0);
    let mut over = Over::new(Writer {
        failing,
        writes: &mut writes,
        flushes: &mut flushes,
    });
    let mut answer = Ok(());
    for _ in 0..=failing {
        answer = write_all(&mut over, b"ab");
    }
    drop(over);
    Ok(format!(in alloc; "{answer:?} after {writes} writes")?)
}

/// Flushes a buffer twice over a writer of which the first write fails, and returns how many writes there were.
fn buffer(alloc: Global) -> anyhow::Result<String> {
    let (mut writes, mut flushes) = (0, 0);
    let writer = Writer {
        failing: 0,
        writes: &mut writes,
        flushes: &mut flushes,
    };
    let mut buffer = BufWriter::new(alloc, UntilFailed::new(writer))?;
    let mut held = Over::new(&mut buffer);
    write_all(&mut held, b"a=1\n")?;
    drop(held);
    let (first, second) = (buffer.flush().is_err(), buffer.flush().is_err());
    drop(buffer);
    Ok(format!(in alloc; "flushes fail: {first} {second}, writes: {writes}")?)
}

/// How often a writer is flushed if the one over it is, once.
fn flush(alloc: Global) -> anyhow::Result<String> {
    let (mut writes, mut flushes) = (0, 0);
    {
        let mut writer = UntilFailed::new(Writer {
            failing: u32::MAX,
            writes: &mut writes,
            flushes: &mut flushes,
        });
        writer.flush()?;
    }
    Ok(format!(in alloc; "{flushes}")?)
}

/// The answer to a row of outputs.
pub(crate) fn told(case: &Case<'_>, word: &str, says: &str) -> anyhow::Result<String> {
    match word {
        "parts" => parts(case, says),
        "pass" => pass(case.alloc, says),
        "over" => over(case.alloc, number(says)?),
        "buffer" => buffer(case.alloc),
        "fault-in" => in_room(case.alloc, number(says)?),
        _ => flush(case.alloc),
    }
}
