//! How the programs end: what is reported of a refusal, and the status.
ghost use Rattle.tool_steps.specs.Ending.{Finishes};
ghost use Rattle.tool_steps.specs.Running.{EndsAs, Ends, Tells};
ghost use Rattle.tool_steps.specs.TellingShown.{has_told, out_of};

use crate::starting::{Buffered, StartError};
use crate::telling::Telling;
use output::{Out, Over, write_all};
use std::fmt;
use std::io::Write;
use tool_images::{Fault, ToolError, write_fault_of};
use tool_words::UseError;

/// Reports why the words of a program are refused: what `clap` says of them as it is, and any other
/// refusal in one line.
pub fn refuse<E: Out>(err: &mut E, program: &str, error: &UseError)
    ensures { Tells program.now error.now (E.sink err.old) (E.sink err.new) }
{
    match error {
        UseError::Line(text) => {
            let _ = write_all(err, text.as_bytes());
        }
        error => write_fault_of(err, program, error),
    }
}

/// The status of an answer: 0 or 1, or `refused` if it is a fault, which is reported in one line.
pub fn status_of<E: Out, F: fmt::Display + Drop>(
    err: &mut E,
    program: &str,
    refused: u8,
    answer: Result<bool, F>,
) -> u8
    ensures { Ends program.now refused answer (E.sink err.old) (E.sink err.new) result }
{
    match answer {
        Ok(true) => 0,
        Ok(false) => 1,
        Err(fault) => {
            write_fault_of(err, program, &fault);
            refused
        }
    }
}

/// Flushes the output of a program, and returns the status with which the program ends: the one
/// given, but `refused` in place of a lower one if the flush fails. A failure is reported if nothing
/// was reported before.
pub fn finish<W: Write, E: Out>(
    out: &mut Over<W>,
    err: &mut Telling<E>,
    program: &str,
    refused: u8,
    status: u8,
) -> u8
    ensures { Finishes program.now refused (has_told err.old) out.old out.new
        (E.sink (out_of err.old)) (E.sink (out_of err.new)) status result }
{
    if out.flush().is_ok() {
        return status;
    }
    if !err.has_told() {
        write_fault_of(err, program, &Fault::Tool(ToolError::Write));
    }
    status.max(refused)
}

/// Flushes the error output of a program. Returns the program's status, or 2 if it did not start, which
/// is reported.
pub fn end<W: Write + Drop>(
    err: &mut Telling<Buffered<W>>,
    program: &str,
    status: Result<u8, StartError>,
) -> u8
    ensures { EndsAs status result }
{
    let status = match status {
        Ok(status) => status,
        Err(error) => {
            write_fault_of(err, program, &error);
            2
        }
    };
    err.flush();
    status
}
