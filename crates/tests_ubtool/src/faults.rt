//! The lines of the faults of rehearsals and of the program.

use device_list::DevicesError;
use envimage::ImageError;
use rehearse_runs::RehearseError;
use std::alloc::Global;
use std::fmt::Write;
use tests_rows::{first_word, unescaped_text};
use tests_tools::{line_of, lines_of_faults};
use tool_files::FileFault;
use tool_images::{Fault, WordForm};
use ubtool::{ProgramFault, RehearsalError, StartError};

/// The lines of the faults of rehearsals.
fn of_rehearsals(alloc: Global, lines: &mut String) -> anyhow::Result<()> {
    for error in [
        RehearsalError::Rehearsal(RehearseError::DeviceList(DevicesError::BadLine(7))),
        RehearsalError::Rehearsal(RehearseError::DeviceList(DevicesError::BuiltIn(8))),
        RehearsalError::Rehearsal(RehearseError::DeviceList(DevicesError::ByteOrderMark)),
        RehearsalError::Start(StartError::TooMany(9)),
        RehearsalError::Start(StartError::Alternatives(4)),
        RehearsalError::Start(StartError::NoAlternative(5, 4)),
        RehearsalError::Start(StartError::Name),
        RehearsalError::Boots,
        RehearsalError::Unnamed,
        RehearsalError::Image(ImageError::BadCrc),
        RehearsalError::Write,
        RehearsalError::Memory,
    ] {
        let line = line_of(alloc, &ProgramFault::from(error))?;
        writeln!(lines, "{error:?}: {line}")?;
    }
    Ok(())
}

/// The lines of all faults whose texts have no word of the call.
fn all(alloc: Global) -> anyhow::Result<String> {
    let mut lines = lines_of_faults(alloc)?;
    of_rehearsals(alloc, &mut lines)?;
    Ok(lines)
}

/// The line of a fault that has a word of the call.
fn one(alloc: Global, says: &str) -> anyhow::Result<String> {
    let (kind, says) = first_word(says);
    let word = unescaped_text(alloc, says)?;
    let fault = match kind {
        "failed" => Fault::of_read(word, FileFault::Failed).into(),
        "short" => Fault::of_read(word, FileFault::Short).into(),
        "too-long" => Fault::of_read(word, FileFault::TooLong).into(),
        "write" => Fault::of_write(word, FileFault::Failed).into(),
        "no-variable" => ProgramFault::NoSuchVariable(WordForm(word)),
        _ => ProgramFault::NotARun(WordForm(word)),
    };
    line_of(alloc, &fault)
}

/// The answer to a row of faults.
pub(crate) fn told(alloc: Global, word: &str, says: &str) -> anyhow::Result<String> {
    match word {
        "faults" => all(alloc),
        _ => one(alloc, says),
    }
}
