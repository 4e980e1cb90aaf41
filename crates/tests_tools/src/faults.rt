//! The line of each fault.

use envimage::{ConfigError, DataError, ImageError};
use envtools::{EnvError, ScriptError};
use output::Over;
use std::alloc::Global;
use std::fmt::{Display, Write};
use tests_rows::shown;
use tool_images::{Fault, ToolError, write_fault_of};

/// The line that is written for a fault.
pub fn line_of<E: Display>(alloc: Global, fault: &E) -> anyhow::Result<String> {
    let mut err = Over::new(Vec::new(alloc));
    write_fault_of(&mut err, "ubtool", fault);
    Ok(shown(alloc, &err.into_writer())?)
}

/// The lines of the faults of configurations.
fn of_configs(alloc: Global, lines: &mut String) -> anyhow::Result<()> {
    for error in [
        ConfigError::BadLine(1),
        ConfigError::NotText(20),
        ConfigError::BadNumber(3),
        ConfigError::NoPlace,
        ConfigError::SizeOutOfRange(5),
        ConfigError::UnequalSizes,
        ConfigError::Memory,
    ] {
        let line = line_of(alloc, &Fault::Config(error))?;
        writeln!(lines, "{error:?}: {line}")?;
    }
    Ok(())
}

/// The lines of the faults of images, changes and scripts, of an output and of memory.
fn of_tools(alloc: Global, lines: &mut String) -> anyhow::Result<()> {
    for error in [
        ToolError::Image(ImageError::WrongSize),
        ToolError::Image(ImageError::BadCrc),
        ToolError::Image(ImageError::TooLarge),
        ToolError::Image(ImageError::Content(DataError::NotTerminated)),
        ToolError::Image(ImageError::Content(DataError::NoEquals(0))),
        ToolError::Image(ImageError::Content(DataError::EmptyName(3))),
        ToolError::Env(EnvError::BadName),
        ToolError::Env(EnvError::BadValue),
        ToolError::Script(ScriptError::BadName(5)),
        ToolError::Script(ScriptError::BadValue(6)),
        ToolError::Write,
        ToolError::Memory,
    ] {
        let line = line_of(alloc, &Fault::from(error))?;
        writeln!(lines, "{error:?}: {line}")?;
    }
    Ok(())
}

/// The lines of the faults of configurations and of images, whose texts have no word of the call.
pub fn lines_of_faults(alloc: Global) -> anyhow::Result<String> {
    let mut lines = String::new(alloc);
    of_configs(alloc, &mut lines)?;
    of_tools(alloc, &mut lines)?;
    Ok(lines)
}

/// What is written of the fault of memory where there is room for so many bytes.
pub(crate) fn in_room(alloc: Global, size: u32) -> anyhow::Result<String> {
    let mut room = vec![in alloc; 0u8; size as usize]?;
    let mut err = Over::new(room.as_mut_slice());
    write_fault_of(&mut err, "ubtool", &Fault::Memory);
    let _ = err.into_writer();
    Ok(shown(alloc, &room)?)
}
