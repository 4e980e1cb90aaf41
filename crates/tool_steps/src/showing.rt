//! Shows the help and the version, which the programs do alike.
ghost use Rattle.tool_steps.specs.Showing.{Helps};
ghost use Rattle.tool_steps.specs.Builds.{line_of, version_line};

use crate::build::Build;
use output::{Out, write_all, write_parts};
use tool_images::{Fault, ToolError};
use tool_words::VERSION;

/// Writes a help text.
pub fn show_help<O: Out>(out: &mut O, text: &str) -> Result<bool, Fault>
    ensures { Helps text.now (O.sink out.old) (O.sink out.new) result }
{
    match write_all(out, text.as_bytes()) {
        Ok(()) => Ok(true),
        Err(_) => Err(Fault::Tool(ToolError::Write)),
    }
}

/// Writes the version line of a program: its name, the version, and these words on its build.
fn show_line<O: Out>(out: &mut O, program: &str, build: &str) -> Result<bool, Fault>
    ensures { Helps (line_of program.now build.now) (O.sink out.old) (O.sink out.new) result }
{
    let parts = &[
        program.as_bytes(),
        b" ",
        VERSION.as_bytes(),
        b" (",
        build.as_bytes(),
        b")\n",
    ];
    match write_parts(out, parts) {
        Ok(()) => Ok(true),
        Err(_) => Err(Fault::Tool(ToolError::Write)),
    }
}

/// Writes the line with the version of a program, and its build.
pub fn show_version<O: Out>(out: &mut O, program: &str, build: Build) -> Result<bool, Fault>
    ensures { Helps (version_line program.now build) (O.sink out.old) (O.sink out.new) result }
{
    show_line(out, program, build.text())
}
