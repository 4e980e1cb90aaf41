//! Does what is asked for.
ghost use Rattle.std.specs.Prelude.{◌≡◌};
ghost use Rattle.output.specs.Outputs.{outputs};
ghost use Rattle.ubtool.specs.Performing.{Counts, Does, IsComplete, layout_of};
ghost use Rattle.tool_steps.specs.Running.{files_shown};
ghost use Rattle.ubtool.specs.Locking.{LocksFor};

use crate::boots::boots;
use crate::causes::causes;
use crate::endings::endings;
use crate::fault::ProgramFault;
use crate::inspection::inspect;
use crate::rehearsing::rehearse;
use crate::tool::PROGRAM;
use output::Out;
use std::alloc::Global;
use std::io::Read;
use tool_files::Files;
use tool_images::Layout;
use tool_steps::{Build, ImageSource, make_image, print_files, set_files, show_help, show_version};
use tool_words::{Ask, ImageAsk};

/// How a new image is to be laid out.
fn layout_of(what: ImageAsk) -> Layout
    ensures { result ≡ layout_of what }
{
    Layout {
        size: what.size as usize,
        redundant: what.redundant,
        order: what.order,
        fill: what.fill,
    }
}

/// Does what is asked for. Takes the lock for a change, before its first read, and for nothing else. If
/// the lock is refused, no file is touched.
/// A script of changes may be on `input`, and the version names `build`. What is reported meanwhile has
/// the name `program` in front. Returns false if a variable that was to be printed is missing,
/// if a check of the causes finds what does not boot, or if what is inspected has no environment that can be read.
pub fn perform<R: Read, F: Files, O: Out, E: Out>(
    alloc: Global,
    program: &str,
    build: Build,
    ask: Ask,
    input: &mut R,
    files: &mut F,
    out: &mut O,
    err: &mut E,
) -> Result<bool, ProgramFault>
    requires { IsComplete ask }
    ensures count { Counts ask (F.faults files.old) (F.faults files.new) result }
    ensures lock { LocksFor ask result (files_shown F.Files files.old)
        (files_shown F.Files files.new) }
    ensures does { Does program.now build (R.remaining input.old) ask (F.told files.old) (F.told files.new)
        (outputs (O.sink out.old) (O.sink out.new) (E.sink err.old) (E.sink err.new)) result }
{
    match ask {
        Ask::Print {
            origin,
            what,
            order,
            one_copy,
        } => {
            let source = ImageSource {
                origin,
                order,
                one_copy,
            };
            Ok(print_files(alloc, files, program, source, &what, out, err)?)
        }
        Ask::Setenv {
            origin,
            change,
            order,
            one_copy,
        } => {
            files.lock()?;
            let source = ImageSource {
                origin,
                order,
                one_copy,
            };
            set_files(alloc, input, files, program, source, change, err)?;
            Ok(true)
        }
        Ask::Rehearse {
            inputs,
            what,
            order,
        } => rehearse(alloc, files, inputs, what, order, out),
        Ask::Endings {
            inputs,
            what,
            order,
        } => endings(alloc, files, inputs, what, order, out),
        Ask::Boots {
            inputs,
            what,
            order,
        } => boots(alloc, files, inputs, what, order, out),
        Ask::Causes {
            inputs,
            what,
            order,
        } => causes(alloc, files, inputs, what, order, out),
        Ask::Image { text, output, what } => {
            make_image(alloc, files, text, output, layout_of(what))?;
            Ok(true)
        }
        Ask::Inspect { origin, order } => Ok(inspect(alloc, files, origin, order, out)?),
        Ask::Help(text) => Ok(show_help(out, &text)?),
        Ask::Version => Ok(show_version(out, PROGRAM, build)?),
    }
}
