//! The whole program.
ghost use Rattle.std.specs.Prelude.{◌≡◌, ◌<◌, length, map};
ghost use Rattle.output.specs.Outputs.{outputs};
ghost use Rattle.tool_steps.specs.Running.{files_shown};
ghost use Rattle.ubtool.specs.WholeProgram.{HasEnded, HasPrinted};

use crate::perform::perform;
use output::Out;
use std::alloc::Global;
use std::convert::AsStr;
use std::io::Read;
use tool_files::Files;
use tool_images::run_input;
use tool_steps::{Build, refuse, status_of};
use tool_words::{CalledAs, read_command};

/// The name of the program, in its version.
pub(crate) const PROGRAM: &str = "ubtool";

/// The status if something is refused.
pub const REFUSED: u8 = 1;

/// Reads the words and does what they ask for.
fn run_words<S: AsStr, R: Read, F: Files, O: Out, E: Out>(
    alloc: Global,
    build: Build,
    called: CalledAs,
    words: &[S],
    input: &mut R,
    files: &mut F,
    out: &mut O,
    err: &mut E,
) -> u8
    ensures { HasEnded called build (R.remaining input.old)
        (map S.text words.now) (files_shown F.Files files.old) (files_shown F.Files files.new)
        (outputs (O.sink out.old) (O.sink out.new) (E.sink err.old) (E.sink err.new)) result }
{
    match read_command(alloc, called, words) {
        Ok(ask) => {
            let program = called.name();
            let answer = perform(alloc, program, build, ask, input, files, out, err);
            status_of(err, program, REFUSED, answer)
        }
        Err(error) => {
            refuse(err, called.name(), &error);
            2
        }
    }
}

/// The whole program, from what it was called as and its words to its status. Without words it
/// prints the single image on `input`, whose checksum is little-endian. If the program was called
/// as one of U-Boot's tools, the script of `-s -` is read from `input`. The version names `build`.
/// The status is 0 if all was done, 1 if something was refused, a variable to be printed is missing
/// or a check of the causes found what does not boot, and 2 if the words were not understood. A
/// fault is reported on `err` in one line, with the name that the program was called by in front. If
/// `err` fails, nothing more is written there. A change is made under the lock, and nothing else
/// takes it.
pub fn run_tool<S: AsStr, R: Read, F: Files, O: Out, E: Out>(
    alloc: Global,
    build: Build,
    called: CalledAs,
    words: &[S],
    input: &mut R,
    files: &mut F,
    out: &mut O,
    err: &mut E,
) -> u8
    ensures input { length words.now ≡ 0 → HasPrinted (R.remaining input.old)
        (files_shown F.Files files.old) (files_shown F.Files files.new)
        (outputs (O.sink out.old) (O.sink out.new) (E.sink err.old) (E.sink err.new)) result }
    ensures words { 0 < length words.now → HasEnded called build (R.remaining input.old)
        (map S.text words.now) (files_shown F.Files files.old) (files_shown F.Files files.new)
        (outputs (O.sink out.old) (O.sink out.new) (E.sink err.old) (E.sink err.new)) result }
{
    if words.is_empty() {
        run_input(alloc, input, out, err)
    } else {
        run_words(alloc, build, called, words, input, files, out, err)
    }
}
