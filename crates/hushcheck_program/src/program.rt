//! The whole program.
ghost use Rattle.std.specs.Prelude.{◌≡◌, ◌≤◌, map};
ghost use Rattle.output.specs.Sink.{Sink};
ghost use Rattle.hushcheck_program.specs.CommandAnswers.{Answers};
ghost use Rattle.hushcheck_program.specs.Doing.{Does, Leaves};
ghost use Rattle.output.specs.Outputs.{outputs};
ghost use Rattle.hushcheck_program.specs.Faults.{CountsShared};
ghost use Rattle.tool_steps.specs.Running.{HasDone, IsMisused, files_shown};
ghost use Rattle.hushcheck_program.specs.Statuses.{IsRefused, IsUnsound};

use crate::ask::Ask;
use crate::fault::CheckFault;
use crate::texts::check_files;
use crate::words::read_words;
use output::Out;
use std::alloc::Global;
use std::convert::AsStr;
use tool_files::Files;
use tool_steps::{Build, refuse, show_help, show_version, status_of};
use tool_words::Answer;

/// The name before the report of a refusal.
pub const PROGRAM: &str = "hushcheck";

/// Does what is asked for. Returns false if a text is not well-formed, a name is not set, the device list
/// lacks a command, or there is a warning and that is a fault.
fn perform<F: Files, O: Out>(
    alloc: Global,
    build: Build,
    ask: Answer<Ask>,
    files: &mut F,
    out: &mut O,
) -> Result<bool, CheckFault>
    ensures count { CountsShared (F.faults files.old) (F.faults files.new) result }
    ensures does { (err : Sink) → Does build ask (F.told files.old) (F.told files.new)
        (outputs (O.sink out.old) (O.sink out.new) err err) result }
{
    match ask {
        Answer::Asks(
            Ask {
                origin,
                devices_file,
                what,
                order,
            },
        ) => check_files(alloc, files, origin, devices_file, &what, order, out),
        Answer::Help(text) => Ok(show_help(out, &text)?),
        Answer::Version => Ok(show_version(out, PROGRAM, build)?),
    }
}

/// The status if something is refused: it distinguishes a text that is wrong from one that could not be
/// read.
pub const REFUSED: u8 = 3;

/// The whole program, from its words to its status. The status is 0 if all texts are well-formed, each name that is asked for
/// is set, and the device list lacks no command, or if the help or the version was asked for; 1 if a text is not well-formed,
/// a name is not set or the device list lacks a command, or if there is a warning and the words say `--strict`; 2 if the
/// command line is invalid; and 3 if something was refused. A fault is reported on `err` in one line. If `err` fails, nothing
/// more is written there.
pub fn run_check<S: AsStr, F: Files, O: Out, E: Out>(
    alloc: Global,
    build: Build,
    words: &[S],
    files: &mut F,
    out: &mut O,
    err: &mut E,
) -> u8
    ensures status { result ≤ 3 }
    ensures done { result ≡ 0 → HasDone Answers Leaves (Does build) (map S.text words.now)
        (files_shown F.Files files.old) (files_shown F.Files files.new)
        (outputs (O.sink out.old) (O.sink out.new) (E.sink err.old) (E.sink err.new)) }
    ensures unsound { result ≡ 1 → IsUnsound PROGRAM.now Answers Leaves (Does build) (map S.text words.now)
        (files_shown F.Files files.old) (files_shown F.Files files.new)
        (outputs (O.sink out.old) (O.sink out.new) (E.sink err.old) (E.sink err.new)) }
    ensures misused { result ≡ 2 → IsMisused PROGRAM.now Answers (map S.text words.now)
        (files_shown F.Files files.old) (files_shown F.Files files.new)
        (outputs (O.sink out.old) (O.sink out.new) (E.sink err.old) (E.sink err.new)) }
    ensures refused { result ≡ 3 → IsRefused PROGRAM.now Answers Leaves (Does build) (map S.text words.now)
        (files_shown F.Files files.old) (files_shown F.Files files.new)
        (outputs (O.sink out.old) (O.sink out.new) (E.sink err.old) (E.sink err.new)) }
{
    match read_words(alloc, words) {
        Ok(ask) => {
            let answer = perform(alloc, build, ask, files, out);
            status_of(err, PROGRAM, REFUSED, answer)
        }
        Err(error) => {
            refuse(err, PROGRAM, &error);
            2
        }
    }
}
