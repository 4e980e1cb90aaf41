//! The command line that `clap` is given.
ghost use Rattle.std.specs.Prelude.{IfOk};
ghost use Rattle.hushcheck_program.specs.CommandLine.{base, hushcheck};
ghost use Rattle.tool_words.specs.Made.{IsMade};

use clap::Command;
use std::alloc::{AllocError, Global};
use tool_words::{
    Argument, BIG_ENDIAN, CONFIG, DEVICE_LIST, Form, IMAGE, NAMES, SCRIPT_FILE, SECOND, TEXT,
    VERSION, with_arguments,
};

const NOTES: &str = "\
The texts of the variables are read as boot scripts, and then those of the
variables that they run by a plain name, as in 'run NAME', each once. For each
there is a line: 'NAME: ok', 'NAME: not set', or 'NAME:LINE:COLUMN: what is
wrong' with the line of the text and a mark under the byte. A line 'warning:'
names what a shell of U-Boot reads otherwise, or a variable that nothing sets.
The image is read and never written.

The status is 0 if all texts are well-formed, each NAME is set and the device
list lacks no command; 1 if one of these does not hold, or with --strict if
there is a warning; 2 if the command line is invalid; 3 if a file, the image,
the device list or the output is refused, or memory ran out.

Example:
  hushcheck -d devices.txt
";

/// The program, without its words.
fn base<'a>(alloc: Global) -> Result<Command<'a>, AllocError>
    ensures { IfOk result (IsMade base) }
{
    let command = Command::new(alloc, "hushcheck")
        .about("Check the boot scripts of a U-Boot environment")
        .after_help(NOTES)
        .version(VERSION)
        .bin_name("hushcheck")?;
    Ok(command.no_binary_name(true))
}

const ARGUMENTS: [Argument<'static>; 12] = [
    CONFIG,
    IMAGE,
    SECOND,
    TEXT,
    BIG_ENDIAN,
    Argument {
        required: false,
        help: "Device list, at most 1048576 bytes, that the commands are looked up in [default: none]",
        ..DEVICE_LIST
    },
    Argument {
        id: "files",
        form: Form::Value,
        letter: None,
        alias: None,
        required: false,
        value: "FOLDER",
        help: "Folder of the files that the list names, at most 1048576 bytes each [default: none]",
    },
    SCRIPT_FILE,
    Argument {
        id: "all",
        form: Form::Flag,
        letter: None,
        alias: None,
        required: false,
        value: "",
        help: "Check every variable of the image, after the NAMEs",
    },
    Argument {
        id: "shell",
        form: Form::Value,
        letter: None,
        alias: None,
        required: false,
        value: "NAME",
        help: "Name what a rehearsal by this shell does not follow: profile, old-2023.01, \
            old-2025.01, old, modern-2025.01 or modern [default: what any shell reads otherwise]",
    },
    Argument {
        id: "strict",
        form: Form::Flag,
        letter: None,
        alias: None,
        required: false,
        value: "",
        help: "Exit with status 1 if there is a warning",
    },
    Argument {
        help: "Variables to check, in order [default: bootcmd, with --all none]",
        ..NAMES
    },
];

/// The program's command line.
pub(crate) fn hushcheck<'a>(alloc: Global) -> Result<Command<'a>, AllocError>
    ensures { IfOk result (IsMade hushcheck) }
{
    let command = base(alloc)?;
    with_arguments(alloc, command, &ARGUMENTS)
}
