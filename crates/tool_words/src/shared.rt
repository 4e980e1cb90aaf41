//! The arguments that both programs have.

use crate::argument::{Argument, Form};

/// The option that names the configuration.
pub const CONFIG: Argument<'static> = Argument {
    id: "config",
    form: Form::Value,
    letter: Some('c'),
    alias: None,
    required: false,
    value: "FILE",
    help: "Configuration, at most 1048576 bytes [default: /etc/fw_env.config]",
};

/// The option that names a file which is a whole image.
pub const IMAGE: Argument<'static> = Argument {
    id: "image",
    form: Form::Value,
    letter: Some('i'),
    alias: None,
    required: false,
    value: "FILE",
    help: "Image, at most 1048576 bytes: the whole FILE, in place of -c [default: none]",
};

/// The option that names the second copy of a pair, which is a whole file too.
pub const SECOND: Argument<'static> = Argument {
    id: "second",
    form: Form::Value,
    letter: None,
    alias: None,
    required: false,
    value: "FILE",
    help: "Second copy of a redundant pair, beside -i: the whole FILE [default: none]",
};

/// The option that names a text of variables, which no call that changes an image has.
pub const TEXT: Argument<'static> = Argument {
    id: "text",
    form: Form::Value,
    letter: None,
    alias: None,
    required: false,
    value: "FILE",
    help: "Text for mkenvimage, at most 1048576 bytes, in place of -c [default: none]",
};

/// The option that names a script which runs, or is checked, in place of a variable.
pub const SCRIPT_FILE: Argument<'static> = Argument {
    id: "script",
    form: Form::Value,
    letter: None,
    alias: None,
    required: false,
    value: "FILE",
    help: "Script or script image, at most 1048576 bytes, in place of NAME [default: none]",
};

/// The option that names the folder of the files which the device list names.
pub const FILES: Argument<'static> = Argument {
    id: "files",
    form: Form::Value,
    letter: None,
    alias: None,
    required: false,
    value: "FOLDER",
    help: "Folder of the files that the list names, at most 1048576 bytes each [default: none]",
};

/// The flag for a checksum that is stored big-endian.
pub const BIG_ENDIAN: Argument<'static> = Argument {
    id: "big-endian",
    form: Form::Flag,
    letter: None,
    alias: None,
    required: false,
    value: "",
    help: "The CRC is stored big-endian [default: little-endian]",
};

/// The words that name variables. Each table has its own help text of them.
pub const NAMES: Argument<'static> = Argument {
    id: "names",
    form: Form::Words,
    letter: None,
    alias: None,
    required: false,
    value: "NAME",
    help: "",
};

/// The option that names the device list, as the subcommands of `ubtool` have it.
pub const DEVICE_LIST: Argument<'static> = Argument {
    id: "device-list",
    form: Form::Value,
    letter: Some('d'),
    alias: None,
    required: true,
    value: "FILE",
    help: "Device list, or a folder of them, at most 1048576 bytes: a command that may fail a line; required",
};
