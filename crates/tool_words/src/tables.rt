//! The subcommands of `ubtool` with their arguments, as tables.

use crate::argument::{Argument, Form};
use crate::notes::{
    BOOTS_NOTES, CAUSES_NOTES, ENDINGS_NOTES, FW_PRINTENV_NOTES, FW_SETENV_NOTES, IMAGE_NOTES,
    INSPECT_NOTES, PRINTENV_NOTES, REHEARSE_NOTES, SETENV_NOTES,
};
use crate::shared::{
    BIG_ENDIAN, CONFIG, DEVICE_LIST, FILES, IMAGE, NAMES, SCRIPT_FILE, SECOND, TEXT,
};
use crate::subcommand::{Subcommand, Tool};
use rehearse_terms::{RUN_DEVICES_MAX, STEPS_MAX};

/// The most device commands that may fail in a run that is listed.
pub const FAILURES_MAX: u32 = 32;

/// The most device commands that may fail in a run that `causes` looks at.
pub const CAUSE_FAILURES_MAX: u32 = 3;

/// The greatest number of alternatives that a device list may have.
pub const ALTERNATIVES_MAX: u32 = 64;

/// The option that names the folder of the lock, as `printenv` has it.
const LOCK: Argument<'static> = Argument {
    id: "lock",
    form: Form::Value,
    letter: Some('l'),
    alias: None,
    required: false,
    value: "DIR",
    help: "Wait for the lock file in DIR [default: do not wait]",
};

/// The flag for a value without its name, which has a second long name.
const NO_HEADER: Argument<'static> = Argument {
    id: "noheader",
    form: Form::Flag,
    letter: Some('n'),
    alias: Some("no-header"),
    required: false,
    value: "",
    help: "Print the value alone, of exactly one NAME [default: NAME=VALUE]",
};

/// The flag that has the other copy of a pair count if one cannot be read.
const ONE_COPY: Argument<'static> = Argument {
    id: "one-copy",
    form: Form::Flag,
    letter: None,
    alias: None,
    required: false,
    value: "",
    help: "If one copy of a pair cannot be read, use the other [default: refuse]",
};

/// The flag for variables that are each ended by a NUL byte.
const NULL: Argument<'static> = Argument {
    id: "null",
    form: Form::Flag,
    letter: Some('0'),
    alias: None,
    required: false,
    value: "",
    help: "End each variable with a NUL byte [default: a newline]",
};

/// The flag for names and values in which bytes that do not print are written by their digits.
const ESCAPED: Argument<'static> = Argument {
    id: "escaped",
    form: Form::Flag,
    letter: None,
    alias: None,
    required: false,
    value: "",
    help: "Print newlines as \\n and other bytes by their digits [default: as they are]",
};

const PRINTENV: [Argument<'static>; 11] = [
    CONFIG,
    IMAGE,
    SECOND,
    TEXT,
    BIG_ENDIAN,
    LOCK,
    ONE_COPY,
    NO_HEADER,
    NULL,
    ESCAPED,
    Argument {
        help: "Variables to print, in this order [default: all of the image]",
        ..NAMES
    },
];

const SCRIPT: Argument<'static> = Argument {
    id: "script",
    form: Form::Value,
    letter: Some('s'),
    alias: None,
    required: false,
    value: "FILE",
    help: "Script of changes, at most 1048576 bytes [default: none, NAME instead]",
};

const NAME: Argument<'static> = Argument {
    id: "name",
    form: Form::Word,
    letter: None,
    alias: None,
    required: false,
    value: "NAME",
    help: "Variable to set or delete",
};

const VALUES: Argument<'static> = Argument {
    id: "values",
    form: Form::Words,
    letter: None,
    alias: None,
    required: false,
    value: "VALUE",
    help: "Its new value [default: delete the variable]",
};

const SETENV: [Argument<'static>; 9] = [
    CONFIG,
    IMAGE,
    SECOND,
    BIG_ENDIAN,
    Argument {
        help: "Folder of the lock file [default: /var/lock]",
        ..LOCK
    },
    ONE_COPY,
    SCRIPT,
    NAME,
    VALUES,
];

/// The flag for a list whose commands are all steady.
const STEADY: Argument<'static> = Argument {
    id: "steady",
    form: Form::Flag,
    letter: None,
    alias: None,
    required: false,
    value: "",
    help: "Each question has one answer in a run [default: as the list says]",
};

/// The alternative of a device list.
const GIVEN: Argument<'static> = Argument {
    id: "given",
    form: Form::Number(1, ALTERNATIVES_MAX),
    letter: None,
    alias: None,
    required: false,
    value: "K",
    help: "The Kth alternative of the lines given, 1 to 64 [default: a list has one]",
};

const VARIABLE: Argument<'static> = Argument {
    id: "variable",
    form: Form::Value,
    letter: Some('b'),
    alias: None,
    required: false,
    value: "NAME",
    help: "Variable whose text is run [default: bootcmd]",
};

const DEVICES: Argument<'static> = Argument {
    id: "devices",
    form: Form::Number(0, RUN_DEVICES_MAX),
    letter: None,
    alias: None,
    required: false,
    value: "N",
    help: "At most N device commands a run, 0 to 32; up to 1000 with --word, or with \
        --failures of at most 3 [default: 16, with --word 1000]",
};

const STEPS: Argument<'static> = Argument {
    id: "steps",
    form: Form::Number(0, STEPS_MAX),
    letter: None,
    alias: None,
    required: false,
    value: "N",
    help: "At most N steps (commands begun) a run, 0 to 1000000 [default: 10000, with --word 1000000]",
};

const SHELL: Argument<'static> = Argument {
    id: "shell",
    form: Form::Value,
    letter: None,
    alias: None,
    required: false,
    value: "NAME",
    help: "Run the scripts as this shell does: profile, old-2023.01, old-2025.01, old, modern-2025.01 \
        or modern [default: profile]",
};

const WORD: Argument<'static> = Argument {
    id: "word",
    form: Form::Value,
    letter: None,
    alias: None,
    required: false,
    value: "WORD",
    help: "The run of WORD alone, . for the empty one [default: a listing]",
};

const FAILURES: Argument<'static> = Argument {
    id: "failures",
    form: Form::Number(0, FAILURES_MAX),
    letter: None,
    alias: None,
    required: false,
    value: "N",
    help: "The runs in which at most N answers are failures, 0 to 32 [default: all]",
};

const AFTER: Argument<'static> = Argument {
    id: "after",
    form: Form::Value,
    letter: None,
    alias: None,
    required: false,
    value: "WORD",
    help: "Start after the run of WORD, . for the empty one [default: the first]",
};

const LIMIT: Argument<'static> = Argument {
    id: "limit",
    form: Form::Number(1, u32::MAX),
    letter: None,
    alias: None,
    required: false,
    value: "N",
    help: "At most N records, 1 to 4294967295 [default: all]",
};

const REHEARSE: [Argument<'static>; 19] = [
    CONFIG,
    IMAGE,
    SECOND,
    TEXT,
    BIG_ENDIAN,
    DEVICE_LIST,
    FILES,
    STEADY,
    GIVEN,
    VARIABLE,
    SCRIPT_FILE,
    DEVICES,
    STEPS,
    SHELL,
    WORD,
    FAILURES,
    AFTER,
    LIMIT,
    Argument {
        help: "Variables to list after each run, in this order [default: all]",
        ..NAMES
    },
];

const STATES: Argument<'static> = Argument {
    id: "states",
    form: Form::Number(0, u32::MAX),
    letter: None,
    alias: None,
    required: false,
    value: "N",
    help: "At most N states in all, 0 to 4294967295 [default: 1000000]",
};

const WORK: Argument<'static> = Argument {
    id: "work",
    form: Form::Number(0, u32::MAX),
    letter: None,
    alias: None,
    required: false,
    value: "N",
    help: "At most N steps (commands begun) in all, 0 to 4294967295 [default: 1000000000]",
};

const MEMORY: Argument<'static> = Argument {
    id: "memory",
    form: Form::Number(0, u32::MAX),
    letter: None,
    alias: None,
    required: false,
    value: "N",
    help: "At most N MiB of states in all, 0 to 4294967295 [default: 512]",
};

const FLOW: Argument<'static> = Argument {
    id: "flow",
    form: Form::Flag,
    letter: None,
    alias: None,
    required: false,
    value: "",
    help: "Write the states as a graph, a line each",
};

const ENDINGS: [Argument<'static>; 19] = [
    CONFIG,
    IMAGE,
    SECOND,
    TEXT,
    BIG_ENDIAN,
    DEVICE_LIST,
    FILES,
    STEADY,
    GIVEN,
    VARIABLE,
    SCRIPT_FILE,
    Argument {
        help: "At most N device commands a run, 0 to 1000 [default: 1000]",
        ..DEVICES
    },
    Argument {
        help: "At most N steps (commands begun) a run, 0 to 1000000 [default: 1000000]",
        ..STEPS
    },
    SHELL,
    STATES,
    WORK,
    MEMORY,
    FLOW,
    Argument {
        help: "Variables whose values to tell apart and write, in this order",
        ..NAMES
    },
];

const BOOT_BOUND: Argument<'static> = Argument {
    id: "boots",
    form: Form::Number(0, u32::MAX),
    letter: None,
    alias: None,
    required: false,
    value: "N",
    help: "At most N boots [default: 1000]",
};

const CHANGES: Argument<'static> = Argument {
    id: "then",
    form: Form::Value,
    letter: None,
    alias: None,
    required: false,
    value: "FILE",
    help: "Script of changes, as for setenv -s, that may follow a boot that booted [default: none]",
};

const EXPECT: Argument<'static> = Argument {
    id: "expect",
    form: Form::Value,
    letter: None,
    alias: None,
    required: false,
    value: "ENDING",
    help: "Whether each boot leads on to ENDING; status 1 if not [default: not asked]",
};

const WITHIN: Argument<'static> = Argument {
    id: "within",
    form: Form::Number(1, u32::MAX),
    letter: None,
    alias: None,
    required: false,
    value: "N",
    help: "With --expect: within N boots, 1 to 4294967295 [default: any number]",
};

const EXPECT_VAR: Argument<'static> = Argument {
    id: "expect-var",
    form: Form::Values,
    letter: None,
    alias: None,
    required: false,
    value: "NAME=VALUE",
    help: "With --expect: ENDING leaves NAME with VALUE; may be repeated [default: any values]",
};

const BOOTS: [Argument<'static>; 24] = [
    CONFIG,
    IMAGE,
    SECOND,
    TEXT,
    BIG_ENDIAN,
    DEVICE_LIST,
    FILES,
    STEADY,
    GIVEN,
    VARIABLE,
    SCRIPT_FILE,
    Argument {
        help: "At most N device commands a run, 0 to 1000 [default: 1000]",
        ..DEVICES
    },
    Argument {
        help: "At most N steps (commands begun) a run, 0 to 1000000 [default: 1000000]",
        ..STEPS
    },
    SHELL,
    STATES,
    WORK,
    MEMORY,
    BOOT_BOUND,
    Argument {
        help: "Only endings that N failures or fewer lead to, 0 to 32 [default: all]",
        ..FAILURES
    },
    CHANGES,
    EXPECT,
    WITHIN,
    EXPECT_VAR,
    Argument {
        help: "Variables whose values to tell apart and write, in this order",
        ..NAMES
    },
];

const CHECK: Argument<'static> = Argument {
    id: "check",
    form: Form::Flag,
    letter: None,
    alias: None,
    required: false,
    value: "",
    help: "Only what does not boot; status 1 if there is any",
};

const CAUSES: [Argument<'static>; 16] = [
    CONFIG,
    IMAGE,
    SECOND,
    TEXT,
    BIG_ENDIAN,
    DEVICE_LIST,
    FILES,
    STEADY,
    GIVEN,
    VARIABLE,
    SCRIPT_FILE,
    Argument {
        help: "At most N device commands a run, 0 to 1000 [default: 1000]",
        ..DEVICES
    },
    Argument {
        help: "At most N steps (commands begun) a run, 0 to 1000000 [default: 1000000]",
        ..STEPS
    },
    SHELL,
    Argument {
        form: Form::Number(0, CAUSE_FAILURES_MAX),
        help: "The runs in which at most N answers are failures, 0 to 3 [default: 2]",
        ..FAILURES
    },
    CHECK,
];

const SIZE: Argument<'static> = Argument {
    id: "size",
    form: Form::Value,
    letter: None,
    alias: None,
    required: true,
    value: "N",
    help: "Bytes of the image, at most 1048576; required",
};

const REDUNDANT: Argument<'static> = Argument {
    id: "redundant",
    form: Form::Flag,
    letter: None,
    alias: None,
    required: false,
    value: "",
    help: "A copy of a redundant pair, with a flag [default: a single image]",
};

const FILL: Argument<'static> = Argument {
    id: "fill",
    form: Form::Value,
    letter: None,
    alias: None,
    required: false,
    value: "BYTE",
    help: "What the free bytes are, 0 to 255 or 0x0 to 0xff [default: 255]",
};

const OUTPUT: Argument<'static> = Argument {
    id: "output",
    form: Form::Value,
    letter: Some('o'),
    alias: None,
    required: true,
    value: "FILE",
    help: "The new image; refused if there is such a file; required",
};

const VARIABLES: Argument<'static> = Argument {
    id: "text",
    form: Form::Word,
    letter: None,
    alias: None,
    required: true,
    value: "TEXT",
    help: "File with a line NAME=VALUE for each variable, as mkenvimage reads it",
};

const MAKING: [Argument<'static>; 6] = [SIZE, REDUNDANT, BIG_ENDIAN, FILL, OUTPUT, VARIABLES];

const INSPECT: [Argument<'static>; 4] = [CONFIG, IMAGE, SECOND, BIG_ENDIAN];

/// The subcommands, in the order of the help.
pub(crate) const SUBCOMMANDS: [Subcommand<'static>; 8] = [
    Subcommand {
        name: "printenv",
        about: "Print variables of the environment",
        notes: PRINTENV_NOTES,
        arguments: &PRINTENV,
        tool: Some(Tool {
            usage: "fw_printenv [OPTIONS] [NAME]...",
            notes: FW_PRINTENV_NOTES,
        }),
    },
    Subcommand {
        name: "setenv",
        about: "Set or delete variables of the environment",
        notes: SETENV_NOTES,
        arguments: &SETENV,
        tool: Some(Tool {
            usage: "fw_setenv [OPTIONS] [NAME] [VALUE]...",
            notes: FW_SETENV_NOTES,
        }),
    },
    Subcommand {
        name: "rehearse",
        about: "List every run of a boot script",
        notes: REHEARSE_NOTES,
        arguments: &REHEARSE,
        tool: None,
    },
    Subcommand {
        name: "endings",
        about: "Tell how all runs of a boot script end",
        notes: ENDINGS_NOTES,
        arguments: &ENDINGS,
        tool: None,
    },
    Subcommand {
        name: "boots",
        about: "Tell which boots follow one another",
        notes: BOOTS_NOTES,
        arguments: &BOOTS,
        tool: None,
    },
    Subcommand {
        name: "causes",
        about: "Tell what has to fail for each ending of a boot script",
        notes: CAUSES_NOTES,
        arguments: &CAUSES,
        tool: None,
    },
    Subcommand {
        name: "image",
        about: "Make an image of a text of variables",
        notes: IMAGE_NOTES,
        arguments: &MAKING,
        tool: None,
    },
    Subcommand {
        name: "inspect",
        about: "Tell what a configuration or an image is",
        notes: INSPECT_NOTES,
        arguments: &INSPECT,
        tool: None,
    },
];
