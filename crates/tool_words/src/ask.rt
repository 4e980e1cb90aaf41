//! What a call asks for, and why its words are refused.
ghost use Rattle.rehearse_terms.specs.Asking.{page_of};
ghost use Rattle.rehearse_terms.specs.Asking.{HasRoom};
ghost use Rattle.rehearse_terms.specs.WantedShown.{wanted_strings};

use envimage::ByteOrder;
use envtools::PrintForm;
use rehearse_terms::{Bounds, RunBounds, Wanted};
use thiserror::Error;

/// The configuration that is read if a call names none.
pub const DEFAULT_CONFIG: &str = "/etc/fw_env.config";

/// The variable that is rehearsed if a call names none.
pub const DEFAULT_VARIABLE: &str = "bootcmd";

/// The device commands that a run may have if a call sets no bound.
pub const DEFAULT_DEVICES: u32 = 16;

/// The steps that a run may begin if a call sets no bound.
pub const DEFAULT_STEPS: u32 = 10_000;

/// The device commands that a run which is not listed may have if a call sets no bound: for
/// `endings`, `boots` and `causes`, and for `rehearse --word`.
pub const DEFAULT_RUN_DEVICES: u32 = 1_000;

/// The steps that a run which is not listed may begin if a call sets no bound.
pub const DEFAULT_RUN_STEPS: u32 = 1_000_000;

/// The states that `endings` and `boots` may search if a call sets no bound.
pub const DEFAULT_STATES: u32 = 1_000_000;

/// The steps that `endings` and `boots` may begin in all if a call sets no bound.
pub const DEFAULT_WORK: u32 = 1_000_000_000;

/// The MiB that `endings` and `boots` may count for the states that they keep if a call sets no bound.
pub const DEFAULT_MEMORY: u32 = 512;

/// The boots that `boots` may rehearse if a call sets no bound.
pub const DEFAULT_BOOTS: u32 = 1_000;

/// The device commands that may fail in a run that `causes` looks at if a call sets no bound.
pub const DEFAULT_CAUSE_FAILURES: u32 = 2;

/// What the words of a call ask for.
#[derive(Debug, Drop)]
pub enum Ask {
    /// To print variables.
    Print {
        /// What names the images.
        origin: Origin,
        /// What to print.
        what: PrintAsk,
        /// How the image's CRC is stored.
        order: ByteOrder,
        /// Whether one copy of a pair is enough if the other cannot be read.
        one_copy: bool,
    },
    /// To set or delete variables.
    Setenv {
        /// What names the images.
        origin: Origin,
        /// What to change.
        change: Change,
        /// How the image's CRC is stored.
        order: ByteOrder,
        /// Whether one copy of a pair is enough if the other cannot be read.
        one_copy: bool,
    },
    /// To list the runs of a boot script.
    Rehearse {
        /// The files to read.
        inputs: Inputs,
        /// What to list.
        what: RehearseAsk,
        /// How the image's CRC is stored.
        order: ByteOrder,
    },
    /// To count how all runs of a boot script end.
    Endings {
        /// The files to read.
        inputs: Inputs,
        /// What to write.
        what: EndingsAsk,
        /// How the image's CRC is stored.
        order: ByteOrder,
    },
    /// To list which boots follow one another.
    Boots {
        /// The files to read.
        inputs: Inputs,
        /// What to write.
        what: BootsAsk,
        /// How the image's CRC is stored.
        order: ByteOrder,
    },
    /// To list what has to fail for each ending of a boot script.
    Causes {
        /// The files to read.
        inputs: Inputs,
        /// What to write.
        what: CausesAsk,
        /// How the image's CRC is stored.
        order: ByteOrder,
    },
    /// To make an image of a text of variables.
    Image {
        /// The path of the text.
        text: String,
        /// The path of the new image.
        output: String,
        /// What image to make.
        what: ImageAsk,
    },
    /// To describe a configuration or an image.
    Inspect {
        /// What names the images.
        origin: Origin,
        /// How the image's CRC is stored.
        order: ByteOrder,
    },
    /// To read the help, which this text is.
    Help(String),
    /// To read the version.
    Version,
}

/// What image is to be made.
#[derive(Clone, Copy, Debug)]
pub struct ImageAsk {
    /// Its bytes.
    pub size: u32,
    /// Whether it is a copy of a redundant pair.
    pub redundant: bool,
    /// How its CRC is stored.
    pub order: ByteOrder,
    /// What its free bytes are.
    pub fill: u8,
}

/// What names the images.
#[derive(Debug, Drop)]
pub enum Origin {
    /// The configuration at this path, which names their places.
    Config(String),
    /// Files, each of which is one whole copy.
    Files {
        /// The path of a single image, or of the first copy of a pair.
        first: String,
        /// The path of the second copy of a pair.
        second: Option<String>,
    },
    /// A text of variables, of which an image is made. `setenv` has none.
    Text {
        /// Its path.
        path: String,
        /// How the image's CRC is stored.
        order: ByteOrder,
    },
    /// Nothing: the environment is empty. A call has it only beside a script that runs in place of a variable.
    Empty {
        /// How the CRC of the image that is made of it is stored.
        order: ByteOrder,
    },
}

/// How a device list is taken.
#[derive(Clone, Copy, Debug)]
pub struct Taking {
    /// Whether each device command and `test -e` is steady, as if each line of the list said so.
    pub steady: bool,
    /// The alternative that is taken, counted from 1, if one is named.
    pub alternative: Option<u32>,
}

/// The files that a rehearsal reads, and how it takes the device list.
#[derive(Debug, Drop)]
pub struct Inputs {
    /// What names the images.
    pub origin: Origin,
    /// The path of the device list.
    pub device_list: String,
    /// How it is taken.
    pub taking: Taking,
    /// The path of the script that runs in place of a variable, if one is given.
    pub script: Option<String>,
    /// The path of the folder of the files that the device list names, if one is given.
    pub files: Option<String>,
}

/// Why the words that name what is read are refused.
#[derive(Clone, Copy, Debug, Drop, PartialEq, Eq, Error)]
pub enum OriginError {
    /// An image is named, and a configuration too.
    #[error("-i takes no -c")]
    ImageAndConfig,
    /// A second copy is named, and no first one.
    #[error("--second needs -i")]
    SecondNeedsImage,
    /// One copy of a pair is enough, but the pair is two whole files.
    #[error("--second takes no --one-copy")]
    SecondAndOneCopy,
    /// A text is named, and a configuration or an image too.
    #[error("--text takes no -c, no -i and no --second")]
    TextAlone,
    /// A script that runs in place of a variable is named, and a variable too.
    #[error("--script takes no -b")]
    ScriptAndVariable,
}

/// What `printenv` is to print.
#[derive(Debug, Drop)]
pub struct PrintAsk {
    /// The variables to print, in this order; none for all.
    pub names: Vec<String>,
    /// How each is printed. Without its header, `names` is one name.
    pub form: PrintForm,
}

/// What `setenv` is to change.
#[derive(Debug, Drop)]
pub enum Change {
    /// The variable `name` becomes the words joined by one space; no word deletes it.
    One { name: String, words: Vec<String> },
    /// The changes are in the script at this path.
    Script(String),
    /// The changes are in the script on standard input.
    Input,
}

/// What `rehearse` is to list.
#[derive(Debug, Drop)]
pub struct RehearseAsk {
    /// The variable whose text is run, or the path of the script that runs in its place.
    pub name: String,
    /// The runs to list.
    pub wanted: Wanted<String>,
    /// The variables to list after each run, in this order; none for all.
    pub names: Vec<String>,
    pub ghost page_has_room: { HasRoom (page_of (wanted_strings wanted)) },
}

/// How much a search of all runs may take.
#[derive(Clone, Copy, Debug)]
pub(crate) struct Limits {
    /// The most states to search.
    pub(crate) states: u32,
    /// The most steps to begin in all.
    pub(crate) work: u32,
    /// The most MiB to count for the states that are kept.
    pub(crate) memory: u32,
}

/// What `endings` is to write.
#[derive(Debug, Drop)]
pub struct EndingsAsk {
    /// The variable whose text is run, or the path of the script that runs in its place.
    pub name: String,
    /// How far each run may go.
    pub bounds: RunBounds,
    /// The most states to search.
    pub states: u32,
    /// The most steps to begin in all.
    pub work: u32,
    /// The most MiB to count for the states that are kept.
    pub memory: u32,
    /// The variables whose values distinguish runs, in this order.
    pub names: Vec<String>,
    /// Whether to write the flow, not the endings.
    pub flow: bool,
}

/// The value that an ending is expected to leave of a variable.
#[derive(Debug, Drop)]
pub struct ValueAsk {
    /// The variable, which is not empty.
    pub name: String,
    /// Its value; an empty one if the variable is not to be set.
    pub value: String,
}

/// What is expected of each boot.
#[derive(Debug, Drop)]
pub struct ExpectedAsk {
    /// The ending that each boot is to lead to, which is not empty.
    pub ending: String,
    /// The most boots that may lead to it; none for any number.
    pub within: Option<u32>,
    /// The values that the ending leaves, in the order of the words.
    pub values: Vec<ValueAsk>,
}

/// The numbers that `boots` is given.
#[derive(Clone, Copy, Debug)]
pub(crate) struct BootNumbers {
    /// The most boots to rehearse.
    pub(crate) boots: u32,
    /// The most failures of the endings that are followed; none for any number.
    pub(crate) failures: Option<u32>,
    /// The most boots that may lead to the ending that is expected; none for any number.
    pub(crate) within: Option<u32>,
}

/// What `boots` is to write.
#[derive(Debug, Drop)]
pub struct BootsAsk {
    /// The variable whose text is run, or the path of the script that runs in its place.
    pub name: String,
    /// How far each run may go.
    pub bounds: RunBounds,
    /// The most states to search.
    pub states: u32,
    /// The most steps to begin in all.
    pub work: u32,
    /// The most MiB to count for the states that are kept.
    pub memory: u32,
    /// The most boots to rehearse.
    pub boots: u32,
    /// The most failures of the endings that are followed; none for any number.
    pub failures: Option<u32>,
    /// The variables whose values distinguish runs, in this order: those that are named, and then those of which a value
    /// is expected.
    pub names: Vec<String>,
    /// The path of a script of changes that may follow a boot, if one is given.
    pub changes: Option<String>,
    /// What is expected of each boot, if anything is.
    pub expected: Option<ExpectedAsk>,
}

/// What `causes` is to write.
#[derive(Debug, Drop)]
pub struct CausesAsk {
    /// The variable whose text is run, or the path of the script that runs in its place.
    pub name: String,
    /// Which runs are looked at.
    pub bounds: Bounds,
    /// Whether to write only what does not boot, and to answer whether there is such a run.
    pub check: bool,
}

/// Why the words of a call are refused.
#[derive(Debug, Drop, Error)]
pub enum UseError {
    /// `clap` refuses the words, or they have a number with a sign or a name that no shell has. The text is the message, with
    /// its line ends.
    #[error("{0}")]
    Line(String),
    /// `-l` is given an empty word.
    #[error("-l needs a DIR")]
    LockNeedsFolder,
    /// `setenv` is given neither a name nor a script.
    #[error("setenv needs a NAME")]
    NeedName,
    /// `setenv` is given a script and a name.
    #[error("-s takes no NAME")]
    ScriptAndName,
    /// `printenv -n` is given no name, or several.
    #[error("-n takes exactly one NAME")]
    HeaderNeedsOne,
    /// The words that name what is read do not go together.
    #[error("{0}")]
    Misnamed(OriginError),
    /// The size of a new image is no number.
    #[error("--size needs a number of bytes, decimal or after 0x")]
    BadSize,
    /// The free bytes of a new image are no byte.
    #[error("--fill needs a byte, 0 to 255 or 0x0 to 0xff")]
    BadFill,
    /// `rehearse` is given the word of one run, and which runs a listing has.
    #[error("--word takes no --failures, no --after and no --limit")]
    WordAlone,
    /// `rehearse` is given a device bound of a run for a listing in which many device commands may fail.
    #[error("--devices above 32 needs --word, or --failures of at most 3")]
    TooManyDevices,
    /// `boots` is given a number of boots or a value that is expected, and no ending.
    #[error("--within and --expect-var need --expect")]
    NeedExpect,
    /// `boots` is given an empty word as the ending that is expected.
    #[error("--expect needs an ending")]
    NeedEnding,
    /// A value that is expected has no name.
    #[error("--expect-var needs NAME=VALUE")]
    BadValue,
    /// Memory ran out.
    #[error("out of memory")]
    Memory,
}
