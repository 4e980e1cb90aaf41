//! What a call asks for.

use envimage::ByteOrder;
use rehearse_terms::Shell;
use tool_words::Origin;

/// To check the texts of variables, and the texts that these run.
#[derive(Debug, Drop)]
pub struct Ask {
    /// What names the images.
    pub origin: Origin,
    /// The path of the device list, if there is one.
    pub devices_file: Option<String>,
    /// What to check.
    pub what: CheckAsk,
    /// How the image's CRC is stored.
    pub order: ByteOrder,
}

/// The variables to check, and the script, and the folder of files.
#[derive(Debug, Drop)]
pub struct CheckAsk {
    /// The path of the folder of the files that the device list names, if one is given.
    pub files: Option<String>,
    /// The path of the script that is checked in place of a variable, if one is given. No variable is named beside it.
    pub script: Option<String>,
    /// The variables that are named, in this order.
    pub names: Vec<String>,
    /// Whether every variable is checked after them, or after the script.
    pub all: bool,
    /// The shell that is named, if one is.
    pub shell: Option<Shell>,
    /// Whether a warning is a fault.
    pub strict: bool,
}
