//! What a script file holds: an image that U-Boot's `source` runs, or a text.
#![tactic(auto)]

mod script;

pub use script::{ScriptFault, script_in};
