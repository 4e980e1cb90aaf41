//! The built-in commands: the one list of their names, for scripts and for device lists.
#![tactic(auto)]

mod builtins;

pub use builtins::{Builtin, builtin_named, builtin_of, is_built_in};
