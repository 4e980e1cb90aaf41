//! The version.

/// The version of the programs, and of the package that has them.
pub const VERSION: &str = "0.1.0";
