//! Why a rehearsal cannot start as a device list says.

use thiserror::Error;

/// Why a rehearsal cannot start as a device list says.
#[derive(Clone, Copy, Debug, Drop, PartialEq, Eq, Error)]
pub enum StartError {
    /// The line gives one value too many: more than 64 environments.
    #[error("device list line {0}: more than 64 alternatives")]
    TooMany(usize),
    /// The list has so many alternatives, and none of them was named.
    #[error("the device list has {0} alternatives: name one by --given")]
    Alternatives(u32),
    /// The alternative that was named is not one of so many.
    #[error("no alternative {0}: the device list has {1}")]
    NoAlternative(u32, u32),
    /// A text runs before the variable, whose name has another byte than letters, digits, `_`, `-`
    /// and `.`.
    #[error("a text runs before the variable, whose name has other bytes than letters, digits, _, - and .")]
    Name,
}
