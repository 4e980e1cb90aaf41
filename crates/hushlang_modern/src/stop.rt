//! How the reading of a text stops.

/// How the reading of a text stops before it has a tree.
#[derive(Clone, Copy, Debug, PartialEq, Eq)]
pub enum Stop {
    /// A fault: nothing of the text is run, and its status is 1.
    Fails,
    /// A fault by which the shell gives up: the board resets, or hangs (`die_if_script`, `panic`).
    Panics,
    /// A construct that is not followed.
    Unsupported,
}
