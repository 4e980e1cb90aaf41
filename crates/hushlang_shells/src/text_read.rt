//! What becomes of a text.

use hushlang::Script;

/// What becomes of a text as a shell reads it.
#[derive(Drop)]
pub enum TextRead {
    /// The script is run.
    Runs(Script),
    /// The shell reports a fault: nothing of the text is run, and the status is 1.
    Fails,
    /// The shell gives up: the board resets or hangs.
    Panics,
    /// It is no script of ubtool's own grammar; or what U-Boot's shell does with it is not followed.
    Unread,
}
