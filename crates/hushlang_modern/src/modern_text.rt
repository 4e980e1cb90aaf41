//! What becomes of a text as U-Boot's modern shell reads it.

use crate::stop::Stop;
use hushlang::Script;

/// What becomes of a text.
#[derive(Drop)]
pub enum ModernText {
    /// It has a tree.
    Read(Script),
    /// It has none.
    Unread(Stop),
}
