//! What is found in a text.

use crate::warning::Warning;

/// What is reported of a word.
#[derive(Drop)]
pub(crate) enum Remark {
    /// A name of `run` holds a variable, so it is not followed.
    NotFollowed,
    /// The device list lacks the command of this name.
    Lacks(Vec<u8>),
    /// A call may set variables whose names are not known.
    SetsMore,
    /// Nothing sets the variable of this name, which is read.
    Unset(Vec<u8>),
    /// A shell of U-Boot reads something otherwise.
    Warns(Warning),
}

/// What is reported of a word, and where the word starts.
#[derive(Drop)]
pub(crate) struct Found {
    /// The byte in the text.
    pub(crate) at: usize,
    /// What is reported.
    pub(crate) remark: Remark,
}

/// A variable that a word reads, and where the word starts.
#[derive(Drop)]
pub(crate) struct Read {
    /// The byte in the text.
    pub(crate) at: usize,
    /// The name.
    pub(crate) name: Vec<u8>,
}
