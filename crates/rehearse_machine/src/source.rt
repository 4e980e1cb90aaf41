//! What a rehearsal runs.

/// What a rehearsal runs: a text that is given, or else the text of a variable of the environment.
#[derive(Clone, Copy)]
pub struct Source<'a> {
    /// The variable, or what the given text is called.
    pub name: &'a [u8],
    /// The text that is given.
    pub text: Option<&'a [u8]>,
}
