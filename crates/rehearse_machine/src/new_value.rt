//! What a setting makes of its variable.

/// What a setting makes of its variable.
#[derive(Clone, Copy, Debug)]
pub enum NewValue<'a> {
    /// This value.
    Value(&'a [u8]),
    /// A copy of this variable.
    Copied(&'a [u8]),
    /// No value: the variable is deleted.
    Unset,
}
