//! What becomes of the text that a run writes.

/// What becomes of the text that a run writes, as by `echo`.
#[derive(Clone, Copy, Debug)]
pub enum Written {
    /// It is kept.
    Kept,
    /// It is dropped.
    Dropped,
}
