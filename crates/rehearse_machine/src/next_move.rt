//! What the innermost frame does next, as a value: it is found by looking at the frame, before the store changes.

use bootstore_state::At;
use hushlang::{Call, Script, Word};
use std::rc::Rc;

/// What the innermost frame does next. The first five begin no step.
#[derive(Clone, Copy)]
pub(crate) enum Next<'a> {
    /// It is done, and leaves.
    Leaves,
    /// It goes to a place.
    Goes(At),
    /// It goes to a place, and the status is this.
    Finishes(At, u8),
    /// It goes to a place, and a block starts above it.
    Enters(At, &'a Rc<Script>),
    /// It goes to a place, the status is this, and a block starts above it.
    Skips(At, u8, &'a Rc<Script>),
    /// A simple command begins.
    Calls(&'a Call),
    /// Assignments of these values begin.
    Assigns(&'a [(Vec<u8>, Word)]),
    /// A `for` over these words begins, whose variable has this name.
    Loops(&'a [u8], &'a [Word]),
    /// The next turn of a `for` begins, or the `for` ends.
    Turns,
    /// The next name of a `run` begins, or the `run` ends.
    Names,
    /// The text of a file begins after a success, or it has ended.
    Hands,
}
