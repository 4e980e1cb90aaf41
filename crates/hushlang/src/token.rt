//! Tokens, and why a text is refused.

use std::alloc::{AllocError, AllocFailed};
use thiserror::Error;

/// What kind of token it is.
#[derive(Clone, Copy, Debug, PartialEq, Eq)]
pub enum Kind {
    /// A word of a command.
    Word,
    /// `;`
    Semi,
    /// The end of a line.
    Newline,
    /// `&&`
    AndAnd,
    /// `||`
    OrOr,
}

/// Why a text is not a script, and at which byte, counted from 0. Only `Memory` has no place.
#[derive(Clone, Copy, Debug, PartialEq, Eq, Error)]
pub enum SyntaxError {
    /// The quote at this byte is never closed.
    #[error("the quote at byte {0} is not closed")]
    OpenQuote(usize),
    /// The text ends after the backslash at this byte.
    #[error("the backslash at byte {0} is the last byte")]
    LoneBackslash(usize),
    /// The text ends before the `}` of the `${` at this byte.
    #[error("the brace at byte {0} is not closed")]
    OpenBrace(usize),
    /// There is no name between the `${` at this byte and its `}`.
    #[error("the braces at byte {0} hold no name")]
    BadVariable(usize),
    /// There is a single `&` at this byte.
    #[error("a single & at byte {0}")]
    SingleAmp(usize),
    /// There is a single `|` at this byte.
    #[error("a single | at byte {0}")]
    SinglePipe(usize),
    /// No script goes on with the token at this byte, or ends there.
    #[error("unexpected token at byte {0}")]
    Unexpected(usize),
    /// The variable of a `for`, or its `in`, is missing at this byte.
    #[error("a word is missing at byte {0}")]
    MissingWord(usize),
    /// A word that is not an assignment follows assignments at this byte.
    #[error("an assignment before the command at byte {0}")]
    AssignmentBeforeCommand(usize),
    /// A compound command starts at this byte, inside as many others as are allowed.
    #[error("nested too deep at byte {0}")]
    TooDeep(usize),
    /// Memory ran out.
    #[error("out of memory")]
    Memory,
}

impl From<AllocError> for SyntaxError {
    ghost use Rattle.std.specs.Prelude.{◌≡◌};
    ghost use Rattle.hushlang.specs.declared.token.SyntaxError.TheVariants.{Memory};

    ghost from_gives = { λ _ e. e ≡ Memory };

    fn from(_: AllocError) -> SyntaxError {
        SyntaxError::Memory
    }
}

impl<T: Drop> From<AllocFailed<T>> for SyntaxError {
    ghost use Rattle.std.specs.Prelude.{◌≡◌};
    ghost use Rattle.hushlang.specs.declared.token.SyntaxError.TheVariants.{Memory};

    ghost from_gives = { λ _ e. e ≡ Memory };

    fn from(failed: AllocFailed<T>) -> SyntaxError {
        drop(failed);
        SyntaxError::Memory
    }
}

/// A token, and the part of its source that holds it.
#[derive(Clone, Copy, Debug)]
pub struct Token<'a> {
    /// What kind of token it is.
    pub kind: Kind,
    /// The place of its first byte in the source, counted from 0.
    pub start: usize,
    /// The place after its last byte.
    pub stop: usize,
    /// The bytes of the source from `start` up to `stop`.
    pub text: &'a [u8],
}
