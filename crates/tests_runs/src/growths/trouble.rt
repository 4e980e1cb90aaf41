//! Lack of memory, told apart from other refusals.

/// Why a call did not do what it should.
#[derive(Clone, Copy, Debug)]
pub(crate) enum Trouble {
    /// A growth was refused.
    Memory,
    /// It was refused for another cause, which it never should.
    Other,
}

/// The answer of a call; `memory` says that memory ran out.
pub(crate) fn told_apart<T, E: PartialEq + Drop>(
    answer: Result<T, E>,
    memory: E,
) -> Result<T, Trouble> {
    match answer {
        Ok(value) => Ok(value),
        Err(error) if error == memory => Err(Trouble::Memory),
        Err(_) => Err(Trouble::Other),
    }
}
