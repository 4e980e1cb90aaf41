//! How a command ends the run.
ghost use Rattle.std.specs.Prelude.{◌≡◌};
ghost use Rattle.device_list.specs.Finishes.{finish_named, first_finish};

/// What the board does when a command that succeeds has ended the run.
#[derive(Clone, Copy, Debug, PartialEq, Eq)]
pub enum BoardEnd {
    /// The board boots.
    Boots,
    /// The board restarts, and U-Boot starts anew.
    Restarts,
    /// The board halts, or its power goes off.
    Halts,
}

/// How a command ends the run by the word that is in front of it, if this word says so.
pub(crate) fn finish_named(word: &[u8]) -> Option<BoardEnd>
    ensures { result ≡ finish_named word.now }
{
    if word == b"final".as_slice() {
        Some(BoardEnd::Boots)
    } else if word == b"restart".as_slice() {
        Some(BoardEnd::Restarts)
    } else if word == b"halt".as_slice() {
        Some(BoardEnd::Halts)
    } else {
        None
    }
}

/// How a command ends the run of which an earlier line says the one and a later line the other: the
/// first that says how decides.
pub(crate) fn first_finish(before: Option<BoardEnd>, more: Option<BoardEnd>) -> Option<BoardEnd>
    ensures { result ≡ first_finish before more }
{
    match before {
        Some(finish) => Some(finish),
        None => more,
    }
}
