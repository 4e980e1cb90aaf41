//! What is left of the bytes that the table may hold, after a state that it keeps.
ghost use Rattle.std.specs.Prelude.{◌+◌, ◌*◌, length};
ghost use Rattle.rehearse_endings.specs.Held.{IsLeft, size_of, size_of_all, size_of_known, size_of_value, size_of_words};

use bootstore_state::Frame;
use rehearse_reports::Known;

/// What is left after so many bytes, if they have room.
fn behind(room: u64, bytes: usize) -> Option<u64>
    ensures { IsLeft room bytes result }
{
    room.checked_sub(bytes as u64)
}

/// The same of a name and a value.
fn behind_value(room: u64, name: &[u8], value: &Option<Vec<u8>>) -> Option<u64>
    ensures { IsLeft room (length name.now + size_of_value value.now) result }
{
    let left = behind(room, name.len())?;
    match value {
        Some(bytes) => behind(left, bytes.len()),
        None => Some(left),
    }
}

/// The same of words.
fn behind_words(room: u64, words: &[Vec<u8>]) -> Option<u64>
    ensures { IsLeft room (size_of_words words.now) result }
{
    let mut left = room;
    for word in words {
        left = behind(left, word.len())?;
    }
    Some(left)
}

/// The same of something that is known.
fn behind_known(room: u64, known: &Known) -> Option<u64>
    ensures { IsLeft room (size_of_known known.now) result }
{
    let left = behind(room, 192)?;
    match known {
        Known::Environment(name, value) => behind_value(left, name, value),
        Known::Local(name, value) => behind_value(left, name, value),
        Known::AnswerTo(call, _) => behind_words(left, call),
        Known::Succeeded(start, _) => behind_words(left, start),
        Known::Status(_) => Some(left),
    }
}

/// The same of all that is known.
fn behind_all(room: u64, known: &[Known]) -> Option<u64>
    ensures { IsLeft room (size_of_all known.now) result }
{
    let mut left = room;
    for one in known {
        left = behind_known(left, one)?;
    }
    Some(left)
}

/// The same of frames.
fn behind_frames(room: u64, frames: &[Frame]) -> Option<u64>
    ensures { IsLeft room (64 * length frames.now) result }
{
    let many = frames.len() as u64;
    if many > room / 64 {
        return None;
    }
    Some(room - 64 * many)
}

/// The same of a state with these frames, in which this is known.
pub(crate) fn behind_state(room: u64, frames: &[Frame], known: &[Known]) -> Option<u64>
    ensures { IsLeft room (size_of frames.now known.now) result }
{
    let left = behind(room, 512)?;
    let left = behind_frames(left, frames)?;
    behind_all(left, known)
}
