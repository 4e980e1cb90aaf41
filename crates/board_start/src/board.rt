//! A board, as its device list says.
ghost use Rattle.std.specs.Prelude.{◌≡◌, ◌++◌, OnOk};
ghost use Rattle.board_start.specs.StartLines.{front, left_of, line_left, said};
ghost use Rattle.board_start.specs.Start.{after_said, start_of};
ghost use Rattle.board_start.specs.Boards.{board_of};
ghost use Rattle.device_list.specs.CommandsShown.{files_shown};
ghost use Rattle.board_start.specs.StartShown.{said_shown};
ghost use Rattle.board_start.specs.StartAnswers.{Adds, IsBoard, IsRead, Starts};

use crate::board_error::BoardError;
use crate::said::{Said, read_line};
use crate::start::Start;
use device_list::{Devices, DevicesError, FileTexts};
use keyed_hash::KeyedHash;
use std::alloc::{AllocError, Global};
use text::Lines;

/// A board: how it starts, and its device commands.
#[derive(Drop)]
pub struct Board {
    /// How it starts.
    pub start: Start,
    /// Its device commands.
    pub devices: Devices,
}

/// What is left of a line for the list of commands.
fn left_of<'a>(said: &Said<'_>, line: &'a [u8]) -> &'a [u8]
    ensures { result.now ≡ left_of (said_shown said.now) line.now }
{
    match said {
        Said::Given { .. } | Said::Before(_) | Said::Counts(_) => &[],
        Said::Faulty => b"given given".as_slice(),
        Said::Other => line,
    }
}

/// Keeps what is left of a line, with a newline in front of each but the first. Errors: memory ran
/// out.
fn keep(rest: &mut Vec<u8>, number: usize, left: &[u8]) -> Result<(), AllocError>
    ensures { OnOk result (rest.new.items ≡ rest.old.items ++ (front number ++ left.now)) }
{
    if number != 1 {
        rest.push(b'\n')?;
    }
    rest.extend_from_slice(left)
}

/// Reads one more line. Errors: `Start` with `TooMany`, `Memory`.
fn add_line(
    alloc: Global,
    start: &mut Start,
    rest: &mut Vec<u8>,
    number: usize,
    line: &[u8],
) -> Result<(), BoardError>
    ensures rest { OnOk result (rest.new.items ≡ rest.old.items ++ line_left number line.now) }
    ensures start { Adds (after_said start.old number (said line.now)) start.new result }
{
    let said = read_line(alloc, line)?;
    keep(rest, number, left_of(&said, line))?;
    start.add(number, said)
}

/// Reads the lines of a list: what they say of the start, and the other lines. Errors: `Start` with
/// `TooMany`, `Memory`.
fn read(alloc: Global, text: &[u8]) -> Result<(Start, Vec<u8>), BoardError>
    ensures { IsRead text.now result }
{
    let mut start = Start::new(alloc, KeyedHash::of(text));
    let mut rest = Vec::new(alloc);
    for (number, line) in Lines::new(text) {
        add_line(alloc, &mut start, &mut rest, number, line)?;
    }
    Ok((start, rest))
}

impl Board {
    /// The board that a device list says. Beside the lines of `Devices::parse` it has the lines
    /// `given NAME=VALUE`, for a variable of the environment before the run, and `before NAME`, for a
    /// variable whose text runs first. A value may have quotes, as in a line of calls. Lines `given` of
    /// one name with other values are alternatives, at most 64 in all. The line
    /// `count COUNTER limit LIMIT else VARIABLE` says that the board has U-Boot's boot counter, with these
    /// variables; the last such line counts. Its lines may name these files. Errors in order: `Start` with
    /// `TooMany`, `Devices` with the first fault of the lines, a faulty line of the start among them;
    /// `Memory` wherever a growth is made.
    pub fn parse(alloc: Global, text: &[u8], files: FileTexts) -> Result<Board, BoardError>
        ensures { IsBoard (board_of (record { text = text.now; files = files_shown files.entries })) result }
    {
        let (start, rest) = read(alloc, text)?;
        match Devices::parse_with(alloc, &rest, files) {
            Ok(devices) => Ok(Board { start, devices }),
            Err(DevicesError::Memory) => Err(BoardError::Memory),
            Err(fault) => Err(BoardError::Devices(fault)),
        }
    }

    /// What a list says of the start alone. Errors: `Start` with `TooMany`, `Memory`.
    pub fn start(alloc: Global, text: &[u8]) -> Result<Start, BoardError>
        ensures { Starts (start_of text.now) result }
    {
        let (start, _) = read(alloc, text)?;
        Ok(start)
    }
}
