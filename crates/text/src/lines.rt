//! The lines of a text.
ghost use Rattle.std.specs.Prelude.{◌≡◌, ◌+◌, ◌<◌, ◌^◌, length};

use crate::search::find;

/// The lines of a text, each with its number, from 1 on. A newline ends a line. The bytes after the
/// last newline are a line too.
#[derive(Clone, Copy, Debug)]
pub struct Lines<'a> {
    rest: &'a [u8],
    number: usize,
    is_done: bool,
    ghost in_range: { number + length rest.now < 2 ^ 64 },
}

impl<'a> Lines<'a> {
    ghost use Rattle.text.specs.Lines.{numbered_lines, lines_left};

    /// The lines of this text.
    pub fn new(text: &'a [u8]) -> Self
        ensures { lines_left result ≡ numbered_lines text.now }
    {
        Lines {
            rest: text,
            number: 1,
            is_done: false,
        }
    }
}

impl<'a> Iterator for Lines<'a> {
    type Item = (usize, &'a [u8]);

    ghost use Rattle.std.specs.Iterator.{YieldsFirstBy, at_most};
    ghost use Rattle.text.specs.Lines.{lines_left, line_at, steps_left};

    ghost next_gives = { YieldsFirstBy line_at lines_left };

    ghost remaining = { λ s. at_most (steps_left s) };

    fn next(&mut self) -> Option<Self::Item> {
        if self.is_done {
            return None;
        }
        let number = self.number;
        match find(self.rest, b'\n') {
            Some(at) => {
                let line = &self.rest[..at];
                self.rest = &self.rest[at + 1..];
                self.number += 1;
                Some((number, line))
            }
            None => {
                self.is_done = true;
                Some((number, self.rest))
            }
        }
    }
}
