//! The program that uses the files of the machine, and what it says of a call that goes on.
ghost use Rattle.std.specs.Prelude.{◌≡◌, ◌++◌, IfOk, OnOk};
ghost use Rattle.text.specs.Escapes.{word_escaped, word_form};
ghost use Rattle.tool_files.specs.Notes.{note_line};

use crate::writing::is_written;
use std::alloc::{AllocError, Global};
use std::io::Write;
use text::Escaped;

/// What a program says of a call that goes on.
#[derive(Clone, Copy, Debug, PartialEq, Eq)]
pub enum Note {
    /// Another call holds the lock whose file is at the path.
    Waiting,
    /// The file at the path cannot be replaced, so it is written in place.
    InPlace,
}

/// The program that uses the files of the machine: its name, the number of its process, and where
/// its notes go.
#[derive(Drop)]
pub struct Program<'a, W> {
    name: &'a str,
    process: u32,
    notes: W,
}

/// Adds bytes to a line.
fn put(line: &mut Vec<u8>, bytes: &[u8]) -> Result<(), AllocError>
    ensures { OnOk result (line.new.items ≡ line.old.items ++ bytes.now) }
{
    line.extend_from_slice(bytes)?;
    Ok(())
}

/// Adds a path to a line, as words are printed.
fn put_word(line: &mut Vec<u8>, word: &str) -> Result<(), AllocError>
    ensures { OnOk result (line.new.items ≡ line.old.items ++ word_form word.now) }
{
    if word.is_empty() {
        return put(line, b"\\e");
    }
    for byte in word.as_bytes() {
        put(line, Escaped::in_word(*byte).as_slice())?;
    }
    Ok(())
}

/// The line of a note on a path.
fn line_of(alloc: Global, name: &str, note: Note, path: &str) -> Result<Vec<u8>, AllocError>
    ensures { IfOk result (λ line. line.items ≡ note_line name.now note path.now) }
{
    let mut line = Vec::new(alloc);
    put(&mut line, name.as_bytes())?;
    match note {
        Note::Waiting => {
            put(&mut line, b": waiting for ")?;
            put_word(&mut line, path)?;
            put(&mut line, b"\n")?;
        }
        Note::InPlace => {
            put(&mut line, b": cannot replace ")?;
            put_word(&mut line, path)?;
            put(&mut line, b", writing it in place\n")?;
        }
    }
    Ok(line)
}

impl<'a, W> Program<'a, W> {
    ghost use Rattle.tool_files.specs.ProgramShown.{name_of, notes_of, process_of};

    /// The program of this name, whose process has this number. Its notes go to `notes`, each by one
    /// write of a line.
    pub fn new(name: &'a str, process: u32, notes: W) -> Program<'a, W>
        ensures name { name_of result ≡ name.now }
        ensures process { process_of result ≡ process }
        ensures notes { notes_of result ≡ notes }
    {
        Program {
            name,
            process,
            notes,
        }
    }

    /// The number of its process.
    pub(crate) fn process(&self) -> u32
        ensures { result ≡ process_of self.now }
    {
        self.process
    }
}

impl<W: Write> Program<'_, W> {
    /// Writes the line of a note on a path. If memory for it runs out, or it cannot be written, the
    /// call goes on without it.
    pub(crate) fn note(&mut self, alloc: Global, note: Note, path: &str) {
        if let Ok(line) = line_of(alloc, self.name, note, path) {
            let _ = is_written(&mut self.notes, &line);
        }
    }
}
