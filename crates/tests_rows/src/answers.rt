//! Rows with their answers.

use crate::words::first_word;
use std::alloc::{AllocError, Global};
use std::io;

/// What answers rows.
pub trait Rows {
    /// Forgets all that rows have set.
    fn forget(&mut self) -> anyhow::Result<()>;

    /// The answer to a row, by its first word and what it says after that. A row that only sets something has none.
    fn answer(&mut self, word: &str, says: &str) -> anyhow::Result<String>;
}

/// Puts the lines of an answer after a transcript, each after four spaces.
fn push_lines(transcript: &mut String, answer: &str) -> Result<(), AllocError> {
    for line in answer.lines() {
        transcript.push_str("    ")?;
        transcript.push_str(line)?;
        transcript.push_str("\n")?;
    }
    Ok(())
}

/// An answer, or why there is none.
pub fn said(alloc: Global, answer: anyhow::Result<String>) -> Result<String, AllocError> {
    match answer {
        Ok(answer) => Ok(answer),
        Err(error) => format!(in alloc; "refused: {error}"),
    }
}

/// The answer to a row, or why it is refused.
fn answered<R: Rows>(alloc: Global, rows: &mut R, row: &str) -> Result<String, AllocError> {
    let (word, says) = first_word(row);
    said(alloc, rows.answer(word, says))
}

/// A text of rows, each with the lines of its answer after it. A line that starts with `#` is a heading, and at an
/// empty line what the rows have set is forgotten.
fn transcript<R: Rows>(alloc: Global, text: &str, rows: &mut R) -> anyhow::Result<String> {
    let mut transcript = String::new(alloc);
    for row in text.lines() {
        transcript.push_str(row)?;
        transcript.push_str("\n")?;
        if row.is_empty() {
            rows.forget()?;
        } else if !row.starts_with('#') {
            push_lines(&mut transcript, answered(alloc, rows, row)?.as_str())?;
        }
    }
    Ok(transcript)
}

/// Answers the rows of the input.
pub fn answer_input<R: Rows>(rt: &HostRuntime, rows: &mut R) -> anyhow::Result<()> {
    let alloc = rt.alloc();
    let text = io::read_to_string(alloc, rt.reader())?;
    let answers = transcript(alloc, text.as_str(), rows)?;
    Ok(print!(rt; "{answers}")?)
}
