//! The calls with outputs of the whole program over files in memory, and of the rehearsal.

use crate::calls;
use tests_rows::{first_word, number};
use tests_tools::{Case, Performed};

/// Rehearses a variable, in so many steps a run.
pub(crate) fn rehearse(case: &Case<'_>, says: &str, done: &mut Performed) -> anyhow::Result<()> {
    let (name, steps) = first_word(says);
    let answer = calls::rehearse(case, name.as_bytes(), number(steps)?, &mut done.out)?;
    done.answer = format!(in case.alloc; "{answer:?}")?;
    Ok(())
}

/// Runs the program by the words of a line.
pub(crate) fn run(case: &mut Case<'_>, says: &str, done: &mut Performed) -> anyhow::Result<()> {
    let alloc = case.alloc;
    let words: Vec<&str> = says.split_whitespace().collect(alloc)?;
    let mut files = case.fresh()?;
    let mut source = case.source();
    let (out, err) = (&mut done.out, &mut done.err);
    let status = calls::run_words(
        alloc,
        case.called,
        &words,
        &mut source,
        &mut files,
        out,
        err,
    );
    let reads = source.reads;
    case.reads = reads;
    case.files = files;
    done.answer = format!(in alloc; "status {status}")?;
    Ok(())
}
