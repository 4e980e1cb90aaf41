//! Command lines.

use crate::case::Case;
use std::alloc::{AllocError, Global};
use tests_rows::unescaped_text;
use tool_words::{Ask, CalledAs, called_as, read_command, read_lock, words_called};

/// The words of a line.
fn args_of(alloc: Global, line: &str) -> Result<Vec<String>, AllocError> {
    let mut args = Vec::new(alloc);
    for word in line.split_whitespace() {
        args.push(String::from_str(alloc, word)?)?;
    }
    Ok(args)
}

/// The answer to the words of a line, as text.
fn answer(alloc: Global, line: &str) -> Result<String, AllocError> {
    let words = args_of(alloc, line)?;
    match read_command(alloc, CalledAs::Ubtool, words.as_slice()) {
        Ok(Ask::Help(text)) => Ok(text),
        Ok(ask) => format!(in alloc; "{ask:?}"),
        Err(error) => error.to_string(alloc),
    }
}

/// What a program was called as, the words of a call by another name, or the folder of the lock.
fn called(alloc: Global, word: &str, says: &str) -> anyhow::Result<String> {
    let args = args_of(alloc, says)?;
    match word {
        "called" => {
            let called = called_as(&args);
            Ok(format!(in alloc; "{called:?}")?)
        }
        "words" => Ok(words_called(args)?.join(alloc, " ")?),
        _ => {
            let folder = read_lock(alloc, &args)?;
            Ok(format!(in alloc; "{folder:?}")?)
        }
    }
}

/// Keeps the help, and returns whether it ends with a line.
fn help(case: &mut Case<'_>, says: &str) -> anyhow::Result<String> {
    let help = answer(case.alloc, says)?;
    let is_ended = help.ends_with('\n');
    case.help = help;
    Ok(format!(in case.alloc; "ends a line: {is_ended}")?)
}

/// Whether the last help has a text.
fn has(case: &Case<'_>, says: &str) -> anyhow::Result<String> {
    let part = unescaped_text(case.alloc, says)?;
    let has = case.help.contains(part.as_str());
    Ok(format!(in case.alloc; "{has}")?)
}

/// Whether `clap` refuses a command line, and points to the help.
fn clap(alloc: Global, says: &str) -> anyhow::Result<String> {
    let text = answer(alloc, says)?;
    let is_refused = text.starts_with("error: ")
        && text.ends_with("For more information, try '--help'.\n");
    Ok(format!(in alloc; "refused by clap: {is_refused}")?)
}

/// The answer to a row of command lines.
pub(crate) fn told(case: &mut Case<'_>, word: &str, says: &str) -> anyhow::Result<String> {
    match word {
        "command" => Ok(answer(case.alloc, says)?),
        "help" => help(case, says),
        "has" => has(case, says),
        "clap" => clap(case.alloc, says),
        _ => called(case.alloc, word, says),
    }
}
