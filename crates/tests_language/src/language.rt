//! Texts: their tokens, their trees and what their words expand to.

use crate::calls::{fields_of, joined, next_token, script_of};
use crate::case::Case;
use crate::variables::With;
use crate::verdicts::test;
use bootstore_state::StoreError;
use device_list::DevicesError;
use hushlang::{Command, ExpandError, Lexer, OneVariable, Script, SyntaxError, Token, Vars};
use std::alloc::{AllocError, Global};
use std::fmt::Write;
use tests_rows::{shown, unescaped};

/// The line of a token, of the end, or of a refusal.
fn line_of(
    alloc: Global,
    token: Result<Option<Token<'_>>, SyntaxError>,
) -> Result<String, AllocError> {
    match token {
        Ok(Some(token)) => {
            let text = shown(alloc, token.text)?;
            let (kind, start, stop) = (token.kind, token.start, token.stop);
            format!(in alloc; "{kind:?} {start} {stop} {text}\n")
        }
        Ok(None) => String::from_str(alloc, "end\n"),
        Err(error) => format!(in alloc; "{error:?}\n"),
    }
}

/// The tokens of a text, and three times how they end.
fn tokens(case: &Case, says: &str) -> anyhow::Result<String> {
    let alloc = case.alloc;
    let text = unescaped(alloc, says)?;
    let mut lexer = Lexer::new(&text);
    let mut lines = String::new(alloc);
    let mut ends = 0u32;
    for _ in 0..u32::MAX {
        let token = next_token(&mut lexer);
        ends = ends.saturating_add(u32::from(!matches!(&token, Ok(Some(_)))));
        lines.push_str(line_of(alloc, token)?.as_str())?;
        if ends == 3 {
            break;
        }
    }
    Ok(lines)
}

/// What a command is, and how many parts it has.
fn kind_of(command: &Command) -> (&'static str, usize) {
    match command {
        Command::Simple(call) => ("simple", call.words().len()),
        Command::Assign(values) => ("assign", values.len()),
        Command::If { arms, other } => ("if", 2 * arms.len().min(9) + usize::from(other.is_some())),
        Command::Loop {
            until,
            cond,
            body: _,
        } => ("loop", 2 * cond.lists.len().min(9) + usize::from(*until)),
        Command::For {
            name,
            words,
            body: _,
        } => ("for", 10 * name.len().min(9) + words.len().min(9)),
    }
}

/// What the first commands of the lists are, and how many parts each has.
fn kinds(alloc: Global, script: &Script) -> Result<String, AllocError> {
    let mut kinds = String::from_str(alloc, "commands")?;
    for list in &script.lists {
        let (kind, size) = kind_of(&list.first);
        write!(kinds, " {kind} {size};")?;
    }
    Ok(kinds)
}

/// The tree of a text, or what a row asks of it.
fn read(case: &Case, word: &str, says: &str) -> anyhow::Result<String> {
    let alloc = case.alloc;
    let text = unescaped(alloc, says)?;
    let script = script_of(alloc, &text)?;
    if word == "commands" {
        return Ok(kinds(alloc, &script)?);
    }
    Ok(format!(in alloc; "{script:?}")?)
}

/// What each front of a text is: a script, or why it is refused.
fn cuts(case: &Case, says: &str) -> anyhow::Result<String> {
    let alloc = case.alloc;
    let text = unescaped(alloc, says)?;
    let mut lines = String::new(alloc);
    for size in 0..=text.len() {
        match script_of(alloc, &text[..size]) {
            Ok(_) => writeln!(lines, "{size}: a script")?,
            Err(error) => writeln!(lines, "{size}: {error:?}")?,
        }
    }
    Ok(lines)
}

/// The fields of the words of a command, or the values of its assignments.
fn fields_of_command<V: Vars>(
    alloc: Global,
    command: &Command,
    vars: &V,
) -> anyhow::Result<Vec<Vec<u8>>> {
    let mut fields = Vec::new(alloc);
    match command {
        Command::Simple(call) => return Ok(fields_of(alloc, call.words(), vars)?),
        Command::Assign(values) => {
            for (_, word) in values {
                fields.push(joined(alloc, word, vars)?)?;
            }
        }
        _ => {}
    }
    Ok(fields)
}

/// Fields, or how long they are, a bar after each.
pub(crate) fn row_of(
    alloc: Global,
    fields: &[Vec<u8>],
    are_sizes: bool,
) -> Result<String, AllocError> {
    let mut row = String::new(alloc);
    for field in fields {
        if are_sizes {
            let size = field.len();
            write!(row, "{size}")?;
        } else {
            row.push_str(shown(alloc, field)?.as_str())?;
        }
        row.push('|')?;
    }
    Ok(row)
}

/// A line of fields for each command of a script.
fn lines_over<V: Vars>(
    alloc: Global,
    word: &str,
    script: &Script,
    vars: &V,
) -> anyhow::Result<String> {
    let mut lines = String::new(alloc);
    for list in &script.lists {
        let fields = fields_of_command(alloc, &list.first, vars)?;
        lines.push_str(row_of(alloc, &fields, word == "sizes")?.as_str())?;
        lines.push('\n')?;
    }
    Ok(lines)
}

/// A line of fields for each command of a text.
fn over<V: Vars>(alloc: Global, word: &str, says: &str, vars: &V) -> anyhow::Result<String> {
    let script = script_of(alloc, &unescaped(alloc, says)?)?;
    let told = lines_over(alloc, word, &script, vars);
    drop(script);
    told
}

/// The same by the variables of a case, which are one or three.
fn expanded(case: &Case, word: &str, says: &str) -> anyhow::Result<String> {
    let [(name, value), others @ ..] = case.variables.as_slice() else {
        anyhow::bail!("no variable is set");
    };
    let one = OneVariable {
        name,
        value,
        status: case.status,
    };
    let [second, third] = others else {
        return over(case.alloc, word, says, &one);
    };
    let three = With {
        name: &third.0,
        value: &third.1,
        others: With {
            name: &second.0,
            value: &second.1,
            others: one,
        },
    };
    over(case.alloc, word, says, &three)
}

/// What each refusal is printed as that says that memory ran out.
fn memory(case: &Case) -> anyhow::Result<String> {
    let (text, words) = (SyntaxError::Memory, ExpandError::Memory);
    let (list, store) = (DevicesError::Memory, StoreError::Memory);
    Ok(format!(in case.alloc; "{text}\n{words}\n{list}\n{store}")?)
}

/// The answer to a row of texts.
pub(crate) fn told(case: &Case, word: &str, says: &str) -> anyhow::Result<String> {
    match word {
        "tokens" => tokens(case, says),
        "cuts" => cuts(case, says),
        "fields" | "sizes" => expanded(case, word, says),
        "test" => test(case, says),
        "memory" => memory(case),
        _ => read(case, word, says),
    }
}
