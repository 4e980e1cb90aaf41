//! Environments that are made and changed.

use crate::calls;
use crate::case::Case;
use envtools::Env;
use std::alloc::Global;
use std::fmt::Write;
use tests_rows::{first_word, shown, slices, unescaped, words_of};

/// The variables of an environment, a line each.
fn lines_of(alloc: Global, env: &Env) -> anyhow::Result<String> {
    let mut lines = String::new(alloc);
    for at in 0..env.len() {
        if let Some((name, value)) = env.pair(at) {
            let (name, value) = (shown(alloc, name)?, shown(alloc, value)?);
            writeln!(lines, "{name}={value}")?;
        }
    }
    Ok(lines)
}

/// Makes the environment of an image's data.
fn from_data(case: &mut Case<'_>, data: &[u8]) -> anyhow::Result<()> {
    case.env = Env::from_data(case.alloc, data)?;
    Ok(())
}

/// Sets a variable, or changes it to some words.
fn set(case: &mut Case<'_>, change: &str, says: &str) -> anyhow::Result<()> {
    let (name, value) = first_word(says);
    let name = unescaped(case.alloc, name)?;
    if change == "set" {
        let value = unescaped(case.alloc, value)?;
        return Ok(calls::set(&mut case.env, &name, &value)?);
    }
    let words = words_of(case.alloc, value)?;
    let words = slices(case.alloc, &words)?;
    Ok(calls::change(&mut case.env, &name, &words)?)
}

/// Makes a change that reports nothing.
fn change_one(case: &mut Case<'_>, change: &str, says: &str) -> anyhow::Result<String> {
    match change {
        "set" | "change" => set(case, change, says)?,
        "script" => calls::apply(&mut case.env, &unescaped(case.alloc, says)?)?,
        _ => from_data(case, &unescaped(case.alloc, says)?)?,
    }
    Ok(String::new(case.alloc))
}

/// Changes the environment of a case, and prints its variables, or those of its copy: `set NAME VALUE`,
/// `change NAME WORD..`, `remove NAME`, `script TEXT`, `data TEXT`, `copy` and `show`.
pub(crate) fn changed(case: &mut Case<'_>, says: &str) -> anyhow::Result<String> {
    let (change, says) = first_word(says);
    match change {
        "copy" => lines_of(case.alloc, &calls::copy_of(&case.env)?),
        "show" => lines_of(case.alloc, &case.env),
        "remove" => {
            let is_removed = calls::remove(&mut case.env, says.as_bytes());
            Ok(format!(in case.alloc; "{is_removed}")?)
        }
        _ => change_one(case, change, says),
    }
}
