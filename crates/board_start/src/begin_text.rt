//! The text that is rehearsed after those that run first.
ghost use Rattle.std.specs.Prelude.{◌≡◌, ◌++◌, IfOk, OnOk};
ghost use Rattle.std.specs.Option.{option_copied};
ghost use Rattle.commands.specs.TextsShown.{texts};
ghost use Rattle.board_start.specs.Start.{first_texts, is_set, run_line, run_lines, text_behind_all};
ghost use Rattle.board_start.specs.StartAnswers.{Texts};

use crate::board_error::BoardError;
use crate::said::is_plain_name;
use crate::start_error::StartError;
use envtools::Env;
use std::alloc::{AllocError, Global};

/// Whether a variable is set.
pub(crate) fn is_set(env: &Env, name: &[u8]) -> bool
    ensures { result ≡ is_set env.now name.now }
{
    env.get(name).is_some()
}

/// Adds the line that runs the text of a variable. Errors: memory ran out.
fn add_run(text: &mut Vec<u8>, name: &[u8]) -> Result<(), AllocError>
    ensures { OnOk result (text.new.items ≡ text.old.items ++ run_line name.now) }
{
    text.extend_from_slice(b"run ")?;
    text.extend_from_slice(name)?;
    text.push(b'\n')?;
    Ok(())
}

/// The lines that run the texts of those variables that are set. Errors: memory ran out.
fn run_lines(alloc: Global, env: &Env, names: &[Vec<u8>]) -> Result<Vec<u8>, AllocError>
    ensures { IfOk result (λ v. v.items ≡ run_lines (first_texts env.now (texts names.now))) }
{
    let mut text = Vec::new(alloc);
    for name in names {
        if is_set(env, name) {
            add_run(&mut text, name)?;
        }
    }
    Ok(text)
}

/// The text that is rehearsed in place of the variable's, if there is one. Errors: `Name`, `Memory`.
pub(crate) fn text_behind_all(
    alloc: Global,
    env: &Env,
    names: &[Vec<u8>],
    name: &[u8],
    text: Option<&[u8]>,
) -> Result<Option<Vec<u8>>, BoardError>
    ensures { Texts (text_behind_all env.now (first_texts env.now (texts names.now)) name.now
        (option_copied text.entry)) result }
{
    let mut lines = run_lines(alloc, env, names)?;
    if let Some(text) = text {
        lines.extend_from_slice(text)?;
        return Ok(Some(lines));
    }
    if lines.is_empty() || !is_set(env, name) {
        return Ok(None);
    }
    if !is_plain_name(name) {
        return Err(BoardError::Start(StartError::Name));
    }
    add_run(&mut lines, name)?;
    Ok(Some(lines))
}
