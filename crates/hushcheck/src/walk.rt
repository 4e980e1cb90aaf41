//! The names that a script runs.
ghost use Rattle.std.specs.Prelude.{◌≡◌, map, IfOk, OnOk, option_map, option_to_list};
ghost use Rattle.std.specs.List.{filter_map, flat_map};
ghost use Rattle.hushlang.specs.TreesShown as view;
ghost use Rattle.hushcheck.specs.Names as spec;
ghost use Rattle.hushcheck.specs.Order.{with_names};

use crate::names::Names;
use hushlang::{AndOr, Command, Piece, Script, Word};
use std::alloc::{AllocError, Global};
use std::rc::Rc;

/// The bytes of a word that holds no variable and no status, with what its quotes hold.
pub(crate) fn written_out(alloc: Global, word: &Word) -> Result<Option<Vec<u8>>, AllocError>
    ensures { IfOk result (λ bytes. option_map (λ v. v.items) bytes
        ≡ spec.written_out (view.word word.now)) }
{
    let mut bytes = Vec::new(alloc);
    for piece in &word.pieces {
        match piece {
            Piece::Bytes(more) => bytes.extend_from_slice(more)?,
            Piece::Mark => {}
            Piece::Var { .. } | Piece::Status => return Ok(None),
        }
    }
    Ok(Some(bytes))
}

/// Whether a word is written out as `run`.
pub(crate) fn is_run(alloc: Global, word: &Word) -> Result<bool, AllocError>
    ensures { IfOk result (λ is_run. is_run ≡ spec.is_run (spec.written_out (view.word word.now))) }
{
    match written_out(alloc, word)? {
        Some(bytes) => Ok(bytes.as_slice() == b"run".as_slice()),
        None => Ok(false),
    }
}

/// Adds the name that a word is, if it is written out.
fn add_word(alloc: Global, word: &Word, names: &mut Names) -> Result<(), AllocError>
    ensures { OnOk result (names.new ≡ with_names names.old
        (option_to_list (spec.written_out (view.word word.now)))) }
{
    match written_out(alloc, word)? {
        Some(name) => names.add(name),
        None => Ok(()),
    }
}

/// Adds the names that are written out.
fn add_words(alloc: Global, words: &[Word], names: &mut Names) -> Result<(), AllocError>
    ensures { OnOk result (names.new ≡ with_names names.old
        (filter_map spec.written_out (map view.word words.now))) }
{
    for word in words {
        add_word(alloc, word, names)?;
    }
    Ok(())
}

/// Adds the names that a simple command runs.
fn add_simple(alloc: Global, words: &[Word], names: &mut Names) -> Result<(), AllocError>
    ensures { OnOk result (names.new ≡ with_names names.old
        (spec.run_by_words (map view.word words.now))) }
{
    if let Some((first, operands)) = words.split_first() {
        if is_run(alloc, first)? {
            return add_words(alloc, operands, names);
        }
    }
    Ok(())
}

/// Adds the names that a script runs.
#[cycle(walk)]
pub(crate) fn add_script(
    alloc: Global,
    script: &Script,
    names: &mut Names,
) -> Result<(), AllocError>
    ensures { OnOk result (names.new ≡ with_names names.old
        (spec.run_by_script (view.script script.now))) }
{
    for list in &script.lists {
        add_list(alloc, list, names)?;
    }
    Ok(())
}

/// Adds the names that a command runs, and the names that the commands joined to it run.
#[cycle(walk)]
fn add_list(alloc: Global, list: &AndOr, names: &mut Names) -> Result<(), AllocError>
    ensures { OnOk result (names.new ≡ with_names names.old
        (spec.run_by_list (view.list list.now))) }
{
    add_command(alloc, &list.first, names)?;
    for joined in &list.rest {
        add_command(alloc, &joined.1, names)?;
    }
    Ok(())
}

/// Adds the names that a command runs.
#[cycle(walk)]
fn add_command(alloc: Global, command: &Command, names: &mut Names) -> Result<(), AllocError>
    ensures { OnOk result (names.new ≡ with_names names.old
        (spec.run_by_command (view.command command.now))) }
{
    match command {
        Command::Simple(call) => add_simple(alloc, call.words(), names),
        Command::Assign(_) => Ok(()),
        Command::If { arms, other } => {
            add_arms(alloc, arms, names)?;
            match other {
                Some(body) => add_script(alloc, body, names),
                None => Ok(()),
            }
        }
        Command::Loop { cond, body, .. } => {
            add_script(alloc, cond, names)?;
            add_script(alloc, body, names)
        }
        Command::For { body, .. } => add_script(alloc, body, names),
    }
}

/// Adds the names that conditions and their blocks run.
#[cycle(walk)]
fn add_arms(
    alloc: Global,
    arms: &[(Rc<Script>, Rc<Script>)],
    names: &mut Names,
) -> Result<(), AllocError>
    ensures { OnOk result (names.new ≡ with_names names.old
        (flat_map spec.run_by_arm (map view.arm arms.now))) }
{
    for (cond, body) in arms {
        add_script(alloc, cond, names)?;
        add_script(alloc, body, names)?;
    }
    Ok(())
}
