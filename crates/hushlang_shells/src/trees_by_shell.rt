//! What becomes of a text, by the shell that reads it.
ghost use Rattle.std.specs.Prelude.{◌≡◌, IfOk, is_some, not, option_map};
ghost use Rattle.std.specs.List.{list_any};
ghost use Rattle.hushlang.specs.Trees.{tree_of};
ghost use Rattle.hushlang.specs.TreesShown as view;
ghost use Rattle.hushlang_modern.specs.ModernTrees.{modern_text};
ghost use Rattle.hushlang_old.specs.OldTrees.{old_tree_of};
ghost use Rattle.hushlang_uboot.specs.ReadBytes.{is_newline};
ghost use Rattle.hushlang_shells.specs.TextsShown as shown;
ghost use Rattle.hushlang_shells.specs.TreesByShell as says;

use crate::text_read::TextRead;
use hushlang::{AndOr, Command, Script, SyntaxError, parse};
use hushlang_modern::{ModernText, Stop, read_modern};
use hushlang_old::{has_fault, lacks_end, read_old};
use rehearse_terms::Shell;
use std::alloc::{AllocError, Global};

/// What becomes of a text by ubtool's own grammar.
fn read_profile(alloc: Global, text: &[u8]) -> Result<TextRead, AllocError>
    ensures { IfOk result (λ found. shown.text_read found ≡ says.script_or says.Unread (tree_of text.now)) }
{
    match parse(alloc, text) {
        Ok(script) => Ok(TextRead::Runs(script)),
        Err(error) => match error {
            SyntaxError::Memory => Err(AllocError),
            _ => Ok(TextRead::Unread),
        },
    }
}

/// What becomes of a text in U-Boot's modern shell.
fn read_in_modern(alloc: Global, text: &[u8]) -> Result<TextRead, AllocError>
    ensures { IfOk result (λ found. shown.text_read found ≡ says.modern_read (modern_text text.now)) }
{
    match read_modern(alloc, text)? {
        ModernText::Read(script) => Ok(TextRead::Runs(script)),
        ModernText::Unread(Stop::Fails) => Ok(TextRead::Fails),
        ModernText::Unread(Stop::Panics) => Ok(TextRead::Panics),
        ModernText::Unread(Stop::Unsupported) => Ok(TextRead::Unread),
    }
}

/// Whether a text has no newline.
fn is_one_line(text: &[u8]) -> bool
    ensures { result ≡ not (list_any is_newline text.now) }
{
    !text.contains(&b'\n')
}

/// What becomes of the text of `bootcmd` in U-Boot's old shell. `newer` says whether in that of
/// 2025.01.
#[tactic(auto, using(hushlang::proofs::ViewLemmas::what_it_says))]
fn read_old_first(alloc: Global, newer: bool, text: &[u8]) -> Result<TextRead, AllocError>
    ensures { IfOk result (λ found. shown.text_read found ≡ says.old_first newer text.now) }
{
    if let Some(script) = read_old(alloc, newer, text)? {
        return Ok(TextRead::Runs(script));
    }
    if lacks_end(alloc, newer, text)? && is_one_line(text) {
        return Ok(TextRead::Runs(Script {
            lists: Vec::new(alloc),
        }));
    }
    Ok(TextRead::Unread)
}

/// What becomes of a text that `run` starts, in U-Boot's old shell. `newer` says whether in that of
/// 2025.01.
fn read_old_started(alloc: Global, newer: bool, text: &[u8]) -> Result<TextRead, AllocError>
    ensures { IfOk result (λ found. shown.text_read found ≡ says.old_started newer text.now) }
{
    if let Some(script) = read_old(alloc, newer, text)? {
        return Ok(TextRead::Runs(script));
    }
    if has_fault(alloc, newer, text)? {
        return Ok(TextRead::Fails);
    }
    Ok(TextRead::Unread)
}

/// What is before the last newline of a text, and what is after it.
fn parted(text: &[u8]) -> Option<(&[u8], &[u8])>
    ensures { option_map (λ parts. (parts.0.now, parts.1.now)) result ≡ says.parted text.now }
{
    match text.iter().rposition(|&byte| byte == b'\n') {
        Some(place) => Some((&text[..place], &text[place + 1..])),
        None => None,
    }
}

/// Whether a script has no command.
#[tactic(auto, using(crate::proofs::FileEndLemmas::empty_by_lists))]
fn is_empty(script: &Script) -> bool
    ensures { result ≡ says.is_empty (view.script script.now) }
{
    script.lists.is_empty()
}

/// Whether a text has a tree in U-Boot's old shell, and no command.
fn is_blank(alloc: Global, newer: bool, text: &[u8]) -> Result<bool, AllocError>
    ensures { IfOk result (λ is. is ≡ says.is_blank (old_tree_of newer text.now)) }
{
    match read_old(alloc, newer, text)? {
        Some(script) => Ok(is_empty(&script)),
        None => Ok(false),
    }
}

/// Whether U-Boot's old shell reads a text as commands of the language.
fn has_tree(alloc: Global, newer: bool, text: &[u8]) -> Result<bool, AllocError>
    ensures { IfOk result (λ has. has ≡ is_some (old_tree_of newer text.now)) }
{
    let found = read_old(alloc, newer, text)?;
    Ok(found.is_some())
}

/// Whether a newline after these bytes ends a line for U-Boot's old shell: a stray `fi` on the next
/// one is a fault.
fn is_closed(alloc: Global, newer: bool, before: &[u8]) -> Result<bool, AllocError>
    ensures { IfOk result (λ is. is ≡ says.is_closed newer before.now) }
{
    if !has_tree(alloc, newer, before)? {
        return Ok(false);
    }
    let mut with_fi = before.to_vec(alloc)?;
    with_fi.extend_from_slice(b"\nfi")?;
    Ok(!has_tree(alloc, newer, &with_fi)?)
}

/// Whether the last line of a text has no command, and is not all of it.
fn ends_empty(alloc: Global, newer: bool, text: &[u8]) -> Result<bool, AllocError>
    ensures { IfOk result (λ ends. ends ≡ says.ends_empty newer text.now) }
{
    let Some((before, behind)) = parted(text) else {
        return Ok(false);
    };
    if behind.is_empty() && is_one_line(before) {
        return Ok(false);
    }
    Ok(is_blank(alloc, newer, behind)? && is_closed(alloc, newer, before)?)
}

/// An assignment of nothing.
#[tactic(auto, using(hushlang::proofs::ViewLemmas::what_it_says))]
fn nothing(alloc: Global) -> AndOr
    ensures { view.list result ≡ says.nothing }
{
    AndOr {
        first: Command::Assign(Vec::new(alloc)),
        rest: Vec::new(alloc),
    }
}

/// Puts an assignment of nothing after a script.
fn with_nothing(alloc: Global, script: Script) -> Result<Script, AllocError>
    ensures { IfOk result (λ ended. view.script ended ≡ says.with_nothing (view.script script)) }
{
    let mut lists = script.lists;
    lists.push(nothing(alloc))?;
    Ok(Script { lists })
}

/// The script of a file's text as U-Boot's old shell runs it: a last line without a command sets the
/// status to 0.
fn with_end(alloc: Global, newer: bool, text: &[u8], script: Script) -> Result<Script, AllocError>
    ensures { IfOk result (λ ended. view.script ended
        ≡ says.with_end newer text.now (view.script script)) }
{
    if !is_empty(&script) && ends_empty(alloc, newer, text)? {
        return with_nothing(alloc, script);
    }
    Ok(script)
}

/// What becomes of the text of a file that `source` runs, in U-Boot's old shell. `newer` says whether in
/// that of 2025.01.
fn read_old_sourced(alloc: Global, newer: bool, text: &[u8]) -> Result<TextRead, AllocError>
    ensures { IfOk result (λ found. shown.text_read found ≡ says.old_sourced newer text.now) }
{
    if let Some(script) = read_old(alloc, newer, text)? {
        return Ok(TextRead::Runs(with_end(alloc, newer, text, script)?));
    }
    if lacks_end(alloc, newer, text)? && is_one_line(text) {
        return Ok(TextRead::Fails);
    }
    Ok(TextRead::Unread)
}

/// What becomes of the text with which a run begins. Errors: memory ran out.
pub fn read_first(alloc: Global, shell: Shell, text: &[u8]) -> Result<TextRead, AllocError>
    ensures { IfOk result (λ found. shown.text_read found ≡ says.first_in shell text.now) }
{
    match shell {
        Shell::Profile => read_profile(alloc, text),
        Shell::Old2023 => read_old_first(alloc, false, text),
        Shell::Old2025 => read_old_first(alloc, true, text),
        Shell::Modern2025 => read_in_modern(alloc, text),
    }
}

/// What becomes of a text that `run` starts. Errors: memory ran out.
pub fn read_started(alloc: Global, shell: Shell, text: &[u8]) -> Result<TextRead, AllocError>
    ensures { IfOk result (λ found. shown.text_read found ≡ says.started_in shell text.now) }
{
    match shell {
        Shell::Profile => read_profile(alloc, text),
        Shell::Old2023 => read_old_started(alloc, false, text),
        Shell::Old2025 => read_old_started(alloc, true, text),
        Shell::Modern2025 => read_in_modern(alloc, text),
    }
}

/// What becomes of the text of a file that `source` runs. Errors: memory ran out.
pub fn read_sourced(alloc: Global, shell: Shell, text: &[u8]) -> Result<TextRead, AllocError>
    ensures { IfOk result (λ found. shown.text_read found ≡ says.sourced_in shell text.now) }
{
    match shell {
        Shell::Profile => read_profile(alloc, text),
        Shell::Old2023 => read_old_sourced(alloc, false, text),
        Shell::Old2025 => read_old_sourced(alloc, true, text),
        Shell::Modern2025 => read_in_modern(alloc, text),
    }
}
