//! A script of changes, applied line by line.
ghost use Rattle.std.specs.Prelude.{◌≡◌, true, List, IfOk, OnOk, OnErr};
ghost use Rattle.std.specs.List.{position};
ghost use Rattle.std.specs.Option.{option_map};
ghost use Rattle.text.specs.Words.{is_space, cut_front, cut_behind};
ghost use Rattle.envimage.specs.Data.{Pair};
ghost use Rattle.envtools.specs.Environment.{changed_to, is_name, is_value};
ghost use Rattle.envtools.specs.Scripting.{is_return, ends_name, name_and_value, line_change, AppliesLine, AppliesScript};

use crate::draft::Draft;
use crate::env::{Env, is_name, is_value};
use crate::list::VariableList;
use std::alloc::{AllocError, Global};
use text::{Lines, cut_behind, cut_front, is_space};
use thiserror::Error;

/// Why a script was refused. Lines count from 1, and skipped lines count too.
#[derive(Clone, Copy, Debug, Drop, PartialEq, Eq, Error)]
pub enum ScriptError {
    /// The line's name is empty, or holds a NUL.
    #[error("script line {0}: bad name")]
    BadName(usize),
    /// The line's value holds a NUL.
    #[error("script line {0}: bad value")]
    BadValue(usize),
    /// Memory ran out.
    #[error("out of memory")]
    Memory,
}

impl From<AllocError> for ScriptError {
    ghost use Rattle.std.specs.Prelude.{◌≡◌};
    ghost use Rattle.envtools.specs.declared.script.ScriptError.TheVariants.{Memory};

    ghost from_gives = { λ _ e. e ≡ Memory };

    fn from(_error: AllocError) -> ScriptError {
        ScriptError::Memory
    }
}

/// Whether a byte ends a name: a blank or `=`.
fn ends_name(byte: u8) -> bool
    ensures { result ≡ ends_name byte }
{
    byte == b'=' || is_space(byte)
}

/// A line without the carriage returns at its end.
fn without_returns(line: &[u8]) -> &[u8]
    ensures { result.now ≡ cut_behind is_return line.now }
{
    cut_behind(line, |byte| byte == b'\r')
}

/// A text without the spaces and tabs at its start.
fn without_spaces(text: &[u8]) -> &[u8]
    ensures { result.now ≡ cut_front is_space text.now }
{
    cut_front(text, |byte| is_space(byte))
}

/// The place of the byte that ends a name.
fn name_end(text: &[u8]) -> Option<usize>
    ensures { result ≡ position ends_name text.now }
{
    text.iter().position(|byte| ends_name(*byte))
}

/// The name with which a text starts, and the value after it.
#[tactic(auto, using(crate::proofs::ScriptLemmas::names))]
fn name_and_value(text: &[u8]) -> (&[u8], &[u8])
    ensures { (result.0.now, result.1.now) ≡ name_and_value text.now }
{
    match name_end(text) {
        None => (text, &[]),
        Some(at) => (&text[..at], without_spaces(&text[at + 1..])),
    }
}

/// The change that a line makes: a name and its new value.
fn line_change(line: &[u8]) -> Option<(&[u8], &[u8])>
    ensures { option_map (λ p. (p.0.now, p.1.now)) result ≡ line_change line.now }
{
    let line = without_returns(line);
    match line {
        [] | [b'#', ..] => return None,
        _ => (),
    }
    let text = without_spaces(line);
    if text.is_empty() {
        return None;
    }
    Some(name_and_value(text))
}

/// Variables that take one change after another.
trait Changing<'a> {
    /// The variables in order.
    ghost pairs: { Self → List Pair };

    /// Gives a name a value, as `Env::change` does with one word. An error changes nothing.
    fn change(&mut self, name: &'a [u8], value: &'a [u8]) -> Result<(), AllocError>
        requires name { is_name name.now ≡ true }
        requires value { is_value value.now ≡ true }
        ensures ok { OnOk result (pairs self.new ≡ changed_to (pairs self.old) name.now value.now) }
        ensures err { OnErr result (pairs self.new ≡ pairs self.old) };
}

impl<'a> Changing<'a> for VariableList<'a> {
    ghost pairs = { λ list. list };

    fn change(&mut self, name: &'a [u8], value: &'a [u8]) -> Result<(), AllocError> {
        self.change_to(name, value)
    }
}

impl<'a> Changing<'a> for Draft<'a> {
    ghost pairs = { λ draft. draft };

    fn change(&mut self, name: &'a [u8], value: &'a [u8]) -> Result<(), AllocError> {
        Draft::change(self, name, value)
    }
}

/// Makes the change of one line. An error changes nothing.
fn apply_line<'a, C: Changing<'a>>(
    variables: &mut C,
    number: usize,
    line: &'a [u8],
) -> Result<(), ScriptError>
    ensures { AppliesLine (C.pairs variables.old) number (line_change line.now)
        (C.pairs variables.new) result }
{
    let Some((name, value)) = line_change(line) else {
        return Ok(());
    };
    if !is_name(name) {
        return Err(ScriptError::BadName(number));
    }
    if !is_value(value) {
        return Err(ScriptError::BadValue(number));
    }
    variables.change(name, value)?;
    Ok(())
}

/// Makes the changes of a script's lines, up to the first refused one.
fn apply_lines<'a, C: Changing<'a>>(variables: &mut C, text: &'a [u8]) -> Result<(), ScriptError>
    ensures { AppliesScript (C.pairs variables.old) text.now (C.pairs variables.new) result }
{
    for (number, line) in Lines::new(text) {
        apply_line(variables, number, line)?;
    }
    Ok(())
}

/// The most lines of a script whose names are looked for in the list itself. What is after the last newline is a line.
const FEW: usize = 32;

/// Whether a script has few lines.
fn has_few_lines(text: &[u8]) -> bool {
    for (number, _line) in Lines::new(text) {
        if number > FEW {
            return false;
        }
    }
    true
}

/// Makes the changes of a script in a list of variables, as `apply_script` makes them in an
/// environment. No name and no value is copied. A tree of all names is made only for more than 32
/// lines. What is after the last newline counts as one.
#[tactic(auto, using(crate::proofs::ScriptLemmas::untouched))]
pub fn apply_script_to_list<'a>(
    alloc: Global,
    list: &mut VariableList<'a>,
    text: &'a [u8],
) -> Result<(), ScriptError>
    ensures { AppliesScript list.old text.now list.new result }
{
    if has_few_lines(text) {
        return apply_lines(list, text);
    }
    let mut draft = Draft::of(alloc, list)?;
    let applied = apply_lines(&mut draft, text);
    list.replace(draft.pairs(alloc)?);
    applied
}

/// The environment that a script reaches from this one, with the fault of the line that is refused. Errors: memory ran out.
fn reached(env: &Env, text: &[u8]) -> Result<(Env, Result<(), ScriptError>), AllocError>
    ensures { IfOk result (λ r. AppliesScript env.now text.now r.0 r.1) }
{
    let alloc = env.allocator();
    let mut list = VariableList::with_pairs(env.pairs()?);
    let applied = apply_script_to_list(alloc, &mut list, text);
    let hasher = env.hasher().with(text);
    Ok((Env::of_list(alloc, &list, hasher)?, applied))
}

/// Makes the changes of a script, one on each line. Carriage returns at the end of a line are
/// dropped. A line that starts with `#`, or has only spaces and tabs, is skipped. Blanks at the
/// start are skipped. The name ends before the first blank or `=`; that byte and the blanks after
/// it are dropped. The rest is the value, as it is. No value, or an empty one, deletes. A later
/// line acts on what earlier lines left.
///
/// If a line is refused, the environment is the one after the lines before it, also if the line was
/// refused because memory ran out. If memory runs out before the lines or after them, nothing
/// changes. The time grows with the script and the environment, not with their product.
#[tactic(auto, using(crate::proofs::ScriptLemmas::untouched))]
pub fn apply_script(env: &mut Env, text: &[u8]) -> Result<(), ScriptError>
    ensures { AppliesScript env.old text.now env.new result }
{
    let (changed, applied) = reached(env, text)?;
    *env = changed;
    applied
}
