//! Words of patterns that name a variable of the environment.
ghost use Rattle.std.specs.Prelude.{◌≡◌, map, OnOk};
ghost use Rattle.text.specs.TextsShown.{option_bytes};
ghost use Rattle.envtools.specs.Environment.{value_of};
ghost use Rattle.device_list.specs.CallLines.{name_in, value_for, filled_text, filled_word, filled_line};
ghost use Rattle.device_list.specs.DeviceList.{filled_calls};
ghost use Rattle.device_list.specs.DevicesShown.{word_shown};
ghost use Rattle.device_list.specs.CommandsShown.{call_lines_shown, calls_shown};

use crate::call_line::CallLine;
use crate::device_tables::ByName;
use crate::pattern::PatternWord;
use envtools::Env;
use std::alloc::{AllocError, Global};

/// The name of the variable that a word `${NAME}` names.
fn name_in(text: &[u8]) -> Option<&[u8]>
    ensures { option_bytes result ≡ name_in text.now }
{
    if text.len() > 2 && text.starts_with(b"${") && &text[text.len() - 1..] == b"}".as_slice() {
        return Some(&text[2..text.len() - 1]);
    }
    None
}

/// The value that means a word, if it names a variable that has one.
fn value_for<'a>(text: &[u8], env: &'a Env) -> Option<&'a [u8]>
    ensures { option_bytes result ≡ value_for (value_of env.now) text.now }
{
    let value = env.get(name_in(text)?)?;
    if value.is_empty() {
        return None;
    }
    Some(value)
}

/// Puts the value in the place of a word that names a variable. Errors: memory ran out.
fn fill_text(alloc: Global, text: &mut Vec<u8>, env: &Env) -> Result<(), AllocError>
    ensures { OnOk result (text.new.items ≡ filled_text (value_of env.now) text.old.items) }
{
    if let Some(value) = value_for(text, env) {
        *text = Vec::from_slice(alloc, value)?;
    }
    Ok(())
}

/// The same at a word of a pattern.
fn fill_word(alloc: Global, word: &mut PatternWord, env: &Env) -> Result<(), AllocError>
    ensures { OnOk result (word_shown word.new ≡ filled_word (value_of env.now) (word_shown word.old)) }
{
    match word {
        PatternWord::Exactly(text) => fill_text(alloc, text, env)?,
        PatternWord::Starting(text) => fill_text(alloc, text, env)?,
    }
    Ok(())
}

/// The same at each word of a pattern.
pub(crate) fn fill_words(
    alloc: Global,
    words: &mut [PatternWord],
    env: &Env,
) -> Result<(), AllocError>
    ensures { OnOk result (map word_shown words.new ≡ map (filled_word (value_of env.now)) (map word_shown words.old)) }
{
    for word in words.iter_mut() {
        fill_word(alloc, word, env)?;
    }
    Ok(())
}

/// The same at each of these lines of calls.
fn fill_lines(alloc: Global, lines: &mut [CallLine], env: &Env) -> Result<(), AllocError>
    ensures { OnOk result (call_lines_shown lines.new
        ≡ map (filled_line (value_of env.now)) (call_lines_shown lines.old)) }
{
    for line in lines.iter_mut() {
        line.pattern.fill(alloc, env)?;
    }
    Ok(())
}

/// The same at each line of calls.
pub(crate) fn fill_calls(
    alloc: Global,
    calls: &mut ByName<Vec<CallLine>>,
    env: &Env,
) -> Result<(), AllocError>
    ensures { OnOk result (calls_shown calls.new.entries
        ≡ filled_calls (value_of env.now) (calls_shown calls.old.entries)) }
{
    for at in 0..calls.len() {
        if let Some(lines) = calls.get_index_mut(at) {
            fill_lines(alloc, lines, env)?;
        }
    }
    Ok(())
}
