//! The lines of a device list that are about the calls which fit a pattern.
ghost use Rattle.std.specs.Prelude.{◌≡◌, map, option_map, IfOk};
ghost use Rattle.std.specs.List.{list_any};
ghost use Rattle.commands.specs.TextsShown.{texts};
ghost use Rattle.device_list.specs.CallLines.{colon_place, call_between, call_parts, call_line, absent_words, saves_words, call_said, is_call, is_of_test, has_quote, is_colon, is_star, first_fitting};
ghost use Rattle.device_list.specs.CommandsShown.{call_lines_shown, files_shown, found_shown};
ghost use Rattle.device_list.specs.DeviceListAnswers.{SaysCall};

use crate::clauses::listed_of;
use crate::device_line::has_equals;
use crate::device_tables::FileTexts;
use crate::devices_error::DevicesError;
use crate::listed::Listed;
use crate::pattern::{Pattern, pattern_of};
use crate::quotes;
use crate::quotes::quoted_words;
use builtins::is_built_in;
use std::alloc::{AllocError, Global};

/// What the calls that fit a pattern do.
#[derive(Drop)]
pub(crate) struct CallLine {
    pub(crate) pattern: Pattern,
    pub(crate) listed: Listed,
}

/// A line of calls: the name of the command, and what the calls do.
#[derive(Drop)]
pub(crate) struct Call<'a> {
    pub(crate) name: &'a [u8],
    pub(crate) line: CallLine,
}

/// What the first line that fits says. Takes no memory.
pub(crate) fn first_fitting<'a>(lines: &'a [CallLine], words: &[Vec<u8>]) -> Option<&'a Listed>
    ensures { option_map found_shown result ≡ first_fitting (call_lines_shown lines.now) (texts words.now) }
{
    for line in lines {
        if line.pattern.fits(words) {
            return Some(&line.listed);
        }
    }
    None
}

/// Whether a word holds `*`.
pub(crate) fn has_star(word: &[u8]) -> bool
    ensures { result ≡ list_any is_star word.now }
{
    word.iter().any(|byte| *byte == b'*')
}

/// Whether a word holds a single quote.
fn has_quote(words: &[&[u8]]) -> bool
    ensures { result ≡ has_quote (map (λ w. w.now) words.now) }
{
    for word in words {
        if quotes::has_quote(word) {
            return true;
        }
    }
    false
}

/// Whether a word is `:`.
pub(crate) fn is_colon(word: &[u8]) -> bool
    ensures { result ≡ is_colon word.now }
{
    word == b":".as_slice()
}

/// Whether a word is `:`.
fn has_colon(words: &[&[u8]]) -> bool
    ensures { result ≡ list_any is_colon (map (λ w. w.now) words.now) }
{
    for word in words {
        if is_colon(word) {
            return true;
        }
    }
    false
}

/// How many words come before the first `:`.
pub(crate) fn colon_place(words: &[&[u8]]) -> usize
    ensures { result ≡ colon_place (map (λ w. w.now) words.now) }
{
    let mut at = 0;
    for word in words {
        if is_colon(word) {
            return at;
        }
        at += 1;
    }
    at
}

/// The line with these words before its `:` and after it. Errors: `BadLine`, `BuiltIn`, `Memory`.
fn call_between<'a>(
    alloc: Global,
    files: &FileTexts,
    number: usize,
    of_test: bool,
    pattern: &[&'a [u8]],
    clauses: &[&[u8]],
) -> Result<Call<'a>, DevicesError>
    ensures { SaysCall (call_between (files_shown files.now.entries) number of_test (map (λ w. w.now) pattern.now) (map (λ w. w.now) clauses.now))
        result }
{
    let [name, words @ ..] = pattern else {
        return Err(DevicesError::BadLine(number));
    };
    if has_quote(pattern) {
        return Err(DevicesError::BadLine(number));
    }
    let Some(pattern) = pattern_of(alloc, words)? else {
        return Err(DevicesError::BadLine(number));
    };
    let Some(listed) = listed_of(alloc, files, clauses)? else {
        return Err(DevicesError::BadLine(number));
    };
    if has_star(name) {
        return Err(DevicesError::BadLine(number));
    }
    if is_built_in(name) && !of_test {
        return Err(DevicesError::BuiltIn(number));
    }
    let line = CallLine { pattern, listed };
    Ok(Call { name, line })
}

/// Whether a line of these parts says of `test` what it may: that a failure is nothing wrong.
fn is_of_test(pattern: &[&[u8]], clauses: &[&[u8]]) -> bool
    ensures { result ≡ is_of_test (map (λ w. w.now) pattern.now) (map (λ w. w.now) clauses.now) }
{
    match (pattern, clauses) {
        ([name, ..], [first, second]) => {
            *name == b"test".as_slice()
                && *first == b"normal".as_slice()
                && *second == b"1".as_slice()
        }
        _ => false,
    }
}

/// The line of these parts, about `test` too. Errors: `BadLine`, `BuiltIn`, `Memory`.
fn call_parts<'a>(
    alloc: Global,
    files: &FileTexts,
    number: usize,
    pattern: &[&'a [u8]],
    clauses: &[&[u8]],
) -> Result<Call<'a>, DevicesError>
    ensures { SaysCall (call_parts (files_shown files.now.entries) number (map (λ w. w.now) pattern.now) (map (λ w. w.now) clauses.now))
        result }
{
    let of_test = is_of_test(pattern, clauses);
    call_between(alloc, files, number, of_test, pattern, clauses)
}

/// What a line `call` says, by the words after that. Errors: `BadLine`, `BuiltIn`, `Memory`.
fn call_line<'a>(
    alloc: Global,
    files: &FileTexts,
    number: usize,
    words: &[&'a [u8]],
) -> Result<Call<'a>, DevicesError>
    ensures { SaysCall (call_line (files_shown files.now.entries) number (map (λ w. w.now) words.now)) result }
{
    let at = colon_place(words);
    if words.len() <= at {
        return Err(DevicesError::BadLine(number));
    }
    call_parts(alloc, files, number, &words[..at], &words[at + 1..])
}

/// The words of the line `call` that a line `absent` means.
fn absent_words<'a>(alloc: Global, words: &[&'a [u8]]) -> Result<Vec<&'a [u8]>, AllocError>
    ensures { IfOk result (λ all. map (λ w. w.now) all.items
        ≡ absent_words (map (λ w. w.now) words.now)) }
{
    let mut all = Vec::from_slice(alloc, words)?;
    all.push(b"**".as_slice())?;
    all.push(b":".as_slice())?;
    all.push(b"always".as_slice())?;
    all.push(b"1".as_slice())?;
    Ok(all)
}

/// The words of the line `call` that a line `saves` means.
fn saves_words<'a>(alloc: Global, words: &[&'a [u8]]) -> Result<Vec<&'a [u8]>, AllocError>
    ensures { IfOk result (λ all. map (λ w. w.now) all.items
        ≡ saves_words (map (λ w. w.now) words.now)) }
{
    let mut all = Vec::from_slice(alloc, words)?;
    all.push(b"**".as_slice())?;
    all.push(b":".as_slice())?;
    all.push(b"saves".as_slice())?;
    Ok(all)
}

/// What a line of calls says. Errors: `BadLine`, `BuiltIn`, `Memory`.
pub(crate) fn call_said<'a>(
    alloc: Global,
    files: &FileTexts,
    number: usize,
    line: &'a [u8],
    first: &[u8],
    behind: &[&'a [u8]],
) -> Result<Call<'a>, DevicesError>
    ensures { SaysCall (call_said (files_shown files.now.entries) number line.now first.now (map (λ w. w.now) behind.now)) result }
{
    if first == b"call".as_slice() {
        let words = quoted_words(alloc, line)?;
        let [_, behind @ ..] = words.as_slice() else {
            return Err(DevicesError::BadLine(number));
        };
        return call_line(alloc, files, number, behind);
    }
    if first == b"or".as_slice() {
        let words = quoted_words(alloc, line)?;
        let [_, _, behind @ ..] = words.as_slice() else {
            return Err(DevicesError::BadLine(number));
        };
        return call_line(alloc, files, number, behind);
    }
    if first == b"saves".as_slice() {
        let words = saves_words(alloc, behind)?;
        return call_line(alloc, files, number, &words);
    }
    let words = absent_words(alloc, behind)?;
    call_line(alloc, files, number, &words)
}

/// Whether a line is one of calls: `call` with a `:` among its words, `or call` with one, or `absent` or `saves`
/// with one word that is no setting.
pub(crate) fn is_call(first: &[u8], behind: &[&[u8]]) -> bool
    ensures { result ≡ is_call first.now (map (λ w. w.now) behind.now) }
{
    match behind {
        [_, ..] if first == b"call".as_slice() => has_colon(behind),
        [word, rest @ ..] if first == b"or".as_slice() => {
            *word == b"call".as_slice() && has_colon(rest)
        }
        [name] => {
            (first == b"absent".as_slice() || first == b"saves".as_slice()) && !has_equals(name)
        }
        _ => false,
    }
}
