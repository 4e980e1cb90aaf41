//! A text that U-Boot's `printenv` wrote to its console.
ghost use Rattle.std.specs.Prelude.{◌≡◌, ◌≤◌, IfOk, length, map, option_map, reverse, take};
ghost use Rattle.text.specs.Words.{cut_behind};
ghost use Rattle.envtools.specs.Scripting.{is_return};
ghost use Rattle.tool_images.specs.Dump as says;

use std::alloc::{AllocError, Global};
use text::{Lines, are_digits, cut_behind, find};

/// How the line of the size ends.
const CLOSING: &[u8] = b" bytes";

/// Whether a text is one digit or more.
fn is_number(text: &[u8]) -> bool
    ensures { result ≡ says.is_number text.now }
{
    are_digits(text) && !text.is_empty()
}

/// Whether a text is `M bytes`.
fn is_total(text: &[u8]) -> bool
    ensures { result ≡ says.is_total text.now }
{
    text.ends_with(CLOSING) && is_number(&text[..text.len() - CLOSING.len()])
}

/// Whether a text is `N/M bytes`.
fn are_sizes(text: &[u8]) -> bool
    ensures { result ≡ says.are_sizes text.now }
{
    match find(text, b'/') {
        Some(at) => is_number(&text[..at]) && is_total(&text[at + 1..]),
        None => false,
    }
}

/// Whether a line is `Environment size: N/M bytes`.
fn is_size_line(line: &[u8]) -> bool
    ensures { result ≡ says.is_size_line line.now }
{
    line.starts_with(b"Environment size: ") && are_sizes(&line[18..])
}

/// A line without the carriage returns at its end.
fn without_returns(line: &[u8]) -> &[u8]
    ensures { result.now ≡ cut_behind is_return line.now }
{
    cut_behind(line, |byte| byte == b'\r')
}

/// The lines of a text, without the carriage returns at their ends.
fn shown_lines(alloc: Global, text: &[u8]) -> Result<Vec<&[u8]>, AllocError>
    ensures { IfOk result (λ lines. map (λ l. l.now) lines.items ≡ says.shown_lines text.now) }
{
    let mut lines = Vec::new(alloc);
    for (_, line) in Lines::new(text) {
        lines.push(without_returns(line))?;
    }
    Ok(lines)
}

/// How many lines there are up to the last one that is not empty.
fn shown_len(lines: &[&[u8]]) -> usize
    ensures within { result ≤ length lines.now }
    ensures shown { says.from_last (reverse (map (λ l. l.now) lines.now))
        ≡ reverse (map (λ l. l.now) (take result lines.now)) }
{
    let mut len = lines.len();
    while len > 0 {
        if !lines[len - 1].is_empty() {
            break;
        }
        len -= 1;
    }
    len
}

/// The lines in front of an empty line and the size, if these two are last but for empty lines.
#[tactic(auto, using(crate::proofs::DumpLemmas::dumps))]
fn dumped_lines<'a>(lines: &'a [&'a [u8]]) -> Option<&'a [&'a [u8]]>
    ensures { option_map (λ front. map (λ l. l.now) front.now) result
        ≡ says.dumped_lines (map (λ l. l.now) lines.now) }
{
    let len = shown_len(lines);
    if len < 2 {
        return None;
    }
    if !lines[len - 2].is_empty() {
        return None;
    }
    if !is_size_line(lines[len - 1]) {
        return None;
    }
    Some(&lines[..len - 2])
}

/// The text of these lines, each with its newline.
fn text_of(alloc: Global, lines: &[&[u8]]) -> Result<Vec<u8>, AllocError>
    ensures { IfOk result (λ text. text.items ≡ says.text_of (map (λ l. l.now) lines.now)) }
{
    let mut text = Vec::new(alloc);
    for line in lines {
        text.extend_from_slice(line)?;
        text.push(b'\n')?;
    }
    Ok(text)
}

/// The text of the variables, if the text is what U-Boot's `printenv` wrote to its console: it ends with an
/// empty line and `Environment size: N/M bytes`, and empty lines may follow. Carriage returns at the ends of its
/// lines are left out. Errors: memory ran out.
pub(crate) fn dumped_text(alloc: Global, text: &[u8]) -> Result<Option<Vec<u8>>, AllocError>
    ensures { IfOk result (λ made. option_map (λ t. t.items) made ≡ says.dumped_text text.now) }
{
    let lines = shown_lines(alloc, text)?;
    match dumped_lines(&lines) {
        Some(front) => Ok(Some(text_of(alloc, front)?)),
        None => Ok(None),
    }
}
