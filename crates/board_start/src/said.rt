//! What one line of a device list says of the start of a board.
ghost use Rattle.std.specs.Prelude.{◌≡◌, IfOk, false, option_map};
ghost use Rattle.std.specs.List.{list_any, list_all, position};
ghost use Rattle.text.specs.Words.{is_equals, is_space, words_of};
ghost use Rattle.device_list.specs.Quotes.{is_quote};
ghost use Rattle.device_list.specs.Settings.{is_variable};
ghost use Rattle.board_start.specs.Counter.{count_words};
ghost use Rattle.board_start.specs.StartLines.{are_plain_names, before_said, count_said, cut_word, ends_lone, ends_value, given_said, is_given_name, is_plain_byte, is_plain_name, pair_of, said, value_from};
ghost use Rattle.board_start.specs.StartShown.{names_shown, said_shown};

use crate::counter::{CounterNames, count_words};
use std::alloc::{AllocError, Global};
use text::{cut_front, has_nul, is_space, trimmed};

/// What a line says of the start.
#[derive(Drop)]
pub(crate) enum Said<'a> {
    /// A variable has this value before the run.
    Given {
        /// Its name.
        name: &'a [u8],
        /// Its value, without quotes.
        value: Vec<u8>,
    },
    /// The text of this variable runs first.
    Before(&'a [u8]),
    /// The board has a boot counter with these names.
    Counts(CounterNames<'a>),
    /// It would be a line of the start, but it is faulty.
    Faulty,
    /// It is about something else.
    Other,
}

/// The place of the first space or tab.
fn space_at(line: &[u8]) -> Option<usize>
    ensures { result ≡ position is_space line.now }
{
    line.iter().position(|byte| is_space(*byte))
}

/// The first word of a line that starts with no blank, and what is after the blanks.
#[tactic(auto, using(crate::proofs::LineLemmas::cuts))]
fn cut_word(line: &[u8]) -> (&[u8], &[u8])
    ensures { (result.0.now, result.1.now) ≡ cut_word line.now }
{
    match space_at(line) {
        None => (line, &[]),
        Some(at) => (
            &line[..at],
            cut_front(&line[at + 1..], |byte| is_space(byte)),
        ),
    }
}

/// The place of the first `=`.
fn equals_at(word: &[u8]) -> Option<usize>
    ensures { result ≡ position is_equals word.now }
{
    word.iter().position(|byte| *byte == b'=')
}

/// Whether a word holds `=`.
fn has_equals(word: &[u8]) -> bool
    ensures { result ≡ list_any is_equals word.now }
{
    word.iter().any(|byte| *byte == b'=')
}

/// Whether a word holds a single quote.
fn has_quote(word: &[u8]) -> bool
    ensures { result ≡ list_any is_quote word.now }
{
    word.iter().any(|byte| *byte == b'\'')
}

/// Whether a variable may have this name: it is not empty and does not start with `-`.
fn is_variable(name: &[u8]) -> bool
    ensures { result ≡ is_variable name.now }
{
    match name {
        [] => false,
        [first, ..] => *first != b'-',
    }
}

/// Whether a line may give this variable: its name has no quotes.
fn is_given_name(name: &[u8]) -> bool
    ensures { result ≡ is_given_name name.now }
{
    is_variable(name) && !has_quote(name)
}

/// Whether a byte is a letter, a digit, `_`, `-` or `.`.
fn is_plain_byte(byte: u8) -> bool
    ensures { result ≡ is_plain_byte byte }
{
    (b'a' <= byte && byte <= b'z')
        || (b'A' <= byte && byte <= b'Z')
        || (b'0' <= byte && byte <= b'9')
        || byte == b'_'
        || byte == b'-'
        || byte == b'.'
}

/// Whether all bytes are such.
fn are_plain(bytes: &[u8]) -> bool
    ensures { result ≡ list_all is_plain_byte bytes.now }
{
    for byte in bytes {
        if !is_plain_byte(*byte) {
            return false;
        }
    }
    true
}

/// Whether `run` takes a name as it is, in each shell.
pub(crate) fn is_plain_name(name: &[u8]) -> bool
    ensures { result ≡ is_plain_name name.now }
{
    is_variable(name) && are_plain(name)
}

/// Whether a byte is a single quote.
fn is_quote(byte: u8) -> bool
    ensures { result ≡ is_quote byte }
{
    byte == b'\''
}

/// Whether a byte is a blank outside quotes.
fn ends_value(is_quoted: bool, byte: u8) -> bool
    ensures { result ≡ ends_value is_quoted byte }
{
    !is_quoted && is_space(byte)
}

/// A value without its quotes, if it has no blank outside them and each one is closed. Errors:
/// memory ran out.
fn read_value(alloc: Global, value: &[u8]) -> Result<Option<Vec<u8>>, AllocError>
    ensures { IfOk result (λ v. option_map (λ bytes. bytes.items) v ≡ value_from false value.now) }
{
    let mut bytes = Vec::new(alloc);
    let mut is_quoted = false;
    for byte in value {
        if is_quote(*byte) {
            is_quoted = !is_quoted;
        } else {
            if ends_value(is_quoted, *byte) {
                return Ok(None);
            }
            bytes.push(*byte)?;
        }
    }
    if is_quoted {
        return Ok(None);
    }
    Ok(Some(bytes))
}

/// What `NAME=VALUE` says after `given`. Errors: memory ran out.
#[tactic(auto, using(crate::proofs::LineLemmas::cuts))]
fn pair_of(alloc: Global, rest: &[u8]) -> Result<Said<'_>, AllocError>
    ensures { IfOk result (λ s. said_shown s ≡ pair_of rest.now) }
{
    let Some(at) = equals_at(rest) else {
        return Ok(Said::Other);
    };
    let name = &rest[..at];
    let Some(value) = read_value(alloc, &rest[at + 1..])? else {
        return Ok(Said::Faulty);
    };
    if !is_given_name(name) {
        return Ok(Said::Faulty);
    }
    Ok(Said::Given { name, value })
}

/// What the words after `given` say. Errors: memory ran out.
fn given_said<'a>(alloc: Global, line: &[u8], rest: &'a [u8]) -> Result<Said<'a>, AllocError>
    ensures { IfOk result (λ s. said_shown s ≡ given_said line.now rest.now) }
{
    let (word, _) = cut_word(rest);
    if !has_equals(word) {
        return Ok(Said::Other);
    }
    if has_nul(line) {
        return Ok(Said::Faulty);
    }
    pair_of(alloc, rest)
}

/// Whether the words are more than one without `=`.
fn has_lone_end(rest: &[u8]) -> bool
    ensures { result ≡ list_any ends_lone rest.now }
{
    rest.iter().any(|byte| is_space(*byte) || *byte == b'=')
}

/// What the words after `before` say.
fn before_said(rest: &[u8]) -> Said<'_>
    ensures { said_shown result ≡ before_said rest.now }
{
    if rest.is_empty() || has_lone_end(rest) {
        Said::Other
    } else if is_plain_name(rest) {
        Said::Before(rest)
    } else {
        Said::Faulty
    }
}

/// Whether the names are such that `run` takes them.
fn are_plain_names(names: CounterNames<'_>) -> bool
    ensures { result ≡ are_plain_names (names_shown names.entry) }
{
    is_plain_name(names.counter) && is_plain_name(names.limit) && is_plain_name(names.alternative)
}

/// What the words of a line say, which are not those of the other lines of the start.
fn count_said(line: &[u8]) -> Said<'_>
    ensures { said_shown result ≡ count_said (count_words (words_of line.now)) }
{
    let Some(names) = count_words(line) else {
        return Said::Other;
    };
    if are_plain_names(names) {
        Said::Counts(names)
    } else {
        Said::Faulty
    }
}

/// What a line says of the start. Errors: memory ran out.
pub(crate) fn read_line(alloc: Global, line: &[u8]) -> Result<Said<'_>, AllocError>
    ensures { IfOk result (λ s. said_shown s ≡ said line.now) }
{
    let (first, rest) = cut_word(trimmed(line));
    if first == b"given".as_slice() {
        return given_said(alloc, line, rest);
    }
    if first == b"before".as_slice() {
        return Ok(before_said(rest));
    }
    Ok(count_said(line))
}
