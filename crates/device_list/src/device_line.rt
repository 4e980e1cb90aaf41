//! What one line of a device list says.
ghost use Rattle.std.specs.Prelude.{◌≡◌, map, option_map, IfOk};
ghost use Rattle.std.specs.List.{list_any};
ghost use Rattle.text.specs.Words.{is_equals};
ghost use Rattle.device_list.specs.DeviceList.{device_words, named, call_of, steady_of, finish_before, heading_of, known_named, is_steady_test, begins_comment};
ghost use Rattle.device_list.specs.DevicesShown.{heading_shown};

use crate::finish::{BoardEnd, finish_named};
use commands::known_of;
use std::alloc::{AllocError, Global};
use text::{is_space, trimmed};

/// The name of a command; for a `sub` line the first word of its calls; how it ends the run, if it
/// does; whether it is steady; and the words after that.
#[derive(Clone, Copy)]
pub(crate) struct Heading<'a> {
    pub(crate) name: &'a [u8],
    pub(crate) word: Option<&'a [u8]>,
    pub(crate) ends: Option<BoardEnd>,
    pub(crate) stays: bool,
    pub(crate) words: &'a [&'a [u8]],
}

/// The words of a line.
pub(crate) fn device_words(alloc: Global, line: &[u8]) -> Result<Vec<&[u8]>, AllocError>
    ensures { IfOk result (λ v. map (λ w. w.now) v.items ≡ device_words line.now) }
{
    trimmed(line)
        .split(|byte| is_space(*byte))
        .filter(|word| !word.is_empty())
        .collect(alloc)
}

/// Whether a word starts a comment.
pub(crate) fn begins_comment(word: &[u8]) -> bool
    ensures { result ≡ begins_comment word.now }
{
    match word {
        [first, ..] => *first == b'#',
        [] => false,
    }
}

/// Whether a word holds `=`.
pub(crate) fn has_equals(word: &[u8]) -> bool
    ensures { result ≡ list_any is_equals word.now }
{
    word.iter().any(|byte| *byte == b'=')
}

/// A heading that has only a name.
fn named<'a>(
    ends: Option<BoardEnd>,
    stays: bool,
    name: &'a [u8],
    words: &'a [&'a [u8]],
) -> Heading<'a>
    ensures { heading_shown result ≡ named ends stays name.now (map (λ w. w.now) words.now) }
{
    Heading {
        name,
        word: None,
        ends,
        stays,
        words,
    }
}

/// The first word is the name, unless it is `sub` and two words without `=` follow. Then these are
/// the name and the first word of its calls.
fn call_of<'a>(
    ends: Option<BoardEnd>,
    stays: bool,
    first: &'a [u8],
    behind: &'a [&'a [u8]],
) -> Heading<'a>
    ensures { heading_shown result ≡ call_of ends stays first.now (map (λ w. w.now) behind.now) }
{
    match behind {
        [second, third, words @ ..]
            if first == b"sub".as_slice() && !has_equals(second) && !has_equals(third) => {
            Heading {
                name: second,
                word: Some(third),
                ends,
                stays,
                words,
            }
        }
        _ => named(ends, stays, first, behind),
    }
}

/// A first word `steady` says that the rest is a steady command, if a word without `=` follows.
fn steady_of<'a>(ends: Option<BoardEnd>, first: &'a [u8], behind: &'a [&'a [u8]]) -> Heading<'a>
    ensures { heading_shown result ≡ steady_of ends first.now (map (λ w. w.now) behind.now) }
{
    match behind {
        [second, words @ ..] if first == b"steady".as_slice() && !has_equals(second) => {
            call_of(ends, true, second, words)
        }
        _ => call_of(ends, false, first, behind),
    }
}

/// How the first word says that the command after it ends the run, if a word without `=` follows.
fn finish_before(first: &[u8], second: &[u8]) -> Option<BoardEnd>
    ensures { result ≡ finish_before first.now second.now }
{
    let finish = finish_named(first)?;
    if has_equals(second) {
        return None;
    }
    Some(finish)
}

/// What a line is about. A first word `final`, `restart` or `halt` says that the rest of the line is
/// a command that ends the run so, if a word without `=` follows.
pub(crate) fn heading_of<'a>(first: &'a [u8], behind: &'a [&'a [u8]]) -> Heading<'a>
    ensures { heading_shown result ≡ heading_of first.now (map (λ w. w.now) behind.now) }
{
    let [second, words @ ..] = behind else {
        return steady_of(None, first, behind);
    };
    match finish_before(first, second) {
        Some(finish) => steady_of(Some(finish), second, words),
        None => steady_of(None, first, behind),
    }
}

/// The command that a line `known NAME` has computed, if NAME is one that may be.
pub(crate) fn known_named<'a>(first: &[u8], behind: &[&'a [u8]]) -> Option<&'a [u8]>
    ensures { option_map (λ name. name.now) result ≡ known_named first.now
        (map (λ w. w.now) behind.now) }
{
    match behind {
        [name] if first == b"known".as_slice() && known_of(name).is_some() => Some(name),
        _ => None,
    }
}

/// Whether a line is `steady test`.
pub(crate) fn is_steady_test(first: &[u8], behind: &[&[u8]]) -> bool
    ensures { result ≡ is_steady_test first.now (map (λ w. w.now) behind.now) }
{
    match behind {
        [second] => first == b"steady".as_slice() && *second == b"test".as_slice(),
        _ => false,
    }
}
