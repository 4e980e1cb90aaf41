//! The settings of a device command: what it sets on success.
ghost use Rattle.std.specs.Prelude.{◌≡◌, ◌==◌, false, map, option_map, IfOk, OnOk};
ghost use Rattle.std.specs.List.{position};
ghost use Rattle.text.specs.Words.{is_equals};
ghost use Rattle.std.specs.Fmt.{digits};
ghost use Rattle.text.specs.TextsShown.{option_bytes};
ghost use Rattle.device_list.specs.CommandsShown.{files_shown};
ghost use Rattle.device_list.specs.Settings.{is_variable, is_decimal, word_of_call, left_side, setting, settings, value_of_word, sized_file, size_of, at_side, right_side, plain_side, call_setting};
ghost use Rattle.device_list.specs.DevicesShown.{left_shown, right_shown, setting_shown, settings_shown};

use crate::device_tables::FileTexts;
use crate::quotes::{has_quote, unquoted};
use std::alloc::{AllocError, Global};
use text::{are_digits, value_in};

/// In which reading of a text that is imported an entry is: `env import -r` leaves out the carriage
/// returns in front of newlines.
#[derive(Clone, Copy, Debug)]
pub enum Reading {
    /// In both.
    Both,
    /// In that without `-r`.
    WithReturns,
    /// In that with `-r`, of a call that names the size of the text.
    WithoutReturns,
    /// In that with `-r`, of a call that does not: bytes at the end of the text may be read again.
    Unsized,
}

/// The left side of a setting.
#[derive(Debug, Drop)]
pub enum LeftSide {
    /// An environment variable.
    Variable(Vec<u8>),
    /// The variable that a word of the call names. Words are counted from 0.
    WordAt(u64),
    /// The variable that the last word of the call names.
    LastWord,
    /// An environment variable of a text that is imported, if the call takes this entry.
    Imported {
        /// Its name.
        name: Vec<u8>,
        /// The reading of the text.
        reading: Reading,
        /// Whether it is the first entry of this name.
        first: bool,
    },
    /// All that is asked for of the environment that is saved here.
    Saving,
}

/// The right side of a setting.
#[derive(Debug, Drop)]
pub enum RightSide {
    /// A text.
    Literal(Vec<u8>),
    /// A word of the call. Words are counted from 0.
    ValueAt(u64),
    /// The last word of the call.
    LastValue,
    /// None: the variable is deleted.
    Deleted,
    /// A copy of this variable.
    CopyOf(Vec<u8>),
}

/// What a device command sets on success.
#[derive(Debug, Drop)]
pub struct Setting {
    /// The variable, or the word that names it.
    pub left: LeftSide,
    /// Its value.
    pub value: RightSide,
}

/// The place of the first `=`.
pub(crate) fn equals_at(word: &[u8]) -> Option<usize>
    ensures { result ≡ position is_equals word.now }
{
    word.iter().position(|byte| *byte == b'=')
}

/// Whether a variable may have this name: it is not empty and does not start with `-`.
fn is_variable(name: &[u8]) -> bool
    ensures { result ≡ is_variable name.now }
{
    match name {
        [] => false,
        [first, ..] => *first != b'-',
    }
}

/// Whether a word is a decimal number.
fn is_decimal(word: &[u8]) -> bool
    ensures { result ≡ is_decimal word.now }
{
    !word.is_empty() && are_digits(word)
}

/// What follows an `@`: `last`, or the number of a word, counted from 1.
fn word_of_call(which: &[u8]) -> Option<LeftSide>
    ensures { option_map left_shown result ≡ word_of_call which.now }
{
    if which == b"last".as_slice() {
        return Some(LeftSide::LastWord);
    }
    if !is_decimal(which) {
        return None;
    }
    let number = value_in(10, which);
    if number == 0 {
        return None;
    }
    Some(LeftSide::WordAt(number - 1))
}

/// The left side of a setting, if it is one. In a `sub` line, an `@` starts a word of the call.
fn left_side(alloc: Global, name: &[u8], of_calls: bool) -> Result<Option<LeftSide>, AllocError>
    ensures { IfOk result (λ left. option_map left_shown left ≡ left_side of_calls name.now) }
{
    if of_calls {
        if let [b'@', which @ ..] = name {
            return Ok(word_of_call(which));
        }
    }
    if !is_variable(name) {
        return Ok(None);
    }
    let name = Vec::from_slice(alloc, name)?;
    Ok(Some(LeftSide::Variable(name)))
}

/// The setting that a word is, if it is one.
#[tactic(auto, using(crate::proofs::DeviceLemmas::cuts))]
fn read_setting(alloc: Global, word: &[u8], of_calls: bool) -> Result<Option<Setting>, AllocError>
    ensures { IfOk result (λ s. option_map setting_shown s ≡ setting of_calls word.now) }
{
    let Some(at) = equals_at(word) else {
        return Ok(None);
    };
    let Some(left) = left_side(alloc, &word[..at], of_calls)? else {
        return Ok(None);
    };
    let value = RightSide::Literal(Vec::from_slice(alloc, &word[at + 1..])?);
    Ok(Some(Setting { left, value }))
}

/// The value that a word of the call has.
fn value_of_word(word: LeftSide) -> RightSide
    ensures { right_shown result ≡ value_of_word (left_shown word) }
{
    match word {
        LeftSide::Variable(name) | LeftSide::Imported { name, .. } => RightSide::Literal(name),
        LeftSide::WordAt(place) => RightSide::ValueAt(place),
        LeftSide::LastWord => RightSide::LastValue,
        LeftSide::Saving => RightSide::Deleted,
    }
}

/// The file that `size(FILE)` names.
pub(crate) fn sized_file(which: &[u8]) -> Option<&[u8]>
    ensures { option_bytes result ≡ sized_file which.now }
{
    let [b's', b'i', b'z', b'e', b'(', rest @ ..] = which else {
        return None;
    };
    let [name @ .., b')'] = rest else {
        return None;
    };
    Some(name)
}

/// A number in hexadecimal. Errors: memory ran out.
fn hexadecimal(alloc: Global, number: u64) -> Result<Vec<u8>, AllocError>
    ensures { IfOk result (λ text. text.items ≡ digits 16 false number) }
{
    let text = format!(in alloc; "{number:x}")?;
    Vec::from_slice(alloc, text.as_bytes())
}

/// The size of a file, if there is such a file. Errors: memory ran out.
fn size_of(alloc: Global, files: &FileTexts, name: &[u8]) -> Result<Option<RightSide>, AllocError>
    ensures { IfOk result (λ right. option_map right_shown right
        ≡ size_of (files_shown files.now.entries) name.now) }
{
    match files.get(name) {
        Some(file) => Ok(Some(RightSide::Literal(hexadecimal(alloc, file.size)?))),
        None => Ok(None),
    }
}

/// What follows an `@` on the right side: the size of a file, or a word of the call.
fn at_side(alloc: Global, files: &FileTexts, which: &[u8]) -> Result<Option<RightSide>, AllocError>
    ensures { IfOk result (λ right. option_map right_shown right
        ≡ at_side (files_shown files.now.entries) which.now) }
{
    if let Some(name) = sized_file(which) {
        return size_of(alloc, files, name);
    }
    let Some(word) = word_of_call(which) else {
        return Ok(None);
    };
    Ok(Some(value_of_word(word)))
}

/// The right side of a setting of a `call` line, if it is one: an `@` starts a word of the call, or the
/// size of a file.
fn right_side(
    alloc: Global,
    files: &FileTexts,
    value: &[u8],
) -> Result<Option<RightSide>, AllocError>
    ensures { IfOk result (λ right. option_map right_shown right
        ≡ right_side (files_shown files.now.entries) value.now) }
{
    if let [b'@', which @ ..] = value {
        return at_side(alloc, files, which);
    }
    let Some(value) = unquoted(alloc, value)? else {
        return Ok(None);
    };
    Ok(Some(RightSide::Literal(value)))
}

/// The left side of a setting of a `call` line, if it is one: it has no quotes.
fn plain_side(alloc: Global, name: &[u8]) -> Result<Option<LeftSide>, AllocError>
    ensures { IfOk result (λ left. option_map left_shown left ≡ plain_side name.now) }
{
    if has_quote(name) {
        return Ok(None);
    }
    left_side(alloc, name, true)
}

/// The setting that a word of a `call` line is, if it is one.
#[tactic(auto, using(crate::proofs::DeviceLemmas::cuts))]
pub(crate) fn call_setting(
    alloc: Global,
    files: &FileTexts,
    word: &[u8],
) -> Result<Option<Setting>, AllocError>
    ensures { IfOk result (λ s. option_map setting_shown s
        ≡ call_setting (files_shown files.now.entries) word.now) }
{
    let Some(at) = equals_at(word) else {
        return Ok(None);
    };
    let Some(left) = plain_side(alloc, &word[..at])? else {
        return Ok(None);
    };
    let Some(value) = right_side(alloc, files, &word[at + 1..])? else {
        return Ok(None);
    };
    Ok(Some(Setting { left, value }))
}

/// The settings, if each of the words is one.
pub(crate) fn settings(
    alloc: Global,
    words: &[&[u8]],
    of_calls: bool,
) -> Result<Option<Vec<Setting>>, AllocError>
    ensures { IfOk result (λ s. option_map settings_shown s
        ≡ settings of_calls (map (λ w. w.now) words.now)) }
{
    let mut list = Vec::new(alloc);
    for word in words {
        let Some(one) = read_setting(alloc, word, of_calls)? else {
            return Ok(None);
        };
        list.push(one)?;
    }
    Ok(Some(list))
}
