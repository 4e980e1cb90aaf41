//! The files that a device list names.
ghost use Rattle.std.specs.Prelude.{◌≡◌, ◌++◌, ◌∷◌, [], false, map, MatchOption, IfOk, OnOk};
ghost use Rattle.commands.specs.TextsShown.{texts};
ghost use Rattle.device_list.specs.Quotes.{quoted_words};
ghost use Rattle.device_list.specs.NamedFiles.{clause_words, files_behind, files_of, named_files, named_in, names_file, says_call};

use crate::call_line::{colon_place, is_call};
use crate::device_line::{begins_comment, device_words};
use crate::quotes::quoted_words;
use crate::setting::{equals_at, sized_file};
use std::alloc::{AllocError, Global};
use text::Lines;

/// Whether a file is named after a word.
fn names_file(word: &[u8]) -> bool
    ensures { result ≡ names_file word.now }
{
    word == b"runs".as_slice() || word == b"imports".as_slice()
}

/// The file whose size is the value of a setting.
fn named_in(word: &[u8]) -> Option<&[u8]>
    ensures { MatchOption result (named_in word.now ≡ []) (λ name. named_in word.now ≡ name.now ∷ []) }
{
    let at = equals_at(word)?;
    let [b'@', which @ ..] = &word[at + 1..] else {
        return None;
    };
    sized_file(which)
}

/// Adds the file whose size is the value of a setting. Errors: memory ran out.
fn add_named_in(alloc: Global, names: &mut Vec<Vec<u8>>, word: &[u8]) -> Result<(), AllocError>
    ensures { OnOk result (texts names.new.items ≡ texts names.old.items ++ named_in word.now) }
{
    if let Some(name) = named_in(word) {
        names.push(Vec::from_slice(alloc, name)?)?;
    }
    Ok(())
}

/// Adds the word after each `runs` and `imports`, and the files of sizes. Errors: memory ran out.
fn add_files(alloc: Global, names: &mut Vec<Vec<u8>>, words: &[&[u8]]) -> Result<(), AllocError>
    ensures { OnOk result (texts names.new.items
        ≡ texts names.old.items ++ files_behind false (map (λ w. w.now) words.now)) }
{
    let mut behind = false;
    for word in words {
        if behind {
            names.push(Vec::from_slice(alloc, word)?)?;
            behind = false;
        } else {
            add_named_in(alloc, names, word)?;
            behind = names_file(word);
        }
    }
    Ok(())
}

/// Whether the words of a line are those of `call` or `or call`.
fn says_call(words: &[&[u8]]) -> bool
    ensures { result ≡ says_call (map (λ w. w.now) words.now) }
{
    let [first, behind @ ..] = words else {
        return false;
    };
    !begins_comment(first)
        && (*first == b"call".as_slice() || *first == b"or".as_slice())
        && is_call(first, behind)
}

/// Adds the files that a line of `call` or `or call` names. Errors: memory ran out.
fn add_named(alloc: Global, names: &mut Vec<Vec<u8>>, line: &[u8]) -> Result<(), AllocError>
    ensures { OnOk result (texts names.new.items
        ≡ texts names.old.items ++ files_behind false (clause_words (quoted_words line.now))) }
{
    let words = quoted_words(alloc, line)?;
    let at = colon_place(&words);
    if words.len() <= at {
        return Ok(());
    }
    add_files(alloc, names, &words[at + 1..])
}

/// Adds the files that a line names. Errors: memory ran out.
fn add_line(alloc: Global, names: &mut Vec<Vec<u8>>, line: &[u8]) -> Result<(), AllocError>
    ensures { OnOk result (texts names.new.items ≡ texts names.old.items ++ files_of line.now) }
{
    let words = device_words(alloc, line)?;
    if says_call(&words) {
        return add_named(alloc, names, line);
    }
    Ok(())
}

/// The files that the lines of a list name, in order, whether the lines are faulty or not: the word
/// after each `runs` and each `imports`, and the files of sizes. Errors: memory ran out.
pub fn named_files(alloc: Global, text: &[u8]) -> Result<Vec<Vec<u8>>, AllocError>
    ensures { IfOk result (λ names. texts names.items ≡ named_files text.now) }
{
    let mut names = Vec::new(alloc);
    for (_, line) in Lines::new(text) {
        add_line(alloc, &mut names, line)?;
    }
    Ok(names)
}
