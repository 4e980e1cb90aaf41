//! Calls that change no environment: whether each gives what it should.

use crate::growths::trouble::{Trouble, told_apart};
use bootstore_state::Store;
use device_list::{Devices, DevicesError};
use envimage::{ByteOrder, ImageError, encode};
use envtools::Env;
use hushlang::{
    Command, ExpandError, OneVariable, Script, SyntaxError, Word, expand, expand_one, parse,
};
use rehearse_runs::{RehearseError, WordKind, try_word};
use rehearse_terms::Bounds;
use std::alloc::{AllocError, Global};
use tool_files::{FileFault, Files, MemoryFiles};

/// The variables that words are expanded by.
fn variables() -> OneVariable<'static> {
    OneVariable {
        name: b"x",
        value: b"1  2",
        status: 0,
    }
}

/// Whether an image of one variable has its bytes.
pub(crate) fn encodes(alloc: Global) -> Result<bool, Trouble> {
    let encoded = encode(alloc, &[(b"a", b"1")], 9, None, ByteOrder::Little);
    let image = told_apart(encoded, ImageError::Memory)?;
    Ok(image.as_slice() == b"\x3B\x06\x98\x45a=1\0\0".as_slice())
}

/// The script of a text.
fn script_of(alloc: Global, text: &[u8]) -> Result<Script, Trouble> {
    told_apart(parse(alloc, text), SyntaxError::Memory)
}

/// The first command of a script.
fn first(script: &Script) -> Option<&Command> {
    Some(&script.lists.first()?.first)
}

/// Whether a command's words are expanded to its fields.
pub(crate) fn expands(alloc: Global) -> Result<bool, Trouble> {
    let script = script_of(alloc, b"echo $x 'a b' \"$x\"")?;
    let words: &[Word] = match first(&script) {
        Some(Command::Simple(call)) => call.words(),
        _ => &[],
    };
    let fields = told_apart(expand(alloc, words, &variables()), ExpandError::Memory)?;
    Ok(are_fields(&fields))
}

/// Whether fields are those of the words.
fn are_fields(fields: &[Vec<u8>]) -> bool {
    let wanted: [&[u8]; 5] = [b"echo", b"1", b"2", b"a b", b"1  2"];
    let mut is_so = fields.len() == wanted.len();
    for (field, right) in fields.iter().zip(wanted) {
        is_so = is_so && field.as_slice() == right;
    }
    is_so
}

/// Whether the value of an assignment is expanded uncut.
pub(crate) fn expands_one(alloc: Global) -> Result<bool, Trouble> {
    let script = script_of(alloc, b"y=-$x-")?;
    let Some(Command::Assign(values)) = first(&script) else {
        return Ok(false);
    };
    let Some((_, value)) = values.first() else {
        return Ok(false);
    };
    let joined = told_apart(expand_one(alloc, value, &variables()), ExpandError::Memory)?;
    Ok(joined.as_slice() == b"-1  2-".as_slice())
}

/// Whether files in memory are read and written.
pub(crate) fn reaches_files(alloc: Global) -> Result<bool, Trouble> {
    let mut files = MemoryFiles::new(alloc, None);
    told_apart(files.add("e", b"0123456789"), AllocError)?;
    Ok(reads_part(alloc, &mut files)? && writes_part(alloc, &mut files)?)
}

/// Whether a part of the file has its bytes.
fn reads_part(alloc: Global, files: &mut MemoryFiles) -> Result<bool, Trouble> {
    let part = told_apart(files.read_at(alloc, "e", 2, 3), FileFault::Memory)?;
    Ok(part.as_slice() == b"234".as_slice())
}

/// Whether the file has two bytes that are written.
fn writes_part(alloc: Global, files: &mut MemoryFiles) -> Result<bool, Trouble> {
    told_apart(files.write_at("e", 8, b"ab"), FileFault::Memory)?;
    let whole = told_apart(files.read_all(alloc, "e"), FileFault::Memory)?;
    Ok(whole.as_slice() == b"01234567ab".as_slice())
}

/// Whether `10` is the word of a run and `1` is too short for one.
pub(crate) fn tries<S: Store>(alloc: Global, env: &Env) -> Result<bool, Trouble> {
    let devices = told_apart(Devices::parse(alloc, b"load"), DevicesError::Memory)?;
    let told = tries_with::<S>(alloc, env, &devices);
    drop(devices);
    told
}

/// The same with a device list that was read.
fn tries_with<S: Store>(alloc: Global, env: &Env, devices: &Devices) -> Result<bool, Trouble> {
    Ok(
        is_word::<S>(alloc, env, devices, b"1", WordKind::Short)?
            && is_word::<S>(alloc, env, devices, b"10", WordKind::Run)?,
    )
}

/// Whether a text is a word of this kind.
fn is_word<S: Store>(
    alloc: Global,
    env: &Env,
    devices: &Devices,
    word: &[u8],
    wanted: WordKind,
) -> Result<bool, Trouble> {
    let Some(bounds) = Bounds::new(16, 10_000) else {
        return Ok(false);
    };
    let kind = try_word::<S>(alloc, env, devices, b"bootcmd", bounds, word);
    Ok(told_apart(kind, RehearseError::Memory)? == wanted)
}
