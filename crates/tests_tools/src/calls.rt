//! Calls of the libraries. None of these functions promises anything, so that the proof of a caller has little to look
//! at.

use crate::case::Case;
use crate::readers::Source;
use crate::writers::Tested;
use envimage::{
    ByteOrder, ConfigError, DataError, Place, Which, check_data, crc32, encode, parse_config,
};
use envtools::{Env, EnvError, PrintForm, ScriptError, apply_script};
use std::alloc::Global;
use tool_images::{Edit, PrintAsk, ToolError, print_bytes, run_input, set_bytes};

pub(crate) fn crc(bytes: &[u8]) -> u32 {
    crc32(bytes)
}

pub(crate) fn fault_of_data(data: &[u8]) -> Option<DataError> {
    check_data(data).err()
}

pub(crate) fn places_of(alloc: Global, text: &[u8]) -> Result<Vec<Place>, ConfigError> {
    parse_config(alloc, text)
}

pub(crate) fn apply(env: &mut Env, script: &[u8]) -> Result<(), ScriptError> {
    apply_script(env, script)
}

pub(crate) fn change(env: &mut Env, name: &[u8], words: &[&[u8]]) -> Result<(), EnvError> {
    env.change(name, words)
}

pub(crate) fn set(env: &mut Env, name: &[u8], value: &[u8]) -> Result<(), EnvError> {
    env.set(name, value)
}

/// Whether a variable is there and is taken away.
pub(crate) fn remove(env: &mut Env, name: &[u8]) -> bool {
    env.remove(name)
}

pub(crate) fn copy_of(env: &Env) -> Result<Env, EnvError> {
    env.copy()
}

/// The image of an environment.
pub(crate) fn image_of(
    alloc: Global,
    env: &Env,
    size: usize,
    flag: Option<u8>,
    order: ByteOrder,
) -> anyhow::Result<Vec<u8>> {
    let pairs = env.pairs()?;
    Ok(encode(alloc, &pairs, size, flag, order)?)
}

/// The copy that is written of an image or a pair.
pub(crate) fn changed(
    alloc: Global,
    first: &[u8],
    second: Option<&[u8]>,
    order: ByteOrder,
    edit: Edit<'_>,
) -> Result<(Which, Vec<u8>), ToolError> {
    set_bytes(alloc, first, second, order, edit)
}

/// Prints the image of a case in its form: variables, or the value of one name alone.
pub(crate) fn print<'a>(
    case: &Case<'_>,
    names: &'a [&'a [u8]],
    is_value: bool,
    out: &mut Tested,
    err: &mut Tested,
) -> Result<bool, ToolError> {
    let form = PrintForm {
        header: !is_value || names.len() != 1,
        ..case.form
    };
    let ask = PrintAsk { names, form };
    let second = case.second.as_ref().map(|bytes| bytes.as_slice());
    print_bytes(case.alloc, &case.first, second, case.order, &ask, out, err)
}

/// The status of the program without words.
pub(crate) fn print_input(
    alloc: Global,
    input: &mut Source<'_>,
    out: &mut Tested,
    err: &mut Tested,
) -> u8 {
    run_input(alloc, input, out, err)
}
