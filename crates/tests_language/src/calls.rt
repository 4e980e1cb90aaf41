//! The calls of the libraries that rows make. None of these functions promises anything, so that the proof of a caller
//! has little to look at.

use crate::case::Case;
use device_list::{Devices, DevicesError};
use envtools::Env;
use hushlang::{
    ExpandError, Lexer, Script, SyntaxError, Token, Vars, Word, expand, expand_one, parse,
};
use std::alloc::Global;

pub(crate) fn script_of(alloc: Global, text: &[u8]) -> Result<Script, SyntaxError> {
    parse(alloc, text)
}

pub(crate) fn next_token<'a>(lexer: &mut Lexer<'a>) -> Result<Option<Token<'a>>, SyntaxError> {
    lexer.next()
}

pub(crate) fn fields_of<V: Vars>(
    alloc: Global,
    words: &[Word],
    vars: &V,
) -> Result<Vec<Vec<u8>>, ExpandError> {
    expand(alloc, words, vars)
}

pub(crate) fn joined<V: Vars>(
    alloc: Global,
    word: &Word,
    vars: &V,
) -> Result<Vec<u8>, ExpandError> {
    expand_one(alloc, word, vars)
}

/// The device list of a text.
pub fn devices_of(alloc: Global, list: &[u8]) -> Result<Devices, DevicesError> {
    Devices::parse(alloc, list)
}

/// The environment with the variables of a case, in their order.
pub fn env_of(case: &Case) -> anyhow::Result<Env> {
    let mut env = Env::new(case.alloc);
    for (name, value) in &case.variables {
        env.set(name, value)?;
    }
    Ok(env)
}
