//! The environment that a board has once U-Boot has read an image.
ghost use Rattle.std.specs.Prelude.{◌≡◌, IfOk, OnOk, false, filter};
ghost use Rattle.text.specs.Words.{is_space};
ghost use Rattle.envimage.specs.Data.{IsVariable};
ghost use Rattle.envtools.specs.Importing as says;

use crate::env::Env;
use std::alloc::{AllocError, Global};
use text::{cut_front, is_space};

/// Whether a byte is a space or a tab.
fn is_blank(byte: u8) -> bool
    ensures { result ≡ is_space byte }
{
    is_space(byte)
}

/// A name without the blanks in front of it.
fn imported_name(name: &[u8]) -> &[u8]
    ensures { result.now ≡ says.imported_name name.now }
{
    cut_front(name, is_blank)
}

/// Whether a name without the blanks in front of it names a variable.
fn names_variable(name: &[u8]) -> bool
    ensures { result ≡ says.names_variable name.now }
{
    match name {
        [byte, ..] => *byte != b'#',
        [] => false,
    }
}

/// Whether it is not followed what U-Boot does with a stored variable.
fn is_doubtful(name: &[u8], value: &[u8]) -> bool
    ensures { result ≡ says.is_doubtful (name.now, value.now) }
{
    imported_name(name).is_empty() && !value.is_empty()
}

/// A value without the backslash before each byte.
fn imported_value(alloc: Global, value: &[u8]) -> Result<Vec<u8>, AllocError>
    ensures { IfOk result (λ bytes. bytes.items ≡ says.imported_value false value.now) }
{
    let mut bytes = Vec::new(alloc);
    let mut behind = false;
    for byte in value {
        behind = *byte == b'\\' && !behind;
        if !behind {
            bytes.push(*byte)?;
        }
    }
    if behind {
        bytes.push(b'\\')?;
    }
    Ok(bytes)
}

impl Env {
    /// Gives the name of a stored variable its value, which may be empty.
    fn import(&mut self, name: &[u8], value: &[u8]) -> Result<(), AllocError>
        requires { IsVariable (name.now, value.now) }
        ensures { OnOk result (self.new ≡ says.with_imported self.old (name.now, value.now)) }
    {
        let name = imported_name(name);
        if !names_variable(name) {
            return Ok(());
        }
        let value = imported_value(self.allocator(), value)?;
        self.assign(name, &value)
    }

    /// The variables whose values are not empty.
    fn only_set(&self) -> Result<Env, AllocError>
        ensures { IfOk result (λ env. env ≡ filter says.is_set self.now) }
    {
        let mut env = Env::with_hasher(self.allocator(), self.hasher());
        for place in 0..self.len() {
            let (name, value) = self.pair(place).unwrap();
            if !value.is_empty() {
                env.assign(name, value)?;
            }
        }
        Ok(env)
    }

    /// The environment that a board has once U-Boot has read this one from its image: backslashes in
    /// values and blanks in front of names are dropped, names that start with `#` are left out, and an
    /// empty value deletes. It is empty if a variable with a value has a name of blanks alone: what
    /// U-Boot does then is not followed. Errors: memory ran out. Source: lib/hashtable.c, `himport_r`.
    pub fn imported(&self) -> Result<Env, AllocError>
        ensures { IfOk result (λ env. env ≡ says.imported self.now) }
    {
        let mut env = Env::with_hasher(self.allocator(), self.hasher());
        for place in 0..self.len() {
            let (name, value) = self.pair(place).unwrap();
            if is_doubtful(name, value) {
                return Ok(Env::new(self.allocator()));
            }
            env.import(name, value)?;
        }
        env.only_set()
    }
}
