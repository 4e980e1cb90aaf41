//! Applies a script of six changes to an environment of four variables, and prints whether memory was refused and the
//! variables that are left. It has eleven lines more, since for up to 16 lines no tree of the names is made.

use crate::growths::bytes::print_pair;
use crate::growths::trouble::{Trouble, told_apart};
use envtools::{Env, EnvError, ScriptError, apply_script};
use std::alloc::Global;
use std::io;

const NAMES: [&[u8]; 8] = [b"a", b"b", b"c", b"d", b"e", b"f", b"g", b"h"];

/// The variables to start with.
const FIRST: [(&[u8], &[u8]); 4] = [(b"a", b"1"), (b"b", b"2"), (b"g", b"8"), (b"h", b"9")];

/// Four variables.
fn begin(alloc: Global) -> Result<Env, EnvError> {
    let mut env = Env::new(alloc);
    for (name, value) in FIRST {
        env.set(name, value)?;
    }
    Ok(env)
}

/// Prints the value of each name that has one.
fn print_variables(rt: &impl Print, env: &Env) -> io::Result<()> {
    for name in NAMES {
        let Some(value) = env.get(name) else {
            continue;
        };
        print_pair(rt, name, value)?;
    }
    println!(rt; "")
}

/// Applies the script to an environment.
fn apply(rt: &HostRuntime, env: &mut Env) -> io::Result<()> {
    let applied = apply_script(
        env,
        b"\n\n\n\n\n\n\n\n\n\n\n\n\n\n\n\n\n\n\n\n\n\n\n\n\n\n\nc 3\na\nd 4\nb 5\ne 6\nf 7",
    );
    match told_apart(applied, ScriptError::Memory) {
        Ok(()) => print!(rt; "applied:")?,
        Err(Trouble::Memory) => print!(rt; "refused:")?,
        Err(Trouble::Other) => print!(rt; "refused for another cause:")?,
    }
    print_variables(rt, env)
}

/// Applies the script.
pub(crate) fn run(rt: &HostRuntime) -> io::Result<()> {
    match begin(rt.alloc()) {
        Ok(mut env) => {
            let told = apply(rt, &mut env);
            drop(env);
            told
        }
        Err(_) => println!(rt; "no memory to begin with"),
    }
}
