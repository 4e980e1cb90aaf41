//! Makes the calls that the other parts leave out, and prints the variables of an environment after each. Where memory
//! is refused it prints those that are left, and makes the call again.

use crate::growths::bytes::print_pair;
use crate::growths::parts::{encodes, expands, expands_one, reaches_files, tries};
use crate::growths::trouble::{Trouble, told_apart};
use bootstore_copies::Plain;
use bootstore_trail::Trail;
use envtools::{Env, EnvError, ScriptError, apply_script};
use std::alloc::Global;
use std::io;

/// A call on an environment.
#[derive(Clone, Copy, Debug)]
enum Call {
    Set,
    SetAgain,
    Change,
    ChangeSame,
    Delete,
    Copy,
    Script,
    TryPlain,
    TryTrail,
    Encode,
    Expand,
    ExpandOne,
    Files,
}

const ROW: [Call; 13] = [
    Call::Set,
    Call::SetAgain,
    Call::Change,
    Call::ChangeSame,
    Call::Delete,
    Call::Copy,
    Call::Script,
    Call::TryPlain,
    Call::TryTrail,
    Call::Encode,
    Call::Expand,
    Call::ExpandOne,
    Call::Files,
];

/// Prints the variables on a line.
fn print_state(rt: &impl Print, env: &Env) -> io::Result<()> {
    for at in 0..env.len() {
        let Some((name, value)) = env.pair(at) else {
            break;
        };
        print_pair(rt, name, value)?;
    }
    println!(rt; "")
}

/// Takes the copy of an environment in its place.
fn copy(env: &mut Env) -> Result<bool, Trouble> {
    *env = told_apart(env.copy(), EnvError::Memory)?;
    Ok(true)
}

// The next three functions promise nothing, so that the proof of their caller has little to look at.

fn set(env: &mut Env, name: &[u8], value: &[u8]) -> Result<bool, Trouble> {
    told_apart(env.set(name, value), EnvError::Memory)?;
    Ok(true)
}

fn change(env: &mut Env, name: &[u8], words: &[&[u8]]) -> Result<bool, Trouble> {
    told_apart(env.change(name, words), EnvError::Memory)?;
    Ok(true)
}

fn apply(env: &mut Env, script: &[u8]) -> Result<bool, Trouble> {
    told_apart(apply_script(env, script), ScriptError::Memory)?;
    Ok(true)
}

/// Makes a call. The answer is whether it gives what it should.
fn make(alloc: Global, env: &mut Env, call: Call) -> Result<bool, Trouble> {
    match call {
        Call::Set => set(env, b"c", b"1"),
        Call::SetAgain => set(env, b"a", b"a longer value"),
        Call::Change => change(env, b"b", &[b"x ", b"y"]),
        Call::ChangeSame => change(env, b"c", &[b"1"]),
        Call::Delete => change(env, b"a", &[]),
        Call::Copy => copy(env),
        Call::Script => apply(env, b"d 4"),
        Call::TryPlain => tries::<Plain>(alloc, env),
        Call::TryTrail => tries::<Trail>(alloc, env),
        Call::Encode => encodes(alloc),
        Call::Expand => expands(alloc),
        Call::ExpandOne => expands_one(alloc),
        Call::Files => reaches_files(alloc),
    }
}

/// The environment to start with.
fn begin(alloc: Global) -> Result<Env, EnvError> {
    Env::from_data(alloc, b"a=0\0bootcmd=load a || load b\0\0")
}

/// Makes a call. If memory ran out, prints what is left, and makes it again. The answer is whether it gives what it
/// should.
fn make_told(rt: &HostRuntime, env: &mut Env, call: Call) -> io::Result<bool> {
    match make(rt.alloc(), env, call) {
        Ok(is_right) => Ok(is_right),
        Err(Trouble::Memory) => make_again(rt, env, call),
        Err(Trouble::Other) => Ok(false),
    }
}

/// Prints what a refused call left, and makes the call again.
fn make_again(rt: &HostRuntime, env: &mut Env, call: Call) -> io::Result<bool> {
    print!(rt; "refused {call:?}:")?;
    print_state(rt, env)?;
    Ok(make(rt.alloc(), env, call).unwrap_or(false))
}

/// Makes a call and prints the state after it, or says that it is given up. The answer is whether to go on.
fn step(rt: &HostRuntime, env: &mut Env, call: Call) -> io::Result<bool> {
    let is_right = make_told(rt, env, call)?;
    if is_right {
        print!(rt; "{call:?}:")?;
        print_state(rt, env)?;
    } else {
        println!(rt; "given up")?;
    }
    Ok(is_right)
}

/// Makes the calls in their order.
fn run_row(rt: &HostRuntime, env: &mut Env) -> io::Result<()> {
    print!(rt; "New:")?;
    print_state(rt, env)?;
    for call in ROW {
        if !step(rt, env, call)? {
            break;
        }
    }
    Ok(())
}

/// Makes the calls on the environment to start with.
pub(crate) fn run(rt: &HostRuntime) -> io::Result<()> {
    match begin(rt.alloc()) {
        Ok(mut env) => run_row(rt, &mut env),
        Err(_) => println!(rt; "no memory to begin with"),
    }
}
