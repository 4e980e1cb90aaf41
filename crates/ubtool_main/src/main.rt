//! The program `ubtool`: prints and changes the variables of a U-Boot environment, and rehearses
//! its boot script.
#![tactic(auto)]

mod folder_lock;

use folder_lock::{LockError, lock_in};
use output::{Out, Over, write_all};
use std::fs::File;
use std::io::{self, Write};
use std::process::{self, ExitCode};
use tool_files::{Machine, Program};
use tool_images::write_fault_of;
use tool_steps::{Build, StartError, Telling, buffered, end, finish, words_of_call};
use tool_words::{CalledAs, called_as, read_lock, words_called};
use ubtool::{REFUSED, run_tool};

/// What this program is built for. A build for another processor, or with another kind of linking,
/// has another word here.
const BUILD: Build = Build::X86_64;

/// The name in front of what is reported if the program does not start, whatever it was called as.
const PROGRAM: &str = "ubtool";

/// What is reported if memory for a buffer before the error output is refused.
const OUT_OF_MEMORY: &[u8] = b"ubtool: out of memory\n";

/// Takes the lock in the folder that the words name, if they name one. Errors: those of `lock_in`.
fn named_lock<W: Write>(
    rt: &HostRuntime,
    program: &mut Program<'_, W>,
    words: &[String],
) -> Result<Option<File>, LockError> {
    match read_lock(rt.alloc(), words)? {
        Some(folder) => Ok(Some(lock_in(rt, program, &folder)?)),
        None => Ok(None),
    }
}

/// Does what the words ask for, over the machine's files and outputs, under a lock if one was taken. Returns the status.
fn work<W: Write + Drop, E: Out>(
    rt: &HostRuntime,
    program: Program<'_, W>,
    called: CalledAs,
    words: &[String],
    lock: Option<File>,
    err: &mut Telling<E>,
) -> Result<u8, StartError> {
    let mut out = buffered(rt.alloc(), io::writer(rt))?;
    let mut files = match lock {
        Some(lock) => Machine::under(rt, program, lock),
        None => Machine::new(rt, program),
    };
    let mut input = rt.reader();
    let status = run_tool(
        rt.alloc(),
        BUILD,
        called,
        words,
        &mut input,
        &mut files,
        &mut out,
        err,
    );
    Ok(finish(&mut out, err, called.name(), REFUSED, status))
}

/// Reads the words of the command line, takes the lock that they name, and does what they ask for.
/// If the program was called by the name of one of U-Boot's tools, that name counts as a word.
/// Returns the status.
fn run<E: Out>(rt: &HostRuntime, err: &mut Telling<E>) -> Result<u8, StartError> {
    let args = words_of_call(rt)?;
    let called = called_as(&args);
    let words = words_called(args)?;
    let stderr = rt.stderr();
    let mut program = Program::new(
        called.name(),
        process::id(rt.process()),
        io::writer(&stderr),
    );
    match named_lock(rt, &mut program, &words) {
        Ok(lock) => work(rt, program, called, &words, lock, err),
        Err(LockError::Memory) => Err(StartError::Memory),
        Err(error) => {
            write_fault_of(err, called.name(), &error);
            Ok(1)
        }
    }
}

fn main(rt: HostRuntime) -> ExitCode {
    let stderr = rt.stderr();
    let Ok(err) = buffered(rt.alloc(), io::writer(&stderr)) else {
        let _ = write_all(&mut Over::new(io::writer(&stderr)), OUT_OF_MEMORY);
        return ExitCode::from(2);
    };
    let mut err = Telling::new(err);
    let status = run(&rt, &mut err);
    ExitCode::from(end(&mut err, PROGRAM, status))
}
