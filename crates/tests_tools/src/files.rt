//! Files, in memory and of the machine.

use crate::case::Case;
use std::alloc::{AllocError, Global};
use std::fmt::Write;
use std::fs::File;
use std::{fs, io, process};
use tests_rows::{first_word, number, shown, unescaped, unescaped_text};
use tool_files::{Files, LIMIT, Machine, MemoryFiles, Program, read_up_to};

/// The calls that were made, a line each.
fn calls_of(alloc: Global, files: &MemoryFiles) -> Result<String, AllocError> {
    let mut lines = String::new(alloc);
    for call in files.calls() {
        let (path, action) = (call.path.as_str(), call.action);
        writeln!(lines, "{path} {action:?}")?;
    }
    Ok(lines)
}

/// The bytes of a file after the last call.
fn bytes_of(case: &Case<'_>, says: &str) -> anyhow::Result<String> {
    let path = unescaped_text(case.alloc, says)?;
    let bytes = case.files.bytes(path.as_str()).unwrap_or(b"no file");
    Ok(shown(case.alloc, bytes)?)
}

/// Begins with the files anew.
fn open(case: &mut Case<'_>) -> anyhow::Result<String> {
    case.open()?;
    Ok(String::new(case.alloc))
}

/// What the last call did.
fn done(case: &Case<'_>, word: &str, says: &str) -> anyhow::Result<String> {
    match word {
        "calls" => Ok(calls_of(case.alloc, &case.files)?),
        "bytes" => bytes_of(case, says),
        "locked" => {
            let locked = case.files.is_locked();
            Ok(format!(in case.alloc; "{locked}")?)
        }
        _ => {
            let reads = case.reads;
            Ok(format!(in case.alloc; "{reads}")?)
        }
    }
}

/// The answer to a row of files.
pub(crate) fn told(case: &mut Case<'_>, word: &str, says: &str) -> anyhow::Result<String> {
    match word {
        "open" => open(case),
        "calls" | "bytes" | "locked" | "reads" => done(case, word, says),
        "make" | "remove" => on_machine(case, word, says),
        "up-to" => read_up(case, says),
        _ => asked(case, word, says),
    }
}

/// Writes to a file.
fn write<F: Files>(alloc: Global, files: &mut F, path: &str, says: &str) -> anyhow::Result<String> {
    let (offset, bytes) = first_word(says);
    let bytes = unescaped(alloc, bytes)?;
    files.lock()?;
    files.write_at(path, u64::from(number(offset)?), &bytes)?;
    Ok(String::from_str(alloc, "written")?)
}

/// Reads a part of a file.
fn part<F: Files>(alloc: Global, files: &mut F, path: &str, says: &str) -> anyhow::Result<String> {
    let (offset, size) = first_word(says);
    let (offset, size) = (u64::from(number(offset)?), number(size)? as usize);
    let bytes = files.read_at(alloc, path, offset, size)?;
    Ok(shown(alloc, &bytes)?)
}

/// Reads a file.
fn read<F: Files>(alloc: Global, files: &mut F, path: &str) -> anyhow::Result<String> {
    let bytes = files.read_all(alloc, path)?;
    Ok(shown(alloc, &bytes)?)
}

/// Reads a file, or a part of one, or writes to it.
fn ask<F: Files>(
    alloc: Global,
    files: &mut F,
    path: &str,
    word: &str,
    says: &str,
) -> anyhow::Result<String> {
    match word {
        "read" => read(alloc, files, path),
        "part" => part(alloc, files, path, says),
        _ => write(alloc, files, path, says),
    }
}

/// The path of a file of this process.
fn own_path(case: &Case<'_>) -> Result<String, AllocError> {
    let id = process::id(case.rt.process());
    format!(in case.alloc; "/tmp/image_tools.{id}")
}

/// The answer of the files of a case, or of the machine, where `own` is a file of this process. A
/// device is the lock of the machine's files, so that no row waits for the usual one.
fn asked(case: &mut Case<'_>, word: &str, says: &str) -> anyhow::Result<String> {
    let (path, says) = first_word(says);
    if !case.is_machine {
        return ask(case.alloc, &mut case.files, path, word, says);
    }
    let path = if path == "own" {
        own_path(case)?
    } else {
        String::from_str(case.alloc, path)?
    };
    let lock = File::open(case.rt, "/dev/null")?;
    let program = Program::new("test_ubtool", process::id(case.rt.process()), io::sink());
    ask(
        case.alloc,
        &mut Machine::under(case.rt, program, lock),
        path.as_str(),
        word,
        says,
    )
}

/// Makes the file of this process, or removes it.
fn on_machine(case: &Case<'_>, word: &str, says: &str) -> anyhow::Result<String> {
    let path = own_path(case)?;
    if word == "make" {
        fs::write(case.rt, path.as_str(), says)?;
    } else {
        fs::remove_file(case.rt, path.as_str())?;
    }
    Ok(String::new(case.alloc))
}

/// The limit of a word. `all` is the greatest one.
fn limit_of(word: &str) -> anyhow::Result<usize> {
    match word {
        "all" => Ok(LIMIT),
        _ => Ok(number(word)? as usize),
    }
}

/// What is read of the input up to each of some limits, in turn, and how often it was read.
fn read_up(case: &Case<'_>, says: &str) -> anyhow::Result<String> {
    let mut source = case.source();
    let mut lines = String::new(case.alloc);
    for word in says.split(' ') {
        let line = match read_up_to(case.alloc, &mut source, limit_of(word)?) {
            Ok(bytes) => shown(case.alloc, &bytes)?,
            Err(error) => format!(in case.alloc; "{error:?}")?,
        };
        let reads = source.reads;
        writeln!(lines, "{line}, {reads} reads")?;
    }
    Ok(lines)
}
