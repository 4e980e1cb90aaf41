//! The program `hushcheck`: where the boot scripts of a U-Boot environment break.
#![tactic(auto)]

use hushcheck_program::{PROGRAM, REFUSED, run_check};
use output::{Out, Over, write_all};
use std::io;
use std::process::{self, ExitCode};
use tool_files::{Machine, Program};
use tool_steps::{Build, StartError, Telling, buffered, end, finish, words_of_call};

/// What this program is built for. A build for another processor, or with another kind of linking,
/// has another word here.
const BUILD: Build = Build::X86_64;

/// What is reported if memory for a buffer before the error output is refused.
const OUT_OF_MEMORY: &[u8] = b"hushcheck: out of memory\n";

/// Reads the words of the command line, and does what they ask for. Returns the status.
fn run<E: Out>(rt: &HostRuntime, err: &mut Telling<E>) -> Result<u8, StartError> {
    let args = words_of_call(rt)?;
    let words = args.get(1..).unwrap_or(&[]);
    let mut out = buffered(rt.alloc(), io::writer(rt))?;
    let stderr = rt.stderr();
    let program = Program::new(PROGRAM, process::id(rt.process()), io::writer(&stderr));
    let mut files = Machine::new(rt, program);
    let status = run_check(rt.alloc(), BUILD, words, &mut files, &mut out, err);
    Ok(finish(&mut out, err, PROGRAM, REFUSED, status))
}

fn main(rt: HostRuntime) -> ExitCode {
    let stderr = rt.stderr();
    let Ok(err) = buffered(rt.alloc(), io::writer(&stderr)) else {
        let _ = write_all(&mut Over::new(io::writer(&stderr)), OUT_OF_MEMORY);
        return ExitCode::from(2);
    };
    let mut err = Telling::new(err);
    let status = run(&rt, &mut err);
    ExitCode::from(end(&mut err, PROGRAM, status))
}
