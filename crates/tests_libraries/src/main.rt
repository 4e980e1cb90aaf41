//! What the suites and the tools run of the libraries and of the whole program. Not installed. Without a word it answers the
//! rows of its input, makes all growths, and the checksum; its first word names one job else:
//!
//! - `checksum` times the checksum of 1 MiB.
//! - `growths [PART]` makes calls again and again, for refused growths of memory.
//! - `set_image ORDER FIRST SECOND NAME WORD..` changes an image in a file.
//!
//! Rows are tests with values from outside. `stdin` has them, and `stdout` the rows with their answers. A row is a word and what
//! it says, with the escapes of `tests_rows`. A line that starts with `#` is a heading. At an empty line all that the rows have
//! set is forgotten. The rows in front of the row `programs` are of the language, of the stores and of the rehearsal, over both
//! stores; those after it are of the images, of the programs and of what they call.
//!
//! # In front of `programs`
//!
//! Rows that set something:
//!
//! - `set NAME VALUE`, a variable, `devices LIST`, the device list, `name NAME`, the variable that is rehearsed,
//!   `text TEXT`, a text that is rehearsed in its place, `names NAME..`, those that are asked for, `status STATUS`, and
//!   `bounds DEVICES STEPS`, which answers them.
//!
//! Rows of the language:
//!
//! - `tokens TEXT`, the tokens, and three times how they end, `tree TEXT`, the tree, `cuts TEXT`, what each front of
//!   it is, `commands TEXT`, what the commands are and how many parts each has, and `script TEXT`, whether it is one;
//! - `fields TEXT`, what the words expand to, a bar after each field, and `sizes TEXT`, how long they are: by one
//!   variable or by three;
//! - `test WORD..`, the truth of the words of `test`;
//! - `list LIST`, whether it is a device list, `has NAME` and `effect NAME WORD..`, what the device list says of it.
//!
//! Rows of a rehearsal, the same over both stores:
//!
//! - `listing [limit LIMIT] [after WORD]`, a page and how it finishes;
//! - `told limit LIMIT` and `broken ROOM`, the answers after a listing, whole or broken off after so many bytes;
//!   `resumed`, where the listing goes on after each of its fronts;
//! - `work [after WORD]`, the runs with the steps that were begun, `grow`, how many runs there are and whether their
//!   words grow, and `onward`, all words, and whether the runs go on after each;
//! - `end`, how the first run ends, `try WORD..`, what kind of word each is;
//! - `endings DEVICES STATES` and `flow DEVICES STATES`, the endings of all runs.
//!
//! Rows of the stores themselves: `start`, with the variables that are set, `store CHANGE` and `show`.
//!
//! # After `programs`
//!
//! Rows that set something:
//!
//! - `first BYTES` and `second BYTES`, the image or the copies of a pair, `big-endian`, its byte order, and
//!   `encode SIZE [FLAG]`, which puts the image of the environment after the first;
//! - `escaped` and `null`, how `print` and `value` print;
//! - `env CHANGE`, which changes the environment: `set`, `change`, `remove`, `script` and `data`; `env show` and
//!   `env copy` print it;
//! - `file PATH BYTES`, `copy-of-file PATH`, a file with the image, and `failing N`, the call of files that fails;
//! - `input BYTES`, `step N`, how many bytes a read gives, and `failing-read N`;
//! - `out KIND` and `err KIND`, the outputs: `slow`, `limited N`, `full N` or `once N`; `fw-tool`, what was called;
//! - `machine`, so that rows of files speak of the machine's.
//!
//! Rows of images:
//!
//! - `crc BYTES`, `data BYTES`, the fault of data, `config TEXT`, the places of a configuration;
//! - `load`, the current copy, `order`, the byte order of the image, and `fronts`, why each front of it is refused;
//! - `change NAME WORD..` and `script TEXT`, the copy that is written.
//!
//! Rows of calls with outputs:
//!
//! - `print NAME..`, `value NAME`, `standard`, which prints the image on the input, `rehearse NAME STEPS` and
//!   `run WORD..`, the whole program; `reads`, how often its input was read, `calls`, the calls of files,
//!   `bytes PATH`, a file after it, and `locked`, whether the lock was taken;
//! - `each-out KIND CALL` and `each-err KIND CALL`, such a call with an output that fails further and further on;
//! - `parts WORD..`, `pass TEXT`, `over N`, `buffer` and `flush`, outputs alone; `up-to LIMIT..`, bounded reads.
//!
//! Rows of files: `open`, which starts with them anew, `read PATH`, `part PATH OFFSET SIZE`, `write PATH OFFSET BYTES`,
//! and of the machine `make BYTES` and `remove`, of a file of this process.
//!
//! Rows of texts:
//!
//! - `words WORD..`, `called WORD..`, `lock WORD..` and `command WORD..`, what a command line says; `clap WORD..`, whether
//!   `clap` refuses it; `help WORD..` and `has TEXT`, whether the help has a text;
//! - `faults`, `fault KIND WORD` and `fault-in ROOM`, the lines of faults.
#![tactic(auto)]

mod case;
mod endings;

use case::All;
use std::process::ExitCode;
use std::{env, io};
use tests_rows::answer_input;
use tests_runs::run_growths;
use tests_tools::{change_image, time_checksum};

/// Answers the rows of the input.
fn answer(rt: &HostRuntime) -> anyhow::Result<()> {
    answer_input(rt, &mut All::new(rt)?)
}

/// The words after the program's name.
fn words_of(rt: &HostRuntime) -> Option<Vec<String>> {
    let words = env::args(rt).ok()?;
    words.skip(1).collect(rt.alloc()).ok()
}

/// The first word, if there is one.
fn first(words: &[String]) -> Option<&str> {
    match words.first() {
        Some(word) => Some(word.as_str()),
        None => None,
    }
}

/// Runs the job that the words say, and returns whether there is one.
fn run(rt: &HostRuntime, words: &[String]) -> io::Result<bool> {
    let [what, rest @ ..] = words else {
        run_growths(rt, None)?;
        time_checksum(rt)?;
        return Ok(true);
    };
    match what.as_str() {
        "checksum" => time_checksum(rt)?,
        "growths" => run_growths(rt, first(rest))?,
        "set_image" => return Ok(change_image(rt, rest).is_some()),
        _ => return Ok(false),
    }
    Ok(true)
}

fn main(rt: HostRuntime) -> anyhow::Result<ExitCode> {
    let Some(words) = words_of(&rt) else {
        println!(rt; "no memory to begin with")?;
        return Ok(ExitCode::from(0));
    };
    if words.is_empty() {
        answer(&rt)?;
    }
    let is_done = run(&rt, &words)?;
    Ok(ExitCode::from(u8::from(!is_done)))
}
