//! Runs under refused growths of memory what its word names, and all parts in turn without a word. The scripts
//! `tools/growth*.sh` run it, with one growth after another refused.

mod bytes;
mod calls;
mod change;
mod parts;
mod rehearsal;
mod script;
mod state;
mod store;
mod trouble;

use std::io;

/// The words of the parts, in their order.
const PARTS: [&str; 5] = ["store", "calls", "rehearse", "long", "script"];

/// Runs the part of a word.
fn run_part(rt: &HostRuntime, part: &str) -> io::Result<()> {
    match part {
        "store" => store::run(rt),
        "calls" => calls::run(rt),
        "rehearse" => rehearsal::run(rt),
        "long" => rehearsal::run_long(rt),
        "script" => script::run(rt),
        _ => println!(rt; "no part has this name"),
    }
}

/// Runs all parts, each after its word.
fn run_all(rt: &HostRuntime) -> io::Result<()> {
    for part in PARTS {
        println!(rt; "{part}")?;
        run_part(rt, part)?;
    }
    Ok(())
}

/// Runs the part of a word, or all.
pub fn run_growths(rt: &HostRuntime, part: Option<&str>) -> io::Result<()> {
    match part {
        Some(part) => run_part(rt, part),
        None => run_all(rt),
    }
}
