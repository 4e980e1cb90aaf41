//! Writes the listing of a small rehearsal over a store of each kind. Where memory is refused it writes the line
//! `refused`, and goes on after the last run that it was given: so without these lines the output is always the same.
//! Of a longer script it says how many runs there are, and how many steps were begun for them.

use bootstore_copies::Plain;
use bootstore_state::Store;
use bootstore_trail::Trail;
use device_list::Devices;
use envtools::Env;
use output::{Out, Over, write_all};
use rehearse_runs::{RehearseError, Runs, write_listing};
use rehearse_terms::{Bounds, Page};
use std::alloc::{AllocError, Global};
use std::io;

/// What is rehearsed.
#[derive(Drop)]
struct Script {
    env: Env,
    devices: Devices,
    bounds: Bounds,
}

impl Script {
    /// A text of so many commands that ask nothing, and then these.
    fn new(alloc: Global, before: u32, commands: &[u8]) -> Option<Self> {
        let bounds = Bounds::new(7, 10_000)?;
        let env = environment(alloc, before, commands)?;
        let devices = devices(alloc)?;
        Some(Script {
            env,
            devices,
            bounds,
        })
    }
}

/// The text of `bootcmd`.
fn text_of(alloc: Global, before: u32, commands: &[u8]) -> Result<Vec<u8>, AllocError> {
    let mut text = Vec::new(alloc);
    for _ in 0..before {
        text.extend_from_slice(b"true;")?;
    }
    text.extend_from_slice(commands)?;
    Ok(text)
}

fn environment(alloc: Global, before: u32, commands: &[u8]) -> Option<Env> {
    let text = text_of(alloc, before, commands).ok()?;
    let mut env = Env::new(alloc);
    env.set(b"bootcmd", &text).ok()?;
    Some(env)
}

fn devices(alloc: Global) -> Option<Devices> {
    Devices::parse(alloc, b"load").ok()
}

/// The word of the last run that was given, in room of its own.
#[derive(Drop)]
struct Last {
    room: [u8; 32],
    size: Option<usize>,
}

impl Last {
    fn word(&self) -> Option<&[u8]> {
        self.room.get(..self.size?)
    }

    fn keep(&mut self, word: &[u8]) {
        if let Some(room) = self.room.get_mut(..word.len()) {
            room.copy_from_slice(word);
            self.size = Some(word.len());
        }
    }
}

/// The runs, or those after a word.
fn runs_of<'a, S: Store>(
    alloc: Global,
    script: &'a Script,
    after: Option<&[u8]>,
) -> Result<Runs<'a, S>, RehearseError> {
    match after {
        None => Runs::new(
            alloc,
            &script.env,
            &script.devices,
            b"bootcmd",
            script.bounds,
        ),
        Some(word) => Runs::after(
            alloc,
            &script.env,
            &script.devices,
            b"bootcmd",
            script.bounds,
            word,
        ),
    }
}

/// Whether a further run is refused since there was no memory before.
fn has_failed<S: Store>(runs: &mut Runs<'_, S>) -> bool {
    matches!(runs.next(), Err(RehearseError::Failed))
}

/// Writes that memory was refused, and keeps the word of the last run that was given. The answer is that the listing is
/// not whole.
fn write_refused<S: Store, O: Out>(
    runs: &mut Runs<'_, S>,
    last: &mut Last,
    out: &mut O,
) -> Option<bool> {
    write_all(out, b"refused\n").ok()?;
    if !has_failed(runs) {
        return None;
    }
    if let Some(word) = runs.given() {
        last.keep(word);
    }
    Some(false)
}

/// Writes the listing of some runs, and answers whether it is whole. If memory ran out, it keeps the word of the last
/// run that was given.
fn write_runs<S: Store, O: Out>(
    runs: &mut Runs<'_, S>,
    last: &mut Last,
    out: &mut O,
) -> Option<bool> {
    match write_listing(runs, &[], Page { limit: None }, out) {
        Ok(_) => Some(true),
        Err(RehearseError::Memory) => write_refused(runs, last, out),
        Err(_) => None,
    }
}

/// Writes the listing after the last run that was given, and says whether it is whole.
fn list_once<S: Store, O: Out>(
    alloc: Global,
    script: &Script,
    last: &mut Last,
    out: &mut O,
) -> Option<bool> {
    match runs_of::<S>(alloc, script, last.word()) {
        Ok(mut runs) => {
            let told = write_runs(&mut runs, last, out);
            drop(runs);
            told
        }
        Err(RehearseError::Memory) => {
            write_all(out, b"refused\n").ok()?;
            Some(false)
        }
        Err(_) => None,
    }
}

/// Writes the listing. If memory ran out, writes the rest of it.
fn list<S: Store, O: Out>(alloc: Global, script: &Script, out: &mut O) -> Option<()> {
    let mut last = Last {
        room: [0; 32],
        size: None,
    };
    for _ in 0..4u32 {
        if list_once::<S, O>(alloc, script, &mut last, out)? {
            return Some(());
        }
    }
    None
}

/// How many of these runs there are, and how many steps were begun for them.
fn count_of<S: Store>(runs: &mut Runs<'_, S>) -> Option<(u32, u64)> {
    let mut found = 0u32;
    for _ in 0..1000u32 {
        match runs.next() {
            Ok(Some(_)) => found = found.saturating_add(1),
            Ok(None) => break,
            Err(_) => return None,
        }
    }
    Some((found, runs.work()))
}

/// How many runs there are, and how many steps were begun for them.
fn count<S: Store>(alloc: Global, script: &Script) -> Option<(u32, u64)> {
    let mut runs = runs_of::<S>(alloc, script, None).ok()?;
    let told = count_of(&mut runs);
    drop(runs);
    told
}

/// Says how many runs a script has over a store, and how many steps were begun for them.
fn print_count<S: Store>(rt: &HostRuntime, store: &str, script: &Script) -> io::Result<()> {
    let (runs, steps) = count::<S>(rt.alloc(), script).unwrap_or((0, 0));
    println!(rt; "{store}: {runs} runs, {steps} steps")
}

/// Writes the listing over both stores.
fn list_both<O: Out>(alloc: Global, script: &Script, out: &mut O) {
    let plain = list::<Plain, O>(alloc, script, out);
    let trail = list::<Trail, O>(alloc, script, out);
    if plain.is_none() || trail.is_none() {
        let _ = write_all(out, b"given up\n");
    }
}

/// Writes the listing of a text that asks two device commands.
pub(crate) fn run(rt: &HostRuntime) -> io::Result<()> {
    match Script::new(rt.alloc(), 0, b"load a || load b; echo $?") {
        Some(script) => {
            list_both(rt.alloc(), &script, &mut Over::new(io::writer(rt)));
            drop(script);
            Ok(())
        }
        None => println!(rt; "no memory to begin with"),
    }
}

/// Counts the runs of a script over both stores.
fn count_both(rt: &HostRuntime, script: &Script) -> io::Result<()> {
    print_count::<Plain>(rt, "plain", script)?;
    print_count::<Trail>(rt, "trail", script)
}

/// Counts the runs of 1,000 commands and then seven device commands.
pub(crate) fn run_long(rt: &HostRuntime) -> io::Result<()> {
    match Script::new(
        rt.alloc(),
        1000,
        b"load; load; load; load; load; load; load",
    ) {
        Some(script) => {
            let told = count_both(rt, &script);
            drop(script);
            told
        }
        None => println!(rt; "no memory to begin with"),
    }
}
