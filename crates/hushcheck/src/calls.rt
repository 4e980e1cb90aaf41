//! What is found in the calls of a script.
ghost use Rattle.std.specs.Prelude.{◌≡◌, map, option_map, IfOk, OnOk};
ghost use Rattle.std.specs.List.{fold};
ghost use Rattle.std.specs.Option.{option_copied};
ghost use Rattle.hushlang.specs.TreesShown as view;
ghost use Rattle.hushcheck.specs.CallSetsShown.{names_shown};
ghost use Rattle.hushcheck.specs.Calls as spec;
ghost use Rattle.hushcheck.specs.Names as names;
ghost use Rattle.hushcheck.specs.Remarks as shown;

use crate::reading::{Reading, word_places};
use crate::remark::{Found, Read};
use crate::walk::{is_run, written_out};
use device_list::Devices;
use hushlang::{AndOr, Command, Script, Word};
use std::alloc::{AllocError, Global};
use std::rc::Rc;

/// What is found in the calls of a text.
#[derive(Drop)]
pub(crate) struct Calls {
    /// What is to be reported, in the order of the text.
    pub(crate) found: Vec<Found>,
    /// Whether the device list lacks a command.
    pub(crate) lacks: bool,
    /// The variables that the text reads, in its order.
    pub(crate) reads: Vec<Read>,
    /// The names of the variables that it sets.
    pub(crate) sets: Vec<Vec<u8>>,
    /// The names of the variables that it deletes.
    pub(crate) deletes: Vec<Vec<u8>>,
    /// Whether it may set or delete others.
    pub(crate) more: bool,
    /// The files whose texts run after its calls, in its order.
    pub(crate) files: Vec<Vec<u8>>,
}

/// Reads a name that `run` is given. Errors: memory ran out.
fn read_operand(alloc: Global, word: &Word, reading: &mut Reading<'_>) -> Result<(), AllocError>
    ensures { OnOk result (reading.new
        ≡ spec.after_operand reading.old (view.word word.now)) }
{
    if written_out(alloc, word)?.is_none() {
        reading.find_not_followed()?;
    }
    reading.pass(alloc, word)
}

/// Reads the names that `run` is given. Errors: memory ran out.
fn read_operands(alloc: Global, words: &[Word], reading: &mut Reading<'_>) -> Result<(), AllocError>
    ensures { OnOk result (reading.new
        ≡ fold spec.after_operand reading.old (map view.word words.now)) }
{
    for word in words {
        read_operand(alloc, word, reading)?;
    }
    Ok(())
}

/// Looks a command up, if its name is written out. Errors: memory ran out.
fn read_name(
    alloc: Global,
    name: Option<&[u8]>,
    reading: &mut Reading<'_>,
) -> Result<(), AllocError>
    ensures { OnOk result (reading.new
        ≡ spec.after_name reading.old (option_copied name.entry)) }
{
    match name {
        Some(name) => reading.find_if_lacking(alloc, name),
        None => Ok(()),
    }
}

/// Passes over words, and keeps what they read. Errors: memory ran out.
fn pass_words(alloc: Global, words: &[Word], reading: &mut Reading<'_>) -> Result<(), AllocError>
    ensures { OnOk result (reading.new
        ≡ fold spec.after_word reading.old (map view.word words.now)) }
{
    for word in words {
        reading.pass(alloc, word)?;
    }
    Ok(())
}

/// Reads a call that is not of `run`. Errors: memory ran out.
fn read_call(
    alloc: Global,
    first: &Word,
    operands: &[Word],
    reading: &mut Reading<'_>,
) -> Result<(), AllocError>
    ensures { OnOk result (reading.new
        ≡ spec.after_call reading.old (view.word first.now) (map view.word operands.now)) }
{
    let name = written_out(alloc, first)?;
    let name = name.as_deref();
    read_name(alloc, name, reading)?;
    reading.keep_call(alloc, name, operands)?;
    reading.pass(alloc, first)?;
    pass_words(alloc, operands, reading)
}

/// Reads assignments. Errors: memory ran out.
fn read_values(
    alloc: Global,
    values: &[(Vec<u8>, Word)],
    reading: &mut Reading<'_>,
) -> Result<(), AllocError>
    ensures { OnOk result (reading.new
        ≡ fold spec.after_value reading.old (map view.value values.now)) }
{
    for (name, word) in values {
        reading.set(alloc, name)?;
        reading.pass(alloc, word)?;
    }
    Ok(())
}

/// Reads the words of a call. Errors: memory ran out.
fn read_words(alloc: Global, words: &[Word], reading: &mut Reading<'_>) -> Result<(), AllocError>
    ensures { OnOk result (reading.new
        ≡ spec.after_words reading.old (map view.word words.now)) }
{
    let Some((first, operands)) = words.split_first() else {
        return Ok(());
    };
    if is_run(alloc, first)? {
        reading.skip(1);
        return read_operands(alloc, operands, reading);
    }
    read_call(alloc, first, operands, reading)
}

/// Reads a script. Errors: memory ran out.
#[cycle(calls)]
fn read_script(alloc: Global, script: &Script, reading: &mut Reading<'_>) -> Result<(), AllocError>
    ensures { OnOk result (reading.new ≡ spec.after_script reading.old (view.script script.now)) }
{
    for list in &script.lists {
        read_list(alloc, list, reading)?;
    }
    Ok(())
}

/// Reads a command, and the commands joined to it. Errors: memory ran out.
#[cycle(calls)]
fn read_list(alloc: Global, list: &AndOr, reading: &mut Reading<'_>) -> Result<(), AllocError>
    ensures { OnOk result (reading.new ≡ spec.after_list reading.old (view.list list.now)) }
{
    read_command(alloc, &list.first, reading)?;
    for joined in &list.rest {
        read_command(alloc, &joined.1, reading)?;
    }
    Ok(())
}

/// Reads a command. Errors: memory ran out.
#[cycle(calls)]
fn read_command(
    alloc: Global,
    command: &Command,
    reading: &mut Reading<'_>,
) -> Result<(), AllocError>
    ensures { OnOk result (reading.new
        ≡ spec.after_command reading.old (view.command command.now)) }
{
    match command {
        Command::Simple(call) => read_words(alloc, call.words(), reading),
        Command::Assign(values) => read_values(alloc, values, reading),
        Command::If { arms, other } => {
            read_arms(alloc, arms, reading)?;
            match other {
                Some(body) => {
                    reading.skip(1);
                    read_script(alloc, body, reading)?;
                }
                None => {}
            }
            reading.skip(1);
            Ok(())
        }
        Command::Loop { cond, body, .. } => {
            reading.skip(1);
            read_script(alloc, cond, reading)?;
            reading.skip(1);
            read_script(alloc, body, reading)?;
            reading.skip(1);
            Ok(())
        }
        Command::For { name, words, body } => {
            reading.set(alloc, name)?;
            reading.skip(3);
            pass_words(alloc, words, reading)?;
            reading.skip(1);
            read_script(alloc, body, reading)?;
            reading.skip(1);
            Ok(())
        }
    }
}

/// Reads conditions and their blocks. Errors: memory ran out.
#[cycle(calls)]
fn read_arms(
    alloc: Global,
    arms: &[(Rc<Script>, Rc<Script>)],
    reading: &mut Reading<'_>,
) -> Result<(), AllocError>
    ensures { OnOk result (reading.new
        ≡ fold spec.after_arm reading.old (map view.arm arms.now)) }
{
    for (cond, body) in arms {
        reading.skip(1);
        read_script(alloc, cond, reading)?;
        reading.skip(1);
        read_script(alloc, body, reading)?;
    }
    Ok(())
}

/// What is found in the calls of a text, which is this script. Errors: memory ran out.
pub(crate) fn calls_of(
    alloc: Global,
    devices: Option<&Devices>,
    text: &[u8],
    script: &Script,
) -> Result<Calls, AllocError>
    ensures found { IfOk result (λ calls. shown.all_found calls.found.items
        ≡ (spec.calls_of (option_map (λ d. d.now) devices.entry) text.now
        (view.script script.now)).found) }
    ensures lacks { IfOk result (λ calls. calls.lacks
        ≡ (spec.calls_of (option_map (λ d. d.now) devices.entry) text.now
        (view.script script.now)).lacks) }
    ensures reads { IfOk result (λ calls. shown.all_read calls.reads.items
        ≡ (spec.calls_of (option_map (λ d. d.now) devices.entry) text.now
        (view.script script.now)).reads) }
    ensures sets { IfOk result (λ calls. names_shown calls.sets.items
        ≡ (spec.calls_of (option_map (λ d. d.now) devices.entry) text.now
        (view.script script.now)).sets) }
    ensures deletes { IfOk result (λ calls. names_shown calls.deletes.items
        ≡ (spec.calls_of (option_map (λ d. d.now) devices.entry) text.now
        (view.script script.now)).deletes) }
    ensures more { IfOk result (λ calls. calls.more
        ≡ (spec.calls_of (option_map (λ d. d.now) devices.entry) text.now
        (view.script script.now)).more) }
    ensures files { IfOk result (λ calls. names_shown calls.files.items
        ≡ (spec.calls_of (option_map (λ d. d.now) devices.entry) text.now
        (view.script script.now)).files) }
{
    let places = word_places(alloc, text)?;
    let mut reading = Reading::new(alloc, devices, &places);
    read_script(alloc, script, &mut reading)?;
    let Reading {
        found,
        lacks,
        reads,
        sets,
        deletes,
        more,
        files,
        ..
    } = reading;
    Ok(Calls {
        found,
        lacks,
        reads,
        sets,
        deletes,
        more,
        files,
    })
}
