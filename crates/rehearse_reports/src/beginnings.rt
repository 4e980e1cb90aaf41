//! What commands read and write as they begin.
ghost use Rattle.std.specs.Prelude.{◌≡◌, [], OnOk, map};
ghost use Rattle.std.specs.List.{flat_map};
ghost use Rattle.hushlang.specs.TreesShown as view;
ghost use Rattle.hushlang.specs.Tree as tree;
ghost use Rattle.bootstore_state.specs.StoredState.{state_at};
ghost use Rattle.rehearse_machine.specs.MovesShown.{limits_of};
ghost use Rattle.rehearse_reads.specs.Keys.{all_read};
ghost use Rattle.rehearse_reads.specs.Accesses.{local_accesses, word_reads};
ghost use Rattle.rehearse_frames.specs.MoveAccesses.{of_command};
ghost use Rattle.rehearse_reports.specs.Reports.{Reports, memory_at};
ghost use Rattle.rehearse_reports.specs.ReportsShown.{accesses_shown};

use crate::calls::report_fields;
use crate::key::Key;
use crate::reported::Reported;
use crate::words::{report_word, report_words};
use bootstore_state::{Store, StoreError};
use device_list::Devices;
use hushlang::{Call, Command, Fields, Word};
use rehearse_machine::{assigned_value, expanded, is_refused};
use rehearse_terms::{RunBounds, Shell};
use std::alloc::Global;

/// Reports what a simple command reads and writes, if a step is left for it. Errors: `Memory`.
fn report_call<S: Store>(
    alloc: Global,
    reported: &mut Reported,
    store: &S,
    fields: &mut Fields,
    devices: &Devices,
    bounds: RunBounds,
    call: &Call,
) -> Result<(), StoreError>
    ensures { OnOk result (Reports (accesses_shown reported.old) (accesses_shown reported.new)
        (of_command (limits_of devices.now bounds) (tree.Simple (view.call call.now)) []
        (state_at (S.record_of store.now).present []))) }
{
    if store.steps() >= bounds.steps() {
        return Ok(());
    }
    report_words(alloc, reported, store, call.words())?;
    if let Some(known) = call.fields() {
        return report_fields(alloc, reported, devices, bounds, known.as_slice());
    }
    let fit = expanded(alloc, fields, store, bounds.shell(), call.words())?;
    if !fit {
        return Ok(());
    }
    report_fields(alloc, reported, devices, bounds, fields.as_slice())
}

/// Reports that a shell variable is written, unless the shell refuses the value. Errors: `Memory`.
fn report_local(
    alloc: Global,
    reported: &mut Reported,
    shell: Shell,
    name: &[u8],
    value: &[u8],
) -> Result<(), StoreError>
    ensures { OnOk result (Reports (accesses_shown reported.old) (accesses_shown reported.new)
        (local_accesses shell name.now value.now)) }
{
    if is_refused(shell, value) {
        return Ok(());
    }
    reported.writes(Key::Local(Vec::from_slice(alloc, name)?))?;
    Ok(())
}

/// Reports what the words of assigned values read. Errors: `Memory`.
fn report_values<S: Store>(
    alloc: Global,
    reported: &mut Reported,
    store: &S,
    values: &[(Vec<u8>, Word)],
) -> Result<(), StoreError>
    ensures { OnOk result (Reports (accesses_shown reported.old) (accesses_shown reported.new)
        (all_read (flat_map (λ v. word_reads (memory_at (S.record_of store.now).present)
        (view.word v.1)) values.now))) }
{
    for value in values {
        report_word(alloc, reported, store, &value.1)?;
    }
    Ok(())
}

/// Reports what assignments read and write, if a step is left for them. Of the variables only the
/// first is reported as written: the values after it may depend on it. Errors: `Memory`.
fn report_assign<S: Store>(
    alloc: Global,
    reported: &mut Reported,
    store: &S,
    bounds: RunBounds,
    devices: &Devices,
    values: &[(Vec<u8>, Word)],
) -> Result<(), StoreError>
    ensures { OnOk result (Reports (accesses_shown reported.old) (accesses_shown reported.new)
        (of_command (limits_of devices.now bounds) (tree.Assign (map view.value values.now)) []
        (state_at (S.record_of store.now).present []))) }
{
    let _devices = devices;
    if store.steps() >= bounds.steps() {
        return Ok(());
    }
    let Some((first, rest)) = values.split_first() else {
        return Ok(());
    };
    report_word(alloc, reported, store, &first.1)?;
    let Some(value) = assigned_value(alloc, store, bounds.shell(), &first.1)? else {
        return Ok(());
    };
    report_local(alloc, reported, bounds.shell(), &first.0, &value)?;
    report_values(alloc, reported, store, rest)
}

/// Reports what a command reads and writes as it begins. Errors: `Memory`.
pub(crate) fn report_command<S: Store>(
    alloc: Global,
    reported: &mut Reported,
    store: &S,
    fields: &mut Fields,
    devices: &Devices,
    bounds: RunBounds,
    command: &Command,
) -> Result<(), StoreError>
    ensures { OnOk result (Reports (accesses_shown reported.old) (accesses_shown reported.new)
        (of_command (limits_of devices.now bounds) (view.command command.now) []
        (state_at (S.record_of store.now).present []))) }
{
    match command {
        Command::Simple(call) => {
            report_call(alloc, reported, store, fields, devices, bounds, call)
        }
        Command::Assign(values) => {
            report_assign(alloc, reported, store, bounds, devices, values)
        }
        Command::For {
            name: _,
            words,
            body: _,
        } => report_words(alloc, reported, store, words),
        Command::If { .. } => Ok(()),
        Command::Loop { .. } => Ok(()),
    }
}
