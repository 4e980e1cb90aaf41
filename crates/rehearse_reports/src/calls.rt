//! What the calls of commands read and write, by their fields.
ghost use Rattle.std.specs.Prelude.{◌≡◌, [], true, OnOk, option_map, Bool};
ghost use Rattle.device_list.specs.CommandsShown.{lent_effect};
ghost use Rattle.rehearse_reads.specs.Keys.{all_read};
ghost use Rattle.builtins.specs.Builtins.{builtin_of};
ghost use Rattle.builtins.specs.BuiltinsShown.{builtin_shown};
ghost use Rattle.commands.specs.ComputedShown.{computed_shown};
ghost use Rattle.text.specs.TextsShown.{bytes_of_words};
ghost use Rattle.rehearse_terms.specs.State.{State};
ghost use Rattle.rehearse_rules.specs.Execution.{Limits, Request};
ghost use Rattle.rehearse_machine.specs.MovesShown.{limits_of};
ghost use Rattle.rehearse_reads.specs.Accesses.{computed_accesses, deletion_accesses, needs_reads, setenv_accesses, told_reads};
ghost use Rattle.rehearse_frames.specs.MoveAccesses.{of_builtin, of_call, of_fields, of_listed};
ghost use Rattle.rehearse_reports.specs.Reports.{Reports, of_test};
ghost use Rattle.rehearse_reports.specs.ReportsShown.{accesses_shown};

use crate::key::Key;
use crate::outcomes::report_early;
use crate::reported::Reported;
use bootstore_state::StoreError;
use builtins::{Builtin, builtin_of};
use commands::{Computed, is_bad_name};
use device_list::{Devices, Effect};
use rehearse_machine::{asks_in, call_in, follows, question_in};
use rehearse_terms::RunBounds;
use std::alloc::Global;
use text::copied_words;

/// Reports what `setenv` writes: the variable that its first word names. Errors: `Memory`.
fn report_setenv(
    alloc: Global,
    reported: &mut Reported,
    words: &[Vec<u8>],
) -> Result<(), StoreError>
    ensures { OnOk result (Reports (accesses_shown reported.old) (accesses_shown reported.new)
        (setenv_accesses (bytes_of_words words.now))) }
{
    let [name, ..] = words else {
        return Ok(());
    };
    if is_bad_name(name) {
        return Ok(());
    }
    reported.writes(Key::Environment(Vec::from_slice(alloc, name)?))?;
    Ok(())
}

/// Reports what `env delete` reads and writes: each variable is read before it is deleted. Errors:
/// `Memory`.
fn report_deletions(
    alloc: Global,
    reported: &mut Reported,
    names: &[Vec<u8>],
) -> Result<(), StoreError>
    ensures { OnOk result (Reports (accesses_shown reported.old) (accesses_shown reported.new)
        (deletion_accesses (bytes_of_words names.now))) }
{
    for name in names {
        reported.reads(Key::Environment(Vec::from_slice(alloc, name)?))?;
        reported.writes(Key::Environment(Vec::from_slice(alloc, name)?))?;
    }
    Ok(())
}

/// Reports what a computed call reads and writes. Errors: `Memory`.
fn report_computed(
    alloc: Global,
    reported: &mut Reported,
    computed: Computed<'_>,
) -> Result<(), StoreError>
    ensures { OnOk result (Reports (accesses_shown reported.old) (accesses_shown reported.new)
        (computed_accesses (computed_shown computed.entry))) }
{
    match computed {
        Computed::Gives(_) => Ok(()),
        Computed::Exists(name) => {
            reported.reads(Key::Environment(Vec::from_slice(alloc, name)?))?;
            Ok(())
        }
        Computed::Sets(words) => report_setenv(alloc, reported, words),
        Computed::Deletes(names) => report_deletions(alloc, reported, names),
        Computed::SetsNumber(name, _) => {
            reported.writes(Key::Environment(Vec::from_slice(alloc, name)?))?;
            Ok(())
        }
    }
}

/// Reports that a device command reads the answer that stays for it, if its answers may stay. Errors:
/// `Memory`.
fn report_told(
    alloc: Global,
    reported: &mut Reported,
    name: &[u8],
    words: &[Vec<u8>],
    stays: bool,
) -> Result<(), StoreError>
    ensures { (request : Request) → request.name ≡ name.now → request.words ≡ bytes_of_words words.now
        → (request.effect.stays ≡ true → stays ≡ true)
        → OnOk result (Reports (accesses_shown reported.old) (accesses_shown reported.new)
        (all_read (told_reads request))) }
{
    if !stays {
        return Ok(());
    }
    let mut call = copied_words(alloc, words)?;
    call.insert(0, Vec::from_slice(alloc, name)?)?;
    reported.reads(Key::AnswerTo(call))?;
    Ok(())
}

/// Reports that a command reads whether the call that it needs has succeeded, if it needs one. Errors:
/// `Memory`.
fn report_needs(alloc: Global, reported: &mut Reported, needs: &[Vec<u8>]) -> Result<(), StoreError>
    ensures { OnOk result (Reports (accesses_shown reported.old) (accesses_shown reported.new)
        (all_read (needs_reads (bytes_of_words needs.now)))) }
{
    if needs.is_empty() {
        return Ok(());
    }
    let call = copied_words(alloc, needs)?;
    reported.reads(Key::Succeeded(call))?;
    Ok(())
}

/// Reports what a command of the device list reads. Errors: `Memory`.
fn report_listed(
    alloc: Global,
    reported: &mut Reported,
    name: &[u8],
    words: &[Vec<u8>],
    effect: Effect<'_>,
) -> Result<(), StoreError>
    ensures { (limits : Limits) (s : State) → OnOk result (Reports (accesses_shown reported.old)
        (accesses_shown reported.new) (of_listed limits name.now (bytes_of_words words.now)
        (lent_effect effect.entry) s)) }
{
    report_needs(alloc, reported, effect.needs)?;
    report_told(alloc, reported, name, words, effect.stays)?;
    report_early(alloc, reported, effect.runs, effect.sets)
}

/// Reports what `test` reads: the answer about the file that it asks for, if the answers stay. Errors:
/// `Memory`.
fn report_test(
    alloc: Global,
    reported: &mut Reported,
    devices: &Devices,
    bounds: RunBounds,
    name: &[u8],
    words: &[Vec<u8>],
) -> Result<(), StoreError>
    ensures { (s : State) → OnOk result (Reports (accesses_shown reported.old)
        (accesses_shown reported.new) (of_test (limits_of devices.now bounds) name.now
        (bytes_of_words words.now) s)) }
{
    if !asks_in(bounds.shell(), words) {
        return Ok(());
    }
    let question = question_in(alloc, bounds.shell(), words)?;
    report_told(alloc, reported, name, &question, devices.test_stays())
}

/// Reports what a call of a built-in command reads and writes. Errors: `Memory`.
fn report_builtin(
    alloc: Global,
    reported: &mut Reported,
    devices: &Devices,
    bounds: RunBounds,
    builtin: Builtin,
    name: &[u8],
    words: &[Vec<u8>],
) -> Result<(), StoreError>
    ensures { (again : Bool) (s : State) → OnOk result (Reports (accesses_shown reported.old)
        (accesses_shown reported.new) (of_builtin (limits_of devices.now bounds) again
        (builtin_shown builtin) name.now (bytes_of_words words.now) [] s)) }
{
    match builtin {
        Builtin::SetEnv => report_setenv(alloc, reported, words),
        Builtin::Test => report_test(alloc, reported, devices, bounds, name, words),
        Builtin::Run => Ok(()),
        Builtin::Echo => Ok(()),
        Builtin::True => Ok(()),
        Builtin::False => Ok(()),
        Builtin::Leave => Ok(()),
    }
}

/// Reports what the command of a name reads and writes, which is this built-in command if it is one.
/// Errors: `Memory`.
fn report_named(
    alloc: Global,
    reported: &mut Reported,
    devices: &Devices,
    bounds: RunBounds,
    builtin: Option<Builtin>,
    name: &[u8],
    words: &[Vec<u8>],
) -> Result<(), StoreError>
    requires { option_map builtin_shown builtin ≡ builtin_of name.now }
    ensures { (again : Bool) (s : State) → OnOk result (Reports (accesses_shown reported.old)
        (accesses_shown reported.new) (of_call (limits_of devices.now bounds) again name.now
        (bytes_of_words words.now) [] s)) }
{
    if let Some(computed) = devices.computed(name, words) {
        return report_computed(alloc, reported, computed);
    }
    if let Some(builtin) = builtin {
        return report_builtin(alloc, reported, devices, bounds, builtin, name, words);
    }
    match devices.effect(name, words) {
        Some(effect) => report_listed(alloc, reported, name, words, effect),
        None => Ok(()),
    }
}

/// Reports what the command that fields name reads and writes, if the shell's call of it is followed.
/// Errors: `Memory`.
pub(crate) fn report_fields(
    alloc: Global,
    reported: &mut Reported,
    devices: &Devices,
    bounds: RunBounds,
    fields: &[Vec<u8>],
) -> Result<(), StoreError>
    ensures { (again : Bool) (s : State) → OnOk result (Reports (accesses_shown reported.old)
        (accesses_shown reported.new) (of_fields (limits_of devices.now bounds) again []
        (bytes_of_words fields.now) s)) }
{
    let Some((name, words)) = fields.split_first() else {
        return Ok(());
    };
    let call = call_in(bounds.shell(), name, words, builtin_of(name));
    if !follows(bounds.shell(), devices, call.builtin, call.name, call.words) {
        return Ok(());
    }
    report_named(
        alloc,
        reported,
        devices,
        bounds,
        call.builtin,
        call.name,
        call.words,
    )
}
