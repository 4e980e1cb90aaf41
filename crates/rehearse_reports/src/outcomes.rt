//! What the outcome of a device command reads and writes.
ghost use Rattle.std.specs.Prelude.{◌∷◌, ◌++◌, [], OnOk, map};
ghost use Rattle.text.specs.TextsShown.{bytes_of_words};
ghost use Rattle.device_list.specs.Called.{sets_in};
ghost use Rattle.device_list.specs.DevicesShown.{right_shown, setting_shown};
ghost use Rattle.rehearse_machine.specs.Machine.{outcome_when};
ghost use Rattle.rehearse_machine.specs.MovesShown.{request_shown};
ghost use Rattle.rehearse_reads.specs.Keys.{all_read};
ghost use Rattle.rehearse_reads.specs.Accesses.{copied_key, copied_keys, handing_reads, names_written, outcome_accesses, outcome_writes};
ghost use Rattle.rehearse_reports.specs.Reports.{Reports};
ghost use Rattle.rehearse_reports.specs.ReportsShown.{accesses_shown};

use crate::key::Key;
use crate::reported::Reported;
use bootstore_state::StoreError;
use device_list::{RightSide, Setting};
use rehearse_machine::{Ask, value_of, variable_of};
use std::alloc::Global;

/// Reports the variable that a setting writes in a call with these words. Errors: `Memory`.
fn report_setting(
    alloc: Global,
    reported: &mut Reported,
    words: &[Vec<u8>],
    set: &Setting,
) -> Result<(), StoreError>
    ensures { OnOk result (Reports (accesses_shown reported.old) (accesses_shown reported.new)
        (names_written (map (λ e. e.0)
        (sets_in (bytes_of_words words.now) (setting_shown set.now ∷ []))))) }
{
    let Some(name) = variable_of(&set.left, words) else {
        return Ok(());
    };
    let Some(_value) = value_of(&set.value, words) else {
        return Ok(());
    };
    reported.writes(Key::Environment(Vec::from_slice(alloc, name)?))?;
    Ok(())
}

/// Reports the variables that settings write in a call with these words. Errors: `Memory`.
fn report_settings(
    alloc: Global,
    reported: &mut Reported,
    words: &[Vec<u8>],
    sets: &[Setting],
) -> Result<(), StoreError>
    ensures { OnOk result (Reports (accesses_shown reported.old) (accesses_shown reported.new)
        (names_written (map (λ e. e.0)
        (sets_in (bytes_of_words words.now) (map setting_shown sets.now))))) }
{
    for set in sets {
        report_setting(alloc, reported, words, set)?;
    }
    Ok(())
}

/// Reports that the status is read that is kept for the text of a file, if the command names some. Errors: `Memory`.
fn report_handing(reported: &mut Reported, runs: &[Vec<u8>]) -> Result<(), StoreError>
    ensures { OnOk result (Reports (accesses_shown reported.old) (accesses_shown reported.new)
        (handing_reads (bytes_of_words runs.now))) }
{
    let [_first, ..] = runs else {
        return Ok(());
    };
    reported.reads(Key::Status)?;
    Ok(())
}

/// Reports that the variable is read of which a setting sets a copy. Errors: `Memory`.
fn report_copy(alloc: Global, reported: &mut Reported, set: &Setting) -> Result<(), StoreError>
    ensures { OnOk result (Reports (accesses_shown reported.old) (accesses_shown reported.new)
        (all_read (copied_key (right_shown set.now.value)))) }
{
    match &set.value {
        RightSide::CopyOf(name) => {
            reported.reads(Key::Environment(Vec::from_slice(alloc, name)?))?;
            Ok(())
        }
        RightSide::Literal(_) => Ok(()),
        RightSide::ValueAt(_) => Ok(()),
        RightSide::LastValue => Ok(()),
        RightSide::Deleted => Ok(()),
    }
}

/// Reports that the variables are read of which settings set copies. Errors: `Memory`.
fn report_copies(alloc: Global, reported: &mut Reported, sets: &[Setting]) -> Result<(), StoreError>
    ensures { OnOk result (Reports (accesses_shown reported.old) (accesses_shown reported.new)
        (all_read (copied_keys (map setting_shown sets.now)))) }
{
    for set in sets {
        report_copy(alloc, reported, set)?;
    }
    Ok(())
}

/// Reports what is read before the outcome of a command that may run these files and make these settings. Errors:
/// `Memory`.
pub(crate) fn report_early(
    alloc: Global,
    reported: &mut Reported,
    runs: &[Vec<u8>],
    sets: &[Setting],
) -> Result<(), StoreError>
    ensures { OnOk result (Reports (accesses_shown reported.old) (accesses_shown reported.new)
        (handing_reads (bytes_of_words runs.now) ++ all_read (copied_keys (map setting_shown sets.now)))) }
{
    report_handing(reported, runs)?;
    report_copies(alloc, reported, sets)
}

/// Reports what an outcome of a device command writes: the status, and on success what the settings of
/// the command say. Errors: `Memory`.
fn report_writes(
    alloc: Global,
    reported: &mut Reported,
    ask: &Ask<'_>,
    success: bool,
) -> Result<(), StoreError>
    ensures { OnOk result (Reports (accesses_shown reported.old) (accesses_shown reported.new)
        (outcome_writes (outcome_when success) (request_shown ask.now))) }
{
    reported.writes(Key::Status)?;
    if !success {
        return Ok(());
    }
    report_settings(alloc, reported, &ask.words, ask.effect.sets)
}

/// Reports what an outcome of a device command reads and writes. Errors: `Memory`.
pub(crate) fn report_outcome(
    alloc: Global,
    reported: &mut Reported,
    ask: &Ask<'_>,
    success: bool,
) -> Result<(), StoreError>
    ensures { OnOk result (Reports (accesses_shown reported.old) (accesses_shown reported.new)
        (outcome_accesses (outcome_when success) (request_shown ask.now))) }
{
    report_early(alloc, reported, ask.effect.runs, ask.effect.sets)?;
    report_writes(alloc, reported, ask, success)
}
