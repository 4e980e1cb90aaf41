//! How a run ends, and what is unexpected in it.
ghost use Rattle.std.specs.Prelude.{◌≡◌, ◌++◌, IfOk, OnOk, codes, decimal, map, filter, length, nat_le, not, ◌&&◌};
ghost use Rattle.std.specs.List.{list_all};
ghost use Rattle.rehearse_rules.specs.EndingsShown.{ending_shown, halt_shown};
ghost use Rattle.rehearse_rules.specs.Listing.{line, last_line};
ghost use Rattle.rehearse_terms.specs.State.{same_words};
ghost use Rattle.rehearse_records.specs.RunViewShown.{shown_ending, shown_moment};
ghost use Rattle.rehearse_states.specs.EndingLines.{fails_lines};
ghost use Rattle.rehearse_rules.specs.Expected.{asked_in, is_unexpected, unexpected_of};
ghost use Rattle.rehearse_causes.specs.Causes.{are_among, calls, covers, times};
ghost use Rattle.rehearse_causes.specs.CauseLines.{cause_line, cause_lines, causes_text, is_booted};
ghost use Rattle.rehearse_causes.specs.Numbers.{cause_number, part_numbers};
ghost use Rattle.text.specs.TextsShown.{bytes_of_words};

use crate::number::{fails_number, part_numbers};
use bootstore_state::{LogEntry, Store, StoreError};
use device_list::{BoardEnd, Devices};
use rehearse_machine::is_unexpected;
use rehearse_rules::{Ending, Halt};
use rehearse_runs::RunView;
use rehearse_states::{put_ending, put_fail, put_number, same_halt};
use std::alloc::Global;
use std::marker::Model;

/// How a run ends, and the device commands whose answers are unexpected in it.
#[derive(Drop)]
pub struct Cause {
    halt: Halt,
    fails: Vec<LogEntry>,
}

impl Model for Cause {
    ghost use Rattle.std.specs.Prelude.{map};
    ghost use Rattle.rehearse_rules.specs.EndingsShown.{halt_shown};
    ghost use Rattle.rehearse_causes.specs.Causes.{Cause};

    ghost Value = { Cause };

    ghost view = { λ cause. record {
      ending = halt_shown cause.halt;
      fails = map (λ entry. (entry.success, entry.words)) cause.fails.items;
    } };
}

/// A copy of how a run ends that owns its name. Errors: `Memory`.
fn halt_of(alloc: Global, ending: Ending<'_>) -> Result<Halt, StoreError>
    ensures { IfOk result (λ halt. halt_shown halt ≡ ending_shown ending.entry) }
{
    Ok(match ending {
        Ending::End(status) => Halt::End(status),
        Ending::CutDevices => Halt::CutDevices,
        Ending::CutSteps => Halt::CutSteps,
        Ending::Unknown(name) => Halt::Unknown(Vec::from_slice(alloc, name)?),
        Ending::Syntax(name) => Halt::Syntax(Vec::from_slice(alloc, name)?),
        Ending::Unsupported(name) => Halt::Unsupported(Vec::from_slice(alloc, name)?),
        Ending::Panic(name) => Halt::Panic(Vec::from_slice(alloc, name)?),
        Ending::Size => Halt::Size,
        Ending::Finished(finish, name) => Halt::Finished(finish, Vec::from_slice(alloc, name)?),
    })
}

/// Copies of the device commands of a log whose answers are unexpected. One that is given an answer is left
/// out. Errors: `Memory`.
fn failing(alloc: Global, devices: &Devices, log: &[LogEntry]) -> Result<Vec<LogEntry>, StoreError>
    ensures { IfOk result (λ fails. fails.items ≡ filter (λ entry. not entry.again
        && is_unexpected devices.now (entry.success, entry.words)) log.now) }
{
    let mut fails = Vec::new(alloc);
    for entry in log {
        if is_unexpected(devices, entry) {
            fails.push(entry.copy()?)?;
        }
    }
    Ok(fails)
}

/// Whether two commands have the same words.
fn is_same(one: &[Vec<u8>], other: &[Vec<u8>]) -> bool
    ensures { result ≡ same_words (bytes_of_words one.now) (bytes_of_words other.now) }
{
    one == other
}

/// How often a command is among others.
fn times(command: &[Vec<u8>], commands: &[LogEntry]) -> usize
    ensures { result ≡ length (filter (λ entry. same_words (bytes_of_words command.now) entry.words)
        commands.now) }
{
    commands
        .iter()
        .filter(|entry| is_same(command, &entry.words))
        .count()
}

/// Whether a command is among the first ones at most as often as among the others.
fn is_within(entry: &LogEntry, fewer: &[LogEntry], more: &[LogEntry]) -> bool
    ensures { result ≡ nat_le (times entry.now.words (map (λ e. e.words) fewer.now))
        (times entry.now.words (map (λ e. e.words) more.now)) }
{
    times(&entry.words, fewer) <= times(&entry.words, more)
}

/// Whether each of the first is among the others at least as often.
fn are_among(fewer: &[LogEntry], more: &[LogEntry]) -> bool
    ensures { result ≡ list_all (λ entry. nat_le (times entry.words (map (λ e. e.words) fewer.now))
        (times entry.words (map (λ e. e.words) more.now))) fewer.now }
{
    fewer.iter().all(|entry| is_within(entry, fewer, more))
}

/// Adds the lines of device commands with their answers. Errors: `Memory`.
fn put_fails(text: &mut Vec<u8>, fails: &[LogEntry]) -> Result<(), StoreError>
    ensures { OnOk result (text.new.items
        ≡ text.old.items ++ fails_lines (map (λ e. (e.success, e.words)) fails.now)) }
{
    for entry in fails {
        put_fail(text, entry.success, &entry.words)?;
    }
    Ok(())
}

impl Cause {
    /// How the run of a view ends, and what is unexpected in it. Errors: `Memory`.
    pub fn of<S: Store>(
        alloc: Global,
        devices: &Devices,
        view: &RunView<'_, S>,
    ) -> Result<Cause, StoreError>
        ensures { IfOk result (λ cause. cause ≡ record {
          ending = shown_ending view.now;
          fails = unexpected_of devices.now (asked_in (shown_moment S.Store view.now).log);
        }) }
    {
        let halt = halt_of(alloc, view.ending())?;
        let fails = failing(alloc, devices, view.log())?;
        Ok(Cause { halt, fails })
    }

    /// Whether the other one has the same ending, and all that is unexpected here is unexpected there too.
    pub fn covers(&self, other: &Cause) -> bool
        ensures { result ≡ covers self.now other.now }
    {
        same_halt(&self.halt, &other.halt) && are_among(&self.fails, &other.fails)
    }

    /// How many answers are unexpected.
    pub(crate) fn count(&self) -> usize
        ensures { result ≡ length self.now.fails }
    {
        self.fails.len()
    }

    /// Its number, which only depends on what fails.
    pub(crate) fn number(&self) -> u64
        ensures { result ≡ cause_number self.now }
    {
        fails_number(&self.fails)
    }

    /// The number of each part of what fails. Errors: `Memory`.
    pub(crate) fn part_numbers(&self, alloc: Global) -> Result<Vec<u64>, StoreError>
        ensures { IfOk result (λ made. made.items ≡ part_numbers (calls self.now)) }
    {
        part_numbers(alloc, &self.fails)
    }

    /// Whether the run boots.
    pub fn is_booted(&self) -> bool
        ensures { result ≡ is_booted self.now.ending }
    {
        matches!(self.halt, Halt::Finished(BoardEnd::Boots, _))
    }

    /// Adds its lines to a text. Errors: `Memory`.
    pub fn put(&self, text: &mut Vec<u8>) -> Result<(), StoreError>
        ensures { OnOk result (text.new.items ≡ text.old.items ++ cause_lines self.now) }
    {
        text.extend_from_slice(b"cause ")?;
        put_number(text, self.fails.len() as u128)?;
        text.extend_from_slice(b" ")?;
        put_ending(text, &self.halt)?;
        text.extend_from_slice(b"\n")?;
        put_fails(text, &self.fails)
    }
}
