//! The lines that say how runs end.
ghost use Rattle.std.specs.Prelude.{◌≡◌, ◌++◌, map, min, codes, decimal, IfOk, OnOk};
ghost use Rattle.std.specs.List.{flat_map};
ghost use Rattle.text.specs.Escapes.{word_escaped, word_form};
ghost use Rattle.rehearse_rules.specs.Listing.{line, last_line, outcome_digit, spelled};
ghost use Rattle.rehearse_rules.specs.EndingsShown.{halt_shown};
ghost use Rattle.rehearse_rules.specs.Execution.{outcome_when};
ghost use Rattle.rehearse_states.specs.EndingLines.{count_text, lines_below, row_lines, row_text, endings_text, counted};
ghost use Rattle.rehearse_states.specs.Drawing.{failing_on, nodes_shown};
ghost use Rattle.rehearse_states.specs.RowsShown.{most_runs, row_shown, rows_shown};

use crate::fail_lines::put_fails;
use crate::flow::Node;
use crate::rows::Row;
use crate::run_word::RunWord;
use crate::value_lines::put_values;
use bootstore_state::StoreError;
use device_list::Devices;
use rehearse_rules::{Halt, finish_word};
use std::alloc::Global;
use text::Escaped;

/// Adds bytes at the end of a text.
pub(crate) fn put(text: &mut Vec<u8>, bytes: &[u8]) -> Result<(), StoreError>
    ensures { OnOk result (text.new.items ≡ text.old.items ++ bytes.now) }
{
    text.extend_from_slice(bytes)?;
    Ok(())
}

/// Adds a number at the end of a text.
pub fn put_number(text: &mut Vec<u8>, number: u128) -> Result<(), StoreError>
    ensures { OnOk result (text.new.items ≡ text.old.items ++ decimal number) }
{
    let mut digits = itoa::Buffer::new();
    put(text, digits.format(number).as_bytes())
}

/// Adds a number of runs.
fn put_count(text: &mut Vec<u8>, count: u128) -> Result<(), StoreError>
    ensures { OnOk result (text.new.items ≡ text.old.items ++ count_text count) }
{
    if count == u128::MAX {
        put(text, b">=")?;
    }
    put_number(text, count)
}

/// Adds the digit of each outcome.
fn put_outcomes(text: &mut Vec<u8>, outcomes: &[bool]) -> Result<(), StoreError>
    ensures { OnOk result (text.new.items
        ≡ text.old.items ++ map outcome_digit (map outcome_when outcomes.now)) }
{
    for success in outcomes {
        text.push(if *success { b'0' } else { b'1' })?;
    }
    Ok(())
}

/// Adds the digits of outcomes, or a dot if there are none.
fn put_digits(text: &mut Vec<u8>, outcomes: &[bool]) -> Result<(), StoreError>
    ensures { OnOk result (text.new.items
        ≡ text.old.items ++ spelled (map outcome_when outcomes.now)) }
{
    if outcomes.is_empty() {
        return put(text, b".");
    }
    put_outcomes(text, outcomes)
}

/// Adds the digits of a word, or a dot for the empty word.
fn put_run_word(alloc: Global, text: &mut Vec<u8>, word: &RunWord) -> Result<(), StoreError>
    ensures { OnOk result (text.new.items ≡ text.old.items ++ spelled word.now) }
{
    let outcomes = word.outcomes(alloc)?;
    put_digits(text, &outcomes)?;
    Ok(())
}

/// Adds bytes in word form.
pub(crate) fn put_word(text: &mut Vec<u8>, word: &[u8]) -> Result<(), StoreError>
    ensures { OnOk result (text.new.items ≡ text.old.items ++ word_form word.now) }
{
    if word.is_empty() {
        return put(text, b"\\e");
    }
    for byte in word {
        put(text, Escaped::in_word(*byte).as_slice())?;
    }
    Ok(())
}

/// Adds the last line of the record of a run with this ending.
pub fn put_ending(text: &mut Vec<u8>, halt: &Halt) -> Result<(), StoreError>
    ensures { OnOk result (text.new.items ≡ text.old.items ++ last_line (halt_shown halt.now)) }
{
    match halt {
        Halt::End(status) => {
            put(text, b"end ")?;
            put_number(text, u128::from(*status))
        }
        Halt::CutDevices => put(text, b"cut devices"),
        Halt::CutSteps => put(text, b"cut steps"),
        Halt::Unknown(name) => {
            put(text, b"stop unknown ")?;
            put_word(text, name)
        }
        Halt::Syntax(name) => {
            put(text, b"stop syntax ")?;
            put_word(text, name)
        }
        Halt::Unsupported(name) => {
            put(text, b"stop unsupported ")?;
            put_word(text, name)
        }
        Halt::Panic(name) => {
            put(text, b"stop panic ")?;
            put_word(text, name)
        }
        Halt::Size => put(text, b"stop size"),
        Halt::Finished(finish, name) => {
            put(text, finish_word(*finish))?;
            put_word(text, name)
        }
    }
}

/// Adds the line of an ending without its line end.
pub fn put_row(alloc: Global, text: &mut Vec<u8>, row: &Row) -> Result<(), StoreError>
    ensures { OnOk result (text.new.items ≡ text.old.items ++ row_text (row_shown row.now)) }
{
    put(text, b"ends ")?;
    put_count(text, row.count)?;
    put(text, b" first ")?;
    put_run_word(alloc, text, &row.word)?;
    put(text, b" fewest ")?;
    put_number(text, row.unexpected as u128)?;
    put(text, b" ")?;
    put_run_word(alloc, text, row.fewest_word())?;
    put(text, b" ")?;
    put_ending(text, &row.run_end.halt)
}

/// Adds the lines below that of an ending: the values that its runs leave, and the unexpected answers of the run
/// with the fewest.
pub fn put_below(
    alloc: Global,
    text: &mut Vec<u8>,
    names: &[&[u8]],
    devices: &Devices,
    nodes: &Vec<Node>,
    row: &Row,
) -> Result<(), StoreError>
    ensures { OnOk result (text.new.items ≡ text.old.items ++ lines_below (map (λ n. n.now) names.now)
        (failing_on devices.now (nodes_shown nodes.now)) (row_shown row.now)) }
{
    put_values(text, names, &row.run_end.values)?;
    let outcomes = row.fewest_word().outcomes(alloc)?;
    put_fails(text, devices, nodes, &outcomes, 1)?;
    Ok(())
}

/// Adds the lines of an ending: how many runs have it, and the lines below it.
fn put_lines(
    alloc: Global,
    text: &mut Vec<u8>,
    names: &[&[u8]],
    devices: &Devices,
    nodes: &Vec<Node>,
    row: &Row,
) -> Result<(), StoreError>
    ensures { OnOk result (text.new.items ≡ text.old.items ++ row_lines (map (λ n. n.now) names.now)
        (failing_on devices.now (nodes_shown nodes.now)) (row_shown row.now)) }
{
    put_row(alloc, text, row)?;
    put(text, b"\n")?;
    put_below(alloc, text, names, devices, nodes, row)
}

/// How many runs there are in all, or the greatest number if that is smaller.
fn total(rows: &Vec<Row>) -> u128
    ensures { result ≡ min (counted (rows_shown rows.now)) most_runs }
{
    let mut count: u128 = 0;
    for row in rows {
        count = count.saturating_add(row.count);
    }
    count
}

/// The lines of all endings, and one for all runs. `names` are the variables whose values the rows
/// have. The nodes are the flow of these runs, by which it finds the commands that fail.
pub fn text_of(
    alloc: Global,
    names: &[&[u8]],
    devices: &Devices,
    rows: &Vec<Row>,
    nodes: &Vec<Node>,
    states: u32,
) -> Result<Vec<u8>, StoreError>
    ensures { IfOk result (λ text. text.items ≡ endings_text (map (λ n. n.now) names.now)
        (failing_on devices.now (nodes_shown nodes.now)) (rows_shown rows.now) (counted (rows_shown rows.now)) states) }
{
    let mut text = Vec::new(alloc);
    for row in rows {
        put_lines(alloc, &mut text, names, devices, nodes, row)?;
    }
    put(&mut text, b"all ")?;
    put_count(&mut text, total(rows))?;
    put(&mut text, b" states ")?;
    put_number(&mut text, u128::from(states))?;
    put(&mut text, b"\n")?;
    Ok(text)
}
