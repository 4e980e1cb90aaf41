//! The lines of boots.
ghost use Rattle.std.specs.Prelude.{◌≡◌, ◌++◌, codes, decimal, map, OnOk};
ghost use Rattle.rehearse_boots.specs.BootLines as spec;
ghost use Rattle.std.specs.List.{flat_map};
ghost use Rattle.rehearse_boots.specs.Ways.{way_shown};
ghost use Rattle.rehearse_rules.specs.Listing.{line};
ghost use Rattle.rehearse_states.specs.Drawing.{failing_on, nodes_shown};
ghost use Rattle.rehearse_states.specs.EndingLines.{lines_below};
ghost use Rattle.rehearse_states.specs.RowsShown.{row_shown};
ghost use Rattle.text.specs.TextsShown.{bytes_of_words, option_bytes};

use crate::boot::Numbers;
use crate::way::Way;
use bootstore_state::StoreError;
use device_list::Devices;
use rehearse_states::{Node, Row, put_below, put_number, put_row, put_variable};
use std::alloc::Global;

/// Adds bytes at the end of a text.
fn put(text: &mut Vec<u8>, bytes: &[u8]) -> Result<(), StoreError>
    ensures { OnOk result (text.new.items ≡ text.old.items ++ bytes.now) }
{
    text.extend_from_slice(bytes)?;
    Ok(())
}

/// Adds the line of a boot.
fn put_boot(text: &mut Vec<u8>, number: usize) -> Result<(), StoreError>
    ensures { OnOk result (text.new.items ≡ text.old.items ++ line (codes "boot " ++ decimal number)) }
{
    put(text, b"boot ")?;
    put_number(text, number as u128)?;
    put(text, b"\n")
}

/// Adds the line that says how many boots there are.
pub(crate) fn put_all(text: &mut Vec<u8>, count: usize) -> Result<(), StoreError>
    ensures { OnOk result (text.new.items ≡ text.old.items ++ line (codes "all " ++ decimal count)) }
{
    put(text, b"all ")?;
    put_number(text, count as u128)?;
    put(text, b"\n")
}

/// The value of a variable, if it is set: an empty one is not.
fn value_if_set(value: &[u8]) -> Option<&[u8]>
    ensures { option_bytes result ≡ spec.value_if_set value.now }
{
    match value {
        [] => None,
        value => Some(value),
    }
}

/// Adds the line of a variable, if it is not as in the first boot.
fn put_changed(text: &mut Vec<u8>, name: &[u8], first: &[u8], kept: &[u8]) -> Result<(), StoreError>
    ensures { OnOk result (text.new.items ≡ text.old.items ++ spec.changed_line name.now first.now kept.now) }
{
    if first == kept {
        return Ok(());
    }
    put_variable(text, name, value_if_set(kept))
}

/// Adds a line for each variable that is not as in the first boot.
fn put_all_changed(
    text: &mut Vec<u8>,
    names: &[&[u8]],
    first: &[Vec<u8>],
    kept: &[Vec<u8>],
) -> Result<(), StoreError>
    ensures { OnOk result (text.new.items ≡ text.old.items
        ++ spec.changed_lines (map (λ n. n.now) names.now) (bytes_of_words first.now) (bytes_of_words kept.now)) }
{
    let mut left = kept;
    for (name, value) in names.iter().zip(first) {
        let Some((other, more)) = left.split_first() else {
            return Ok(());
        };
        put_changed(text, name, value, other)?;
        left = more;
    }
    Ok(())
}

/// Adds the number of the boot that follows after changes, if there is one.
fn put_then(text: &mut Vec<u8>, changed: Option<usize>) -> Result<(), StoreError>
    ensures { OnOk result (text.new.items ≡ text.old.items ++ spec.then_text changed) }
{
    match changed {
        None => Ok(()),
        Some(number) => {
            put(text, b" then ")?;
            put_number(text, number as u128)
        }
    }
}

/// Adds the line of an ending with the numbers of the boots that follow, and the lines below it.
pub(crate) fn put_way(
    alloc: Global,
    text: &mut Vec<u8>,
    names: &[&[u8]],
    devices: &Devices,
    nodes: &Vec<Node>,
    row: &Row,
    numbers: Numbers,
) -> Result<(), StoreError>
    ensures { OnOk result (text.new.items ≡ text.old.items
        ++ (line (spec.way_text (row_shown row.now) numbers.next numbers.changed)
        ++ lines_below (map (λ n. n.now) names.now) (failing_on devices.now (nodes_shown nodes.now)) (row_shown row.now))) }
{
    put_row(alloc, text, row)?;
    put(text, b" next ")?;
    put_number(text, numbers.next as u128)?;
    put_then(text, numbers.changed)?;
    put(text, b"\n")?;
    put_below(alloc, text, names, devices, nodes, row)
}

/// Adds the line of a boot, and what it finds saved otherwise than the first one.
pub(crate) fn put_head(
    text: &mut Vec<u8>,
    names: &[&[u8]],
    first: &[Vec<u8>],
    number: usize,
    kept: &[Vec<u8>],
) -> Result<(), StoreError>
    ensures { OnOk result (text.new.items ≡ text.old.items ++ (line (codes "boot " ++ decimal number)
        ++ spec.changed_lines (map (λ n. n.now) names.now) (bytes_of_words first.now) (bytes_of_words kept.now))) }
{
    put_boot(text, number)?;
    put_all_changed(text, names, first, kept)
}

/// Adds the line of the boot that does not lead on.
pub(crate) fn put_lost(text: &mut Vec<u8>, number: usize) -> Result<(), StoreError>
    ensures { OnOk result (text.new.items ≡ text.old.items ++ line (codes "lost " ++ decimal number)) }
{
    put(text, b"lost ")?;
    put_number(text, number as u128)?;
    put(text, b"\n")
}

/// Adds lines.
pub(crate) fn put_lines(text: &mut Vec<u8>, lines: &[u8]) -> Result<(), StoreError>
    ensures { OnOk result (text.new.items ≡ text.old.items ++ lines.now) }
{
    put(text, lines)
}

/// Adds the lines of ways.
pub(crate) fn put_ways(text: &mut Vec<u8>, ways: &[Way]) -> Result<(), StoreError>
    ensures { OnOk result (text.new.items ≡ text.old.items ++ flat_map (λ w. w.lines) (map way_shown ways.now)) }
{
    for way in ways {
        put(text, &way.lines)?;
    }
    Ok(())
}
