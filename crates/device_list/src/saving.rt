//! What calls save: copies of the variables that are asked for.
ghost use Rattle.std.specs.Prelude.{◌≡◌, ◌++◌, map, IfOk, OnOk};
ghost use Rattle.text.specs.TextsShown.{option_bytes};
ghost use Rattle.device_list.specs.CallLines.{is_saving};
ghost use Rattle.device_list.specs.Saving.{saved_name, saved_of, copying, saved_effect, saved_line, saved_calls, lines_save};
ghost use Rattle.device_list.specs.Saving as says;
ghost use Rattle.std.specs.List.{list_any};
ghost use Rattle.device_list.specs.DevicesShown.{setting_shown, settings_shown};
ghost use Rattle.device_list.specs.CommandsShown.{call_lines_shown, calls_shown, listed_shown};

use crate::call_line::CallLine;
use crate::device_tables::{ByName, value_at};
use crate::listed::Listed;
use crate::setting::{LeftSide, RightSide, Setting};
use std::alloc::{AllocError, Global};

/// The name of the copy of a variable: a byte 0 and the name. Errors: memory ran out.
pub fn saved_name(alloc: Global, name: &[u8]) -> Result<Vec<u8>, AllocError>
    ensures { IfOk result (λ copy. copy.items ≡ saved_name name.now) }
{
    let mut copy = Vec::new(alloc);
    copy.push(0)?;
    copy.extend_from_slice(name)?;
    Ok(copy)
}

/// The variable of which this is the name of the copy. Takes no memory.
pub fn saved_of(name: &[u8]) -> Option<&[u8]>
    ensures { option_bytes result ≡ saved_of name.now }
{
    match name {
        [first, variable @ ..] if *first == 0 => Some(variable),
        _ => None,
    }
}

/// Whether a setting is the mark that all is saved.
fn is_saving(set: &Setting) -> bool
    ensures { result ≡ is_saving (setting_shown set.now) }
{
    match set.left {
        LeftSide::Saving => true,
        _ => false,
    }
}

/// Whether a call with these settings saves.
pub(crate) fn are_saving(sets: &[Setting]) -> bool
    ensures { result ≡ says.are_saving (map setting_shown sets.now) }
{
    for set in sets {
        if is_saving(set) {
            return true;
        }
    }
    false
}

/// A setting of the copy of a variable. Errors: memory ran out.
fn copying(alloc: Global, name: &[u8]) -> Result<Setting, AllocError>
    ensures { IfOk result (λ set. setting_shown set ≡ copying name.now) }
{
    let left = LeftSide::Variable(saved_name(alloc, name)?);
    let value = RightSide::CopyOf(Vec::from_slice(alloc, name)?);
    Ok(Setting { left, value })
}

/// Adds a setting of the copy of each of these variables. Errors: memory ran out.
fn add_copies(alloc: Global, sets: &mut Vec<Setting>, names: &[&[u8]]) -> Result<(), AllocError>
    ensures { OnOk result (settings_shown sets.new
        ≡ settings_shown sets.old ++ map copying (map (λ n. n.now) names.now)) }
{
    for name in names {
        let set = copying(alloc, name)?;
        sets.push(set)?;
    }
    Ok(())
}

/// The same, if these settings are of a call that saves. Errors: memory ran out.
fn save(alloc: Global, listed: &mut Listed, names: &[&[u8]]) -> Result<(), AllocError>
    ensures { OnOk result (listed_shown listed.new
        ≡ saved_effect (map (λ n. n.now) names.now) (listed_shown listed.old)) }
{
    if are_saving(&listed.sets) {
        add_copies(alloc, &mut listed.sets, names)?;
    }
    Ok(())
}

/// The same at each of these lines of calls. Errors: memory ran out.
fn save_lines(alloc: Global, lines: &mut [CallLine], names: &[&[u8]]) -> Result<(), AllocError>
    ensures { OnOk result (call_lines_shown lines.new
        ≡ map (saved_line (map (λ n. n.now) names.now)) (call_lines_shown lines.old)) }
{
    for line in lines.iter_mut() {
        save(alloc, &mut line.listed, names)?;
    }
    Ok(())
}

/// The same at each line of calls of a list. Errors: memory ran out.
pub(crate) fn save_calls(
    alloc: Global,
    calls: &mut ByName<Vec<CallLine>>,
    names: &[&[u8]],
) -> Result<(), AllocError>
    ensures { OnOk result (calls_shown calls.new.entries
        ≡ saved_calls (map (λ n. n.now) names.now) (calls_shown calls.old.entries)) }
{
    for at in 0..calls.len() {
        if let Some(lines) = calls.get_index_mut(at) {
            save_lines(alloc, lines, names)?;
        }
    }
    Ok(())
}

/// Whether the calls of one of these lines save.
fn lines_save(lines: &[CallLine]) -> bool
    ensures { result ≡ lines_save (call_lines_shown lines.now) }
{
    for line in lines {
        if are_saving(&line.listed.sets) {
            return true;
        }
    }
    false
}

/// Whether a call of a list saves.
pub(crate) fn calls_save(calls: &ByName<Vec<CallLine>>) -> bool
    ensures { result ≡ list_any (λ c. lines_save c.1) (calls_shown calls.now.entries) }
{
    for at in 0..calls.len() {
        if let Some(lines) = value_at(calls, Some(at)) {
            if lines_save(lines) {
                return true;
            }
        }
    }
    false
}
